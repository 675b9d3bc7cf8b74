//! How far a traffic tells distances apart. The limit stands here once, and definitions cite it.

/// The largest distance or gap that is told apart, in 0.1 mm.
pub const MAX_DISTANCE: i64 = 10_000_000;

// The fewest and the most ticks, from the first on, of which a traffic lists what is present.
pub(crate) const MIN_MOMENTS: u32 = 256;

pub(crate) const MAX_MOMENTS: u32 = 1_024;
