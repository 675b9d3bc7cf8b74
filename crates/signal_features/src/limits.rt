//! How many signals there may be. Each limit stands here once; definitions cite it.

/// Speed signs of a document.
pub const MAX_SIGNS: usize = 500;
/// Lights of a document.
pub const MAX_LIGHTS: usize = 500;
/// Phases of a light's cycle.
pub const MAX_PHASES: usize = 64;
/// How long a phase may last, in ticks.
pub const MAX_PHASE_TICKS: u32 = 10_000;
/// How long it may take until a light is no longer red, in ticks, and what counts where it is
/// always red.
pub const MAX_WAIT: u32 = 1_000_000;
