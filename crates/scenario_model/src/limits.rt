//! How large a scenario may be. Each limit stands here once; definitions cite it.

/// Lanelets of a scenario.
pub const MAX_LANELETS: usize = 4000;
/// Obstacles of a scenario, of all kinds together.
pub const MAX_OBSTACLES: usize = 500;
/// Planning problems of a scenario.
pub const MAX_PROBLEMS: usize = 64;
/// Goals of a planning problem.
pub const MAX_GOALS: usize = 64;
/// Regions of a goal.
pub const MAX_REGIONS: usize = 64;
/// Points of a lanelet's bound.
pub const MAX_BOUND_POINTS: usize = 2048;
/// Corners of an obstacle's shapes together, and of a polygon.
pub const MAX_CORNERS: usize = 256;
/// The corners that a rectangle counts for.
pub const RECTANGLE_CORNERS: usize = 4;

/// The least number that is too large for an id.
pub const PAST_IDS: u64 = 1_000_000_000_000_000_000;
/// A coordinate that is read, in its size, in 0.1 mm.
pub const MAX_COORDINATE: u64 = 100_000_000_000;
/// A heading, in its size, in microradians.
pub const MAX_HEADING: u64 = 1_000_000_000;
/// A speed, in its size, in mm/s.
pub const MAX_SPEED: u64 = 1_000_000;
/// A tick.
pub const MAX_TICK: u32 = 1_000_000;
/// How long a tick may be, in microseconds.
pub const MAX_STEP_MICROS: i64 = 1_000_000_000;
