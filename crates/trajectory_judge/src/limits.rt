/// The most recordings of a file.
pub const MAX_RECORDINGS: usize = 200;

/// The most steps of a recording.
pub const MAX_RECORDED_STEPS: usize = 1_001;

/// The last tick that a recording may have.
pub const MAX_RECORDED_TICK: u64 = 1_000_000;

/// The largest coordinate of a recording in size, in 0.1 mm.
pub const MAX_RECORDED_COORDINATE: u64 = 100_000_000_000;

/// The largest heading of a recording in size, in microradians.
pub const MAX_RECORDED_HEADING: u64 = 1_000_000_000;

/// The largest speed of a recording in size in mm/s, and the largest acceleration in mm/s each
/// second.
pub const MAX_RECORDED_SPEED: u64 = 1_000_000;

/// The fastest turn of a recording in size, in microradians each second.
pub const MAX_RECORDED_TURN: u64 = 10_000_000;
