//! How large a lattice may be, and its numbers. Each limit stands here once; definitions cite it.

/// The last tick of a lattice, counted from the start.
pub const MAX_HORIZON: u32 = 1_000;
/// Classes of a lattice.
pub const MAX_CLASSES: usize = 64;
/// Maneuvers from one class.
pub const MAX_CHOICES: usize = 32;
/// Steps of a maneuver.
pub const MAX_STEPS: usize = 50;
/// An offset of a step in its size, and the vehicle's length and width, in 0.1 mm.
pub const MAX_LENGTH: u32 = 10_000_000;
/// A heading in its size in microradians, and a turn in microradians each second.
pub const MAX_ANGLE: u32 = 10_000_000;
/// A speed in its size and the tolerance in mm/s, and an acceleration in mm/s each second.
pub const MAX_SPEED: u32 = 1_000_000;
/// How far from its start a vehicle may come along either axis, in 0.1 mm: `MAX_HORIZON` times
/// `MAX_LENGTH`.
pub const MAX_OFFSET: u64 = 10_000_000_000;
/// How far it may be within a maneuver: `MAX_LENGTH` more.
pub const MAX_STEP_OFFSET: u64 = 10_010_000_000;
