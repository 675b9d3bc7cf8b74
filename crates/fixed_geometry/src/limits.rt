//! How large the plane and what lies in it may be. Each limit stands here once, and definitions
//! cite it.

/// The largest coordinate of a point in range, in its size, in 0.1 mm.
pub const MAX_PLANE_COORDINATE: u64 = 1_000_000_000_000;
/// The fewest corners of a polygon.
pub const MIN_POLYGON_CORNERS: usize = 3;
/// The most corners of a polygon.
pub const MAX_POLYGON_CORNERS: usize = 4_096;
/// The corners that stand for a circle.
pub const CIRCLE_CORNERS: usize = 16;
/// The largest angle, in its size, in microradians.
pub const MAX_ANGLE: u64 = 4_000_000_000;
/// The parts of 1 in which a direction's cosine and sine are counted.
pub const MICROS_PER_UNIT: u64 = 1_000_000;
/// The largest coordinate of an offset that is turned, in its size, in 0.1 mm.
pub const MAX_OFFSET: u64 = 200_000_000_000;
/// The largest coordinate of the center of a placed shape, in its size, in 0.1 mm.
pub const MAX_CENTER: u64 = 500_000_000_000;
/// The largest length, width or radius of a placed shape, in 0.1 mm.
pub const MAX_EXTENT: u64 = 10_000_000;
/// The largest number that is divided and rounded, in its size.
pub const MAX_DIVIDEND: u128 = 1_000_000_000_000_000_000_000_000_000_000_000_000;
/// The largest number that is divided by with rounding.
pub const MAX_DIVISOR: u128 = 1_000_000_000_000_000_000_000_000_000_000;
