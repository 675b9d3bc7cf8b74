//! How large a decimal may be. Each limit stands here once, and definitions cite it.

/// The most bytes of a text.
pub const MAX_BYTES: usize = 64;
/// The largest exponent, in its size, as a power of ten.
pub const MAX_EXPONENT: u64 = 400;
/// The largest value after rounding, in its size, in the unit that is asked for.
pub const MAX_VALUE: u64 = 1_000_000_000_000_000_000;
/// The most places: the unit is at least 10^-9.
pub const MAX_PLACES: u8 = 9;
