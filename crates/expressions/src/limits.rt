/// The most bytes that a line may have, with its comment and without its end.
pub const MAX_LINE: usize = 1024;

/// The most brackets that may stand inside each other, those of calls and of what features are
/// asked about among them.
pub const MAX_BRACKETS: usize = 32;

/// The largest constant.
pub const MAX_CONSTANT: u64 = 1_000_000_000_000;

/// The largest divisor.
pub const MAX_DIVISOR: u64 = 1_000_000_000;

/// The most digits of a number that a feature is asked about.
pub const MAX_ARGUMENT_DIGITS: usize = 18;
