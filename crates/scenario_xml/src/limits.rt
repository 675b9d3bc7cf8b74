//! Limits of what is read that the model of a scenario has not. Each stands here once.

/// Digits of an id.
pub const MAX_ID_DIGITS: usize = 18;
