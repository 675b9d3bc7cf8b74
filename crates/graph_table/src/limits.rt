/// The greatest limit of states that a table may be given.
pub const MAX_STATES: usize = 1_000_000;
