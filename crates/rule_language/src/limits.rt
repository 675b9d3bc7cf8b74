/// The most parts that a rule may have, those that count once at the end among them.
pub const MAX_PARTS: usize = 8;

/// The largest weight of a part. The smallest is 1.
pub const MAX_WEIGHT: u64 = 1_000_000;

/// The most rows that a table may have.
pub const MAX_ROWS: usize = 2_000;

/// The largest violation in a table.
pub const MAX_TABLE_VALUE: u64 = 1_000_000_000_000_000_000;
