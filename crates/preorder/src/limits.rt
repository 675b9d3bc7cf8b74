//! How many rules a book may have, and how long a name may be.

/// Rules of a book, which are the numbers of a vector of violations.
pub const MAX_RULES: usize = 32;
/// Bytes of a name.
pub const MAX_NAME: usize = 24;
