//! How large a document may be. Each limit stands here once; definitions cite it.

/// Elements of a document.
pub const MAX_ELEMENTS: usize = 2_000_000;
/// How deep an element may lie; the root is 1 deep.
pub const MAX_DEPTH: usize = 32;
