use crate::formula::Formula;
use preorder::List;
use rule_language::Book;

mod adding;
mod binding;

pub use adding::MAX_STEPS;
pub use binding::bind;

/// A part as it is worked out at each step.
#[derive(Drop)]
pub struct BoundPart {
    /// At most `MAX_WEIGHT`.
    pub weight: u64,
    /// Whether it counts once at the end, and at no step.
    pub at_end: bool,
    /// What it counts, cut to 0 below and to `MAX_PART_VALUE` above.
    pub formula: Formula,
}

/// A rule as it is worked out at each step.
#[derive(Drop)]
pub struct BoundRule {
    /// 1 to `MAX_PARTS`, whose amounts are added up.
    pub parts: List<BoundPart>,
}

/// A book that is bound to a source of features.
///
/// The features that its parts name are found once, when it is bound, and constant subexpressions
/// are worked out then.
#[derive(Drop)]
pub struct Bound {
    book: Book,
    // The numbers of the features that are measured once a step.
    at_steps: List<u32>,
    // The numbers of those that are measured once at the end.
    at_end: List<u32>,
    rules: List<BoundRule>,
}
