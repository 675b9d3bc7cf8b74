use crate::state::TableState;
use preorder::{List, Violation};

/// What a table has of one state.
#[derive(Drop)]
pub struct StateRow {
    /// The place where its choices begin.
    pub from: usize,
    /// How many choices it has.
    pub choices: usize,
    /// Its tick.
    pub tick: u32,
    /// Whether a list of choices may end there.
    pub goal: bool,
    /// What its end adds.
    pub finish: Violation,
}

/// What a table has of a graph, in flat lists.
#[derive(Drop)]
pub struct Entries {
    /// How many numbers the vectors have.
    pub width: usize,
    /// The last tick that a state may have.
    pub last: u32,
    /// The most that one tick adds to a number of a vector.
    pub step_limit: u64,
    /// The vector of the empty list of choices.
    pub first: Violation,
    /// A row for each state.
    pub rows: List<StateRow>,
    /// The state that each choice leads to.
    pub nexts: List<TableState>,
    /// The vector that each choice adds.
    pub costs: List<Violation>,
}
