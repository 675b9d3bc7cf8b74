//! Tables of graphs: each state that some list of choices reaches once, with what each of its
//! choices leads to and adds, to be searched in the graph's place.
//!
//! The layer above uses that `table_of` gives the table of the graph, or that there are too many
//! states, and the laws: lists of choices, answers and undominated pairs of a table are those of
//! its graph, and each state has an undominated pair.
//! When an entry is that of a graph stands in `specs/Tables.antt`, when two graphs are alike in
//! `specs/Alike.antt`, and the order in which states are visited in `specs/Visits.antt`.
#![tactic(auto)]

mod adding;
mod entries;
mod fault;
mod laws;
mod limits;
mod making;
mod state;
mod table;
mod visit;
mod visiting;
mod waiting;

pub use fault::TableFault;
pub use laws::{answers_are_alike, limit_is_exact, lists_reach_alike, states_have_pairs};
pub use limits::MAX_STATES;
pub use making::table_of;
pub use state::TableState;
pub use table::Table;
