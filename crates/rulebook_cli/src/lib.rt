//! The words of a call, and the one call that the program makes.
//!
//! `run_rulebook` of `src/top.rt` is all that the program does, and its clauses say what that is.
//! What is due to the words over the files stands in `specs/Asked.antt`. The commands stand in the
//! crates below, but for `pick` and `--help`.
#![tactic(auto)]

mod laws;
mod picking;
mod top;
mod words;

pub use laws::{
    files_are_kept, nothing_is_due_without_a_file, one_outcome_is_due, one_status_is_due,
    plans_are_accepted,
};
pub use top::run_rulebook;
pub use words::MAX_DIGITS;
