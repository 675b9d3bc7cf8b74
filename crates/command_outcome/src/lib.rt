//! What a command reads, as a chain of files and tests, what is due to it, and what a call leaves
//! in its store and its sink.
//!
//! The layer above uses the calls' contracts, and the lemmas of `proofs/HavingInputs.antt`,
//! `proofs/Serving.antt` and `proofs/CallEnds.antt`, which turn what was read, made and delivered
//! into the clauses of the one call that the program makes.
//! The definitions stand in `specs/Inputs.antt`, `specs/Tasks.antt`, `specs/Outcome.antt` and
//! `specs/Ends.antt`. No command is named here.
#![tactic(auto)]

mod delivery;
mod file_words;
mod loading;
mod outcome;
mod printing;

pub use delivery::{Reply, deliver};
pub use file_words::{are_words, is_another};
pub use loading::{load_bytes, save_bytes};
pub use outcome::{Ending, Role, Status, Stop, end_as, refuse, refuse_at, refuse_named};
pub use printing::print_text;
