//! Checks certificates: a small judge of what a search, or anyone else, gives.
//!
//! The layer above uses the clauses of `check`: it accepts exactly the good certificates, and the
//! answers of an accepted one are exactly the answer over the graph, each with a list of choices
//! that attains it. Nothing of a search stands below this crate.
//! The conditions of a good certificate stand in `specs/GoodCertificate.antt`, the first that fails
//! in `specs/Failing.antt`, the answers with their lists in `specs/Answers.antt`.
#![tactic(auto)]

mod answers;
mod checked;
mod checking;
mod finals;
mod labels;
mod laws;

pub use answers::final_answers;
pub use checked::{Attained, Checked, Rejection};
pub use checking::check;
pub use laws::{good_shows_the_answer, one_finding};
