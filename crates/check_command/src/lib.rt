//! The command `check`: whether a certificate shows the answer over a scene, and what it shows.
//!
//! Neither a search nor anything that makes a certificate stands below this crate: who trusts `check`
//! need not trust them. The layer above uses `check`, whose clause is what is due to the command, the
//! calls that print an answer, and `run_check`, which is all that a program does that has no other
//! command. What is due stands in `specs/Check.antt`, and how an answer is printed in
//! `specs/Answers.antt`.
#![tactic(auto)]

mod answers;
mod certificates;
mod checking;
mod top;
mod words;

pub use answers::{ascending, push_cells, push_front, push_rules};
pub use certificates::{load_certificate, order_by, show_answers, shown_text};
pub use checking::check;
pub use top::run_check;
