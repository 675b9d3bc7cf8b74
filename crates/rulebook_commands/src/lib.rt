//! The commands over books, tables, scenes and recordings, but for `check` and `pick`.
//!
//! The layer above uses one call for each command, whose clause is `Serves` of its task: what the
//! command reads, and what is due to it. Each command is a file of code, one of definitions and one of
//! lemmas.
#![tactic(auto)]

mod comparing;
mod derivations;
mod ordering;
mod planning;
mod recordings;
mod sampling;
mod showing;
mod walking;

pub use comparing::compare_rows;
pub use derivations::{accept_child, derive};
pub use ordering::{front_by, rules_by, searched};
pub use planning::plan;
pub use recordings::judge_records;
pub use sampling::sample;
pub use showing::show;
pub use walking::walk;
