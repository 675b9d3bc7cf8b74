//! Books derived from books: when a child keeps the preferences of its parent.
//!
//! The layer above uses that a child that a test accepts keeps the preferences of its parent, and
//! that the two vectors of a refusal show that it does not.
//! The definitions stand in `specs/Derivation.antt` and `specs/Tests.antt`; the theorem on
//! preferences in `proofs/Preferences.antt`, the two vectors of a refusal in
//! `proofs/Witnesses.antt`.
#![tactic(auto)]

mod aggregation;
mod augmentation;
mod factors;
mod fault;
mod images;
mod kind;
mod laws;
mod merging;
mod pairs;
mod refinement;
mod same;
mod script;
mod steps;
mod sum;

pub use aggregation::test_aggregation;
pub use augmentation::test_augmentation;
pub use fault::DeriveFault;
pub use kind::{Accepted, accept};
pub use laws::{one_outcome, one_verdict};
pub use refinement::test_refinement;
pub use script::apply_script;
