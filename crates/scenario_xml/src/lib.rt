//! The driving scenario of a CommonRoad XML document (versions 2020a and 2018b), as far as it is
//! read here.
//!
//! The layer above uses that `read_scenario` gives the scenario of `specs/Scenarios.antt`, or the
//! first fault in the order that stands there, and that a scenario is well formed. A crate that reads
//! other elements of the same document takes `child`, `id_attribute` and `number`. Each element has
//! a definition of its own in `specs/`, and one function that gives it. What the whole comes to
//! stands in `specs/ScenarioOf.antt` and `ScenarioFaults.antt`.
#![tactic(auto)]

mod children;
mod contents;
mod element;
mod fault;
mod goal;
mod identified;
mod known_ids;
mod lanelet;
mod limits;
mod obstacle;
mod quantity;
mod region;
mod root;
mod scenario;
mod shape;
mod span;
mod state;
mod unknown_id;
mod versions;

pub use element::{child, id_attribute, number};
pub use fault::{Kind, ScenarioFault, Wanted};
pub use limits::MAX_ID_DIGITS;
pub use quantity::Quantity;
pub use scenario::read_scenario;
