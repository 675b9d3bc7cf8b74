//! The lanelets of a scenario: which hold a point, how they lead there, what follows them.
//!
//! The layer above uses that `Network::new` gives the scenario's lanelets, and the clauses `value`
//! of `count_at`, `against` and `holds`. The definitions stand in `specs/Lanes.antt`, and those of
//! directions along a bound in `specs/Bounds.antt`. Only the lanelets whose boxes touch the point's
//! cell are asked about it: that no other holds it is said in `specs/Cells.antt`.
#![tactic(auto)]

mod axis;
mod bound;
mod fault;
mod grid;
mod lane;
mod network;

pub use fault::NetworkFault;
pub use network::Network;
