//! The moving and the standing obstacles of a scenario, per tick: their placed shapes, and how near
//! they are.
//!
//! The layer above uses the clauses `value` of the calls of `Traffic`: each answer is that over all
//! obstacles of the scenario. The definitions stand in `specs/Placing.antt`, `specs/Occupancy.antt`
//! and `specs/Nearness.antt`; what a `Traffic` is seen as, in `specs/Tracks.antt`; and what it lists
//! of each of the first ticks, in `specs/Present.antt`.
#![tactic(auto)]

mod ahead;
mod bounded_placement;
mod indexed_track;
mod limits;
mod moment;
mod nearness;
mod placing;
mod presence;
mod track;
mod traffic;

pub use limits::MAX_DISTANCE;
pub use traffic::Traffic;
