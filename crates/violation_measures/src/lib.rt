//! What rules measure: features of a scene, books that are bound to a source of features, and the
//! violation vector of a trajectory.
//!
//! The layer above uses that `Bound::add_step`, `add_end` and `trajectory_vector` add what
//! `specs/Vectors.antt` says, where the source is the one bound (`IsBoundTo`), and the laws on
//! these vectors.
//! The table of a scene's features stands in `specs/Scenes.antt`, binding and its faults in
//! `specs/Binding.antt`, values and intervals in `specs/Values.antt` and `specs/Intervals.antt`,
//! and what binding makes of a book, to be worked out at each step, in `specs/Formulas.antt`,
//! `specs/Measured.antt` and `specs/Resolved.antt`.
#![tactic(auto)]

mod amount;
mod bind_fault;
mod bound;
mod feature;
mod formula;
mod interval;
mod laws;
mod measure;
mod range;
mod resolve;
mod scene_source;
mod source;
mod step;
mod used;
mod value;

pub use amount::{MAX_AMOUNT, MAX_PART_AMOUNT, MAX_PART_VALUE};
pub use bind_fault::BindFault;
pub use bound::{Bound, MAX_STEPS, bind};
pub use feature::{FIRST_LANELET, FIRST_MANEUVER, Feature, PAST_FEATURES};
pub use interval::value_lies_in_interval;
pub use laws::{bound_to_all_alike, features_are_measured_once, runs_add_up, vectors_are_small};
pub use scene_source::{MAX_MANEUVERS, SceneSource};
pub use source::{FeatureSource, MAX_BOUND};
pub use step::{MAX_COORDINATE, MAX_HEADING, MAX_SPEED, MAX_TICK, MAX_TURN, Step};
pub use used::MAX_MEASURED;
pub use value::{MAX_VALUE, values_are_exact};
