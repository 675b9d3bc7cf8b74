use crate::lanelet::Lanelet;
use crate::obstacle::Obstacle;
use crate::problem::Problem;
use preorder::List;

/// The version of the document that a scenario was read from.
#[derive(Clone, Copy, Debug, PartialEq, Eq)]
pub enum Version {
    /// `2020a`.
    V2020a,
    /// `2018b`.
    V2018b,
}

/// A driving scenario.
#[derive(Drop)]
pub struct Scenario {
    /// The version of its document.
    pub version: Version,
    /// How long a tick is, 1 to `MAX_STEP_MICROS` microseconds.
    pub step_micros: i64,
    /// At most `MAX_LANELETS`, with different ids.
    pub lanelets: List<Lanelet>,
    /// At most `MAX_OBSTACLES`, with different ids.
    pub obstacles: List<Obstacle>,
    /// 1 to `MAX_PROBLEMS`, with different ids.
    pub problems: List<Problem>,
}
