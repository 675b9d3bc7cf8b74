use fixed_geometry::Point;
use preorder::List;

/// The lanelet beside another.
#[derive(Clone, Copy, Debug, PartialEq, Eq)]
pub struct Adjacent {
    /// The id of that lanelet.
    pub id: u64,
    /// Whether both are driven the same way.
    pub same_way: bool,
}

/// A piece of a lane between two bounds, which are driven along from their first points to their
/// last.
#[derive(Drop)]
pub struct Lanelet {
    /// Below `PAST_IDS`; no two lanelets of a scenario have the same.
    pub id: u64,
    /// 2 to `MAX_BOUND_POINTS` points, in 0.1 mm.
    pub left: List<Point>,
    /// 2 to `MAX_BOUND_POINTS` points, in 0.1 mm.
    pub right: List<Point>,
    /// The ids of lanelets of the scenario, from which this one is driven into.
    pub predecessors: List<u64>,
    /// The ids of lanelets of the scenario, into which this one leads.
    pub successors: List<u64>,
    /// The lanelet on the left, which is one of the scenario.
    pub adjacent_left: Option<Adjacent>,
    /// The lanelet on the right, which is one of the scenario.
    pub adjacent_right: Option<Adjacent>,
}
