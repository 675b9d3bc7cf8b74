use crate::obstacle::{Pose, Shape};
use preorder::List;

/// The whole numbers from `low` to `high`. None where `low` is above `high`.
#[derive(Clone, Copy, Debug, PartialEq, Eq)]
pub struct Span {
    /// The least of them.
    pub low: i64,
    /// The greatest of them.
    pub high: i64,
}

/// Where a goal may be met.
#[derive(Drop)]
pub enum Region {
    /// In the shape, placed at (0, 0) with heading 0.
    Inside(Shape),
    /// On the lanelet with this id, which is one of the scenario.
    OnLanelet(u64),
}

/// A goal: its ticks, and what must hold of place, heading and speed then.
#[derive(Drop)]
pub struct Goal {
    /// At most `MAX_TICK`.
    pub first_tick: u32,
    /// At most `MAX_TICK`. Where it is below the first, no tick will do.
    pub last_tick: u32,
    /// At most `MAX_REGIONS`. Where there is none, any place will do.
    pub regions: List<Region>,
    /// In microradians, at most `MAX_HEADING` in size. None where any heading will do.
    pub heading: Option<Span>,
    /// In mm/s, at most `MAX_SPEED` in size. None where any speed will do.
    pub speed: Option<Span>,
}

/// A planning problem: where the vehicle starts, and the goals of which it is to meet one.
#[derive(Drop)]
pub struct Problem {
    /// Below `PAST_IDS`; no two problems of a scenario have the same.
    pub id: u64,
    /// Where the vehicle is at its first tick.
    pub start: Pose,
    /// 1 to `MAX_GOALS`.
    pub goals: List<Goal>,
}
