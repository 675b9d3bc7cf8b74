use fixed_geometry::Point;
use preorder::List;

/// A shape about the place of what has it, turned with it. Lengths are in 0.1 mm.
#[derive(Drop)]
pub enum Shape {
    /// A rectangle, as long as its heading points.
    Rectangle {
        /// 1 to `MAX_EXTENT`.
        length: i64,
        /// 1 to `MAX_EXTENT`.
        width: i64,
        /// In microradians, at most `MAX_HEADING` in size.
        heading: i64,
        /// At most `MAX_COORDINATE` in size.
        center: Point,
    },
    /// A circle.
    Circle {
        /// 1 to `MAX_EXTENT`.
        radius: i64,
        /// At most `MAX_COORDINATE` in size.
        center: Point,
    },
    /// A polygon.
    Corners {
        /// `MIN_POLYGON_CORNERS` to `MAX_CORNERS`, each at most `MAX_COORDINATE` in size.
        corners: List<Point>,
    },
}

/// Where something is at a tick, how it stands and how fast it is.
#[derive(Clone, Copy, Debug, PartialEq, Eq)]
pub struct Pose {
    /// At most `MAX_TICK`.
    pub tick: u32,
    /// In 0.1 mm, at most `MAX_COORDINATE` in size.
    pub position: Point,
    /// In microradians, against the clock from the first axis, at most `MAX_HEADING` in size.
    pub heading: i64,
    /// In mm/s along the heading, at most `MAX_SPEED` in size.
    pub speed: i64,
}

/// An obstacle, which moves or stands.
#[derive(Drop)]
pub struct Obstacle {
    /// Below `PAST_IDS`; no two obstacles of a scenario have the same.
    pub id: u64,
    /// Whether its states are of their ticks alone; else its one state is of every tick.
    pub moving: bool,
    /// At least one, with at most `MAX_CORNERS` corners in all, where a rectangle counts as
    /// `RECTANGLE_CORNERS` and a circle as `CIRCLE_CORNERS`.
    pub shapes: List<Shape>,
    /// At least one, and one where it stands. Of states at one tick the first counts.
    pub states: List<Pose>,
}
