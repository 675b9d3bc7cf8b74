/// The last tick that a step may have.
pub const MAX_TICK: u32 = 2_000_000;

/// The largest coordinate of a step in size, in 0.1 mm.
pub const MAX_COORDINATE: i64 = 200_000_000_000;

/// The largest heading of a step in size, in microradians.
pub const MAX_HEADING: i64 = 2_000_000_000;

/// The largest speed in size in mm/s, and the largest acceleration in mm/s each second.
pub const MAX_SPEED: i64 = 1_000_000;

/// The fastest turn in size, in microradians each second.
pub const MAX_TURN: i64 = 10_000_000;

/// Where the vehicle is at a tick, and how it drives. Lengths are in 0.1 mm, angles in
/// microradians, speeds in mm/s.
#[derive(Clone, Copy, Debug, PartialEq, Eq)]
pub struct Step {
    /// At most `MAX_TICK`.
    pub tick: u32,
    /// At most `MAX_COORDINATE` in size.
    pub x: i64,
    /// At most `MAX_COORDINATE` in size.
    pub y: i64,
    /// At most `MAX_HEADING` in size.
    pub heading: i64,
    /// At most `MAX_SPEED` in size.
    pub speed: i64,
    /// In mm/s each second, at most `MAX_SPEED` in size.
    pub accel: i64,
    /// In microradians each second, at most `MAX_TURN` in size.
    pub turn: i64,
    /// The place of the maneuver that is driven, if one is.
    pub maneuver: Option<u32>,
}

impl Step {
    ghost use Rattle.std.specs.Prelude.{◌≡◌};
    ghost use Rattle.violation_measures.specs.Steps.{IsStep, finish};

    /// The step as the last of a trajectory: without acceleration, turn and maneuver.
    pub fn finish(&self) -> Step
        ensures value { result ≡ finish self.now }
        ensures ranges { IsStep self.now → IsStep result }
    {
        Step {
            accel: 0,
            turn: 0,
            maneuver: None,
            ..*self
        }
    }
}
