ghost use Rattle.std.specs.Prelude.{◌≡◌, ◌<◌, ◌≤◌, ◌^◌, unsigned_abs};
ghost use Rattle.violation_measures.specs.Scenes.{plain, number, numbered, bounds_in, up_to};
ghost use Rattle.violation_measures.specs.Scenes.{either_way};

use crate::step::{MAX_SPEED, MAX_TICK, MAX_TURN};
use moving_obstacles::MAX_DISTANCE;
use scenario_model::{MAX_LANELETS, MAX_OBSTACLES, Span};

/// The number of the feature of the first lanelet.
pub const FIRST_LANELET: u32 = 10;

/// The number of the feature of the first maneuver.
pub const FIRST_MANEUVER: u32 = 5_000;

/// The numbers of features are below this one.
pub const PAST_FEATURES: u32 = 10_000;

/// A feature of a scene. Lanelets and maneuvers are given by their places.
#[derive(Clone, Copy, Debug, PartialEq, Eq)]
pub enum Feature {
    /// How many obstacles have a shape that meets the ego polygon.
    Overlaps,
    /// How many corners of the ego polygon no lanelet holds.
    OffRoad,
    /// How many lanelets hold the ego's center.
    Lanes,
    /// 1 where some lanelet holds the center, and each that does leads more back than ahead there,
    /// else 0.
    WrongWay,
    /// In mm/s.
    Speed,
    /// In mm/s each second.
    Accel,
    /// In microradians each second.
    Turn,
    /// In ticks.
    Tick,
    /// The least box gap to an obstacle, in 0.1 mm, `MAX_DISTANCE` at most.
    Gap,
    /// How far ahead the next obstacle is, in 0.1 mm, `MAX_DISTANCE` at most.
    Headway,
    /// 1 where the lanelet at this place holds the center, else 0.
    InLanelet(u32),
    /// 1 where the step belongs to the maneuver at this place, else 0.
    Maneuver(u32),
}

fn up_to(high: i64) -> Span
    ensures { result ≡ up_to high }
{
    Span { low: 0, high }
}

fn either_way(size: i64) -> Span
    requires { unsigned_abs size ≤ 10 ^ 12 }
    ensures { result ≡ either_way size }
{
    Span {
        low: -size,
        high: size,
    }
}

impl Feature {
    /// The feature of a name without argument.
    #[tactic(auto, unfolding(crate::specs::Scenes::plain))]
    pub fn plain(name: &[u8]) -> Option<Feature>
        ensures { result ≡ plain name.now }
    {
        if name == b"overlaps".as_slice() {
            Some(Feature::Overlaps)
        } else if name == b"off_road".as_slice() {
            Some(Feature::OffRoad)
        } else if name == b"lanes".as_slice() {
            Some(Feature::Lanes)
        } else if name == b"wrong_way".as_slice() {
            Some(Feature::WrongWay)
        } else if name == b"speed".as_slice() {
            Some(Feature::Speed)
        } else if name == b"accel".as_slice() {
            Some(Feature::Accel)
        } else if name == b"turn".as_slice() {
            Some(Feature::Turn)
        } else if name == b"tick".as_slice() {
            Some(Feature::Tick)
        } else if name == b"gap".as_slice() {
            Some(Feature::Gap)
        } else if name == b"headway".as_slice() {
            Some(Feature::Headway)
        } else {
            None
        }
    }

    /// The feature's number. Places are below 2^31.
    pub fn number(self) -> u32
        requires { number self < 2 ^ 32 }
        ensures { result ≡ number self }
    {
        match self {
            Feature::Overlaps => 0,
            Feature::OffRoad => 1,
            Feature::Lanes => 2,
            Feature::WrongWay => 3,
            Feature::Speed => 4,
            Feature::Accel => 5,
            Feature::Turn => 6,
            Feature::Tick => 7,
            Feature::Gap => 8,
            Feature::Headway => 9,
            Feature::InLanelet(place) => FIRST_LANELET + place,
            Feature::Maneuver(place) => FIRST_MANEUVER + place,
        }
    }

    /// The feature of a number.
    #[tactic(auto, unfolding(crate::specs::Scenes::numbered))]
    pub fn numbered(number: u32) -> Feature
        ensures { result ≡ numbered number }
    {
        match number {
            0 => Feature::Overlaps,
            1 => Feature::OffRoad,
            2 => Feature::Lanes,
            3 => Feature::WrongWay,
            4 => Feature::Speed,
            5 => Feature::Accel,
            6 => Feature::Turn,
            7 => Feature::Tick,
            8 => Feature::Gap,
            9 => Feature::Headway,
            FIRST_LANELET..FIRST_MANEUVER => Feature::InLanelet(number - FIRST_LANELET),
            _ => Feature::Maneuver(number - FIRST_MANEUVER),
        }
    }

    /// The bounds of the feature's values.
    pub fn bounds(self) -> Span
        ensures { result ≡ bounds_in self }
    {
        match self {
            Feature::Overlaps => up_to(MAX_OBSTACLES as i64),
            Feature::OffRoad => up_to(4),
            Feature::Lanes => up_to(MAX_LANELETS as i64),
            Feature::WrongWay | Feature::InLanelet(_) | Feature::Maneuver(_) => up_to(1),
            Feature::Speed | Feature::Accel => either_way(MAX_SPEED),
            Feature::Turn => either_way(MAX_TURN),
            Feature::Tick => up_to(i64::from(MAX_TICK)),
            Feature::Gap | Feature::Headway => up_to(MAX_DISTANCE),
        }
    }
}
