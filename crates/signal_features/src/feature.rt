ghost use Rattle.std.specs.Prelude.{◌≡◌, ◌<◌, ◌≤◌, ◌^◌};
ghost use Rattle.violation_measures.specs.Scenes.{up_to};
ghost use Rattle.signal_features.specs.Features.{plain, signal_number, signal_numbered};
ghost use Rattle.signal_features.specs.Features.{signal_bounds};

use crate::limits::MAX_WAIT;
use scenario_model::{MAX_LANELETS, MAX_SPEED, Span};

/// The number of the first feature of signals: those of a scene are below it.
pub const FIRST_NUMBER: u32 = 10_000;

/// The number of the feature `light` of the first light.
pub const FIRST_LIGHT: u32 = 10_010;

/// The number of the feature `green_in` of the first light.
pub const FIRST_GREEN_IN: u32 = 15_000;

/// The numbers of features are below this one.
pub const PAST_NUMBERS: u32 = 20_000;

/// A feature of signals. Lights are given by their places.
#[derive(Clone, Copy, Debug, PartialEq, Eq)]
pub enum SignalFeature {
    /// The least limit of the signs of the lanelets that hold the ego's center, in mm/s; `MAX_SPEED`
    /// where there is none.
    SpeedLimit,
    /// How many lanelets hold the center and have a light that is red at the step's tick.
    Red,
    /// 1 where the light at this place is red at the tick, else 0.
    Light(u32),
    /// How many ticks it takes until the light at this place is not red; `MAX_WAIT` where it is
    /// red at all ticks.
    GreenIn(u32),
}

fn up_to(high: i64) -> Span
    ensures { result ≡ up_to high }
{
    Span { low: 0, high }
}

impl SignalFeature {
    /// The feature of a name without argument.
    #[tactic(auto, unfolding(crate::specs::Features::plain))]
    pub fn plain(name: &[u8]) -> Option<SignalFeature>
        ensures { result ≡ plain name.now }
    {
        if name == b"speed_limit".as_slice() {
            Some(SignalFeature::SpeedLimit)
        } else if name == b"red".as_slice() {
            Some(SignalFeature::Red)
        } else {
            None
        }
    }

    /// The feature's number. Places are below 2^31.
    pub fn number(self) -> u32
        requires { signal_number self < 2 ^ 32 }
        ensures { result ≡ signal_number self }
    {
        match self {
            SignalFeature::SpeedLimit => FIRST_NUMBER,
            SignalFeature::Red => FIRST_NUMBER + 1,
            SignalFeature::Light(place) => FIRST_LIGHT + place,
            SignalFeature::GreenIn(place) => FIRST_GREEN_IN + place,
        }
    }

    /// The feature of a number from `FIRST_NUMBER` on.
    #[tactic(auto, unfolding(crate::specs::Features::signal_numbered))]
    pub fn numbered(number: u32) -> SignalFeature
        ensures { result ≡ signal_numbered number }
    {
        if number == FIRST_NUMBER {
            SignalFeature::SpeedLimit
        } else if number < FIRST_LIGHT {
            SignalFeature::Red
        } else if number < FIRST_GREEN_IN {
            SignalFeature::Light(number - FIRST_LIGHT)
        } else {
            SignalFeature::GreenIn(number - FIRST_GREEN_IN)
        }
    }

    /// The bounds of the feature's values.
    pub fn bounds(self) -> Span
        ensures { result ≡ signal_bounds self }
    {
        match self {
            SignalFeature::SpeedLimit => up_to(MAX_SPEED as i64),
            SignalFeature::Red => up_to(MAX_LANELETS as i64),
            SignalFeature::Light(_) => up_to(1),
            SignalFeature::GreenIn(_) => up_to(i64::from(MAX_WAIT)),
        }
    }
}
