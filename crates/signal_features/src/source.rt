ghost use Rattle.std.specs.Prelude.{◌≡◌};
ghost use Rattle.lanelet_network.specs.Lanes.{lane_ids};
ghost use Rattle.violation_measures.specs.SceneSources.{scene_of};
ghost use Rattle.signal_features.specs.Sound.{AreSignals};

use crate::signals::Signals;
use lanelet_network::Network;
use violation_measures::SceneSource;

mod asked;

/// The features of a scene, and those of its signals.
#[derive(Clone, Copy)]
pub struct SignalSource<'a> {
    scene: SceneSource<'a>,
    network: &'a Network,
    signals: &'a Signals,
    pub ghost same: { (scene_of scene).lanes ≡ network.now },
    pub ghost signalled: { AreSignals (lane_ids network.now) signals.now },
}

impl<'a> SignalSource<'a> {
    ghost use Rattle.signal_features.specs.Features.{features_of, HasRows};
    ghost use Rattle.signal_features.specs.Sources.{signalled_of};

    /// The source of the features of the scene and of these, whose numbers are from `FIRST_NUMBER`
    /// to below `PAST_NUMBERS`. The first two are without argument.
    ///
    /// `speed_limit`: the least limit of the signs of the lanelets that hold the ego's center, in
    /// mm/s; `MAX_SPEED` where there is none.
    /// `red`: how many lanelets hold the center and have a light that is red at the step's tick.
    /// `light(ID)`, for a light: 1 where it is red at the tick, else 0.
    /// `green_in(ID)`, for a light: how many ticks it takes until it is not red, 0 where it isn't
    /// now, and `MAX_WAIT` where it is red at all ticks.
    ///
    /// The network is that of the scene, and the signals are those of its lanelets.
    pub fn new(
        scene: &SceneSource<'a>,
        network: &'a Network,
        signals: &'a Signals,
    ) -> SignalSource<'a>
        requires same { (scene_of scene.now).lanes ≡ network.now }
        requires signalled { AreSignals (lane_ids network.now) signals.now }
        ensures scene { signalled_of result
            ≡ record { scene = scene_of scene.now; signals = signals.now } }
        ensures table { HasRows (signalled_of result) (features_of (signalled_of result)) }
    {
        SignalSource {
            scene: *scene,
            network,
            signals,
        }
    }
}
