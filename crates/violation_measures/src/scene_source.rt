ghost use Rattle.std.specs.Prelude.{◌≡◌, ◌≤◌, length};
ghost use Rattle.fixed_geometry.specs.Shapes.{IsExtent};
ghost use Rattle.scenario_model.specs.declared.limits.TheConstants.{MAX_LANELETS, MAX_OBSTACLES};
ghost use Rattle.violation_measures.specs.declared.scene_source.TheConstants.{MAX_MANEUVERS};

use lanelet_network::Network;
use moving_obstacles::Traffic;
use preorder::Name;

mod asked;

/// The most maneuvers that a lattice has.
pub const MAX_MANEUVERS: usize = 2_048;

/// The features of a scene: of the ego vehicle among lanelets and obstacles, driving by maneuvers.
#[derive(Clone, Copy)]
pub struct SceneSource<'a> {
    network: &'a Network,
    traffic: &'a Traffic,
    ego_length: i64,
    ego_width: i64,
    maneuvers: &'a [Name],
    pub ghost few_lanelets: { length network.now ≤ MAX_LANELETS },
    pub ghost few_obstacles: { length traffic.now ≤ MAX_OBSTACLES },
    pub ghost long: { IsExtent ego_length },
    pub ghost wide: { IsExtent ego_width },
    pub ghost few_maneuvers: { length maneuvers.now ≤ MAX_MANEUVERS },
}

impl<'a> SceneSource<'a> {
    ghost use Rattle.moving_obstacles.specs.Tracks.{ForObstacles};
    ghost use Rattle.violation_measures.specs.Scenes.{scene_among, features_of, HasTable};
    ghost use Rattle.violation_measures.specs.SceneSources.{scene_of};

    /// The source of exactly these features. All but the last two are without argument.
    ///
    /// `overlaps`: how many obstacles have a shape that meets the ego polygon, which is the
    /// rectangle of the ego's size at the step's position and heading.
    /// `off_road`: how many of its corners no lanelet holds. `lanes`: how many lanelets hold its
    /// center.
    /// `wrong_way`: 1 where some lanelet holds the center, and each that does leads more back than
    /// ahead there, else 0.
    /// `speed`, `accel`, `turn`, `tick`: the step's.
    /// `gap`: the least box gap to an obstacle, `MAX_DISTANCE` at most and where there is none.
    /// `headway`: how far ahead the next obstacle is, in the same way.
    /// `in_lanelet(ID)`, for a known lanelet: 1 where it holds the center, else 0.
    /// `maneuver(NAME)`, for one of the names: 1 where the step belongs to it, else 0.
    ///
    /// The ego's length and width are 1 to `MAX_EXTENT`, and there are at most `MAX_MANEUVERS`
    /// names.
    pub fn new(
        network: &'a Network,
        traffic: &'a Traffic,
        ego_length: i64,
        ego_width: i64,
        maneuvers: &'a [Name],
    ) -> SceneSource<'a>
        requires long { IsExtent ego_length }
        requires wide { IsExtent ego_width }
        requires few { length maneuvers.now ≤ MAX_MANEUVERS }
        ensures scene { ForObstacles traffic.now (λ obstacles. scene_of result
            ≡ scene_among network.now obstacles ego_length ego_width maneuvers.now) }
        ensures table { HasTable (scene_of result) (features_of (scene_of result)) }
    {
        prove_few(network, traffic);
        SceneSource {
            network,
            traffic,
            ego_length,
            ego_width,
            maneuvers,
        }
    }
}

// A network has few lanelets, and a traffic few obstacles.
fn prove_few(network: &Network, traffic: &Traffic)
    ensures lanelets { length network.now ≤ MAX_LANELETS }
    ensures obstacles { length traffic.now ≤ MAX_OBSTACLES }
{
    let _ = network.count();
    let _ = traffic.count();
}
