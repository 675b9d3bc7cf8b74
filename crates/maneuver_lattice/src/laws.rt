//! Laws above the definitions, each the contract of a function that does nothing.

ghost use Rattle.maneuver_lattice.specs.Moves.{scene_of};
ghost use Rattle.maneuver_lattice.specs.SceneGraphs.{ReachesItsSteps, AttainsItsVector};

use crate::scene_graph::SceneGraph;
use violation_measures::FeatureSource;

/// A list of choices reaches in a scene's graph the state to which it leads, with what its steps
/// amount to. It attains a vector exactly where it is a lattice trajectory and the vector is the
/// trajectory's.
pub fn lists_add_up<S: FeatureSource>(graph: &SceneGraph<'_, S>)
    ensures reaches { ReachesItsSteps (scene_of graph.now.moves)
        (S.features graph.now.source.now) graph.now.bound.now }
    ensures attains { AttainsItsVector (scene_of graph.now.moves)
        (S.features graph.now.source.now) graph.now.bound.now }
{
    let _ = graph;
}
