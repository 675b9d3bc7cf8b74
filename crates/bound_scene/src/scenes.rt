ghost use Rattle.std.specs.Prelude.{◌≡◌, IfOk, IsSome};
ghost use Rattle.lanelet_network.specs.Lanes.{lanes_of};
ghost use Rattle.moving_obstacles.specs.Tracks.{IsTrafficOf};
ghost use Rattle.scenario_model.specs.Scenario.{IsProblem, IsScenario, lanelet_ids};
ghost use Rattle.violation_measures.specs.Binding.{IsBoundTo};
ghost use Rattle.violation_measures.specs.SceneSources.{scene_of as source_scene};
ghost use Rattle.violation_measures.specs.Scenes.{features_of};
ghost use Rattle.maneuver_lattice.specs.Moves.{scene_of};
ghost use Rattle.maneuver_lattice.specs.Starts.{start_class};
ghost use Rattle.command_outcome.specs.declared.outcome.Role.TheVariants as role;
ghost use Rattle.command_outcome.specs.Ends.{Loads, Shelf, Tests};
ghost use Rattle.command_outcome.specs.Outcome.{Refuses};
ghost use Rattle.bound_scene.specs.BoundScenes.{AreSceneFiles, IsBoundScene, IsGraphOf};
ghost use Rattle.bound_scene.specs.BoundScenes.{NamesARule};
ghost use Rattle.bound_scene.specs.SceneInputs.{bind_fault_text, binding_told, bound, bound_scene};
ghost use Rattle.bound_scene.specs.SceneInputs.{features, first_problem, maneuver_names};
ghost use Rattle.bound_scene.specs.SceneInputs.{start_told};

use crate::scene_files::{SceneFiles, refuse_lattice};
use command_outcome::{Role, Stop, refuse_named};
use lanelet_network::Network;
use maneuver_lattice::{SceneGraph, SceneMoves};
use moving_obstacles::Traffic;
use preorder::{List, Name, NoMemory};
use rule_language::Rule;
use scenario_model::{Problem, Scenario};
use std::alloc::Global;
use violation_measures::{BindFault, Bound, SceneSource, bind};

/// A scenario, a book and a lattice, with the book bound to the scene's features.
#[derive(Drop)]
pub struct BoundScene {
    /// What was read.
    pub files: SceneFiles,
    /// The scenario's lanelets.
    pub network: Network,
    /// The scenario's obstacles.
    pub traffic: Traffic,
    /// The names of the lattice's maneuvers, in their order.
    pub names: List<Name>,
    /// The book, bound to the scene.
    pub bound: Bound,
}

/// The graph of a scene.
pub type Graph<'a> = SceneGraph<'a, SceneSource<'a>>;

/// The first planning problem, which a scenario has.
pub fn first_problem(scenario: &Scenario) -> &Problem
    requires { IsScenario scenario.now }
    ensures value { result.now ≡ first_problem scenario.now }
    ensures sound { IsProblem (lanelet_ids scenario.now) result.now }
{
    &scenario.problems.as_slice()[0]
}

/// What surrounds the vehicle, and the names of its maneuvers.
#[derive(Drop)]
pub struct Surroundings {
    /// The scenario's lanelets.
    pub network: Network,
    /// The scenario's obstacles.
    pub traffic: Traffic,
    /// The names of the lattice's maneuvers, in their order.
    pub names: List<Name>,
}

fn network_of(alloc: Global, scenario: &Scenario) -> Result<Network, NoMemory>
    requires { IsScenario scenario.now }
    ensures { IfOk result (λ network. network ≡ lanes_of scenario.now) }
{
    match Network::new(alloc, scenario) {
        Ok(network) => Ok(network),
        Err(_) => Err(NoMemory),
    }
}

/// What surrounds the vehicle in these files.
pub fn surroundings_of(alloc: Global, files: &SceneFiles) -> Result<Surroundings, NoMemory>
    requires { AreSceneFiles files.now }
    ensures network { IfOk result (λ around. around.network ≡ lanes_of files.now.scenario) }
    ensures traffic { IfOk result
        (λ around. IsTrafficOf files.now.scenario.obstacles around.traffic) }
    ensures names { IfOk result (λ around. around.names ≡ maneuver_names files.now.lattice) }
{
    Ok(Surroundings {
        network: network_of(alloc, &files.scenario)?,
        traffic: Traffic::new(alloc, &files.scenario)?,
        names: files.lattice.names(alloc)?,
    })
}

// The refusal of a book that can't be bound, or want of memory.
fn refuse_binding(alloc: Global, rules: &[Rule], fault: BindFault) -> Stop
    requires { NamesARule rules.now fault }
    ensures { Refuses role.Book (bind_fault_text rules.now fault) result }
{
    let role = Role::Book;
    match fault {
        BindFault::BareRule(i) => refuse_named(alloc, role, "bare-rule", rules[i].name.as_slice()),
        BindFault::UnknownFeature(i) => {
            refuse_named(alloc, role, "unknown-feature", rules[i].name.as_slice())
        }
        BindFault::RangeTooLarge(i) => {
            refuse_named(alloc, role, "range-too-large", rules[i].name.as_slice())
        }
        BindFault::NoMemory => Stop::NoMemory,
    }
}

/// The book, bound to the features of the scene.
pub fn test_binding(
    alloc: Global,
    files: &SceneFiles,
    source: &SceneSource<'_>,
) -> Result<Bound, Stop>
    requires files { AreSceneFiles files.now }
    requires source { features_of (source_scene source.now) ≡ features files.now }
    ensures tests { Tests (λ _. tt) role.Book (binding_told files.now) result }
    ensures book { IfOk result (λ it. it ≡ bound files.now) }
    ensures bound_to { IfOk result (IsBoundTo (features files.now)) }
{
    match bind(alloc, &files.book, source) {
        Ok(bound) => Ok(bound),
        Err(fault) => Err(refuse_binding(alloc, files.book.rules.as_slice(), fault)),
    }
}

// Whether there is a class in which the vehicle starts.
fn test_start(alloc: Global, files: &SceneFiles, network: &Network) -> Result<(), Stop>
    requires files { AreSceneFiles files.now }
    requires network { network.now ≡ lanes_of files.now.scenario }
    ensures tests { Tests (λ _. tt) role.Lattice (start_told files.now) result }
    ensures starts { IfOk result (λ _. IsSome (start_class files.now.lattice
        (first_problem files.now.scenario).start.speed)) }
{
    match SceneMoves::new(&files.lattice, network, first_problem(&files.scenario)) {
        Ok(_) => Ok(()),
        Err(fault) => Err(refuse_lattice(alloc, &fault)),
    }
}

// The features of what surrounds the vehicle in these files.
fn source_among<'a>(files: &SceneFiles, around: &'a Surroundings) -> SceneSource<'a>
    requires files { AreSceneFiles files.now }
    requires network { around.now.network ≡ lanes_of files.now.scenario }
    requires traffic { IsTrafficOf files.now.scenario.obstacles around.now.traffic }
    requires names { around.now.names ≡ maneuver_names files.now.lattice }
    ensures { features_of (source_scene result) ≡ features files.now }
{
    SceneSource::new(
        &around.network,
        &around.traffic,
        files.lattice.length,
        files.lattice.width,
        around.names.as_slice(),
    )
}

// The book bound to the features of the scene, where it can be, and there is a start.
fn bind_files(alloc: Global, files: &SceneFiles, around: &Surroundings) -> Result<Bound, Stop>
    requires files { AreSceneFiles files.now }
    requires network { around.now.network ≡ lanes_of files.now.scenario }
    requires traffic { IsTrafficOf files.now.scenario.obstacles around.now.traffic }
    requires names { around.now.names ≡ maneuver_names files.now.lattice }
    ensures loads { (at : Shelf) → Loads (λ _. files.now) (bound_scene files.now) at at result }
    ensures book { IfOk result (λ it. it ≡ bound files.now) }
    ensures bound_to { IfOk result (IsBoundTo (features files.now)) }
    ensures starts { IfOk result (λ _. IsSome (start_class files.now.lattice
        (first_problem files.now.scenario).start.speed)) }
{
    let source = source_among(files, around);
    let bound = test_binding(alloc, files, &source)?;
    test_start(alloc, files, &around.network)?;
    Ok(bound)
}

/// The book bound to the features of the scene, where it can be, and there is a start.
pub fn bind_scene(alloc: Global, files: SceneFiles) -> Result<BoundScene, Stop>
    requires { AreSceneFiles files }
    ensures loads { (at : Shelf) → Loads (λ scene. scene.files) (bound_scene files) at at result }
    ensures scene { IfOk result IsBoundScene }
{
    let around = surroundings_of(alloc, &files)?;
    let bound = bind_files(alloc, &files, &around)?;
    let Surroundings {
        network,
        traffic,
        names,
    } = around;
    Ok(BoundScene {
        files,
        network,
        traffic,
        names,
        bound,
    })
}

/// The features of the scene.
pub fn source_of(scene: &BoundScene) -> SceneSource<'_>
    requires { IsBoundScene scene.now }
    ensures { features_of (source_scene result) ≡ features scene.now.files }
{
    SceneSource::new(
        &scene.network,
        &scene.traffic,
        scene.files.lattice.length,
        scene.files.lattice.width,
        scene.names.as_slice(),
    )
}

/// The graph of the scene.
pub fn graph_of<'a>(scene: &'a BoundScene, source: &'a SceneSource<'a>) -> Graph<'a>
    requires bound { IsBoundScene scene.now }
    requires source { features_of (source_scene source.now) ≡ features scene.now.files }
    ensures { IsGraphOf scene.now.files (scene_of result.moves) result.source.now result.bound.now }
{
    match SceneGraph::new(
        &scene.files.lattice,
        &scene.bound,
        source,
        &scene.network,
        first_problem(&scene.files.scenario),
    ) {
        Ok(graph) => graph,
        Err(_) => unreachable!(),
    }
}
