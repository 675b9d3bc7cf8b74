ghost use Rattle.std.specs.Prelude.{◌≡◌, ◌<◌, ◌≤◌, length, map, sum, All, IfOk};
ghost use Rattle.scenario_model.specs.Scenario.{corner_count, IsShape, IsPose, IsStateCount};
ghost use Rattle.scenario_model.specs.Scenario.{IsObstacle};
ghost use Rattle.reading.specs.Reading.{Gives};
ghost use Rattle.scenario_xml.specs.Faults.{is_memory};
ghost use Rattle.scenario_xml.specs.Obstacles.{obstacle_shapes, obstacle_states, obstacle, role};
ghost use Rattle.scenario_xml.specs.Obstacles.{moving, any_obstacle};
ghost use Rattle.scenario_model.specs.declared.limits.TheConstants.{MAX_CORNERS, PAST_IDS};

use crate::element::{child, wanted_child};
use crate::fault::{ScenarioFault, Wanted};
use crate::shape::shapes;
use crate::state::{pose, states};
use element_tree::Tree;
use preorder::List;
use scenario_model::{Obstacle, Pose, Shape};
use std::alloc::Global;

// The shapes of an obstacle.
#[tactic(auto, unfolding(crate::specs::Obstacles::obstacle_shapes))]
fn obstacle_shapes(
    alloc: Global,
    tree: &Tree<'_>,
    node: u32,
    id: u64,
) -> Result<List<Shape>, ScenarioFault>
    requires { node < length tree.now.nodes }
    ensures exact { Gives is_memory (λ s. s) result (obstacle_shapes tree.now node id) }
    ensures some { IfOk result (λ s. 1 ≤ length s) }
    ensures sound { IfOk result (All IsShape) }
    ensures corners { IfOk result (λ s. sum (map corner_count s) ≤ MAX_CORNERS) }
{
    let shape = wanted_child(tree, node, Wanted::Shape)?;
    shapes(alloc, tree, shape, id)
}

// Where an obstacle is.
#[tactic(auto, unfolding(crate::specs::Obstacles::obstacle_states))]
fn obstacle_states(
    alloc: Global,
    tree: &Tree<'_>,
    node: u32,
    moving: bool,
) -> Result<List<Pose>, ScenarioFault>
    requires { node < length tree.now.nodes }
    ensures exact { Gives is_memory (λ s. s) result (obstacle_states tree.now node moving) }
    ensures count { IfOk result (λ s. IsStateCount moving (length s)) }
    ensures sound { IfOk result (All IsPose) }
{
    let initial = wanted_child(tree, node, Wanted::InitialState)?;
    let first = pose(tree, initial, moving)?;
    if moving {
        return states(alloc, tree, node, first);
    }
    let mut only = List::new(alloc);
    only.push(first)?;
    Ok(only)
}

// An obstacle with the id, which moves or stands.
#[tactic(auto, unfolding(crate::specs::Obstacles::obstacle))]
fn obstacle(
    alloc: Global,
    tree: &Tree<'_>,
    node: u32,
    id: u64,
    moving: bool,
) -> Result<Obstacle, ScenarioFault>
    requires inside { node < length tree.now.nodes }
    requires id { id < PAST_IDS }
    ensures exact { Gives is_memory (λ o. o) result (obstacle tree.now node id moving) }
    ensures id { IfOk result (λ o. o.id ≡ id) }
    ensures sound { IfOk result IsObstacle }
{
    if let Some(occupied) = child(tree, node, b"occupancySet") {
        return Err(ScenarioFault::Unsupported(tree.place(occupied)));
    }
    let shapes = obstacle_shapes(alloc, tree, node, id)?;
    let states = obstacle_states(alloc, tree, node, moving)?;
    Ok(Obstacle {
        id,
        moving,
        shapes,
        states,
    })
}

// Whether an `obstacle` moves, by its `role`.
#[tactic(auto, unfolding(crate::specs::Obstacles::role))]
fn role(tree: &Tree<'_>, node: u32) -> Result<bool, ScenarioFault>
    requires { node < length tree.now.nodes }
    ensures { Gives is_memory (λ moves. moves) result (role tree.now node) }
{
    let role = wanted_child(tree, node, Wanted::Role)?;
    match tree.text(role) {
        Some(text) if text == b"static".as_slice() => Ok(false),
        Some(text) if text == b"dynamic".as_slice() => Ok(true),
        _ => Err(ScenarioFault::Unsupported(tree.place(role))),
    }
}

// Whether an obstacle moves, by its name, or else by its role.
#[tactic(auto, unfolding(crate::specs::Obstacles::moving))]
fn moving(tree: &Tree<'_>, node: u32) -> Result<bool, ScenarioFault>
    requires { node < length tree.now.nodes }
    ensures { Gives is_memory (λ moves. moves) result (moving tree.now node) }
{
    let name = tree.name(node);
    if name == b"staticObstacle".as_slice() {
        Ok(false)
    } else if name == b"dynamicObstacle".as_slice() {
        Ok(true)
    } else {
        role(tree, node)
    }
}

// An obstacle with the id, of any of its names.
#[tactic(auto, unfolding(crate::specs::Obstacles::any_obstacle))]
pub fn any_obstacle(
    alloc: Global,
    tree: &Tree<'_>,
    node: u32,
    id: u64,
) -> Result<Obstacle, ScenarioFault>
    requires inside { node < length tree.now.nodes }
    requires id { id < PAST_IDS }
    ensures exact { Gives is_memory (λ o. o) result (any_obstacle tree.now node id) }
    ensures id { IfOk result (λ o. o.id ≡ id) }
    ensures sound { IfOk result IsObstacle }
{
    let moving = moving(tree, node)?;
    obstacle(alloc, tree, node, id, moving)
}
