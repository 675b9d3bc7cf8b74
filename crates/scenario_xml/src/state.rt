ghost use Rattle.std.specs.Prelude.{◌≡◌, ◌<◌, ◌≤◌, ◌≤ℤ◌, pos, unsigned_abs, length, All, IfOk};
ghost use Rattle.scenario_model.specs.Scenario.{IsRead, IsPose};
ghost use Rattle.reading.specs.Reading.{Gives};
ghost use Rattle.scenario_xml.specs.Faults.{is_memory};
ghost use Rattle.scenario_xml.specs.States.{position, time, heading, speed, pose, state_step};
ghost use Rattle.scenario_xml.specs.States.{states};
ghost use Rattle.scenario_model.specs.declared.limits.TheConstants.{MAX_HEADING, MAX_SPEED};
ghost use Rattle.scenario_model.specs.declared.limits.TheConstants.{MAX_TICK};

use crate::children::{ChildReader, read_children};
use crate::element::{child, optional_exact, wanted_child, wanted_number};
use crate::fault::{ScenarioFault, Wanted};
use crate::quantity::Quantity;
use crate::shape::point;
use element_tree::Tree;
use fixed_geometry::Point;
use preorder::List;
use scenario_model::Pose;
use std::alloc::Global;

// The point of a `position`.
#[tactic(auto, unfolding(crate::specs::States::position))]
fn position(tree: &Tree<'_>, node: u32) -> Result<Point, ScenarioFault>
    requires { node < length tree.now.nodes }
    ensures exact { Gives is_memory (λ p. p) result (position tree.now node) }
    ensures sound { IfOk result IsRead }
{
    let position = wanted_child(tree, node, Wanted::Position)?;
    let found = wanted_child(tree, position, Wanted::Point)?;
    point(tree, found)
}

// A tick that was read.
pub fn tick(number: i64) -> u32
    requires low { pos 0 ≤ℤ number }
    requires high { number ≤ℤ pos MAX_TICK }
    ensures value { result ≡ unsigned_abs number }
    ensures small { result ≤ MAX_TICK }
{
    number as u32
}

// The time of a state. Where it is not needed it may be absent, and counts as 0 then.
#[tactic(auto, unfolding(crate::specs::States::time))]
fn time(tree: &Tree<'_>, node: u32, needed: bool) -> Result<u32, ScenarioFault>
    requires { node < length tree.now.nodes }
    ensures exact { Gives is_memory (λ t. t) result (time tree.now node needed) }
    ensures small { IfOk result (λ t. t ≤ MAX_TICK) }
{
    match child(tree, node, b"time") {
        Some(found) => {
            let number = wanted_number(tree, found, Wanted::Exact, Quantity::Tick)?;
            Ok(tick(number))
        }
        None if needed => Err(ScenarioFault::Missing(Wanted::Time, tree.place(node))),
        None => Ok(0),
    }
}

#[tactic(auto, unfolding(crate::specs::States::heading))]
fn heading(tree: &Tree<'_>, node: u32) -> Result<i64, ScenarioFault>
    requires { node < length tree.now.nodes }
    ensures exact { Gives is_memory (λ n. n) result (heading tree.now node) }
    ensures small { IfOk result (λ n. unsigned_abs n ≤ MAX_HEADING) }
{
    optional_exact(tree, node, b"orientation", Quantity::Angle)
}

#[tactic(auto, unfolding(crate::specs::States::speed))]
fn speed(tree: &Tree<'_>, node: u32) -> Result<i64, ScenarioFault>
    requires { node < length tree.now.nodes }
    ensures exact { Gives is_memory (λ n. n) result (speed tree.now node) }
    ensures small { IfOk result (λ n. unsigned_abs n ≤ MAX_SPEED) }
{
    optional_exact(tree, node, b"velocity", Quantity::Speed)
}

// A state.
#[tactic(auto, unfolding(crate::specs::States::pose))]
pub fn pose(tree: &Tree<'_>, node: u32, timed: bool) -> Result<Pose, ScenarioFault>
    requires { node < length tree.now.nodes }
    ensures exact { Gives is_memory (λ p. p) result (pose tree.now node timed) }
    ensures sound { IfOk result IsPose }
{
    let position = position(tree, node)?;
    let heading = heading(tree, node)?;
    let speed = speed(tree, node)?;
    let tick = time(tree, node, timed)?;
    Ok(Pose {
        tick,
        position,
        heading,
        speed,
    })
}

impl ChildReader for List<Pose> {
    ghost step = { state_step };

    ghost is_sound = { λ states. (1 ≤ length states) × All IsPose states };

    #[tactic(auto, unfolding(crate::specs::States::state_step))]
    fn read_child(
        &mut self,
        _alloc: Global,
        tree: &Tree<'_>,
        child: u32,
    ) -> Result<(), ScenarioFault> {
        if tree.name(child) == b"state".as_slice() {
            let pose = pose(tree, child, true)?;
            self.push(pose)?;
        }
        Ok(())
    }
}

// The states of an obstacle that moves, the initial one first.
#[tactic(auto, unfolding(crate::specs::States::states))]
pub fn states(
    alloc: Global,
    tree: &Tree<'_>,
    node: u32,
    first: Pose,
) -> Result<List<Pose>, ScenarioFault>
    requires inside { node < length tree.now.nodes }
    requires first { IsPose first }
    ensures exact { Gives is_memory (λ s. s) result (states tree.now node first) }
    ensures some { IfOk result (λ s. 1 ≤ length s) }
    ensures sound { IfOk result (All IsPose) }
{
    let mut states = List::new(alloc);
    states.push(first)?;
    if let Some(trajectory) = child(tree, node, b"trajectory") {
        read_children(&mut states, alloc, tree, trajectory)?;
    }
    Ok(states)
}
