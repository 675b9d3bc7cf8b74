ghost use Rattle.std.specs.Prelude.{◌≡◌, ◌<◌, ◌≤◌, ◌≤ℤ◌, pos, unsigned_abs, length, All, IfOk};
ghost use Rattle.std.specs.Prelude.{IfSome};
ghost use Rattle.scenario_model.specs.Scenario.{IsSpan};
ghost use Rattle.reading.specs.Reading.{Gives};
ghost use Rattle.scenario_xml.specs.Faults.{is_memory};
ghost use Rattle.scenario_xml.specs.Goals.{ticks, heading_span, speed_span, goal, goal_step, goals};
ghost use Rattle.scenario_xml.specs.Goals.{problem};
ghost use Rattle.scenario_xml.specs.Sound.{IsSoundGoal, IsSoundProblem, AreGoals};
ghost use Rattle.scenario_model.specs.declared.limits.TheConstants.{MAX_HEADING, MAX_SPEED};
ghost use Rattle.scenario_model.specs.declared.limits.TheConstants.{MAX_TICK, PAST_IDS};

use crate::children::{ChildReader, read_children};
use crate::element::wanted_child;
use crate::fault::{Kind, ScenarioFault, Wanted};
use crate::quantity::Quantity;
use crate::region::regions;
use crate::span::{optional_span, span};
use crate::state::{pose, tick};
use element_tree::Tree;
use preorder::List;
use scenario_model::{Goal, MAX_GOALS, Problem, Span};
use std::alloc::Global;

// The ticks of a goal.
#[tactic(auto, unfolding(crate::specs::Goals::ticks))]
fn ticks(tree: &Tree<'_>, node: u32) -> Result<Span, ScenarioFault>
    requires { node < length tree.now.nodes }
    ensures exact { Gives is_memory (λ s. s) result (ticks tree.now node) }
    ensures low { IfOk result (λ s. (pos 0 ≤ℤ s.low) × (pos 0 ≤ℤ s.high)) }
    ensures high { IfOk result (λ s. (s.low ≤ℤ pos MAX_TICK) × (s.high ≤ℤ pos MAX_TICK)) }
{
    let time = wanted_child(tree, node, Wanted::Time)?;
    span(tree, time, Quantity::Tick)
}

#[tactic(auto, unfolding(crate::specs::Goals::heading_span))]
fn heading_span(tree: &Tree<'_>, node: u32) -> Result<Option<Span>, ScenarioFault>
    requires { node < length tree.now.nodes }
    ensures exact { Gives is_memory (λ s. s) result (heading_span tree.now node) }
    ensures small { IfOk result (λ found. IfSome found (IsSpan MAX_HEADING)) }
{
    optional_span(tree, node, b"orientation", Quantity::Angle)
}

#[tactic(auto, unfolding(crate::specs::Goals::speed_span))]
fn speed_span(tree: &Tree<'_>, node: u32) -> Result<Option<Span>, ScenarioFault>
    requires { node < length tree.now.nodes }
    ensures exact { Gives is_memory (λ s. s) result (speed_span tree.now node) }
    ensures small { IfOk result (λ found. IfSome found (IsSpan MAX_SPEED)) }
{
    optional_span(tree, node, b"velocity", Quantity::Speed)
}

// A `goalState` of the problem with the id.
#[tactic(auto, unfolding(crate::specs::Goals::goal), using(crate::proofs::SoundLaws::sound_goal))]
fn goal(alloc: Global, tree: &Tree<'_>, node: u32, id: u64) -> Result<Goal, ScenarioFault>
    requires { node < length tree.now.nodes }
    ensures exact { Gives is_memory (λ g. g) result (goal tree.now node id) }
    ensures sound { IfOk result IsSoundGoal }
{
    let ticks = ticks(tree, node)?;
    let regions = regions(alloc, tree, node, id)?;
    let heading = heading_span(tree, node)?;
    let speed = speed_span(tree, node)?;
    Ok(Goal {
        first_tick: tick(ticks.low),
        last_tick: tick(ticks.high),
        regions,
        heading,
        speed,
    })
}

// The goals read so far, of the problem with the id.
#[derive(Drop)]
struct GoalsSoFar {
    id: u64,
    goals: List<Goal>,
}

impl ChildReader for GoalsSoFar {
    ghost step = { goal_step };

    ghost is_sound = { AreGoals };

    #[tactic(auto, unfolding(crate::specs::Goals::goal_step))]
    fn read_child(
        &mut self,
        alloc: Global,
        tree: &Tree<'_>,
        child: u32,
    ) -> Result<(), ScenarioFault> {
        if tree.name(child) != b"goalState".as_slice() {
            return Ok(());
        }
        if self.goals.as_slice().len() >= MAX_GOALS {
            return Err(ScenarioFault::TooMany(Kind::Goal));
        }
        let goal = goal(alloc, tree, child, self.id)?;
        self.goals.push(goal)?;
        Ok(())
    }
}

// The goals of the problem with the id.
#[tactic(auto, unfolding(crate::specs::Goals::goals))]
fn goals(alloc: Global, tree: &Tree<'_>, node: u32, id: u64) -> Result<List<Goal>, ScenarioFault>
    requires { node < length tree.now.nodes }
    ensures exact { Gives is_memory (λ g. g) result (goals tree.now node id) }
    ensures count { IfOk result (λ g. (1 ≤ length g) × (length g ≤ MAX_GOALS)) }
    ensures sound { IfOk result (All IsSoundGoal) }
{
    let mut so_far = GoalsSoFar {
        id,
        goals: List::new(alloc),
    };
    read_children(&mut so_far, alloc, tree, node)?;
    if so_far.goals.as_slice().is_empty() {
        return Err(ScenarioFault::Missing(Wanted::GoalState, tree.place(node)));
    }
    Ok(so_far.goals)
}

// A `planningProblem` with the id.
#[tactic(auto, unfolding(crate::specs::Goals::problem), using(crate::proofs::SoundLaws::sound_problem))]
pub fn problem(alloc: Global, tree: &Tree<'_>, node: u32, id: u64) -> Result<Problem, ScenarioFault>
    requires inside { node < length tree.now.nodes }
    requires id { id < PAST_IDS }
    ensures exact { Gives is_memory (λ p. p) result (problem tree.now node id) }
    ensures id { IfOk result (λ p. p.id ≡ id) }
    ensures sound { IfOk result IsSoundProblem }
{
    let state = wanted_child(tree, node, Wanted::InitialState)?;
    let start = pose(tree, state, false)?;
    let goals = goals(alloc, tree, node, id)?;
    Ok(Problem { id, start, goals })
}
