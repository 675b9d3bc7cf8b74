ghost use Rattle.std.specs.Prelude.{◌≡◌, ◌<◌, ◌*◌, length, false, Some, None, IfOk, IfErr, IfSome};
ghost use Rattle.std.specs.Prelude.{IsNone};
ghost use Rattle.std.specs.List.{list_any};
ghost use Rattle.lanelet_network.specs.Lanes.{lane_ids};
ghost use Rattle.scenario_model.specs.Scenario.{IsProblem};
ghost use Rattle.violation_measures.specs.Binding.{IsBoundTo};
ghost use Rattle.maneuver_lattice.specs.Lattice.{IsLattice};
ghost use Rattle.maneuver_lattice.specs.Starts.{may_start, start_class};
ghost use Rattle.rulebook_order.specs.StepGraph.{HasRoom, IsStepGraph};
ghost use Rattle.maneuver_lattice.specs.Moves.{scene_of};
ghost use Rattle.maneuver_lattice.specs.SceneGraphs.{scene_graph};
ghost use Rattle.rulebook_order.specs.Sums.{sums};
ghost use Rattle.violation_measures.specs.Vectors.{run, width};

use crate::fault::LatticeFault;
use crate::lattice::Lattice;
use crate::moves::SceneMoves;
use crate::state::LatticeState;
use lanelet_network::Network;
use preorder::Violation;
use rulebook_order::{StepGraph, Steps};
use scenario_model::Problem;
use std::sync::ledger::Ledger;
use violation_measures::{Bound, FeatureSource, MAX_AMOUNT};

/// The graph of a scene: the states of a lattice of maneuvers, with what the steps between them
/// amount to by the rules of a book that is bound to a source of features.
#[derive(Drop)]
pub struct SceneGraph<'a, S: FeatureSource> {
    moves: SceneMoves<'a>,
    bound: &'a Bound,
    source: &'a S,
    pub ghost bound_to: { IsBoundTo (S.features source.now) bound.now },
    pub ghost lawful: { IsStepGraph (scene_graph (scene_of moves)
        (S.features source.now) bound.now) },
}

impl<'a, S: FeatureSource> SceneGraph<'a, S> {
    ghost use Rattle.maneuver_lattice.specs.Scenes.{start, choices, maneuver_of, choice_named};
    ghost use Rattle.maneuver_lattice.specs.Scenes.{IsReached, IsNamedChoice, HasNoChoice};
    ghost use Rattle.maneuver_lattice.specs.Driving.{steps_of};

    /// The graph over a well-formed lattice, for a problem that is well formed among the lanelets
    /// of the network. The book is bound to the source, or to one that is alike.
    ///
    /// `NoStartClass` exactly where no class has heading 0 and a speed within the tolerance of the
    /// problem's. No memory is taken.
    pub fn new(
        lattice: &'a Lattice,
        bound: &'a Bound,
        source: &'a S,
        network: &'a Network,
        problem: &'a Problem,
    ) -> Result<SceneGraph<'a, S>, LatticeFault>
        requires lattice { IsLattice lattice.now }
        requires bound { IsBoundTo (S.features source.now) bound.now }
        requires problem { IsProblem (lane_ids network.now) problem.now }
        ensures scene { IfOk result (λ graph. scene_of graph.moves
            ≡ record { lattice = lattice.now; lanes = network.now; problem = problem.now }) }
        ensures bound { IfOk result (λ graph. graph.bound.now ≡ bound.now) }
        ensures source { IfOk result (λ graph. graph.source.now ≡ source.now) }
        ensures starts { IfOk result (λ graph. start_class lattice.now problem.now.start.speed
            ≡ Some (start (scene_of graph.moves)).class) }
        ensures none { IfErr result (λ fault. start_class lattice.now problem.now.start.speed
            ≡ None) }
        ensures refused { IfErr result (λ fault. (fault ≡ LatticeFault.NoStartClass)
            × (list_any
            (may_start lattice.now.tolerance problem.now.start.speed) lattice.now.classes
            ≡ false)) }
    {
        match SceneMoves::new(lattice, network, problem) {
            Ok(moves) => Ok(SceneGraph {
                moves,
                bound,
                source,
            }),
            Err(fault) => Err(fault),
        }
    }

    /// How the vehicle moves.
    pub fn moves(&self) -> &SceneMoves<'a>
        ensures { result.now ≡ self.now.moves }
    {
        &self.moves
    }

    /// The place of the maneuver that a choice chooses. The choice is below the number of choices.
    pub fn maneuver_of(&self, state: &LatticeState, choice: usize) -> u32
        requires reached { IsReached (scene_of self.now.moves) state.now }
        requires choice { choice < choices (scene_of self.now.moves) state.now }
        ensures value { result ≡ maneuver_of (scene_of self.now.moves) state.now choice }
        ensures inside { result < length (scene_of self.now.moves).lattice.maneuvers }
    {
        self.moves.maneuver_of(state, choice)
    }

    /// The choice of the maneuver of this name. None exactly where no choice of the state has it.
    pub fn choice_named(&self, state: &LatticeState, name: &[u8]) -> Option<usize>
        requires { IsReached (scene_of self.now.moves) state.now }
        ensures value { result ≡ choice_named (scene_of self.now.moves) state.now name.now }
        ensures named { IfSome result (IsNamedChoice (scene_of self.now.moves) state.now name.now) }
        ensures none { IsNone result → HasNoChoice (scene_of self.now.moves) state.now name.now }
    {
        self.moves.choice_named(state, name)
    }

    // Adds what the steps of a choice's maneuver amount to.
    fn add_steps(&self, state: &LatticeState, choice: usize, cost: &mut Violation)
        requires reached { IsReached (scene_of self.now.moves) state.now }
        requires choice { choice < choices (scene_of self.now.moves) state.now }
        requires width { length cost.old ≡ width self.now.bound.now }
        requires room { HasRoom (MAX_AMOUNT * length (steps_of
            (scene_of self.now.moves) state.now choice)) cost.old }
        ensures { cost.new ≡ sums cost.old (run (S.features self.now.source.now) self.now.bound.now
            (steps_of (scene_of self.now.moves) state.now choice)) }
    {
        for j in 0..self.moves.step_count(state, choice) {
            let step = self.moves.step_at(state, choice, j + 1);
            self.bound.add_step(self.source, &step, cost);
        }
    }
}

impl<'a, S: FeatureSource> StepGraph for SceneGraph<'a, S> {
    ghost use Rattle.maneuver_lattice.specs.States.{same_state};

    type State = LatticeState;

    ghost graph = { λ it. scene_graph (scene_of it.moves) (S.features it.source.now) it.bound.now };

    fn width(&self) -> usize {
        self.bound.width()
    }

    fn last(&self) -> u32 {
        self.moves.last_tick()
    }

    fn step_limit(&self) -> u64 {
        MAX_AMOUNT
    }

    fn start(&self, cost: &mut Violation) -> LatticeState {
        self.bound
            .add_step(self.source, &self.moves.start_step(), cost);
        self.moves.start_state()
    }

    fn choices(&self, state: &LatticeState) -> usize {
        self.moves.choices(state)
    }

    fn extend<L: Ledger>(
        &self,
        state: &LatticeState,
        choice: usize,
        cost: &mut Violation,
        steps: &mut Steps<L>,
    ) -> LatticeState {
        self.add_steps(state, choice, cost);
        steps.tick();
        self.moves.next(state, choice)
    }

    fn finish(&self, state: &LatticeState, cost: &mut Violation) {
        self.bound
            .add_end(self.source, &self.moves.end_step(state), cost);
    }

    fn is_goal(&self, state: &LatticeState) -> bool {
        self.moves.is_goal(state)
    }

    fn tick(&self, state: &LatticeState) -> u32 {
        state.tick
    }

    ghost laws = { λ it. it.lawful };

    ghost same_states = { same_state };
}
