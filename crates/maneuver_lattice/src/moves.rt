ghost use Rattle.std.specs.Prelude.{◌≡◌, ◌+◌, ◌<◌, ◌≤◌, false, length, Some, None, IfOk, IfErr};
ghost use Rattle.std.specs.Prelude.{IfSome, IsNone};
ghost use Rattle.std.specs.List.{list_any};
ghost use Rattle.lanelet_network.specs.Lanes.{lane_ids};
ghost use Rattle.scenario_model.specs.Scenario.{IsPose, IsProblem};
ghost use Rattle.maneuver_lattice.specs.Lattice.{IsLattice, IsManeuver};
ghost use Rattle.maneuver_lattice.specs.Regions.{GoalsHaveShapes, shapes_prop};
ghost use Rattle.maneuver_lattice.specs.Starts.{start_class, may_start};
ghost use Rattle.std.proofs.Props.{props};

use crate::choice::{count_open, open_at, open_named};
use crate::fault::LatticeFault;
use crate::lattice::{Lattice, Maneuver};
use crate::start::start_class;
use crate::state::{LatticeState, after};
use lanelet_network::Network;
use scenario_model::Problem;

mod driving;
mod goal;

/// How a vehicle moves over a lattice of maneuvers, for a planning problem among lanelets.
#[derive(Clone, Copy)]
pub struct SceneMoves<'a> {
    lattice: &'a Lattice,
    network: &'a Network,
    problem: &'a Problem,
    class: u32,
    pub ghost well_formed: { IsLattice lattice.now },
    pub ghost starts: { start_class lattice.now problem.now.start.speed
        ≡ Some class } by { Prim.hlevel props },
    pub ghost pose: { IsPose problem.now.start },
    pub ghost shapes: { GoalsHaveShapes problem.now } by { shapes_prop problem.now },
}

impl<'a> SceneMoves<'a> {
    ghost use Rattle.maneuver_lattice.specs.Moves.{scene_of};
    ghost use Rattle.maneuver_lattice.specs.Scenes.{start, choices, maneuver_of, chosen, next};
    ghost use Rattle.maneuver_lattice.specs.Scenes.{IsReached, IsOnLattice, IsChosen, choice_named};
    ghost use Rattle.maneuver_lattice.specs.Scenes.{IsNamedChoice, HasNoChoice};

    /// The moves over a lattice that is well formed, for a problem that is well formed among the
    /// lanelets of the network.
    pub fn new(
        lattice: &'a Lattice,
        network: &'a Network,
        problem: &'a Problem,
    ) -> Result<SceneMoves<'a>, LatticeFault>
        requires lattice { IsLattice lattice.now }
        requires problem { IsProblem (lane_ids network.now) problem.now }
        ensures scene { IfOk result (λ moves. scene_of moves
            ≡ record { lattice = lattice.now; lanes = network.now; problem = problem.now }) }
        ensures starts { IfOk result (λ moves. start_class lattice.now problem.now.start.speed
            ≡ Some (start (scene_of moves)).class) }
        ensures none { IfErr result (λ fault. start_class lattice.now problem.now.start.speed
            ≡ None) }
        ensures refused { IfErr result (λ fault. (fault ≡ LatticeFault.NoStartClass)
            × (list_any
            (may_start lattice.now.tolerance problem.now.start.speed) lattice.now.classes
            ≡ false)) }
    {
        match start_class(lattice, problem.start.speed) {
            Some(class) => Ok(SceneMoves {
                lattice,
                network,
                problem,
                class,
            }),
            None => Err(LatticeFault::NoStartClass),
        }
    }

    /// The state in which the vehicle starts.
    pub fn start_state(&self) -> LatticeState
        ensures value { result ≡ start (scene_of self.now) }
        ensures reached { IsReached (scene_of self.now) result }
    {
        LatticeState {
            tick: 0,
            forward: 0,
            left: 0,
            class: self.class,
        }
    }

    // The last tick, which no reached state is past.
    fn horizon(&self, state: &LatticeState) -> u32
        requires { IsReached (scene_of self.now) state.now }
        ensures value { result ≡ (scene_of self.now).lattice.horizon }
        ensures on { IsOnLattice (scene_of self.now).lattice state.now }
    {
        self.lattice.horizon
    }

    /// How many maneuvers can be chosen in the state: those from its class that end by the horizon.
    pub fn choices(&self, state: &LatticeState) -> usize
        requires { IsReached (scene_of self.now) state.now }
        ensures value { result ≡ choices (scene_of self.now) state.now }
        ensures few { result ≤ 32 }
    {
        count_open(
            self.lattice.maneuvers.as_slice(),
            self.horizon(state),
            state,
        )
    }

    // The place of the maneuver that a choice chooses.
    #[tactic(auto, unfolding(crate::specs::Scenes::open_maneuvers))]
    fn place(&self, state: &LatticeState, choice: usize) -> usize
        requires reached { IsReached (scene_of self.now) state.now }
        requires choice { choice < choices (scene_of self.now) state.now }
        ensures value { result ≡ maneuver_of (scene_of self.now) state.now choice }
        ensures chosen { IsChosen (scene_of self.now) state.now result }
        ensures on { IsOnLattice (scene_of self.now).lattice state.now }
    {
        open_at(
            self.lattice.maneuvers.as_slice(),
            self.horizon(state),
            state,
            choice,
        )
    }

    /// The place of the maneuver that a choice chooses. The choice is below the number of choices.
    pub fn maneuver_of(&self, state: &LatticeState, choice: usize) -> u32
        requires reached { IsReached (scene_of self.now) state.now }
        requires choice { choice < choices (scene_of self.now) state.now }
        ensures value { result ≡ maneuver_of (scene_of self.now) state.now choice }
        ensures inside { result < length (scene_of self.now).lattice.maneuvers }
    {
        self.place(state, choice) as u32
    }

    /// The choice of the maneuver of this name. None where no choice of the state has it.
    ///
    /// No two maneuvers have one name, so no two choices do.
    #[tactic(auto, unfolding(crate::specs::Scenes::choice_named))]
    pub fn choice_named(&self, state: &LatticeState, name: &[u8]) -> Option<usize>
        requires { IsReached (scene_of self.now) state.now }
        ensures value { result ≡ choice_named (scene_of self.now) state.now name.now }
        ensures named { IfSome result (IsNamedChoice (scene_of self.now) state.now name.now) }
        ensures none { IsNone result → HasNoChoice (scene_of self.now) state.now name.now }
    {
        open_named(
            self.lattice.maneuvers.as_slice(),
            self.horizon(state),
            state,
            name,
        )
    }

    // The maneuver that a choice chooses.
    fn chosen(&self, state: &LatticeState, choice: usize) -> &Maneuver
        requires reached { IsReached (scene_of self.now) state.now }
        requires choice { choice < choices (scene_of self.now) state.now }
        ensures value { result.now ≡ chosen (scene_of self.now) state.now choice }
        ensures sound { IsManeuver (scene_of self.now).lattice.classes result.now }
        ensures on { IsOnLattice (scene_of self.now).lattice state.now }
        ensures in_time { state.now.tick + length result.now.steps
            ≤ (scene_of self.now).lattice.horizon }
    {
        let place = self.place(state, choice);
        &self.lattice.maneuvers.as_slice()[place]
    }

    // How many steps the maneuver has that a choice chooses.
    pub(crate) fn step_count(&self, state: &LatticeState, choice: usize) -> usize
        requires reached { IsReached (scene_of self.now) state.now }
        requires choice { choice < choices (scene_of self.now) state.now }
        ensures { result ≡ length (chosen (scene_of self.now) state.now choice).steps }
    {
        self.chosen(state, choice).steps.as_slice().len()
    }

    // The last tick that a state may have.
    pub(crate) fn last_tick(&self) -> u32
        ensures { result ≡ (scene_of self.now).lattice.horizon }
    {
        self.lattice.horizon
    }

    // The state to which a choice leads.
    fn led(&self, state: &LatticeState, choice: usize) -> LatticeState
        requires reached { IsReached (scene_of self.now) state.now }
        requires choice { choice < choices (scene_of self.now) state.now }
        ensures { result ≡ next (scene_of self.now) state.now choice }
    {
        after(state, self.chosen(state, choice))
    }

    /// The state to which a choice leads. The choice is below the number of choices.
    pub fn next(&self, state: &LatticeState, choice: usize) -> LatticeState
        requires reached { IsReached (scene_of self.now) state.now }
        requires choice { choice < choices (scene_of self.now) state.now }
        ensures value { result ≡ next (scene_of self.now) state.now choice }
        ensures reached { IsReached (scene_of self.now) result }
        ensures later { state.now.tick < result.tick }
        ensures on { IsOnLattice (scene_of self.now).lattice result }
    {
        self.led(state, choice)
    }
}
