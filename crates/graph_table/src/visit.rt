//! Visits of states: what is kept of each, and of what its choices lead to and add.

ghost use Rattle.std.specs.Prelude.{◌≡◌, ◌+◌, ◌<◌, ◌≤◌, ◌++◌, [], ◌∷◌, length, IfOk, OnOk};
ghost use Rattle.rulebook_order.specs.Graph.{IsStateOf};
ghost use Rattle.graph_table.specs.Visits.{each_below, row_for};
ghost use Rattle.graph_table.specs.Waiting.{KeepsWaiting};

use crate::entries::StateRow;
use crate::waiting::add_item;
use indexmap::IndexMap;
use preorder::{List, NoMemory, Violation};
use rulebook_order::{StepGraph, Steps};
use std::alloc::Global;
use std::sync::ledger::Ledger;

/// What is kept of the states visited.
#[derive(Drop)]
pub struct Visit<S> {
    /// A row for each state.
    pub rows: List<StateRow>,
    /// The state that each choice leads to.
    pub nexts: List<S>,
    /// The vector that each choice adds.
    pub costs: List<Violation>,
    /// Those led to whose tick has not come, by their ticks.
    pub waiting: IndexMap<u32, Vec<S>>,
}

// The state that a choice leads to, and the vector that it adds.
fn led<G: StepGraph, L: Ledger>(
    alloc: Global,
    graph: &G,
    state: &G::State,
    choice: usize,
    steps: &mut Steps<L>,
) -> Result<(G::State, Violation), NoMemory>
    requires reached { IsStateOf (G.graph graph.now) state.now }
    requires choice { choice < (G.graph graph.now).choices state.now }
    ensures pair { IfOk result (λ pair. pair ≡ (
      (G.graph graph.now).next state.now choice,
      (G.graph graph.now).cost state.now choice,
    )) }
    ensures steps { steps.new ≤ steps.old + 1 }
{
    let mut cost = Violation::zeros(alloc, graph.width())?;
    let next = graph.extend(state, choice, &mut cost, steps);
    Ok((next, cost))
}

// What the end at a state adds.
fn ended<G: StepGraph>(alloc: Global, graph: &G, state: &G::State) -> Result<Violation, NoMemory>
    requires { IsStateOf (G.graph graph.now) state.now }
    ensures { IfOk result (λ end. end ≡ (G.graph graph.now).finish state.now) }
{
    let mut cost = Violation::zeros(alloc, graph.width())?;
    graph.finish(state, &mut cost);
    Ok(cost)
}

// Adds what a choice of a state leads to and adds.
fn add_choice<G: StepGraph, L: Ledger>(
    alloc: Global,
    graph: &G,
    state: &G::State,
    choice: usize,
    visit: &mut Visit<G::State>,
    steps: &mut Steps<L>,
) -> Result<(), NoMemory>
    requires reached { IsStateOf (G.graph graph.now) state.now }
    requires choice { choice < (G.graph graph.now).choices state.now }
    ensures rows { visit.new.rows ≡ visit.old.rows }
    ensures nexts { OnOk result (visit.new.nexts
        ≡ visit.old.nexts ++ (G.graph graph.now).next state.now choice ∷ []) }
    ensures costs { OnOk result (visit.new.costs
        ≡ visit.old.costs ++ (G.graph graph.now).cost state.now choice ∷ []) }
    ensures waiting { OnOk result (KeepsWaiting (G.graph graph.now) visit.old visit.new) }
    ensures steps { steps.new ≤ steps.old + 1 }
{
    let (next, cost) = led(alloc, graph, state, choice, steps)?;
    add_item(alloc, &mut visit.waiting, &graph.tick(&next), next)?;
    visit.nexts.push(next)?;
    visit.costs.push(cost)?;
    Ok(())
}

/// Visits a state: adds its row, and what each of its choices leads to and adds.
pub fn visit_state<G: StepGraph, L: Ledger>(
    alloc: Global,
    graph: &G,
    state: &G::State,
    visit: &mut Visit<G::State>,
    steps: &mut Steps<L>,
) -> Result<(), NoMemory>
    requires reached { IsStateOf (G.graph graph.now) state.now }
    ensures rows { OnOk result (visit.new.rows ≡ visit.old.rows
        ++ row_for (G.graph graph.now) state.now (length visit.old.nexts) ∷ []) }
    ensures nexts { OnOk result (visit.new.nexts ≡ visit.old.nexts
        ++ each_below (G.graph graph.now).next state.now
        ((G.graph graph.now).choices state.now)) }
    ensures costs { OnOk result (visit.new.costs ≡ visit.old.costs
        ++ each_below (G.graph graph.now).cost state.now
        ((G.graph graph.now).choices state.now)) }
    ensures waiting { OnOk result (KeepsWaiting (G.graph graph.now) visit.old visit.new) }
    ensures steps { OnOk result (steps.new ≤ steps.old + (G.graph graph.now).choices state.now) }
{
    let row = StateRow {
        from: visit.nexts.as_slice().len(),
        choices: graph.choices(state),
        tick: graph.tick(state),
        goal: graph.is_goal(state),
        finish: ended(alloc, graph, state)?,
    };
    for choice in 0..row.choices {
        add_choice(alloc, graph, state, choice, visit, steps)?;
    }
    visit.rows.push(row)?;
    Ok(())
}
