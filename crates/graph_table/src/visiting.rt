//! Visits of all states of a graph, tick by tick.

ghost use Rattle.std.specs.Prelude.{◌≡◌, ◌+◌, ◌<◌, ◌≤◌, length, false, All, IsTrue, IfOk, OnOk};
ghost use Rattle.std.specs.Prelude.{IfSome, IfNone, take, ◌^◌, nat_eq};
ghost use Rattle.indexmap.specs.IndexSet.{insert_all};
ghost use Rattle.rulebook_order.specs.Graph.{IsStateOf};
ghost use Rattle.graph_table.specs.Found.{StepsWithin};
ghost use Rattle.graph_table.specs.Visits.{choices_of, visited};
ghost use Rattle.graph_table.specs.Waiting.{HasVisited, IsVisitedTo, KeepsWaiting};

use crate::visit::{Visit, visit_state};
use crate::waiting::take_items;
use indexmap::{IndexMap, IndexSet};
use preorder::{List, NoMemory, Violation};
use rulebook_order::{StepGraph, Steps, started};
use std::alloc::Global;
use std::hash::Hash;
use std::sync::ledger::Ledger;

// Adds the states that are not there yet, or answers that there are more than the limit.
fn admit<S: Copy + Eq + Hash>(
    arrived: &[S],
    limit: usize,
    states: &mut IndexSet<S>,
) -> Result<bool, NoMemory>
    requires within { length states.old.keys ≤ limit }
    ensures keys { IfOk result (λ many. many ≡ false
        → states.new.keys ≡ insert_all S.eq states.old.keys arrived.now) }
    ensures within { IfOk result (λ many. many ≡ false → length states.new.keys ≤ limit) }
    ensures many { IfOk result (λ many. IsTrue many
        → limit < length (insert_all S.eq states.old.keys arrived.now)) }
{
    for state in arrived {
        states.insert(*state)?;
        if states.len() > limit {
            return Ok(true);
        }
    }
    Ok(false)
}

// Visits the states from a place on.
fn visit_from<G: StepGraph, L: Ledger>(
    alloc: Global,
    graph: &G,
    states: &[G::State],
    past: usize,
    visit: &mut Visit<G::State>,
    steps: &mut Steps<L>,
) -> Result<(), NoMemory>
    requires reached { All (IsStateOf (G.graph graph.now)) states.now }
    requires past { past ≤ length states.now }
    requires visited { HasVisited (G.graph graph.now) (take past states.now) visit.old }
    ensures visited { OnOk result (HasVisited (G.graph graph.now) states.now visit.new) }
    ensures waiting { OnOk result (KeepsWaiting (G.graph graph.now) visit.old visit.new) }
    ensures steps { OnOk result (steps.new + choices_of (G.graph graph.now) (take past states.now)
        ≤ steps.old + choices_of (G.graph graph.now) states.now) }
{
    for place in past..states.len() {
        visit_state(alloc, graph, &states[place], visit, steps)?;
    }
    Ok(())
}

/// The states of a graph, and what is kept of them.
#[derive(Drop)]
pub struct Visited<S: Eq + Hash> {
    /// The vector of the empty list of choices.
    pub first: Violation,
    /// The states, in the order of visit.
    pub states: IndexSet<S>,
    /// What is kept of them.
    pub visit: Visit<S>,
}

// The start, visited.
fn begun<G: StepGraph, L: Ledger>(
    alloc: Global,
    graph: &G,
    steps: &mut Steps<L>,
) -> Result<Visited<G::State>, NoMemory>
    ensures first { IfOk result (λ v. v.first ≡ (G.graph graph.now).first) }
    ensures visited { IfOk result (λ v. IsVisitedTo G.State.eq (G.graph graph.now) 0
        v.states.keys v.visit) }
    ensures steps { IfOk result (λ v. steps.new
        ≤ steps.old + choices_of (G.graph graph.now) v.states.keys) }
{
    let (start, first) = started(alloc, graph)?;
    let mut states = IndexSet::new(alloc);
    states.insert(start)?;
    let mut visit = Visit {
        rows: List::new(alloc),
        nexts: List::new(alloc),
        costs: List::new(alloc),
        waiting: IndexMap::new(alloc),
    };
    visit_from(alloc, graph, states.as_slice(), 0, &mut visit, steps)?;
    Ok(Visited {
        first,
        states,
        visit,
    })
}

// Visits the states of the tick after a tick, or answers that there are more than the limit.
fn turn<G: StepGraph, L: Ledger>(
    alloc: Global,
    graph: &G,
    limit: usize,
    past: u32,
    states: &mut IndexSet<G::State>,
    visit: &mut Visit<G::State>,
    steps: &mut Steps<L>,
) -> Result<bool, NoMemory>
    requires past { past + 1 < 2 ^ 32 }
    requires within { length states.old.keys ≤ limit }
    requires visited { IsVisitedTo G.State.eq (G.graph graph.now) past states.old.keys visit.old }
    ensures visited { IfOk result (λ many. many ≡ false
        → IsVisitedTo G.State.eq (G.graph graph.now) (past + 1) states.new.keys visit.new) }
    ensures within { IfOk result (λ many. many ≡ false → length states.new.keys ≤ limit) }
    ensures steps { IfOk result (λ many. many ≡ false
        → steps.new + choices_of (G.graph graph.now) states.old.keys
        ≤ steps.old + choices_of (G.graph graph.now) states.new.keys) }
    ensures many { IfOk result (λ many. IsTrue many
        → limit < length (visited G.State.eq (G.graph graph.now) (past + 1))) }
    ensures many_steps { IfOk result (λ many. IsTrue many → steps.new ≡ steps.old) }
{
    let before = states.len();
    let arrived = take_items(alloc, &mut visit.waiting, &(past + 1));
    if admit(arrived.as_slice(), limit, states)? {
        return Ok(true);
    }
    visit_from(alloc, graph, states.as_slice(), before, visit, steps)?;
    Ok(false)
}

/// Visits all states of the graph; none where there are more than the limit.
pub fn visit_all<G: StepGraph, L: Ledger>(
    alloc: Global,
    graph: &G,
    limit: usize,
    steps: &mut Steps<L>,
) -> Result<Option<Visited<G::State>>, NoMemory>
    requires { 0 < limit }
    ensures first { IfOk result (λ found. IfSome found (λ v. v.first
        ≡ (G.graph graph.now).first)) }
    ensures visited { IfOk result (λ found. IfSome found (λ v. IsVisitedTo G.State.eq
        (G.graph graph.now) (G.graph graph.now).last v.states.keys v.visit)) }
    ensures within { IfOk result (λ found. IfSome found (λ v. length v.states.keys ≤ limit)) }
    ensures too_many { IfOk result (λ found. IfNone found (limit
        < length (visited G.State.eq (G.graph graph.now) (G.graph graph.now).last))) }
    ensures steps { OnOk result (StepsWithin G.State.eq (G.graph graph.now)
        limit steps.old steps.new) }
{
    let Visited {
        first,
        mut states,
        mut visit,
    } = begun(alloc, graph, steps)?;
    for past in 0..graph.last() {
        if turn(alloc, graph, limit, past, &mut states, &mut visit, steps)? {
            return Ok(None);
        }
    }
    Ok(Some(Visited {
        first,
        states,
        visit,
    }))
}
