//! The making of a table.

ghost use Rattle.std.specs.Prelude.{◌≡◌, ◌+◌, ◌^◌, ◌<◌, ◌≤◌, length, All, Contains, IfOk, IfErr};
ghost use Rattle.std.specs.List.{AllZip};
ghost use Rattle.graph_table.specs.Found.{IfTooMany, StepsWithin, UnlessNoMemory};
ghost use Rattle.graph_table.specs.Tables.{HasMoreStates, IsAt, IsTableOf};
ghost use Rattle.graph_table.specs.Visits.{visited};
ghost use Rattle.graph_table.specs.Waiting.{IsVisitedTo};
ghost use Rattle.graph_table.specs.declared.limits.TheConstants.{MAX_STATES};

use crate::entries::Entries;
use crate::fault::TableFault;
use crate::state::TableState;
use crate::table::Table;
use crate::visiting::{Visited, visit_all};
use indexmap::IndexSet;
use preorder::{List, NoMemory};
use rulebook_order::{StepGraph, Steps};
use std::alloc::Global;
use std::sync::ledger::Ledger;

// The place of a state that is there.
fn place_of<G: StepGraph>(graph: &G, states: &IndexSet<G::State>, state: &G::State) -> TableState
    requires there { Contains states.now.keys state.now }
    requires few { length states.now.keys ≤ 2 ^ 32 }
    ensures { IsAt states.now.keys state.now result }
{
    let _ = graph;
    match states.get_index_of(state) {
        Some(place) => TableState {
            index: place as u32,
        },
        None => TableState { index: 0 },
    }
}

// The places of states that are there.
fn places_of<G: StepGraph>(
    alloc: Global,
    graph: &G,
    states: &IndexSet<G::State>,
    nexts: &[G::State],
) -> Result<List<TableState>, NoMemory>
    requires there { All (Contains states.now.keys) nexts.now }
    requires few { length states.now.keys ≤ 2 ^ 32 }
    ensures places { IfOk result (λ places. AllZip (IsAt states.now.keys) nexts.now places) }
    ensures fits { IfOk result (λ places. length places < 2 ^ 64) }
{
    let mut places = List::new(alloc);
    for next in nexts {
        places.push(place_of(graph, states, next))?;
    }
    Ok(places)
}

// The same states as a list.
fn listed<S: Copy>(alloc: Global, states: &[S]) -> Result<List<S>, NoMemory>
    ensures { IfOk result (λ list. list ≡ states.now) }
{
    let mut list = List::new(alloc);
    for state in states {
        list.push(*state)?;
    }
    Ok(list)
}

// The table of the states visited.
fn assembled<G: StepGraph>(
    alloc: Global,
    graph: &G,
    visited: Visited<G::State>,
) -> Result<Table<G::State>, NoMemory>
    requires first { visited.first ≡ (G.graph graph.now).first }
    requires visited { IsVisitedTo G.State.eq (G.graph graph.now) (G.graph graph.now).last
        visited.states.keys visited.visit }
    requires few { length visited.states.keys ≤ 2 ^ 32 }
    ensures table { IfOk result (λ table. IsTableOf (G.graph graph.now)
        table.states table.entries) }
    ensures states { IfOk result (λ table. table.states ≡ visited.states.keys) }
{
    let Visited {
        first,
        states,
        visit,
    } = visited;
    let nexts = places_of(alloc, graph, &states, visit.nexts.as_slice())?;
    let states = listed(alloc, states.as_slice())?;
    let entries = Entries {
        width: graph.width(),
        last: graph.last(),
        step_limit: graph.step_limit(),
        first,
        rows: visit.rows,
        nexts,
        costs: visit.costs,
    };
    Ok(Table::of(states, entries))
}

/// The table of a graph: each state that some list of choices reaches once, with the state that
/// each of its choices leads to and the vector that it adds.
///
/// `limit` is the most states that there may be, from 1 to `MAX_STATES`; `TooManyStates` comes
/// exactly where more are reached. States are visited tick after tick, and within a tick in the
/// order in which they are first reached. One step is counted for each choice of a state visited:
/// no more than the choices of the first states of this order, up to the limit. It takes memory.
pub fn table_of<G: StepGraph, L: Ledger>(
    alloc: Global,
    graph: &G,
    limit: usize,
    steps: &mut Steps<L>,
) -> Result<Table<G::State>, TableFault>
    requires low { 0 < limit }
    requires high { limit ≤ MAX_STATES }
    ensures table { IfOk result (λ table. IsTableOf (G.graph graph.now)
        table.states table.entries) }
    ensures order { IfOk result (λ table. table.states
        ≡ visited G.State.eq (G.graph graph.now) (G.graph graph.now).last) }
    ensures within { IfOk result (λ table. length table.states ≤ limit) }
    ensures too_many { IfErr result (IfTooMany (HasMoreStates (G.graph graph.now) limit)) }
    ensures steps { UnlessNoMemory result (StepsWithin G.State.eq (G.graph graph.now)
        limit steps.old steps.new) }
{
    match visit_all(alloc, graph, limit, steps)? {
        None => Err(TableFault::TooManyStates),
        Some(visited) => Ok(assembled(alloc, graph, visited)?),
    }
}
