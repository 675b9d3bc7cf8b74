//! The search, tick by tick.

ghost use Rattle.std.specs.Prelude.{◌≡◌, ◌≢◌, ◌+◌, ◌^◌, ◌<◌, ◌≤◌, ◌++◌, [], ◌∷◌, false, nat_eq};
ghost use Rattle.std.specs.Prelude.{length, map, IfOk, OnOk, IsTrue, IfSome, IfNone};
ghost use Rattle.rulebook_order.specs.Answer.{AreUndominated, HasMoreUndominated};
ghost use Rattle.rulebook_order.specs.Graph.{IsReached};
ghost use Rattle.rulebook_order.specs.VectorOrder.{Holds};
ghost use Rattle.label_search.specs.Index.{items_at};
ghost use Rattle.label_search.specs.Limit.{StepsWithin};
ghost use Rattle.label_search.specs.Search.{AreByTick, ComeFromParents, IsSearched, choices_of};
ghost use Rattle.label_search.specs.Search.{extensions_below, extensions_from, pair_of};

use crate::arrival::Arrival;
use crate::index::{add_item, items_of};
use crate::settling::settle;
use indexmap::IndexMap;
use preorder::NoMemory;
use rulebook_order::{StepGraph, Steps, VectorOrder, extended, started};
use std::alloc::Global;
use std::sync::ledger::Ledger;

// Adds an arrival to those that wait, and its place to those of its tick.
fn add_waiting<G: StepGraph>(
    alloc: Global,
    graph: &G,
    waiting: &mut Vec<Arrival<G::State>>,
    by_tick: &mut IndexMap<u32, Vec<usize>>,
    arrival: Arrival<G::State>,
) -> Result<(), NoMemory>
    requires reached { IsReached (G.graph graph.now) arrival.state arrival.vector }
    requires indexed { AreByTick (G.graph graph.now) waiting.old.items
        (items_at nat_eq by_tick.old) }
    ensures items { OnOk result (waiting.new.items ≡ waiting.old.items ++ arrival ∷ []) }
    ensures indexed { OnOk result (AreByTick (G.graph graph.now) waiting.new.items
        (items_at nat_eq by_tick.new)) }
{
    let tick = graph.tick(&arrival.state);
    add_item(alloc, by_tick, &tick, waiting.len())?;
    waiting.push(arrival)?;
    Ok(())
}

// Adds what the choices of a label lead to.
fn extend_label<G: StepGraph, L: Ledger>(
    alloc: Global,
    graph: &G,
    label: &Arrival<G::State>,
    number: u32,
    waiting: &mut Vec<Arrival<G::State>>,
    by_tick: &mut IndexMap<u32, Vec<usize>>,
    steps: &mut Steps<L>,
) -> Result<(), NoMemory>
    requires reached { IsReached (G.graph graph.now) label.now.state label.now.vector }
    requires indexed { AreByTick (G.graph graph.now) waiting.old.items
        (items_at nat_eq by_tick.old) }
    ensures items { OnOk result (waiting.new.items
        ≡ waiting.old.items ++ extensions_below (G.graph graph.now) number label.now
        ((G.graph graph.now).choices label.now.state)) }
    ensures indexed { OnOk result (AreByTick (G.graph graph.now) waiting.new.items
        (items_at nat_eq by_tick.new)) }
    ensures steps { OnOk result (steps.new ≤ steps.old
        + (G.graph graph.now).choices label.now.state) }
{
    for choice in 0..graph.choices(&label.state) {
        let (state, vector) = extended(alloc, graph, &label.state, &label.vector, choice, steps)?;
        let arrival = Arrival {
            state,
            vector,
            parent: number,
            choice: choice as u32,
        };
        add_waiting(alloc, graph, waiting, by_tick, arrival)?;
    }
    Ok(())
}

// Adds the labels of a tick and what their choices lead to, or answers that there are too many.
fn turn<G: StepGraph, O: VectorOrder, L: Ledger>(
    alloc: Global,
    graph: &G,
    order: &O,
    limit: usize,
    tick: u32,
    labels: &mut Vec<Arrival<G::State>>,
    waiting: &mut Vec<Arrival<G::State>>,
    by_tick: &mut IndexMap<u32, Vec<usize>>,
    steps: &mut Steps<L>,
) -> Result<bool, NoMemory>
    requires order { (G.graph graph.now).width ≡ O.rules order.now }
    requires limit { limit < 2 ^ 32 }
    requires tick { 0 < tick }
    requires within { length labels.old.items ≤ limit }
    requires searched { IsSearched (G.graph graph.now)
        (O.no_worse order.now) tick labels.old.items waiting.old.items }
    requires indexed { AreByTick (G.graph graph.now) waiting.old.items
        (items_at nat_eq by_tick.old) }
    ensures many { IfOk result (λ many. IsTrue many
        → HasMoreUndominated (G.graph graph.now) (Holds (O.no_worse order.now)) limit
        × (steps.new ≡ steps.old) × (labels.new.items ≡ labels.old.items)) }
    ensures searched { IfOk result (λ many. many ≡ false
        → IsSearched (G.graph graph.now) (O.no_worse order.now)
        (tick + 1) labels.new.items waiting.new.items) }
    ensures indexed { IfOk result (λ many. many ≡ false
        → AreByTick (G.graph graph.now) waiting.new.items (items_at nat_eq by_tick.new)) }
    ensures within { IfOk result (λ many. many ≡ false → length labels.new.items ≤ limit) }
    ensures steps { OnOk result (steps.new + choices_of (G.graph graph.now) labels.old.items
        ≤ steps.old + choices_of (G.graph graph.now) labels.new.items) }
{
    let kept = settle(
        alloc,
        graph,
        order,
        waiting.as_slice(),
        items_of(by_tick, &tick),
    )?;
    if kept.len() > limit - labels.len() {
        return Ok(true);
    }
    let settled = kept.as_slice();
    for label in settled {
        let number = labels.len() as u32;
        extend_label(alloc, graph, label, number, waiting, by_tick, steps)?;
        labels.push(Arrival::copy_of(alloc, label)?)?;
    }
    Ok(false)
}

/// The labels of a graph, and what all their choices lead to.
#[derive(Drop)]
pub struct Searched<S> {
    /// The undominated pairs, parents first.
    pub labels: Vec<Arrival<S>>,
    /// What each choice of each label leads to, in the order of the labels and of their choices.
    pub extensions: Vec<Arrival<S>>,
}

/// The undominated pairs of the graph as labels, and what their choices lead to; none where there
/// are more than the limit.
pub fn search_labels<G: StepGraph, O: VectorOrder, L: Ledger>(
    alloc: Global,
    graph: &G,
    order: &O,
    limit: usize,
    steps: &mut Steps<L>,
) -> Result<Option<Searched<G::State>>, NoMemory>
    requires order { (G.graph graph.now).width ≡ O.rules order.now }
    requires low { 0 < limit }
    requires high { limit < 2 ^ 32 }
    ensures searched { IfOk result (λ found. IfSome found
        (λ s. IsSearched (G.graph graph.now) (O.no_worse order.now)
        ((G.graph graph.now).last + 1) s.labels.items s.extensions.items)) }
    ensures within { IfOk result (λ found. IfSome found (λ s. length s.labels.items ≤ limit)) }
    ensures too_many { IfOk result (λ found. IfNone found
        (HasMoreUndominated (G.graph graph.now) (Holds (O.no_worse order.now)) limit)) }
    ensures steps { OnOk result (StepsWithin (G.graph graph.now)
        (Holds (O.no_worse order.now)) limit steps.old steps.new) }
{
    let mut labels = Vec::new(alloc);
    let mut waiting = Vec::new(alloc);
    let mut by_tick = IndexMap::new(alloc);
    let (state, vector) = started(alloc, graph)?;
    let label = Arrival {
        state,
        vector,
        parent: 0,
        choice: 0,
    };
    extend_label(alloc, graph, &label, 0, &mut waiting, &mut by_tick, steps)?;
    labels.push(label)?;
    for past in 0..graph.last() {
        if turn(
            alloc,
            graph,
            order,
            limit,
            past + 1,
            &mut labels,
            &mut waiting,
            &mut by_tick,
            steps,
        )? {
            return Ok(None);
        }
    }
    Ok(Some(Searched {
        labels,
        extensions: waiting,
    }))
}
