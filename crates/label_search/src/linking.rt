//! Links from what choices lead to, to the labels that are no worse.

ghost use Rattle.std.specs.Prelude.{◌≡◌, ◌^◌, ◌<◌, ◌≤◌, ℕ, List as Items, length, Some, slice_get};
ghost use Rattle.std.specs.Prelude.{All, map, IfOk};
ghost use Rattle.rulebook_order.specs.Graph.{IsReached};
ghost use Rattle.rulebook_order.specs.VectorOrder.{Holds};
ghost use Rattle.label_search.specs.Candidates.{IsCovered, HaveWidth};
ghost use Rattle.label_search.specs.Found.{HasLinks};
ghost use Rattle.label_search.specs.Index.{items_at};
ghost use Rattle.label_search.specs.Linking.{AreByState, IsCoveredBy, IsTold, arrival_of};
ghost use Rattle.label_search.specs.Search.{ComeFromParents, IsCoveredAt, extensions_from, pair_of};

use crate::arrival::Arrival;
use crate::candidate::{Candidate, cover_near};
use crate::index::{add_item, items_of};
use crate::label::Label;
use crate::own::{is_own, own_numbers};
use indexmap::IndexMap;
use preorder::{List, NoMemory, Violation};
use rulebook_order::{StepGraph, VectorOrder};
use std::alloc::Global;

/// The arrivals of each state, by their numbers.
pub fn by_state<G: StepGraph>(
    alloc: Global,
    graph: &G,
    arrivals: &[Arrival<G::State>],
) -> Result<IndexMap<G::State, Vec<Candidate>>, NoMemory>
    ensures { IfOk result (λ index. AreByState arrivals.now (items_at G.State.eq index)) }
{
    let _ = graph;
    let mut index = IndexMap::new(alloc);
    for (number, arrival) in arrivals.iter().enumerate() {
        let vector = Violation::copy_of(alloc, arrival.vector.as_slice())?;
        add_item(
            alloc,
            &mut index,
            &arrival.state,
            Candidate { vector, number },
        )?;
    }
    Ok(index)
}

// The number of a label of the arrival's state that is no worse, and its place among those of the
// state: `own` and `near`, where the label with the number `own` is the arrival itself, and else
// the first from the place `near` on that is no worse.
fn link_to<G: StepGraph, O: VectorOrder>(
    graph: &G,
    order: &O,
    labels: &[Arrival<G::State>],
    index: &IndexMap<G::State, Vec<Candidate>>,
    arrival: &Arrival<G::State>,
    own: u32,
    near: usize,
) -> (u32, usize)
    requires index { AreByState labels.now (items_at G.State.eq index.now) }
    requires widths { HaveWidth (O.rules order.now)
        (items_at G.State.eq index.now arrival.now.state) }
    requires numbers { All (λ x. x.number < 2 ^ 32)
        (items_at G.State.eq index.now arrival.now.state) }
    requires width { length arrival.now.vector ≡ O.rules order.now }
    requires told { IsTold labels.now arrival.now }
    requires covered { IsCovered (O.no_worse order.now)
        (items_at G.State.eq index.now arrival.now.state) arrival.now.vector }
    ensures { (cover : IsCovered (O.no_worse order.now)
        (items_at G.State.eq index.now arrival.now.state) arrival.now.vector)
        × (result.0 ≡ cover.by.number) }
{
    let _ = graph;
    if is_own(labels, own, arrival) {
        return (own, near);
    }
    let candidates = items_of(index, &arrival.state);
    let place = cover_near(order, candidates, arrival.vector.as_slice(), near);
    (candidates[place].number as u32, place)
}

// For each of the arrivals the number of a label of its state that is no worse. Where the arrival is
// a label, `own` has its number.
fn links_to<G: StepGraph, O: VectorOrder>(
    alloc: Global,
    graph: &G,
    order: &O,
    labels: &[Arrival<G::State>],
    index: &IndexMap<G::State, Vec<Candidate>>,
    arrivals: &[Arrival<G::State>],
    own: &[u32],
) -> Result<List<u32>, NoMemory>
    requires by_state { AreByState labels.now (items_at G.State.eq index.now) }
    requires index { (s : G.State) → HaveWidth (O.rules order.now)
        (items_at G.State.eq index.now s) }
    requires numbers { (s : G.State) → All (λ x. x.number < 2 ^ 32)
        (items_at G.State.eq index.now s) }
    requires widths { All (λ x. length x.vector ≡ O.rules order.now) arrivals.now }
    requires told { All (IsTold labels.now) arrivals.now }
    requires own { length own.now ≡ length arrivals.now }
    requires covered { All (λ x. IsCovered (O.no_worse order.now)
        (items_at G.State.eq index.now x.state) x.vector) arrivals.now }
    ensures count { IfOk result (λ links. length links ≡ length arrivals.now) }
    ensures covers { IfOk result (λ links. (j : ℕ) (x : _) → slice_get arrivals.now j ≡ Some x
        → IsCoveredBy (O.no_worse order.now)
        (items_at G.State.eq index.now x.state) links j x.vector) }
{
    let mut links = List::new(alloc);
    let mut near = 0;
    for (place, arrival) in arrivals.iter().enumerate() {
        let found = link_to(graph, order, labels, index, arrival, own[place], near);
        links.push(found.0)?;
        near = found.1;
    }
    Ok(links)
}

/// The labels with their links.
pub fn with_links<G: StepGraph, O: VectorOrder>(
    alloc: Global,
    graph: &G,
    order: &O,
    index: &IndexMap<G::State, Vec<Candidate>>,
    arrivals: &[Arrival<G::State>],
    extensions: &[Arrival<G::State>],
) -> Result<List<Label<G::State>>, NoMemory>
    requires order { (G.graph graph.now).width ≡ O.rules order.now }
    requires index { AreByState arrivals.now (items_at G.State.eq index.now) }
    requires fits { length arrivals.now ≤ 2 ^ 32 }
    requires parents { ComeFromParents (G.graph graph.now) arrivals.now }
    requires reached { All (λ x. IsReached (G.graph graph.now) x.state x.vector) arrivals.now }
    requires extensions { extensions.now ≡ extensions_from (G.graph graph.now) 0 arrivals.now }
    requires covered { All
        (λ x. IsCoveredAt (O.no_worse order.now) arrivals.now x.state x.vector) extensions.now }
    ensures arrivals { IfOk result (λ labels. map arrival_of labels ≡ arrivals.now) }
    ensures links { IfOk result (λ labels. All (HasLinks (G.graph graph.now)
        (Holds (O.no_worse order.now)) (map pair_of arrivals.now)) labels) }
{
    let own = own_numbers(alloc, graph, arrivals, extensions.len())?;
    let mut labels = List::new(alloc);
    let mut next = 0;
    for arrival in arrivals {
        let end = next + graph.choices(&arrival.state);
        let reached = &extensions[next..end];
        let links = links_to(
            alloc,
            graph,
            order,
            arrivals,
            index,
            reached,
            &own[next..end],
        )?;
        labels.push(Label {
            state: arrival.state,
            vector: Violation::copy_of(alloc, arrival.vector.as_slice())?,
            parent: arrival.parent,
            choice: arrival.choice,
            links,
        })?;
        next = end;
    }
    Ok(labels)
}
