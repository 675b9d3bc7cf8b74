ghost use Rattle.std.specs.Prelude.{◌≡◌, ◌+◌, ◌*◌, ◌^◌, ◌<◌, ◌≤◌, ℕ, length, All, map, IfOk, IfErr};
ghost use Rattle.rulebook_order.specs.Answer.{AreUndominated, HasMoreUndominated};
ghost use Rattle.rulebook_order.specs.VectorOrder.{Holds};
ghost use Rattle.label_search.specs.Found.{pairs_of, HaveParents, HasLinks, AreFinals};
ghost use Rattle.label_search.specs.Found.{AreGoalLinks, HasChoicesUpTo, UnlessNoMemory, IfTooMany};
ghost use Rattle.label_search.specs.Limit.{StepsWithin};
ghost use Rattle.label_search.specs.Linking.{arrival_of};
ghost use Rattle.label_search.specs.Search.{IsSearched, pair_of};
ghost use Rattle.label_search.specs.declared.searching.TheConstants.{MAX_LIMIT};

use crate::finals::{finals_of, goal_links_of, numbers_of};
use crate::label::{Found, Label, SearchFault};
use crate::linking::{by_state, with_links};
use crate::tick_search::{Searched, search_labels};
use preorder::{List, NoMemory};
use rulebook_order::{StepGraph, Steps, VectorOrder};
use std::alloc::Global;
use std::sync::ledger::Ledger;

/// The greatest limit that a search may be given.
pub const MAX_LIMIT: usize = 1_000_000;

// The labels with their links.
fn labels_with_links<G: StepGraph, O: VectorOrder>(
    alloc: Global,
    graph: &G,
    order: &O,
    searched: &Searched<G::State>,
) -> Result<List<Label<G::State>>, NoMemory>
    requires order { (G.graph graph.now).width ≡ O.rules order.now }
    requires fits { length searched.now.labels.items ≤ 2 ^ 32 }
    requires searched { IsSearched (G.graph graph.now) (O.no_worse order.now)
        ((G.graph graph.now).last + 1) searched.now.labels.items searched.now.extensions.items }
    ensures arrivals { IfOk result (λ labels. map arrival_of labels ≡ searched.now.labels.items) }
    ensures links { IfOk result (λ labels. All (HasLinks (G.graph graph.now)
        (Holds (O.no_worse order.now)) (map pair_of searched.now.labels.items)) labels) }
{
    let labels = searched.labels.as_slice();
    let extensions = searched.extensions.as_slice();
    let index = by_state(alloc, graph, labels)?;
    with_links(alloc, graph, order, &index, labels, extensions)
}

// The finals and the goal links.
fn finals_with_links<G: StepGraph, O: VectorOrder>(
    alloc: Global,
    graph: &G,
    order: &O,
    searched: &Searched<G::State>,
) -> Result<(List<u32>, List<u32>), NoMemory>
    requires order { (G.graph graph.now).width ≡ O.rules order.now }
    requires fits { length searched.now.labels.items ≤ 2 ^ 32 }
    requires searched { IsSearched (G.graph graph.now) (O.no_worse order.now)
        ((G.graph graph.now).last + 1) searched.now.labels.items searched.now.extensions.items }
    ensures finals { IfOk result (λ found. AreFinals (G.graph graph.now)
        (Holds (O.no_worse order.now)) (map pair_of searched.now.labels.items) found.0) }
    ensures goal_links { IfOk result (λ found. AreGoalLinks (G.graph graph.now)
        (Holds (O.no_worse order.now)) (map pair_of searched.now.labels.items) found.0 found.1) }
{
    let labels = searched.labels.as_slice();
    let finals = finals_of(alloc, graph, order, labels)?;
    let links = goal_links_of(alloc, graph, order, labels, finals.as_slice())?;
    let numbers = numbers_of(alloc, finals.as_slice())?;
    Ok((numbers, links))
}

// What was searched, with links, finals and goal links.
fn linked<G: StepGraph, O: VectorOrder>(
    alloc: Global,
    graph: &G,
    order: &O,
    searched: &Searched<G::State>,
) -> Result<Found<G::State>, NoMemory>
    requires order { (G.graph graph.now).width ≡ O.rules order.now }
    requires fits { length searched.now.labels.items ≤ 2 ^ 32 }
    requires searched { IsSearched (G.graph graph.now) (O.no_worse order.now)
        ((G.graph graph.now).last + 1) searched.now.labels.items searched.now.extensions.items }
    ensures labels { IfOk result (λ found. AreUndominated (G.graph graph.now)
        (Holds (O.no_worse order.now)) (pairs_of found.labels)) }
    ensures parents { IfOk result (λ found. HaveParents (G.graph graph.now) found.labels) }
    ensures links { IfOk result (λ found. All (HasLinks (G.graph graph.now)
        (Holds (O.no_worse order.now)) (pairs_of found.labels)) found.labels) }
    ensures finals { IfOk result (λ found. AreFinals (G.graph graph.now)
        (Holds (O.no_worse order.now)) (pairs_of found.labels) found.finals) }
    ensures goal_links { IfOk result (λ found. AreGoalLinks (G.graph graph.now)
        (Holds (O.no_worse order.now)) (pairs_of found.labels) found.finals found.goal_links) }
    ensures count { IfOk result (λ found. length found.labels ≡ length searched.now.labels.items) }
{
    let labels = labels_with_links(alloc, graph, order, searched)?;
    let (finals, goal_links) = finals_with_links(alloc, graph, order, searched)?;
    Ok(Found {
        labels,
        finals,
        goal_links,
    })
}

/// Searches the graph: one label for each undominated pair of a state and a running vector, parents
/// first, the finals among them, and the links that show that nothing is missing.
///
/// `limit` is the most labels that there may be, from 1 to `MAX_LIMIT`; `TooManyLabels` comes
/// exactly where there are more undominated pairs. The graph and the order have one width. One step
/// is counted for each extension that is made: no more than the choices of undominated pairs, each
/// once, of which there are no more than the limit. It takes memory.
pub fn search<G: StepGraph, O: VectorOrder, L: Ledger>(
    alloc: Global,
    graph: &G,
    order: &O,
    limit: usize,
    steps: &mut Steps<L>,
) -> Result<Found<G::State>, SearchFault>
    requires order { (G.graph graph.now).width ≡ O.rules order.now }
    requires low { 0 < limit }
    requires high { limit ≤ MAX_LIMIT }
    ensures labels { IfOk result (λ found. AreUndominated (G.graph graph.now)
        (Holds (O.no_worse order.now)) (pairs_of found.labels)) }
    ensures parents { IfOk result (λ found. HaveParents (G.graph graph.now) found.labels) }
    ensures links { IfOk result (λ found. All (HasLinks (G.graph graph.now)
        (Holds (O.no_worse order.now)) (pairs_of found.labels)) found.labels) }
    ensures finals { IfOk result (λ found. AreFinals (G.graph graph.now)
        (Holds (O.no_worse order.now)) (pairs_of found.labels) found.finals) }
    ensures goal_links { IfOk result (λ found. AreGoalLinks (G.graph graph.now)
        (Holds (O.no_worse order.now)) (pairs_of found.labels) found.finals found.goal_links) }
    ensures within { IfOk result (λ found. length found.labels ≤ limit) }
    ensures not_too_many { IfOk result (λ _. ¬ HasMoreUndominated (G.graph graph.now)
        (Holds (O.no_worse order.now)) limit) }
    ensures too_many { IfErr result (IfTooMany (HasMoreUndominated (G.graph graph.now)
        (Holds (O.no_worse order.now)) limit)) }
    ensures steps { UnlessNoMemory result (StepsWithin (G.graph graph.now)
        (Holds (O.no_worse order.now)) limit steps.old steps.new) }
    ensures steps_each { UnlessNoMemory result ((most : ℕ) → HasChoicesUpTo (G.graph graph.now) most
        → steps.new ≤ steps.old + limit * most) }
{
    match search_labels(alloc, graph, order, limit, steps)? {
        None => Err(SearchFault::TooManyLabels),
        Some(searched) => Ok(linked(alloc, graph, order, &searched)?),
    }
}
