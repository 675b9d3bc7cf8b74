ghost use Rattle.std.specs.Prelude.{◌≡◌, ◌<◌, ◌≤◌, length, All, IfOk, IfErr};
ghost use Rattle.graph_table.specs.Tables.{IsTableOf};
ghost use Rattle.label_search.specs.Found.{pairs_of, HaveParents, HasLinks, AreFinals};
ghost use Rattle.label_search.specs.Found.{AreGoalLinks, IfTooMany};
ghost use Rattle.label_search.specs.declared.searching.TheConstants.{MAX_LIMIT};
ghost use Rattle.rulebook_order.specs.Answer.{AreUndominated, HasMoreUndominated};
ghost use Rattle.rulebook_order.specs.VectorOrder.{Holds};

use crate::relabeling::labels_at;
use graph_table::{Table, TableFault, states_have_pairs, table_of};
use label_search::{Found, SearchFault, search};
use rulebook_order::{StepGraph, Steps, VectorOrder};
use std::alloc::Global;
use std::sync::ledger::Ledger;

// What a search of the table finds, at the states of the graph.
fn search_table<G: StepGraph, O: VectorOrder, L: Ledger>(
    alloc: Global,
    graph: &G,
    table: &Table<G::State>,
    order: &O,
    limit: usize,
    steps: &mut Steps<L>,
) -> Result<Found<G::State>, SearchFault>
    requires table { IsTableOf (G.graph graph.now) table.now.states table.now.entries }
    requires order { (G.graph graph.now).width ≡ O.rules order.now }
    requires low { 0 < limit }
    requires high { limit ≤ MAX_LIMIT }
    ensures labels { IfOk result (λ found. AreUndominated (G.graph graph.now)
        (Holds (O.no_worse order.now)) (pairs_of found.labels)) }
    ensures parents { IfOk result (λ found. HaveParents (G.graph graph.now) found.labels) }
    ensures links { IfOk result (λ found. All (HasLinks (G.graph graph.now)
        (Holds (O.no_worse order.now)) (pairs_of found.labels)) found.labels) }
    ensures finals { IfOk result (λ found. AreFinals (G.graph graph.now)
        (Holds (O.no_worse order.now)) (pairs_of found.labels) found.finals) }
    ensures goal_links { IfOk result (λ found. AreGoalLinks (G.graph graph.now)
        (Holds (O.no_worse order.now)) (pairs_of found.labels) found.finals found.goal_links) }
    ensures within { IfOk result (λ found. length found.labels ≤ limit) }
    ensures not_too_many { IfOk result (λ _. ¬ HasMoreUndominated (G.graph graph.now)
        (Holds (O.no_worse order.now)) limit) }
    ensures too_many { IfErr result (IfTooMany (HasMoreUndominated (G.graph graph.now)
        (Holds (O.no_worse order.now)) limit)) }
{
    let found = search(alloc, table, order, limit, steps)?;
    let labels = labels_at(alloc, table, found.labels.as_slice())?;
    Ok(Found {
        labels,
        finals: found.finals,
        goal_links: found.goal_links,
    })
}

/// Searches the graph over its table, in which each state that some list of choices reaches stands
/// once, with what its choices lead to and add: its labels, finals and links are what `search` of
/// `label_search` gives by its clauses, and so is the refusal.
///
/// `limit` is the most labels that there may be, from 1 to `MAX_LIMIT`; `TooManyLabels` comes
/// exactly where there are more undominated pairs. The graph and the order have one width. It takes
/// memory for the table and for the labels.
pub fn search_by_table<G: StepGraph, O: VectorOrder, L: Ledger>(
    alloc: Global,
    graph: &G,
    order: &O,
    limit: usize,
    steps: &mut Steps<L>,
) -> Result<Found<G::State>, SearchFault>
    requires order { (G.graph graph.now).width ≡ O.rules order.now }
    requires low { 0 < limit }
    requires high { limit ≤ MAX_LIMIT }
    ensures labels { IfOk result (λ found. AreUndominated (G.graph graph.now)
        (Holds (O.no_worse order.now)) (pairs_of found.labels)) }
    ensures parents { IfOk result (λ found. HaveParents (G.graph graph.now) found.labels) }
    ensures links { IfOk result (λ found. All (HasLinks (G.graph graph.now)
        (Holds (O.no_worse order.now)) (pairs_of found.labels)) found.labels) }
    ensures finals { IfOk result (λ found. AreFinals (G.graph graph.now)
        (Holds (O.no_worse order.now)) (pairs_of found.labels) found.finals) }
    ensures goal_links { IfOk result (λ found. AreGoalLinks (G.graph graph.now)
        (Holds (O.no_worse order.now)) (pairs_of found.labels) found.finals found.goal_links) }
    ensures within { IfOk result (λ found. length found.labels ≤ limit) }
    ensures not_too_many { IfOk result (λ _. ¬ HasMoreUndominated (G.graph graph.now)
        (Holds (O.no_worse order.now)) limit) }
    ensures too_many { IfErr result (IfTooMany (HasMoreUndominated (G.graph graph.now)
        (Holds (O.no_worse order.now)) limit)) }
{
    states_have_pairs(graph, order);
    match table_of(alloc, graph, limit, steps) {
        Ok(table) => search_table(alloc, graph, &table, order, limit, steps),
        Err(TableFault::TooManyStates) => Err(SearchFault::TooManyLabels),
        Err(TableFault::NoMemory) => Err(SearchFault::NoMemory),
    }
}
