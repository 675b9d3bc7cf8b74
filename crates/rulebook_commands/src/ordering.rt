//! Fronts and searches by the fastest order that the rules of a book have: `ChainOrder` where of two
//! rules one is above the other, `ParetoOrder` where none is above another, and else `RankOrder`. All
//! three are the relation of the pre-order.

ghost use Rattle.std.specs.Prelude.{◌≡◌, ◌<◌, ◌≤◌, length, All, IfOk, IfErr};
ghost use Rattle.preorder.specs.Preorder.{rules_of};
ghost use Rattle.rule_language.specs.Books.{IsBook};
ghost use Rattle.rulebook_order.specs.Answer.{HasMoreUndominated};
ghost use Rattle.rulebook_order.specs.Front.{IsFront, vectors_of};
ghost use Rattle.rulebook_order.specs.NoWorseBy.{no_worse_by};
ghost use Rattle.rulebook_order.specs.VectorOrder.{Holds};
ghost use Rattle.label_search.specs.Found.{IfTooMany};
ghost use Rattle.domination_proof.specs.Shown.{IsShown};
ghost use Rattle.maneuver_lattice.specs.Moves.{scene_of};
ghost use Rattle.bound_scene.specs.BoundScenes.{graph_at};
ghost use Rattle.check_command.specs.Certificates.{IsOrderOf};

use bound_scene::Graph;
use domination_proof::MAX_LABELS;
use label_search::{Found, SearchFault};
use maneuver_lattice::LatticeState;
use preorder::{List, NoMemory, Preorder, Row};
use rule_language::Book;
use rulebook_order::{ChainOrder, ParetoOrder, RankOrder, Steps, VectorOrder, front_of};
use std::alloc::Global;
use std::sync::ledger::{Blank, Ledger};
use table_search::search_by_table;

/// The rules of a book, ordered by its statements.
pub fn rules_by(book: &Book) -> Preorder
    requires { IsBook book.now }
    ensures { IsOrderOf book.now result }
{
    book.order()
}

/// The places of the rows that no row beats, of equal ones the first.
pub fn front_by(alloc: Global, rules: &Preorder, rows: &[Row]) -> Result<List<usize>, NoMemory>
    requires { All (λ row. length row.values ≡ rules_of rules.now) rows.now }
    ensures { IfOk result (IsFront (Holds (no_worse_by rules.now)) (vectors_of rows.now)) }
{
    if let Some(chain) = ChainOrder::new(rules) {
        return front_of(alloc, &chain, rows);
    }
    if let Some(pareto) = ParetoOrder::new(rules) {
        return front_of(alloc, &pareto, rows);
    }
    let ranks = RankOrder::new(rules);
    front_of(alloc, &ranks, rows)
}

// What a search by an order finds. Steps are counted in a ledger that begins with this blank.
fn searched_by<O: VectorOrder, L: Ledger>(
    alloc: Global,
    blank: Blank,
    graph: &Graph<'_>,
    order: &O,
) -> Result<Found<LatticeState>, SearchFault>
    requires name { blank.name ≡ L.name }
    requires parts { blank.parts ≡ L.parts }
    requires some { 0 < blank.parts }
    requires order { (graph_at
        (scene_of graph.now.moves) graph.now.source.now graph.now.bound.now).width
        ≡ O.rules order.now }
    ensures shown { IfOk result (λ found. IsShown
        (graph_at (scene_of graph.now.moves) graph.now.source.now graph.now.bound.now)
        (Holds (O.no_worse order.now)) found) }
    ensures within { IfOk result (λ found. length found.labels ≤ MAX_LABELS) }
    ensures few { IfOk result (λ _. ¬ HasMoreUndominated
        (graph_at (scene_of graph.now.moves) graph.now.source.now graph.now.bound.now)
        (Holds (O.no_worse order.now)) MAX_LABELS) }
    ensures many { IfErr result (IfTooMany (HasMoreUndominated
        (graph_at (scene_of graph.now.moves) graph.now.source.now graph.now.bound.now)
        (Holds (O.no_worse order.now)) MAX_LABELS)) }
{
    let mut steps = Steps::<L>::new(blank);
    search_by_table(alloc, graph, order, MAX_LABELS, &mut steps)
}

/// What a search over the graph's table finds. Steps are counted in a ledger that begins with this
/// blank.
pub fn searched<L: Ledger>(
    alloc: Global,
    blank: Blank,
    graph: &Graph<'_>,
    rules: &Preorder,
) -> Result<Found<LatticeState>, SearchFault>
    requires name { blank.name ≡ L.name }
    requires parts { blank.parts ≡ L.parts }
    requires some { 0 < blank.parts }
    requires order { (graph_at
        (scene_of graph.now.moves) graph.now.source.now graph.now.bound.now).width
        ≡ rules_of rules.now }
    ensures shown { IfOk result (λ found. IsShown
        (graph_at (scene_of graph.now.moves) graph.now.source.now graph.now.bound.now)
        (Holds (no_worse_by rules.now)) found) }
    ensures within { IfOk result (λ found. length found.labels ≤ MAX_LABELS) }
    ensures few { IfOk result (λ _. ¬ HasMoreUndominated
        (graph_at (scene_of graph.now.moves) graph.now.source.now graph.now.bound.now)
        (Holds (no_worse_by rules.now)) MAX_LABELS) }
    ensures many { IfErr result (IfTooMany (HasMoreUndominated
        (graph_at (scene_of graph.now.moves) graph.now.source.now graph.now.bound.now)
        (Holds (no_worse_by rules.now)) MAX_LABELS)) }
{
    if let Some(chain) = ChainOrder::new(rules) {
        return searched_by::<ChainOrder, L>(alloc, blank, graph, &chain);
    }
    if let Some(pareto) = ParetoOrder::new(rules) {
        return searched_by::<ParetoOrder, L>(alloc, blank, graph, &pareto);
    }
    let ranks = RankOrder::new(rules);
    searched_by::<RankOrder, L>(alloc, blank, graph, &ranks)
}
