//! Laws above the definitions, each the contract of a function that does nothing.

ghost use Rattle.std.specs.Prelude.{ℕ, ◌≤◌, List, length};
ghost use Rattle.rulebook_order.specs.Answer.{AreUndominated, HasMoreUndominated};
ghost use Rattle.rulebook_order.specs.VectorOrder.{Holds};

use rulebook_order::{StepGraph, VectorOrder};

/// There are not both no more undominated pairs than a limit and more than it: which of the two a
/// search gives is given by the graph, the order and the limit.
pub fn limit_is_exact<G: StepGraph, O: VectorOrder>(graph: &G, order: &O)
    ensures { (pairs : List (G.State × List ℕ)) (limit : ℕ)
        → AreUndominated (G.graph graph.now) (Holds (O.no_worse order.now)) pairs
        → length pairs ≤ limit → HasMoreUndominated (G.graph graph.now)
        (Holds (O.no_worse order.now)) limit → ⊥ }
{
    let _ = graph;
    let _ = order;
}
