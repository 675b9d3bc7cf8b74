//! Laws above the definitions, each the contract of a function that does nothing.

ghost use Rattle.std.specs.Prelude.{◌≡◌, ◌↔◌, ◌≤◌, ℕ, Bool, List, length};
ghost use Rattle.rulebook_order.specs.Answer.{HasMoreUndominated, IsAnswerList, IsUndominated};
ghost use Rattle.rulebook_order.specs.Graph.{IsStateOf, finished};
ghost use Rattle.rulebook_order.specs.VectorOrder.{Holds};
ghost use Rattle.graph_table.specs.Alike.{ReachAlike};
ghost use Rattle.graph_table.specs.declared.state.TableState.{TableState};
ghost use Rattle.graph_table.specs.Tables.{AreReached, HasMoreStates, IsAt, IsTableOf, table_graph};

use crate::table::Table;
use rulebook_order::{StepGraph, VectorOrder};

/// A list of choices applies to a table exactly where it applies to its graph, with the same
/// vector, and reaches a state that stands for the graph's, with the same goals and the same end.
/// Different states of the table stand for different states.
pub fn lists_reach_alike<G: StepGraph>(graph: &G, table: &Table<G::State>)
    requires { IsTableOf (G.graph graph.now) table.now.states table.now.entries }
    ensures reach { ReachAlike (G.graph graph.now) (table_graph table.now.entries)
        (IsAt table.now.states) }
    ensures goal { (s : G.State) (t : TableState) → IsAt table.now.states s t
        → (G.graph graph.now).goal s ≡ (table_graph table.now.entries).goal t }
    ensures end { (s : G.State) (t : TableState) (v : List ℕ) → IsAt table.now.states s t
        → finished (G.graph graph.now) s v ≡ finished (table_graph table.now.entries) t v }
    ensures one { (s : G.State) (t u : TableState) → IsAt table.now.states s t
        → IsAt table.now.states s u → t ≡ u }
{
    let _ = graph;
    let _ = table;
}

/// What is the answer over a table is the answer over its graph, and the undominated pairs are the
/// same, for any notion of "no worse". Where the table has more of them than a limit, so has the
/// graph.
pub fn answers_are_alike<G: StepGraph>(graph: &G, table: &Table<G::State>)
    requires { IsTableOf (G.graph graph.now) table.now.states table.now.entries }
    ensures answers { (no_worse : List ℕ → List ℕ → Bool) (vectors : List (List ℕ))
        → IsAnswerList (table_graph table.now.entries) (Holds no_worse) vectors
        → IsAnswerList (G.graph graph.now) (Holds no_worse) vectors }
    ensures pairs { (no_worse : List ℕ → List ℕ → Bool) (s : G.State) (t : TableState)
        (v : List ℕ) → IsAt table.now.states s t
        → IsUndominated (G.graph graph.now) (Holds no_worse) s v
        ↔ IsUndominated (table_graph table.now.entries) (Holds no_worse) t v }
    ensures many { (no_worse : List ℕ → List ℕ → Bool) (limit : ℕ)
        → HasMoreUndominated (table_graph table.now.entries) (Holds no_worse) limit
        → HasMoreUndominated (G.graph graph.now) (Holds no_worse) limit }
{
    let _ = graph;
    let _ = table;
}

/// There are not both no more states than a limit and more than it: which of the two a table's
/// making finds is given by the graph.
pub fn limit_is_exact<G: StepGraph>(graph: &G)
    ensures { (states : List G.State) (limit : ℕ) → AreReached (G.graph graph.now) states
        → length states ≤ limit → HasMoreStates (G.graph graph.now) limit → ⊥ }
{
    let _ = graph;
}

/// Each state that some list of choices reaches has an undominated pair. So a graph with more states
/// than a limit has more undominated pairs than it.
pub fn states_have_pairs<G: StepGraph, O: VectorOrder>(graph: &G, order: &O)
    requires { (G.graph graph.now).width ≡ O.rules order.now }
    ensures pair { (s : G.State) → IsStateOf (G.graph graph.now) s → (v : List ℕ)
        × IsUndominated (G.graph graph.now) (Holds (O.no_worse order.now)) s v }
    ensures many { (limit : ℕ) → HasMoreStates (G.graph graph.now) limit
        → HasMoreUndominated (G.graph graph.now) (Holds (O.no_worse order.now)) limit }
{
    let _ = graph;
    let _ = order;
}
