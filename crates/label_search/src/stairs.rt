//! Candidates that go down like stairs: what comes next to them is known from the last one.

ghost use Rattle.std.specs.Prelude.{◌≡◌, ◌⊎◌, ◌++◌, ◌∷◌, [], ℕ, List, length, Contains, IfOk, IsTrue};
ghost use Rattle.rulebook_order.specs.Trade.{IsTradeOff};
ghost use Rattle.label_search.specs.Candidates.{IsCovered, StandApart, HaveWidth};
ghost use Rattle.label_search.specs.Stairs.{IsStep, ComesNext, AreStairsBy};

use crate::candidate::{Candidate, put};
use preorder::NoMemory;
use rulebook_order::VectorOrder;
use std::alloc::Global;

// Whether `y` has more of the first number and less of the second.
fn is_step(x: &[u64], y: &[u64]) -> bool
    requires x { length x.now ≡ 2 }
    requires y { length y.now ≡ 2 }
    ensures { IsTrue result → IsStep x.now y.now }
{
    x[0] < y[0] && y[1] < x[1]
}

/// Whether candidates are stairs and the vector is a step further than each of them.
pub fn comes_next<O: VectorOrder>(
    order: &O,
    stairs: bool,
    candidates: &[Candidate],
    vector: &[u64],
) -> bool
    requires stairs { IsTrue stairs
        → AreStairsBy (O.rules order.now) (O.no_worse order.now) candidates.now }
    requires widths { HaveWidth (O.rules order.now) candidates.now }
    requires width { length vector.now ≡ O.rules order.now }
    ensures { IsTrue result → IsTrue stairs × ComesNext candidates.now vector.now }
{
    let _ = order;
    if !stairs {
        return false;
    }
    let count = candidates.len();
    if count == 0 {
        return true;
    }
    is_step(candidates[count - 1].vector.as_slice(), vector)
}

// Whether the last candidate is no worse than the vector.
fn last_covers<O: VectorOrder>(order: &O, candidates: &[Candidate], vector: &[u64]) -> bool
    requires widths { HaveWidth (O.rules order.now) candidates.now }
    requires width { length vector.now ≡ O.rules order.now }
    ensures { IsTrue result → IsCovered (O.no_worse order.now) candidates.now vector.now }
{
    let count = candidates.len();
    if count == 0 {
        return false;
    }
    order.no_worse(candidates[count - 1].vector.as_slice(), vector)
}

/// Whether candidates that are stairs still are, where the vector comes to them.
pub fn stay_stairs<O: VectorOrder>(
    order: &O,
    stairs: bool,
    next: bool,
    candidates: &[Candidate],
    vector: &[u64],
) -> bool
    requires widths { HaveWidth (O.rules order.now) candidates.now }
    requires width { length vector.now ≡ O.rules order.now }
    requires next { IsTrue next → IsTrue stairs }
    ensures { IsTrue result → IsTrue stairs
        × (IsTrue next ⊎ IsCovered (O.no_worse order.now) candidates.now vector.now) }
{
    if next {
        return true;
    }
    if !stairs {
        return false;
    }
    last_covers(order, candidates, vector)
}

/// The candidates that are left where a new one comes to them, as `put`: at their end where it
/// comes next to stairs.
pub fn put_in_turn<O: VectorOrder>(
    alloc: Global,
    order: &O,
    candidates: Vec<Candidate>,
    new: Candidate,
    next: bool,
) -> Result<Vec<Candidate>, NoMemory>
    requires widths { HaveWidth (O.rules order.now) candidates.items }
    requires width { length new.vector ≡ O.rules order.now }
    requires apart { StandApart (O.no_worse order.now) candidates.items }
    requires next { IsTrue next → IsTradeOff (O.rules order.now) (O.no_worse order.now)
        × ComesNext candidates.items new.vector }
    ensures apart { IfOk result (λ left. StandApart (O.no_worse order.now) left.items) }
    ensures from { IfOk result (λ left. (x : _) → Contains left.items x
        → Contains candidates.items x ⊎ (new ≡ x)) }
    ensures covers { IfOk result (λ left. IsCovered (O.no_worse order.now) left.items new.vector) }
    ensures keeps { IfOk result (λ left. (v : List ℕ) → length v ≡ O.rules order.now
        → IsCovered (O.no_worse order.now) candidates.items v
        → IsCovered (O.no_worse order.now) left.items v) }
    ensures pushed { IfOk result (λ left. IsTrue next
        → left.items ≡ candidates.items ++ new ∷ []) }
    ensures same { IfOk result (λ left. IsCovered (O.no_worse order.now) candidates.items new.vector
        → left.items ≡ candidates.items) }
{
    if !next {
        return put(alloc, order, candidates, new);
    }
    let mut left = candidates;
    left.push(new)?;
    Ok(left)
}
