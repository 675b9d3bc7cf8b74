ghost use Rattle.std.specs.Prelude.{◌≡◌, ◌≢◌, ◌+◌, ◌<◌, ◌≤◌, ◌^◌, ℕ, ◌&&◌, nat_le, true, false};
ghost use Rattle.std.specs.Prelude.{length, All, slice_index};
ghost use Rattle.rulebook_order.specs.VectorOrder.{Holds};
ghost use Rattle.trajectory_judge.specs.Layers.{IsLayerOf, beats};
ghost use Rattle.trajectory_judge.specs.Peeling.{AreAlike, is_beaten, layers_of, raised};
ghost use Rattle.trajectory_judge.specs.Peeling.{vectors_of};

use crate::judged::Judged;
use preorder::List;
use rulebook_order::VectorOrder;

// Whether one vector beats the other.
fn beats<O: VectorOrder>(order: &O, x: &[u64], y: &[u64]) -> bool
    requires x { length x.now ≡ O.rules order.now }
    requires y { length y.now ≡ O.rules order.now }
    ensures { result ≡ beats (O.no_worse order.now) x.now y.now }
{
    order.no_worse(x, y) && !order.no_worse(y, x)
}

// Whether a recording is left and beats the vector.
fn still_beats<O: VectorOrder>(order: &O, other: &Judged, round: u32, vector: &[u64]) -> bool
    requires other { length other.now.vector ≡ O.rules order.now }
    requires vector { length vector.now ≡ O.rules order.now }
    ensures { result ≡ (nat_le round other.now.layer
        && beats (O.no_worse order.now) other.now.vector vector.now) }
{
    other.layer >= round && beats(order, other.vector.as_slice(), vector)
}

// Whether one of those that are left beats recording `i`.
fn is_beaten<O: VectorOrder>(order: &O, runs: &[Judged], round: u32, i: usize) -> bool
    requires width { All (λ run. length run.vector ≡ O.rules order.now) runs.now }
    requires inside { i < length runs.now }
    ensures { result ≡ is_beaten (O.no_worse order.now) (vectors_of runs.now)
        (layers_of runs.now) round i }
{
    let vector = runs[i].vector.as_slice();
    for other in runs {
        if still_beats(order, other, round, vector) {
            return true;
        }
    }
    false
}

// Gives recording `i` the next layer where it is left and one of those that are left beats it, and
// says whether that is so.
fn raise_one<O: VectorOrder>(order: &O, runs: &mut List<Judged>, round: u32, i: usize) -> bool
    requires width { All (λ run. length run.vector ≡ O.rules order.now) runs.old }
    requires inside { i < length runs.old }
    requires round { round + 1 < 2 ^ 32 }
    ensures alike { AreAlike runs.old runs.new }
    ensures here { slice_index (layers_of runs.new) i
        ≡ raised (O.no_worse order.now) (vectors_of runs.old) (layers_of runs.old) round i }
    ensures others { (k : ℕ) → k ≢ i → slice_index (layers_of runs.new) k
        ≡ slice_index (layers_of runs.old) k }
    ensures none { result ≡ false → layers_of runs.new ≡ layers_of runs.old }
    ensures some { result ≡ true → slice_index (layers_of runs.old) i ≡ round }
{
    if runs.as_slice()[i].layer != round || !is_beaten(order, runs.as_slice(), round, i) {
        return false;
    }
    runs.at_mut(i).layer = round + 1;
    true
}

// Gives each of those that are left the next layer, where another of them beats it, and says
// whether there was one.
fn raise<O: VectorOrder>(order: &O, runs: &mut List<Judged>, round: u32) -> bool
    requires width { All (λ run. length run.vector ≡ O.rules order.now) runs.old }
    requires round { round + 1 < 2 ^ 32 }
    ensures alike { AreAlike runs.old runs.new }
    ensures raised { (i : ℕ) → i < length runs.old → slice_index (layers_of runs.new) i
        ≡ raised (O.no_worse order.now) (vectors_of runs.old) (layers_of runs.old) round i }
    ensures none { result ≡ false → layers_of runs.new ≡ layers_of runs.old }
    ensures some { result ≡ true → (i : ℕ) × (i < length runs.old)
        × (slice_index (layers_of runs.old) i ≡ round) }
{
    let mut is_raised = false;
    for i in 0..runs.as_slice().len() {
        is_raised = raise_one(order, runs, round, i) || is_raised;
    }
    is_raised
}

/// Finds the layer of each recording by peeling off fronts.
pub fn peel<O: VectorOrder>(order: &O, runs: &mut List<Judged>)
    requires width { All (λ run. length run.vector ≡ O.rules order.now) runs.old }
    requires first { All (λ run. run.layer ≡ 0) runs.old }
    requires few { length runs.old + 1 < 2 ^ 32 }
    ensures alike { AreAlike runs.old runs.new }
    ensures layers { (i : ℕ) → i < length runs.old
        → IsLayerOf (Holds (O.no_worse order.now)) (vectors_of runs.new) i
        (slice_index (layers_of runs.new) i) }
{
    let mut round = 0;
    while raise(order, runs, round) {
        round += 1;
    }
}
