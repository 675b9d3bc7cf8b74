ghost use Rattle.std.specs.Prelude.{◌≡◌, ◌+◌, ◌<◌, ◌^◌, ℕ, length, slice_index};
ghost use Rattle.rulebook_order.specs.Sums.{sums};

use preorder::Violation;

/// Adds a vector to another, number by number. The sums have to fit.
pub fn add_vector(cost: &mut Violation, vector: &Violation)
    requires width { length vector.now ≡ length cost.old }
    requires fits { (i : ℕ) → i < length cost.old
        → slice_index cost.old i + slice_index vector.now i < 2 ^ 64 }
    ensures { cost.new ≡ sums cost.old vector.now }
{
    for (i, amount) in vector.as_slice().iter().enumerate() {
        cost.add_at(i, *amount);
    }
}
