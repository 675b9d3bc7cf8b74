ghost use Rattle.std.specs.Prelude.{◌≡◌, ◌≤◌, ◌<◌, ◌+◌, ◌^◌, length, replicate, slice_index};
ghost use Rattle.std.specs.Prelude.{slice_set, IfOk, IsOk, IsTrue, ◌↔◌};
ghost use Rattle.preorder.specs.Violation.{IsWidth};

use crate::memory::NoMemory;
use smallvec::SmallVec;
use std::alloc::Global;
use std::marker::Model;

/// The violations of 1 to `MAX_RULES` rules, in the rules' order: how much a trajectory violates
/// each, where 0 is not at all.
#[derive(Drop)]
pub struct Violation {
    values: SmallVec<u64, 8>,
}

impl Model for Violation {
    ghost use Rattle.std.specs.Prelude.{List, ℕ, length};
    ghost use Rattle.preorder.specs.Violation.{IsWidth};

    ghost Value = { List ℕ };

    ghost view = { λ v. v.values.items };

    ghost invariant = { λ v. IsWidth (length v.values.items) };
}

impl Violation {
    /// The vector of this many zeros. Up to eight stand in place and are never refused.
    pub fn zeros(alloc: Global, width: usize) -> Result<Violation, NoMemory>
        requires { IsWidth width }
        ensures ok { IfOk result (λ v. v ≡ replicate width 0) }
        ensures in_place { width ≤ 8 → IsOk result }
    {
        Ok(Violation {
            values: SmallVec::from_elem(alloc, 0, width)?,
        })
    }

    /// The violations, in the rules' order.
    pub fn as_slice(&self) -> &[u64]
        ensures value { result.now ≡ self.now }
        ensures width { IsWidth (length self.now) }
    {
        self.values.as_slice()
    }

    /// The vector of these violations. Up to eight stand in place and are never refused.
    pub fn copy_of(alloc: Global, values: &[u64]) -> Result<Violation, NoMemory>
        requires { IsWidth (length values.now) }
        ensures ok { IfOk result (λ v. v ≡ values.now) }
        ensures in_place { length values.now ≤ 8 → IsOk result }
    {
        Ok(Violation {
            values: SmallVec::from_slice(alloc, values)?,
        })
    }

    /// Adds the amount at one rule, and nowhere else.
    pub fn add_at(&mut self, index: usize, amount: u64)
        requires in_range { index < length self.old }
        requires fits { slice_index self.old index + amount < 2 ^ 64 }
        ensures { self.new ≡ slice_set self.old index (slice_index self.old index + amount) }
    {
        self.values[index] += amount;
    }
}
