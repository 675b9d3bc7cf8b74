//! Places of arrivals by their vectors.

ghost use Rattle.std.specs.Prelude.{◌≡◌, ◌<◌, All, length, map, IfOk};
ghost use Rattle.std.specs.List.Sorted.{IsPermutation};

use crate::arrival::Arrival;
use crate::candidate::Candidate;
use preorder::{NoMemory, Violation};
use std::alloc::Global;

/// The places of arrivals in the lexicographic order of their vectors.
pub fn by_vector<S>(
    alloc: Global,
    arrivals: &[Arrival<S>],
    places: &[usize],
) -> Result<Vec<usize>, NoMemory>
    requires places { All (λ place. place < length arrivals.now) places.now }
    ensures { IfOk result (λ sorted. IsPermutation places.now sorted.items) }
{
    let mut keyed = Vec::new(alloc);
    for place in places {
        keyed.push(Candidate {
            vector: Violation::copy_of(alloc, arrivals[*place].vector.as_slice())?,
            number: *place,
        })?;
    }
    keyed.sort_by(|one, other| one.vector.as_slice().cmp(other.vector.as_slice()))?;
    numbers(alloc, keyed.as_slice())
}

// The numbers of candidates, in their order.
fn numbers(alloc: Global, candidates: &[Candidate]) -> Result<Vec<usize>, NoMemory>
    ensures { IfOk result (λ numbers. numbers.items ≡ map (λ x. x.number) candidates.now) }
{
    let mut numbers = Vec::new(alloc);
    for candidate in candidates {
        numbers.push(candidate.number)?;
    }
    Ok(numbers)
}
