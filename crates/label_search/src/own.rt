//! Which label it is that a choice of a label leads to, where it is one.

ghost use Rattle.std.specs.Prelude.{◌≡◌, ◌^◌, ◌≤◌, All, length, IfOk, IsTrue};
ghost use Rattle.rulebook_order.specs.Graph.{IsReached};
ghost use Rattle.label_search.specs.Linking.{IsOwnLabel};

use crate::arrival::Arrival;
use preorder::NoMemory;
use rulebook_order::StepGraph;
use std::alloc::Global;

// Whether both come from the same label by the same choice.
fn come_alike<S>(label: &Arrival<S>, arrival: &Arrival<S>) -> bool
    ensures { IsTrue result → (label.now.parent ≡ arrival.now.parent)
        × (label.now.choice ≡ arrival.now.choice) }
{
    label.parent == arrival.parent && label.choice == arrival.choice
}

/// Whether the label with the number comes from the same label by the same choice as the arrival.
pub fn is_own<S>(labels: &[Arrival<S>], number: u32, arrival: &Arrival<S>) -> bool
    ensures { IsTrue result → IsOwnLabel labels.now number arrival.now }
{
    match labels.get(number as usize) {
        Some(label) => number > 0 && come_alike(label, arrival),
        None => false,
    }
}

// Writes a number at a place, where there is one.
fn write_at(numbers: &mut [u32], place: usize, number: u32)
    ensures { length numbers.new ≡ length numbers.old }
{
    if place < numbers.len() {
        numbers[place] = number;
    }
}

// The place among what the choices of labels lead to, of that from which a label came: where its
// parent's begin, and its choice further.
fn place_of<S>(starts: &[usize], label: &Arrival<S>) -> usize {
    match starts.get(label.parent as usize) {
        Some(start) => start.wrapping_add(label.choice as usize),
        None => 0,
    }
}

/// At the place of each of the `count` arrivals that the choices of labels lead to, the number of
/// the label that it is, and any number where it is none: `is_own` tells.
pub fn own_numbers<G: StepGraph>(
    alloc: Global,
    graph: &G,
    labels: &[Arrival<G::State>],
    count: usize,
) -> Result<Vec<u32>, NoMemory>
    requires reached { All (λ x. IsReached (G.graph graph.now) x.state x.vector) labels.now }
    requires fits { length labels.now ≤ 2 ^ 32 }
    ensures { IfOk result (λ numbers. length numbers.items ≡ count) }
{
    let mut numbers = vec![in alloc; 0; count]?;
    let mut starts = Vec::new(alloc);
    let mut next: usize = 0;
    for (number, label) in labels.iter().enumerate() {
        starts.push(next)?;
        next = next.wrapping_add(graph.choices(&label.state));
        write_at(&mut numbers, place_of(&starts, label), number as u32);
    }
    Ok(numbers)
}
