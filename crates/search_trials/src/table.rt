ghost use Rattle.std.specs.Prelude.{◌≡◌, ℕ, ◌+◌, ◌*◌, ◌^◌, ◌<◌, ◌≤◌, [], ◌∷◌, length, slice_index};
ghost use Rattle.rulebook_order.specs.StepGraph.{ticks_passed};
ghost use Rattle.rulebook_order.specs.Sums.{sums};
ghost use Rattle.search_trials.specs.Table.{table, choices_at, next_at, cost_at, finish_at};

use crate::place::Place;
use preorder::Violation;
use rulebook_order::{StepGraph, Steps};
use std::sync::ledger::Ledger;

/// A graph of five places that is written as a table: from `Start` by `Left` or `Right` to `End` or
/// `Yard`. `Start` is a goal as well.
#[derive(Drop)]
pub struct Table;

// Adds two numbers to a vector of two.
fn add(cost: &mut Violation, first: u64, second: u64)
    requires width { length cost.old ≡ 2 }
    requires first { slice_index cost.old 0 + first < 2 ^ 64 }
    requires second { slice_index cost.old 1 + second < 2 ^ 64 }
    ensures { cost.new ≡ sums cost.old (first ∷ second ∷ []) }
{
    cost.add_at(0, first);
    cost.add_at(1, second);
}

// Where a choice leads, and what it adds.
fn row(place: Place, choice: usize) -> (Place, u64, u64)
    requires { choice < choices_at place }
    ensures next { result.0 ≡ next_at place choice }
    ensures cost { result.1 ∷ result.2 ∷ [] ≡ cost_at place choice }
    ensures room { (result.1 ≤ 3 * ticks_passed table place choice)
        × (result.2 ≤ 3 * ticks_passed table place choice) }
{
    match (place, choice) {
        (Place::Start, 0) => (Place::Left, 1, 0),
        (Place::Start, 1) => (Place::Right, 0, 1),
        (Place::Start, _) => (Place::Left, 0, 2),
        (Place::Left, 0) => (Place::End, 1, 0),
        (Place::Left, _) => (Place::Yard, 0, 0),
        _ => (Place::End, 1, 1),
    }
}

impl StepGraph for Table {
    ghost use Rattle.search_trials.specs.Table.{table-laws, same_place};

    type State = Place;

    ghost graph = { λ _. table };

    fn width(&self) -> usize {
        2
    }

    fn last(&self) -> u32 {
        2
    }

    fn step_limit(&self) -> u64 {
        3
    }

    fn start(&self, _cost: &mut Violation) -> Place {
        Place::Start
    }

    fn choices(&self, state: &Place) -> usize {
        match state {
            Place::Start => 3,
            Place::Left => 2,
            Place::Right => 1,
            Place::End | Place::Yard => 0,
        }
    }

    fn extend<L: Ledger>(
        &self,
        state: &Place,
        choice: usize,
        cost: &mut Violation,
        steps: &mut Steps<L>,
    ) -> Place {
        let (next, first, second) = row(*state, choice);
        add(cost, first, second);
        steps.tick();
        next
    }

    fn finish(&self, state: &Place, cost: &mut Violation) {
        match state {
            Place::Start => add(cost, 0, 3),
            Place::Yard => add(cost, 1, 0),
            _ => add(cost, 0, 0),
        }
    }

    fn is_goal(&self, state: &Place) -> bool {
        !matches!(state, Place::Left | Place::Right)
    }

    fn tick(&self, state: &Place) -> u32 {
        match state {
            Place::Start => 0,
            Place::Left | Place::Right => 1,
            Place::End | Place::Yard => 2,
        }
    }

    ghost laws = { λ _. table-laws };

    ghost same_states = { same_place };
}
