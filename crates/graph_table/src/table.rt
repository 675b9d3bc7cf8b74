ghost use Rattle.rulebook_order.specs.StepGraph.{IsStepGraph};
ghost use Rattle.graph_table.specs.Tables.{table_graph, AreInside};

use crate::adding::add_vector;
use crate::entries::{Entries, StateRow};
use crate::state::TableState;
use preorder::{List, Violation};
use rulebook_order::{StepGraph, Steps};
use std::sync::ledger::Ledger;

/// A graph as a table, in which each state that some list of choices reaches stands once.
#[derive(Drop)]
pub struct Table<S> {
    states: List<S>,
    entries: Entries,
    pub ghost inside: { AreInside entries },
    pub ghost lawful: { IsStepGraph (table_graph entries) },
}

impl<S> Table<S> {
    ghost use Rattle.std.specs.Prelude.{◌≡◌};

    // The table of these states with these entries.
    pub(crate) fn of(states: List<S>, entries: Entries) -> Table<S>
        requires inside { AreInside entries }
        requires lawful { IsStepGraph (table_graph entries) }
        ensures states { result.states ≡ states }
        ensures entries { result.entries ≡ entries }
    {
        Table { states, entries }
    }
}

impl<S: Copy> Table<S> {
    ghost use Rattle.std.specs.Prelude.{◌≡◌, slice_get};

    /// The state of the graph that a state of the table stands for. None exactly where the index
    /// is not in the table.
    pub fn state_of(&self, state: TableState) -> Option<S>
        ensures { result ≡ slice_get self.now.states state.index }
    {
        self.states.as_slice().get(state.index as usize).copied()
    }
}

impl<S> Table<S> {
    ghost use Rattle.std.specs.Prelude.{◌≡◌, IfSome, IfNone, slice_get, Some, None, ◌+◌, ◌<◌, ◌^◌};
    ghost use Rattle.std.specs.Prelude.{length};
    ghost use Rattle.graph_table.specs.Tables.{row_of};

    // The row of a state of the table.
    fn row(&self, state: &TableState) -> Option<&StateRow>
        ensures some { IfSome result (λ row. slice_get self.now.entries.rows state.now.index
            ≡ Some row.now) }
        ensures none { IfNone result (slice_get self.now.entries.rows state.now.index ≡ None) }
    {
        self.entries.rows.as_slice().get(state.index as usize)
    }

    // The place where the choices of a state begin.
    fn from(&self, state: &TableState, choice: usize) -> usize
        requires { choice < (table_graph self.now.entries).choices state.now }
        ensures value { result ≡ (row_of self.now.entries state.now).from }
        ensures inside { result + choice < length self.now.entries.nexts }
        ensures fits { length self.now.entries.nexts < 2 ^ 64 }
    {
        match self.row(state) {
            Some(row) => row.from,
            None => 0,
        }
    }
}

impl<S> StepGraph for Table<S> {
    ghost use Rattle.graph_table.specs.States.{same_state};

    type State = TableState;

    ghost graph = { λ it. table_graph it.entries };

    fn width(&self) -> usize {
        self.entries.width
    }

    fn last(&self) -> u32 {
        self.entries.last
    }

    fn step_limit(&self) -> u64 {
        self.entries.step_limit
    }

    fn start(&self, cost: &mut Violation) -> TableState {
        add_vector(cost, &self.entries.first);
        TableState { index: 0 }
    }

    fn choices(&self, state: &TableState) -> usize {
        match self.row(state) {
            Some(row) => row.choices,
            None => 0,
        }
    }

    fn extend<L: Ledger>(
        &self,
        state: &TableState,
        choice: usize,
        cost: &mut Violation,
        steps: &mut Steps<L>,
    ) -> TableState {
        let place = self.from(state, choice) + choice;
        add_vector(cost, &self.entries.costs.as_slice()[place]);
        steps.tick();
        self.entries.nexts.as_slice()[place]
    }

    fn finish(&self, state: &TableState, cost: &mut Violation) {
        if let Some(row) = self.row(state) {
            add_vector(cost, &row.finish);
        }
    }

    fn is_goal(&self, state: &TableState) -> bool {
        match self.row(state) {
            Some(row) => row.goal,
            None => false,
        }
    }

    fn tick(&self, state: &TableState) -> u32 {
        match self.row(state) {
            Some(row) => row.tick,
            None => 0,
        }
    }

    ghost laws = { λ it. it.lawful };

    ghost same_states = { same_state };
}
