//! Labels of a table at the states of its graph.

ghost use Rattle.std.specs.Prelude.{◌≡◌, ◌<◌, length, All, IfOk, map, slice_index_or};
ghost use Rattle.table_search.specs.Relabeled.{relabeled};

use graph_table::{Table, TableState};
use label_search::Label;
use preorder::{List, NoMemory, Violation};
use std::alloc::Global;

// The state of the graph that a state of its table stands for.
fn state_at<S: Copy>(table: &Table<S>, state: TableState) -> S
    requires { state.index < length table.now.states }
    ensures { (other : S) → result ≡ slice_index_or table.now.states state.index other }
{
    match table.state_of(state) {
        Some(state) => state,
        None => unreachable!(),
    }
}

// The same numbers.
fn copy_of(alloc: Global, numbers: &[u32]) -> Result<List<u32>, NoMemory>
    ensures { IfOk result (λ copy. copy ≡ numbers.now) }
{
    let mut copy = List::new(alloc);
    for number in numbers {
        copy.push(*number)?;
    }
    Ok(copy)
}

// The same label at the state of the graph.
fn label_at<S: Copy>(
    alloc: Global,
    table: &Table<S>,
    label: &Label<TableState>,
) -> Result<Label<S>, NoMemory>
    requires { label.now.state.index < length table.now.states }
    ensures { IfOk result (λ at. (other : S) → at ≡ relabeled table.now.states other label.now) }
{
    Ok(Label {
        state: state_at(table, label.state),
        vector: Violation::copy_of(alloc, label.vector.as_slice())?,
        parent: label.parent,
        choice: label.choice,
        links: copy_of(alloc, label.links.as_slice())?,
    })
}

/// The same labels at the states of the graph.
pub fn labels_at<S: Copy + Drop>(
    alloc: Global,
    table: &Table<S>,
    labels: &[Label<TableState>],
) -> Result<List<Label<S>>, NoMemory>
    requires { All (λ label. label.state.index < length table.now.states) labels.now }
    ensures { IfOk result (λ at. (other : S)
        → at ≡ map (relabeled table.now.states other) labels.now) }
{
    let mut at = List::new(alloc);
    for label in labels {
        at.push(label_at(alloc, table, label)?)?;
    }
    Ok(at)
}
