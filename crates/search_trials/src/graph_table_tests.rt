ghost use Rattle.std.specs.Prelude.{◌≡◌, ◌<◌, ◌≤◌};
ghost use Rattle.graph_table.specs.declared.limits.TheConstants.{MAX_STATES};
ghost use Rattle.label_search.specs.declared.searching.TheConstants.{MAX_LIMIT};

use crate::table::Table;
use graph_table::{TableFault, TableState, table_of};
use label_search::SearchFault;
use preorder::Preorder;
use rulebook_order::{PairOrder, Steps};
use std::alloc::Global;
use std::marker::Brand;
use std::sync::ledger::{Blank, Ledger};
use std::test::Fail;
use table_search::search_by_table;

// How many labels a search of the five places over their table finds; none where there are too many.
fn labels_found<L: Ledger>(alloc: Global, blank: Blank, limit: usize) -> Result<Option<usize>, Fail>
    requires name { blank.name ≡ L.name }
    requires parts { blank.parts ≡ L.parts }
    requires some { 0 < blank.parts }
    requires low { 0 < limit }
    requires high { limit ≤ MAX_LIMIT }
{
    let pairs = PairOrder::new(Preorder::from_statements(2, &[])?);
    let mut steps = Steps::<L>::new(blank);
    match search_by_table(alloc, &Table, &pairs, limit, &mut steps) {
        Ok(found) => Ok(Some(found.labels.as_slice().len())),
        Err(SearchFault::TooManyLabels) => Ok(None),
        Err(fault) => Err(fault.into()),
    }
}

#[test]
fn a_table_is_searched_as_its_graph(rt: HostRuntime) -> Result<(), Fail> {
    let alloc = rt.alloc();
    assert_eq!(rt; labels_found::<Brand>(alloc, Blank::new(1), 8)?, Some(8));
    assert_eq!(rt; labels_found::<Brand>(alloc, Blank::new(1), 7)?, None);
    assert_eq!(rt; labels_found::<Brand>(alloc, Blank::new(1), 4)?, None);
    Ok(())
}

// Whether the table of the five places is made, and has a state of this index; none where there
// are too many states.
fn has_state<L: Ledger>(
    alloc: Global,
    blank: Blank,
    limit: usize,
    index: u32,
) -> Result<Option<bool>, Fail>
    requires name { blank.name ≡ L.name }
    requires parts { blank.parts ≡ L.parts }
    requires some { 0 < blank.parts }
    requires low { 0 < limit }
    requires high { limit ≤ MAX_STATES }
{
    let mut steps = Steps::<L>::new(blank);
    match table_of(alloc, &Table, limit, &mut steps) {
        Err(TableFault::TooManyStates) => Ok(None),
        Err(fault) => Err(fault.into()),
        Ok(table) => Ok(Some(table.state_of(TableState { index }).is_some())),
    }
}

#[test]
fn a_limit_of_states_is_exact(rt: HostRuntime) -> Result<(), Fail> {
    let alloc = rt.alloc();
    assert_eq!(rt; has_state::<Brand>(alloc, Blank::new(1), 4, 0)?, None);
    assert_eq!(rt; has_state::<Brand>(alloc, Blank::new(1), 5, 4)?, Some(true));
    assert_eq!(rt;
        has_state::<Brand>(alloc, Blank::new(1), 5, 5)?,
        Some(false)
    );
    Ok(())
}
