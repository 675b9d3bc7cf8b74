ghost use Rattle.std.specs.Prelude.{◌≡◌, ◌<◌, ◌≤◌};
ghost use Rattle.graph_table.specs.declared.limits.TheConstants.{MAX_STATES};

use bound_scene::{bind_scene, graph_of, load_scene_files, source_of};
use graph_table::{TableFault, TableState, table_of};
use outside_io::MemoryStore;
use rulebook_order::Steps;
use std::alloc::Global;
use std::marker::Brand;
use std::sync::ledger::{Blank, Ledger};
use std::test::Fail;

// One lane, on which the vehicle stands at 10 m/s.
const SCENARIO: &[u8] =
    b"<commonRoad commonRoadVersion='2020a' timeStepSize='0.1'><lanelet id='1'><leftBound><point><x>-50</x><y>2</y></point><point><x>150</x><y>2</y></point></leftBound><rightBound><point><x>-50</x><y>-2</y></point><point><x>150</x><y>-2</y></point></rightBound></lanelet><planningProblem id='9'><initialState><position><point><x>0</x><y>0</y></point></position><orientation><exact>0</exact></orientation><time><exact>0</exact></time><velocity><exact>10</exact></velocity></initialState><goalState><time><intervalStart>1</intervalStart><intervalEnd>1</intervalEnd></time></goalState></planningProblem></commonRoad>";

const BOOK: &[u8] = b"rule a\npart a 1 maneuver(p)\nrule b\npart b 1 maneuver(q)\n";

// Two maneuvers that lead to the same place.
const LATTICE: &[u8] =
    b"horizon = 1\nlength = 45000\nwidth = 18000\ntolerance = 0\nclass = [{name = 'c', heading = 0, speed = 10000}]\nmaneuver = [{name = 'p', from = 'c', to = 'c', steps = [[10000, 0, 0, 10000, 0, 0]]}, {name = 'q', from = 'c', to = 'c', steps = [[10000, 0, 0, 10000, 0, 0]]}]\n";

// Whether the table of the scene is made within this limit, and has a state of this index; none
// where there are too many states.
fn has_state<L: Ledger>(
    alloc: Global,
    blank: Blank,
    limit: usize,
    index: u32,
) -> Result<Option<bool>, Fail>
    requires name { blank.name ≡ L.name }
    requires parts { blank.parts ≡ L.parts }
    requires some { 0 < blank.parts }
    requires low { 0 < limit }
    requires high { limit ≤ MAX_STATES }
{
    let mut store = MemoryStore::new(alloc);
    store.put("s", SCENARIO)?;
    store.put("b", BOOK)?;
    store.put("l", LATTICE)?;
    let files = match load_scene_files(alloc, &mut store, "s", "b", "l") {
        Ok(files) => files,
        Err(_) => return Err(Fail::from("the files of a scene")),
    };
    let scene = match bind_scene(alloc, files) {
        Ok(scene) => scene,
        Err(_) => return Err(Fail::from("a book that is bound")),
    };
    let source = source_of(&scene);
    let graph = graph_of(&scene, &source);
    let mut steps = Steps::<L>::new(blank);
    match table_of(alloc, &graph, limit, &mut steps) {
        Err(TableFault::TooManyStates) => Ok(None),
        Err(fault) => Err(fault.into()),
        Ok(table) => Ok(Some(table.state_of(TableState { index }).is_some())),
    }
}

#[test]
fn a_scene_of_two_states_has_a_table_of_two(rt: HostRuntime) -> Result<(), Fail> {
    let alloc = rt.alloc();
    assert_eq!(rt; has_state::<Brand>(alloc, Blank::new(1), 1, 0)?, None);
    assert_eq!(rt; has_state::<Brand>(alloc, Blank::new(1), 2, 1)?, Some(true));
    assert_eq!(rt;
        has_state::<Brand>(alloc, Blank::new(1), 2, 2)?,
        Some(false)
    );
    Ok(())
}
