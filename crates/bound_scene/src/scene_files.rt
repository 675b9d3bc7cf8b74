ghost use Rattle.std.specs.Prelude.{◌≡◌, IfOk};
ghost use Rattle.maneuver_lattice.specs.Lattice.{IsLattice};
ghost use Rattle.command_outcome.specs.declared.outcome.Role.TheVariants as role;
ghost use Rattle.command_outcome.specs.Ends.{Loads, shelf};
ghost use Rattle.command_outcome.specs.Outcome.{Refuses};
ghost use Rattle.bound_scene.specs.SceneInputs.{lattice_fault_text, lattice_input};
ghost use Rattle.bound_scene.specs.SceneInputs.{lattice_kind_text, scene_files};
ghost use Rattle.bound_scene.specs.BoundScenes.{AreSceneFiles};

use crate::inputs::load_book;
use crate::scenario_input::load_scenario;
use command_outcome::{Role, Stop, load_bytes, refuse, refuse_named};
use maneuver_lattice::{Lattice, LatticeFault, LatticeKind, read_lattice};
use outside_io::Store;
use rule_language::Book;
use scenario_model::Scenario;
use std::alloc::Global;

/// A scenario, a book of rules, and a lattice of maneuvers.
#[derive(Drop)]
pub struct SceneFiles {
    /// The scenario read.
    pub scenario: Scenario,
    /// The book read.
    pub book: Book,
    /// The lattice read.
    pub lattice: Lattice,
}

// The lattice under the name.
fn load_lattice<S: Store>(alloc: Global, store: &mut S, name: &str) -> Result<Lattice, Stop>
    ensures loads { Loads (λ lattice. lattice) (lattice_input name.now)
        (shelf S.held S.faults S.failed store.old)
        (shelf S.held S.faults S.failed store.new) result }
    ensures well_formed { IfOk result IsLattice }
{
    let bytes = load_bytes(alloc, store, Role::Lattice, name)?;
    match read_lattice(alloc, bytes.as_slice()) {
        Ok(lattice) => Ok(lattice),
        Err(fault) => Err(refuse_lattice(alloc, &fault)),
    }
}

/// The scenario, the book and the lattice, in this order.
pub fn load_scene_files<S: Store>(
    alloc: Global,
    store: &mut S,
    scenario: &str,
    book: &str,
    lattice: &str,
) -> Result<SceneFiles, Stop>
    ensures loads { Loads (λ files. files) (scene_files scenario.now book.now lattice.now)
        (shelf S.held S.faults S.failed store.old)
        (shelf S.held S.faults S.failed store.new) result }
    ensures well_formed { IfOk result AreSceneFiles }
{
    let scenario = load_scenario(alloc, store, scenario)?;
    let book = load_book(alloc, store, Role::Book, book)?;
    let lattice = load_lattice(alloc, store, lattice)?;
    Ok(SceneFiles {
        scenario,
        book,
        lattice,
    })
}

fn kind_text(kind: LatticeKind) -> &'static str
    ensures { result.now ≡ lattice_kind_text kind }
{
    match kind {
        LatticeKind::Class => "class",
        LatticeKind::Maneuver => "maneuver",
        LatticeKind::Choice => "choice",
        LatticeKind::Step => "step",
    }
}

/// The refusal of a lattice, or want of memory.
pub fn refuse_lattice(alloc: Global, fault: &LatticeFault) -> Stop
    ensures { Refuses role.Lattice (lattice_fault_text fault.now) result }
{
    let role = Role::Lattice;
    match fault {
        LatticeFault::Toml => refuse(alloc, role, "toml"),
        LatticeFault::Missing(key) => {
            refuse_named(alloc, role, "missing", key.word().as_bytes())
        }
        LatticeFault::BadValue(key) => {
            refuse_named(alloc, role, "bad-value", key.word().as_bytes())
        }
        LatticeFault::UnknownClass(name) => {
            refuse_named(alloc, role, "unknown-class", name.as_slice())
        }
        LatticeFault::DuplicateName(name) => {
            refuse_named(alloc, role, "duplicate-name", name.as_slice())
        }
        LatticeFault::EndMismatch(name) => {
            refuse_named(alloc, role, "end-mismatch", name.as_slice())
        }
        LatticeFault::TooMany(kind) => {
            refuse_named(alloc, role, "too-many", kind_text(*kind).as_bytes())
        }
        LatticeFault::NoStartClass => refuse(alloc, role, "no-start-class"),
        LatticeFault::NoMemory => Stop::NoMemory,
    }
}
