ghost use Rattle.std.specs.Prelude.{◌≤◌, length, IfOk};
ghost use Rattle.rulebook_order.specs.Answer.{HasMoreUndominated};
ghost use Rattle.rulebook_order.specs.NoWorseBy.{no_worse_by};
ghost use Rattle.rulebook_order.specs.VectorOrder.{Holds};
ghost use Rattle.domination_proof.specs.Shown.{IsShown};
ghost use Rattle.maneuver_lattice.specs.Moves.{scene_of};
ghost use Rattle.command_outcome.specs.Ends.{Serves, shelf};
ghost use Rattle.bound_scene.specs.BoundScenes.{IsBoundScene, IsGraphOf, graph_at};
ghost use Rattle.check_command.specs.Certificates.{IsOrderOf};
ghost use Rattle.rulebook_commands.specs.Plan.{IsPlan, plan_task};
ghost use Rattle.rulebook_commands.specs.Planning.{Plans};

use crate::ordering::{rules_by, searched};
use bound_scene::{BoundScene, Graph, bind_scene, graph_of, load_scene_files, source_of};
use check_command::shown_text;
use command_outcome::{Ending, Stop, end_as, save_bytes};
use domination_proof::{
    MAX_LABELS, answers_found, certificate_of, found_has_a_text, found_is_accepted,
    write_certificate,
};
use label_search::{Found, SearchFault};
use maneuver_lattice::LatticeState;
use outside_io::Store;
use preorder::{NoMemory, Preorder};
use rulebook_order::PairOrder;
use std::alloc::Global;
use std::marker::Brand;
use std::sync::ledger::Blank;

/// A text to be printed, and the text of a certificate that shows it.
#[derive(Drop)]
pub struct Planned {
    text: Vec<u8>,
    certificate: Vec<u8>,
}

// The texts of what was found. A check would accept its certificate, so none is run to have its
// answers.
fn plan_found(
    alloc: Global,
    scene: &BoundScene,
    graph: &Graph<'_>,
    rules: &Preorder,
    found: &Found<LatticeState>,
) -> Result<Planned, NoMemory>
    requires scene { IsBoundScene scene.now }
    requires graph { IsGraphOf scene.now.files
        (scene_of graph.now.moves) graph.now.source.now graph.now.bound.now }
    requires order { IsOrderOf scene.now.files.book rules.now }
    requires shown { IsShown
        (graph_at (scene_of graph.now.moves) graph.now.source.now graph.now.bound.now)
        (Holds (no_worse_by rules.now)) found.now }
    requires within { length found.now.labels ≤ MAX_LABELS }
    requires few { ¬ HasMoreUndominated (graph_at
        (scene_of graph.now.moves) graph.now.source.now graph.now.bound.now)
        (Holds (no_worse_by rules.now)) MAX_LABELS }
    ensures { IfOk result
        (λ planned. IsPlan scene.now.files planned.text.items planned.certificate.items) }
{
    let order = PairOrder::new(*rules);
    found_is_accepted(graph, &order, found);
    found_has_a_text(graph, &order, found);
    let certificate = certificate_of(alloc, found)?;
    let bytes = write_certificate(alloc, &certificate)?;
    let answers = answers_found(alloc, graph, &order, found, &certificate)?;
    let text = shown_text(alloc, b"", &scene.files, graph, answers.as_slice())?;
    Ok(Planned {
        text,
        certificate: bytes,
    })
}

// What is planned over a scene, or that there are too many labels.
fn plan_scene(alloc: Global, scene: &BoundScene) -> Result<Planned, Stop>
    requires { IsBoundScene scene.now }
    ensures { Plans scene.now.files result }
{
    let source = source_of(scene);
    let graph = graph_of(scene, &source);
    let rules = rules_by(&scene.files.book);
    match searched::<Brand>(alloc, Blank::new(1), &graph, &rules) {
        Ok(found) => Ok(plan_found(alloc, scene, &graph, &rules, &found)?),
        Err(SearchFault::TooManyLabels) => {
            Err(end_as(alloc, Ending::TooManyLabels, "too many labels\n"))
        }
        Err(SearchFault::NoMemory) => Err(Stop::NoMemory),
    }
}

/// What `plan SCENARIO BOOK LATTICE CERT` writes, once the certificate is saved.
pub fn plan<S: Store>(
    alloc: Global,
    store: &mut S,
    scenario: &str,
    book: &str,
    lattice: &str,
    certificate: &str,
) -> Result<Vec<u8>, Stop>
    ensures { Serves (plan_task scenario.now book.now lattice.now certificate.now)
        (shelf S.held S.faults S.failed store.old)
        (shelf S.held S.faults S.failed store.new) result }
{
    let files = load_scene_files(alloc, store, scenario, book, lattice)?;
    let scene = bind_scene(alloc, files)?;
    let planned = plan_scene(alloc, &scene)?;
    save_bytes(store, certificate, planned.certificate.as_slice())?;
    Ok(planned.text)
}
