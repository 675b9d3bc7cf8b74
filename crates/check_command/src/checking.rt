ghost use Rattle.std.specs.Prelude.{◌≡◌};
ghost use Rattle.command_outcome.specs.declared.outcome.Ending.TheVariants as ending;
ghost use Rattle.command_outcome.specs.Ends.{Serves, shelf};
ghost use Rattle.command_outcome.specs.Outcome.{EndsAs};
ghost use Rattle.certificate_text.specs.Text.{HasText};
ghost use Rattle.certificate_checker.specs.declared.checked.Rejection.TheVariants as rejection;
ghost use Rattle.bound_scene.specs.BoundScenes.{IsBoundScene};
ghost use Rattle.check_command.specs.Check.{Checks, Rejects, check_task, rejected_text};

use crate::certificates::{load_certificate, order_by, show_answers};
use bound_scene::{BoundScene, bind_scene, graph_of, load_scene_files, source_of};
use certificate_checker::Rejection;
use certificate_text::Certificate;
use command_outcome::{Ending, Stop, end_as};
use outside_io::Store;
use std::alloc::{AllocError, Global};

// The end of a check that names a condition, or want of memory.
fn reject(alloc: Global, rejection: Rejection) -> Stop
    ensures { Rejects rejection result }
{
    match rejection {
        Rejection::Condition(number, label) => {
            match format!(in alloc; "rejected {number} {label}\n") {
                Ok(text) => end_as(alloc, Ending::Rejected, text.as_str()),
                Err(AllocError) => Stop::NoMemory,
            }
        }
        Rejection::NoMemory => Stop::NoMemory,
    }
}

// What a certificate shows of a scene, or the first condition that it fails.
fn check_scene(
    alloc: Global,
    scene: &BoundScene,
    certificate: &Certificate,
) -> Result<Vec<u8>, Stop>
    requires scene { IsBoundScene scene.now }
    requires certificate { HasText certificate.now }
    ensures { Checks scene.now.files certificate.now result }
{
    let source = source_of(scene);
    let graph = graph_of(scene, &source);
    let order = order_by(&scene.files.book);
    match show_answers(alloc, b"accepted\n", scene, &graph, &order, certificate) {
        Ok(text) => Ok(text),
        Err(rejection) => Err(reject(alloc, rejection)),
    }
}

/// What `check SCENARIO BOOK LATTICE CERT` writes.
pub fn check<S: Store>(
    alloc: Global,
    store: &mut S,
    scenario: &str,
    book: &str,
    lattice: &str,
    certificate: &str,
) -> Result<Vec<u8>, Stop>
    ensures { Serves (check_task scenario.now book.now lattice.now certificate.now)
        (shelf S.held S.faults S.failed store.old)
        (shelf S.held S.faults S.failed store.new) result }
{
    let files = load_scene_files(alloc, store, scenario, book, lattice)?;
    let certificate = load_certificate(alloc, store, certificate)?;
    let scene = bind_scene(alloc, files)?;
    check_scene(alloc, &scene, &certificate)
}
