ghost use Rattle.std.specs.Prelude.{◌≡◌, ◌≤◌, ◌<◌, All, IfErr, IfOk, length};
ghost use Rattle.std.specs.List.Sorted.{IsPermutation, IsSortedBy};
ghost use Rattle.preorder.specs.Preorder.{rules_of};
ghost use Rattle.rulebook_order.specs.Answer.{HasMoreUndominated};
ghost use Rattle.rulebook_order.specs.Certified.{finished_vectors};
ghost use Rattle.rulebook_order.specs.NoWorseBy.{no_worse_by};
ghost use Rattle.rulebook_order.specs.VectorOrder.{Holds};
ghost use Rattle.label_search.specs.Found.{pairs_of};
ghost use Rattle.certificate_text.specs.declared.TheConstants.{MAX_LABELS};
ghost use Rattle.domination_proof.specs.Shown.{IsShown};
ghost use Rattle.maneuver_lattice.specs.Moves.{scene_of};
ghost use Rattle.sample_scene.specs.declared.sample.TheConstants.{MAX_NUMBER};
ghost use Rattle.command_outcome.specs.declared.outcome.Stop.TheVariants as stop;
ghost use Rattle.command_outcome.specs.Ends.{Serves, Shelf};
ghost use Rattle.bound_scene.specs.BoundScenes.{IsBoundScene, IsGraphOf, graph_at};
ghost use Rattle.check_command.specs.Certificates.{IsOrderOf};
ghost use Rattle.check_command.specs.Answers.{vector_before};
ghost use Rattle.rulebook_commands.specs.Sample.{IsSample, Samples, first_of, sample_files, sample_task};
ghost use Rattle.rulebook_commands.specs.Sample.{sample_text};
ghost use Rattle.rulebook_commands.specs.Sampled.{IsPairReached};

use crate::ordering::{rules_by, searched};
use bound_scene::{BoundScene, Graph, SceneFiles, bind_scene, graph_of, source_of};
use command_outcome::{Ending, Stop, end_as};
use label_search::{Found, SearchFault};
use maneuver_lattice::LatticeState;
use preorder::{NoMemory, Preorder, Violation};
use rulebook_order::finished;
use sample_scene::{SampleScene, sample_scene};
use std::alloc::{AllocError, Global};
use std::marker::Brand;
use std::sync::ledger::Blank;
use text_lines::push_row;

// The sample scene of a number, with its book bound. Want of memory is the only refusal.
#[tactic(auto, unfolding(crate::specs::Sample::sample_files))]
fn sampled_scene(alloc: Global, number: u32) -> Result<BoundScene, Stop>
    requires { number ≤ MAX_NUMBER }
    ensures scene { IfOk result IsBoundScene }
    ensures files { IfOk result (λ scene. scene.files ≡ sample_files number) }
    ensures memory { IfErr result (λ end. end ≡ stop.NoMemory) }
{
    let SampleScene {
        scenario,
        book,
        lattice,
    } = sample_scene(alloc, number)?;
    let files = SceneFiles {
        scenario,
        book,
        lattice,
    };
    let scene = bind_scene(alloc, files)?;
    Ok(scene)
}

// The finished vectors of the finals, in their order.
fn final_vectors(
    alloc: Global,
    graph: &Graph<'_>,
    found: &Found<LatticeState>,
) -> Result<Vec<Violation>, NoMemory>
    requires reached { All (IsPairReached (graph_at
        (scene_of graph.now.moves) graph.now.source.now graph.now.bound.now)) found.now.labels }
    requires finals { All (λ number. number < length found.now.labels) found.now.finals }
    ensures { IfOk result (λ vectors. vectors.items
        ≡ finished_vectors (graph_at
        (scene_of graph.now.moves) graph.now.source.now graph.now.bound.now)
        (pairs_of found.now.labels) found.now.finals) }
{
    let labels = found.labels.as_slice();
    let mut vectors = Vec::new(alloc);
    for number in found.finals.as_slice() {
        let label = &labels[*number as usize];
        vectors.push(finished(alloc, graph, &label.state, &label.vector)?)?;
    }
    Ok(vectors)
}

// The vectors in ascending order.
fn in_order(vectors: Vec<Violation>) -> Result<Vec<Violation>, AllocError>
    ensures same { IfOk result (λ sorted. IsPermutation vectors.items sorted.items) }
    ensures sorted { IfOk result (λ sorted. IsSortedBy vector_before sorted.items) }
{
    let mut sorted = vectors;
    sorted.sort_by(|one, other| one.as_slice().cmp(other.as_slice()))?;
    Ok(sorted)
}

// The first vector; no numbers where there is none.
fn first_of(vectors: &[Violation]) -> &[u64]
    ensures { result.now ≡ first_of vectors.now }
{
    match vectors {
        [first, ..] => first.as_slice(),
        [] => &[],
    }
}

// The five lines.
fn sample_lines(
    alloc: Global,
    number: u32,
    obstacles: usize,
    labels: usize,
    vectors: &[Violation],
) -> Result<Vec<u8>, AllocError>
    ensures { IfOk result (λ text. text.items ≡ sample_text number obstacles labels vectors.now) }
{
    let mut text = Vec::new(alloc);
    push_row(alloc, &mut text, b"sample", &[u64::from(number)])?;
    push_row(alloc, &mut text, b"obstacles", &[obstacles as u64])?;
    push_row(alloc, &mut text, b"labels", &[labels as u64])?;
    push_row(alloc, &mut text, b"front", &[vectors.len() as u64])?;
    push_row(alloc, &mut text, b"least", first_of(vectors))?;
    Ok(text)
}

// The text of what was found.
fn sample_found(
    alloc: Global,
    number: u32,
    scene: &BoundScene,
    graph: &Graph<'_>,
    rules: &Preorder,
    found: &Found<LatticeState>,
) -> Result<Vec<u8>, NoMemory>
    requires scene { IsBoundScene scene.now }
    requires graph { IsGraphOf scene.now.files
        (scene_of graph.now.moves) graph.now.source.now graph.now.bound.now }
    requires order { IsOrderOf scene.now.files.book rules.now }
    requires shown { IsShown
        (graph_at (scene_of graph.now.moves) graph.now.source.now graph.now.bound.now)
        (Holds (no_worse_by rules.now)) found.now }
    requires few { ¬ HasMoreUndominated (graph_at
        (scene_of graph.now.moves) graph.now.source.now graph.now.bound.now)
        (Holds (no_worse_by rules.now)) MAX_LABELS }
    ensures { IfOk result (λ text. IsSample number scene.now.files text.items) }
{
    let _ = rules;
    let vectors = in_order(final_vectors(alloc, graph, found)?)?;
    let text = sample_lines(
        alloc,
        number,
        scene.files.scenario.obstacles.as_slice().len(),
        found.labels.as_slice().len(),
        vectors.as_slice(),
    )?;
    Ok(text)
}

// How large the answer over a scene is, or that there are too many labels.
fn sample_bound(alloc: Global, number: u32, scene: &BoundScene) -> Result<Vec<u8>, Stop>
    requires { IsBoundScene scene.now }
    ensures { Samples number scene.now.files result }
{
    let source = source_of(scene);
    let graph = graph_of(scene, &source);
    let rules = rules_by(&scene.files.book);
    match searched::<Brand>(alloc, Blank::new(1), &graph, &rules) {
        Ok(found) => Ok(sample_found(alloc, number, scene, &graph, &rules, &found)?),
        Err(SearchFault::TooManyLabels) => {
            Err(end_as(alloc, Ending::TooManyLabels, "too many labels\n"))
        }
        Err(SearchFault::NoMemory) => Err(Stop::NoMemory),
    }
}

/// What `sample N` writes.
pub fn sample(alloc: Global, number: u32) -> Result<Vec<u8>, Stop>
    requires { number ≤ MAX_NUMBER }
    ensures { (at : Shelf) → Serves (sample_task number) at at result }
{
    let scene = sampled_scene(alloc, number)?;
    sample_bound(alloc, number, &scene)
}
