ghost use Rattle.std.specs.Prelude.{◌≡◌, ◌++◌, ◌∷◌, ◌<◌, [], map, IfOk, OnOk};
ghost use Rattle.rulebook_order.specs.Graph.{pair_by};
ghost use Rattle.maneuver_lattice.specs.Moves.{scene_of};
ghost use Rattle.maneuver_lattice.specs.Scenes.{start, choices, next};
ghost use Rattle.command_outcome.specs.declared.outcome.Role.TheVariants as role;
ghost use Rattle.command_outcome.specs.Ends.{Serves, Tests, shelf};
ghost use Rattle.bound_scene.specs.BoundScenes.{graph_at};
ghost use Rattle.rulebook_commands.specs.MoveList.{between_commas, list_told, moves_told, names_in};
ghost use Rattle.rulebook_commands.specs.Walk.{goal_line, walk_lines, walk_task};
ghost use Rattle.rulebook_commands.specs.Walked.{IsWalk};

use bound_scene::{Graph, SceneFiles, bind_scene, graph_of, load_scene_files, source_of};
use check_command::push_rules;
use command_outcome::{Role, Stop, refuse_at};
use maneuver_lattice::LatticeState;
use outside_io::Store;
use preorder::{List, NoMemory, Violation};
use rule_language::Book;
use rulebook_order::{StepGraph, Steps, extended, finished, started};
use std::alloc::{AllocError, Global};
use std::marker::Brand;
use std::sync::ledger::{Blank, Ledger};
use text_lines::push_row;

// What stands between the commas of a list.
fn between_commas(alloc: Global, list: &[u8]) -> Result<Vec<&[u8]>, AllocError>
    ensures { IfOk result (λ names. map (λ name. name.now) names.items ≡ between_commas list.now) }
{
    list.split(|byte| *byte == b',').collect(alloc)
}

// The names of a list of maneuvers.
fn names_in(alloc: Global, list: &str) -> Result<Vec<&[u8]>, AllocError>
    ensures { IfOk result (λ names. map (λ name. name.now) names.items ≡ names_in list.now) }
{
    if list == "." {
        return Ok(Vec::new(alloc));
    }
    between_commas(alloc, list.as_bytes())
}

// A list of choices, the state to which it leads, and what its steps amount to.
#[derive(Drop)]
struct Walked {
    choices: List<usize>,
    state: LatticeState,
    vector: Violation,
}

// The empty list.
fn stand(alloc: Global, graph: &Graph<'_>) -> Result<Walked, NoMemory>
    ensures choices { IfOk result (λ walked. walked.choices ≡ []) }
    ensures state { IfOk result (λ walked. walked.state ≡ start (scene_of graph.now.moves)) }
    ensures reaches { IfOk result (IsWalk (graph_at
        (scene_of graph.now.moves) graph.now.source.now graph.now.bound.now)) }
{
    let (state, vector) = started(alloc, graph)?;
    Ok(Walked {
        choices: List::new(alloc),
        state,
        vector,
    })
}

// The state and the running vector to which a choice leads. Steps are counted in a ledger that
// begins with this blank.
fn stepped<L: Ledger>(
    alloc: Global,
    blank: Blank,
    graph: &Graph<'_>,
    walked: &Walked,
    choice: usize,
) -> Result<(LatticeState, Violation), NoMemory>
    requires name { blank.name ≡ L.name }
    requires parts { blank.parts ≡ L.parts }
    requires some { 0 < blank.parts }
    requires reaches { IsWalk
        (graph_at (scene_of graph.now.moves) graph.now.source.now graph.now.bound.now) walked.now }
    requires choice { choice < choices (scene_of graph.now.moves) walked.now.state }
    ensures { IfOk result (λ pair. pair ≡ pair_by
        (graph_at (scene_of graph.now.moves) graph.now.source.now graph.now.bound.now)
        (walked.now.state, walked.now.vector) choice) }
{
    let mut steps = Steps::<L>::new(blank);
    extended(
        alloc,
        graph,
        &walked.state,
        &walked.vector,
        choice,
        &mut steps,
    )
}

// One choice more.
fn go_on(
    alloc: Global,
    graph: &Graph<'_>,
    walked: Walked,
    choice: usize,
) -> Result<Walked, NoMemory>
    requires reaches { IsWalk
        (graph_at (scene_of graph.now.moves) graph.now.source.now graph.now.bound.now) walked }
    requires choice { choice < choices (scene_of graph.now.moves) walked.state }
    ensures choices { IfOk result (λ longer. longer.choices ≡ walked.choices ++ choice ∷ []) }
    ensures state { IfOk result (λ longer. longer.state
        ≡ next (scene_of graph.now.moves) walked.state choice) }
    ensures reaches { IfOk result (IsWalk (graph_at
        (scene_of graph.now.moves) graph.now.source.now graph.now.bound.now)) }
{
    let (state, vector) = stepped::<Brand>(alloc, Blank::new(1), graph, &walked, choice)?;
    let mut choices = walked.choices;
    choices.push(choice)?;
    Ok(Walked {
        choices,
        state,
        vector,
    })
}

// The choices of a list of names, in its order. A name that no choice has is refused by its
// position.
fn walk_names(alloc: Global, graph: &Graph<'_>, names: &[&[u8]]) -> Result<Walked, Stop>
    ensures tests { Tests (λ walked. walked.choices) role.List
        (moves_told (scene_of graph.now.moves) (map (λ name. name.now) names.now)) result }
    ensures reaches { IfOk result (IsWalk (graph_at
        (scene_of graph.now.moves) graph.now.source.now graph.now.bound.now)) }
{
    let mut walked = stand(alloc, graph)?;
    for place in 0..names.len() {
        match graph.choice_named(&walked.state, names[place]) {
            Some(choice) => walked = go_on(alloc, graph, walked, choice)?,
            None => return Err(refuse_at(alloc, Role::List, "no-such-move", place + 1)),
        }
    }
    Ok(walked)
}

// The choices of a list of maneuvers, a word of the command line.
fn walk_list(alloc: Global, graph: &Graph<'_>, list: &str) -> Result<Walked, Stop>
    ensures tests { Tests (λ walked. walked.choices) role.List
        (list_told (scene_of graph.now.moves) list.now) result }
    ensures reaches { IfOk result (IsWalk (graph_at
        (scene_of graph.now.moves) graph.now.source.now graph.now.bound.now)) }
{
    let names = names_in(alloc, list)?;
    walk_names(alloc, graph, &names)
}

fn goal_line(is_goal: bool) -> &'static str
    ensures { result.now ≡ goal_line is_goal }
{
    if is_goal { "goal yes\n" } else { "goal no\n" }
}

// The lines of what a list of choices amounts to.
fn walk_text(
    alloc: Global,
    book: &Book,
    vector: &Violation,
    is_goal: bool,
) -> Result<Vec<u8>, AllocError>
    ensures { IfOk result (λ text. text.items ≡ walk_lines book.now.rules vector.now is_goal) }
{
    let mut text = Vec::new(alloc);
    push_rules(&mut text, book.rules.as_slice())?;
    push_row(alloc, &mut text, b"vector", vector.as_slice())?;
    text.extend_from_slice(goal_line(is_goal).as_bytes())?;
    Ok(text)
}

/// What `walk SCENARIO BOOK LATTICE LIST` writes.
pub fn walk<S: Store>(
    alloc: Global,
    store: &mut S,
    scenario: &str,
    book: &str,
    lattice: &str,
    list: &str,
) -> Result<Vec<u8>, Stop>
    ensures { Serves (walk_task scenario.now book.now lattice.now list.now)
        (shelf S.held S.faults S.failed store.old)
        (shelf S.held S.faults S.failed store.new) result }
{
    let files = load_scene_files(alloc, store, scenario, book, lattice)?;
    let scene = bind_scene(alloc, files)?;
    let source = source_of(&scene);
    let graph = graph_of(&scene, &source);
    let walked = walk_list(alloc, &graph, list)?;
    let vector = finished(alloc, &graph, &walked.state, &walked.vector)?;
    let text = walk_text(
        alloc,
        &scene.files.book,
        &vector,
        graph.is_goal(&walked.state),
    )?;
    Ok(text)
}
