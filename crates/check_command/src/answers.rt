ghost use Rattle.std.specs.Prelude.{◌≡◌, ◌++◌, All, map, IfOk, OnOk};
ghost use Rattle.std.specs.List.Sorted.{IsPermutation, IsSortedBy};
ghost use Rattle.text_lines.specs.Lines.{cells};
ghost use Rattle.certificate_text.specs.Text.{spaced};
ghost use Rattle.maneuver_lattice.specs.Moves.{scene_of};
ghost use Rattle.maneuver_lattice.specs.Scenes.{start};
ghost use Rattle.check_command.specs.Answers.{answer_line, comes_before, front_lines};
ghost use Rattle.check_command.specs.Answers.{maneuver_words, rules_line};
ghost use Rattle.check_command.specs.Driven.{HasList, MayBeDriven};

use bound_scene::Graph;
use certificate_checker::Attained;
use maneuver_lattice::Lattice;
use rule_language::Rule;
use std::alloc::{AllocError, Global};
use text_lines::{push_cell, push_word};

/// The answers in ascending order of their vectors.
pub fn ascending<'a>(
    alloc: Global,
    answers: &'a [Attained],
) -> Result<Vec<&'a Attained>, AllocError>
    ensures same { IfOk result (λ sorted. IsPermutation answers.now
        (map (λ answer. answer.now) sorted.items)) }
    ensures sorted { IfOk result (λ sorted. IsSortedBy comes_before
        (map (λ answer. answer.now) sorted.items)) }
{
    let mut sorted: Vec<&Attained> = answers.iter().collect(alloc)?;
    sorted.sort_by(|one, other| one.vector.as_slice().cmp(other.vector.as_slice()))?;
    Ok(sorted)
}

/// Appends numbers, each behind a space.
pub fn push_cells(alloc: Global, out: &mut Vec<u8>, numbers: &[u64]) -> Result<(), AllocError>
    ensures { OnOk result (out.new.items ≡ out.old.items ++ cells numbers.now) }
{
    for number in numbers {
        push_cell(alloc, out, *number)?;
    }
    Ok(())
}

// Appends numbers that stand one space apart.
fn push_spaced(alloc: Global, out: &mut Vec<u8>, numbers: &[u64]) -> Result<(), AllocError>
    ensures { OnOk result (out.new.items ≡ out.old.items ++ spaced numbers.now) }
{
    if let [first, others @ ..] = numbers {
        let digits = first.to_string(alloc)?;
        out.extend_from_slice(digits.as_bytes())?;
        push_cells(alloc, out, others)?;
    }
    Ok(())
}

// Appends the names of the maneuvers that the choices choose one after the other.
fn push_maneuvers(
    out: &mut Vec<u8>,
    graph: &Graph<'_>,
    lattice: &Lattice,
    list: &[u32],
) -> Result<(), AllocError>
    requires lattice { lattice.now ≡ (scene_of graph.now.moves).lattice }
    requires list { MayBeDriven (scene_of graph.now.moves)
        (start (scene_of graph.now.moves)) list.now }
    ensures { OnOk result (out.new.items ≡ out.old.items
        ++ maneuver_words (scene_of graph.now.moves) (start (scene_of graph.now.moves)) list.now) }
{
    let maneuvers = lattice.maneuvers.as_slice();
    let mut state = graph.moves().start_state();
    for place in 0..list.len() {
        let choice = list[place] as usize;
        let maneuver = graph.maneuver_of(&state, choice);
        push_word(out, maneuvers[maneuver as usize].name.as_slice())?;
        state = graph.moves().next(&state, choice);
    }
    Ok(())
}

// Appends the line of an answer.
#[tactic(auto, unfolding(crate::specs::Answers::answer_line))]
fn push_answer(
    alloc: Global,
    out: &mut Vec<u8>,
    graph: &Graph<'_>,
    lattice: &Lattice,
    answer: &Attained,
) -> Result<(), AllocError>
    requires lattice { lattice.now ≡ (scene_of graph.now.moves).lattice }
    requires list { HasList (scene_of graph.now.moves) answer.now }
    ensures { OnOk result (out.new.items ≡ out.old.items
        ++ answer_line (scene_of graph.now.moves) answer.now) }
{
    push_spaced(alloc, out, answer.vector.as_slice())?;
    out.extend_from_slice(b" :")?;
    push_maneuvers(out, graph, lattice, answer.choices.as_slice())?;
    out.push(b'\n')?;
    Ok(())
}

/// Appends `none`, or how many answers there are and a line for each.
pub fn push_front(
    alloc: Global,
    out: &mut Vec<u8>,
    graph: &Graph<'_>,
    lattice: &Lattice,
    answers: &[&Attained],
) -> Result<(), AllocError>
    requires lattice { lattice.now ≡ (scene_of graph.now.moves).lattice }
    requires lists { All (HasList (scene_of graph.now.moves))
        (map (λ answer. answer.now) answers.now) }
    ensures { OnOk result (out.new.items ≡ out.old.items
        ++ front_lines (scene_of graph.now.moves) (map (λ answer. answer.now) answers.now)) }
{
    if answers.is_empty() {
        return out.extend_from_slice(b"none\n");
    }
    out.extend_from_slice(b"front")?;
    push_cell(alloc, out, answers.len() as u64)?;
    out.push(b'\n')?;
    for answer in answers {
        push_answer(alloc, out, graph, lattice, answer)?;
    }
    Ok(())
}

/// Appends the line of the rules' names.
pub fn push_rules(out: &mut Vec<u8>, rules: &[Rule]) -> Result<(), AllocError>
    ensures { OnOk result (out.new.items ≡ out.old.items ++ rules_line rules.now) }
{
    out.extend_from_slice(b"rules")?;
    for rule in rules {
        push_word(out, rule.name.as_slice())?;
    }
    out.push(b'\n')?;
    Ok(())
}
