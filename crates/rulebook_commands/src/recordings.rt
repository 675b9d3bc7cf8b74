ghost use Rattle.violation_measures.specs.declared.scene_source.TheConstants.{MAX_MANEUVERS};
ghost use Rattle.std.specs.Prelude.{◌≡◌, ◌++◌, ◌≤◌, length, map, All, IfOk, OnOk};
ghost use Rattle.std.specs.List.{flat_map};
ghost use Rattle.trajectory_judge.specs.Records.{AreRecords};
ghost use Rattle.command_outcome.specs.declared.outcome.Role.TheVariants as role;
ghost use Rattle.command_outcome.specs.Ends.{Loads, Serves, shelf};
ghost use Rattle.command_outcome.specs.Outcome.{Refuses};
ghost use Rattle.bound_scene.specs.BoundScenes.{AreSceneFiles};
ghost use Rattle.rulebook_commands.specs.Judge.{IsJudgeText, Judges, judge_task, judged_line, told_pair};
ghost use Rattle.rulebook_commands.specs.Judgeable.{IsPlaced};
ghost use Rattle.rulebook_commands.specs.RecordInput.{record_fault_text, records_input};
ghost use Rattle.violation_measures.specs.Binding.{IsBoundTo};
ghost use Rattle.violation_measures.specs.SceneSources.{scene_of as source_scene};
ghost use Rattle.violation_measures.specs.Scenes.{features_of};
ghost use Rattle.bound_scene.specs.SceneInputs.{bound as files_bound, features, maneuver_names};
ghost use Rattle.check_command.specs.Answers.{rules_line};

use crate::comparing::push_verdict;
use bound_scene::{SceneFiles, load_scene_files, surroundings_of, test_binding};
use check_command::{push_cells, push_rules};
use command_outcome::{Role, Stop, load_bytes, refuse, refuse_at};
use outside_io::Store;
use preorder::{Name, NoMemory};
use rule_language::Rule;
use rulebook_order::Verdict;
use std::alloc::{AllocError, Global};
use text_lines::{push_cell, push_word};
use trajectory_judge::{Judged, Judgement, RecordFault, Records, judge, read_records};
use violation_measures::{Bound, SceneSource};

// The refusal of recordings, or want of memory.
fn refuse_records(alloc: Global, fault: RecordFault) -> Stop
    ensures { Refuses role.Records (record_fault_text fault) result }
{
    let role = Role::Records;
    match fault {
        RecordFault::WrongHeader => refuse(alloc, role, "wrong-header"),
        RecordFault::Csv(row) => refuse_at(alloc, role, "csv", row),
        RecordFault::BadName(row) => refuse_at(alloc, role, "bad-name", row),
        RecordFault::BadNumber(row) => refuse_at(alloc, role, "bad-number", row),
        RecordFault::UnknownManeuver(row) => refuse_at(alloc, role, "unknown-maneuver", row),
        RecordFault::TickGap(row) => refuse_at(alloc, role, "tick-gap", row),
        RecordFault::DuplicateName(row) => refuse_at(alloc, role, "duplicate-name", row),
        RecordFault::TooMany(row) => refuse_at(alloc, role, "too-many", row),
        RecordFault::Empty => refuse(alloc, role, "empty"),
        RecordFault::NoMemory => Stop::NoMemory,
    }
}

// The recordings under the name, whose maneuvers are among these.
fn load_records<S: Store>(
    alloc: Global,
    store: &mut S,
    name: &str,
    maneuvers: &[Name],
) -> Result<Records, Stop>
    requires { length maneuvers.now ≤ MAX_MANEUVERS }
    ensures loads { Loads (λ records. records) (records_input maneuvers.now name.now)
        (shelf S.held S.faults S.failed store.old)
        (shelf S.held S.faults S.failed store.new) result }
    ensures sound { IfOk result (AreRecords (length maneuvers.now)) }
{
    let bytes = load_bytes(alloc, store, Role::Records, name)?;
    match read_records(alloc, bytes.as_slice(), maneuvers) {
        Ok(records) => Ok(records),
        Err(fault) => Err(refuse_records(alloc, fault)),
    }
}

// Appends the line of a recording.
fn push_judged(alloc: Global, out: &mut Vec<u8>, run: &Judged) -> Result<(), AllocError>
    ensures { OnOk result (out.new.items ≡ out.old.items ++ judged_line run.now) }
{
    out.extend_from_slice(run.name.as_slice())?;
    push_cell(alloc, out, u64::from(run.layer))?;
    push_cells(alloc, out, run.vector.as_slice())?;
    out.push(b'\n')?;
    Ok(())
}

// Appends the line of two recordings, by their places.
fn push_pair(
    out: &mut Vec<u8>,
    rules: &[Rule],
    runs: &[Judged],
    pair: (u32, u32, Verdict),
) -> Result<(), AllocError>
    requires { IsPlaced (length runs.now) (length rules.now) pair }
    ensures { OnOk result (out.new.items ≡ out.old.items ++ told_pair rules.now runs.now pair) }
{
    let (first, second, verdict) = pair;
    out.extend_from_slice(runs[first as usize].name.as_slice())?;
    push_word(out, runs[second as usize].name.as_slice())?;
    push_verdict(out, rules, verdict)?;
    out.push(b'\n')?;
    Ok(())
}

// Appends the lines of the recordings, and then those of the pairs.
fn push_judgement(
    alloc: Global,
    out: &mut Vec<u8>,
    rules: &[Rule],
    runs: &[Judged],
    pairs: &[(u32, u32, Verdict)],
) -> Result<(), AllocError>
    requires { All (IsPlaced (length runs.now) (length rules.now)) pairs.now }
    ensures { OnOk result (out.new.items ≡ out.old.items
        ++ (flat_map judged_line runs.now ++ flat_map (told_pair rules.now runs.now) pairs.now)) }
{
    push_all_judged(alloc, out, runs)?;
    push_pairs(out, rules, runs, pairs)
}

fn push_all_judged(alloc: Global, out: &mut Vec<u8>, runs: &[Judged]) -> Result<(), AllocError>
    ensures { OnOk result (out.new.items ≡ out.old.items ++ flat_map judged_line runs.now) }
{
    for run in runs {
        push_judged(alloc, out, run)?;
    }
    Ok(())
}

fn push_pairs(
    out: &mut Vec<u8>,
    rules: &[Rule],
    runs: &[Judged],
    pairs: &[(u32, u32, Verdict)],
) -> Result<(), AllocError>
    requires { All (IsPlaced (length runs.now) (length rules.now)) pairs.now }
    ensures { OnOk result (out.new.items ≡ out.old.items
        ++ flat_map (told_pair rules.now runs.now) pairs.now) }
{
    for pair in pairs {
        push_pair(out, rules, runs, *pair)?;
    }
    Ok(())
}

// The line of the rules' names, and what was judged.
fn judgement_text(alloc: Global, rules: &[Rule], judged: &Judgement) -> Result<Vec<u8>, AllocError>
    requires { All (IsPlaced (length judged.now.runs) (length rules.now)) judged.now.pairs }
    ensures { IfOk result (λ text. text.items ≡ rules_line rules.now
        ++ (flat_map judged_line judged.now.runs ++ flat_map
        (told_pair rules.now judged.now.runs) judged.now.pairs)) }
{
    let mut text = Vec::new(alloc);
    push_rules(&mut text, rules)?;
    push_judgement(
        alloc,
        &mut text,
        rules,
        judged.runs.as_slice(),
        judged.pairs.as_slice(),
    )?;
    Ok(text)
}

// What is told of the recordings by a book that is bound to the scene's features.
fn judge_bound(
    alloc: Global,
    files: &SceneFiles,
    records: &Records,
    bound: &Bound,
    source: &SceneSource<'_>,
) -> Result<Vec<u8>, NoMemory>
    requires files { AreSceneFiles files.now }
    requires records { AreRecords (length (maneuver_names files.now.lattice)) records.now }
    requires source { features_of (source_scene source.now) ≡ features files.now }
    requires bound { bound.now ≡ files_bound files.now }
    requires bound_to { IsBoundTo (features files.now) bound.now }
    ensures { IfOk result (λ text. IsJudgeText files.now records.now text.items) }
{
    let order = files.book.order();
    let judged = judge(alloc, records, bound, source, &order)?;
    let text = judgement_text(alloc, files.book.rules.as_slice(), &judged)?;
    Ok(text)
}

// What is told of the recordings, or why the book can't be bound.
fn judge_files(alloc: Global, files: &SceneFiles, records: &Records) -> Result<Vec<u8>, Stop>
    requires files { AreSceneFiles files.now }
    requires records { AreRecords (length (maneuver_names files.now.lattice)) records.now }
    ensures { Judges files.now records.now result }
{
    let around = surroundings_of(alloc, files)?;
    let source = SceneSource::new(
        &around.network,
        &around.traffic,
        files.lattice.length,
        files.lattice.width,
        around.names.as_slice(),
    );
    let bound = test_binding(alloc, files, &source)?;
    Ok(judge_bound(alloc, files, records, &bound, &source)?)
}

/// What `judge SCENARIO BOOK LATTICE RECORDS` writes.
pub fn judge_records<S: Store>(
    alloc: Global,
    store: &mut S,
    scenario: &str,
    book: &str,
    lattice: &str,
    records: &str,
) -> Result<Vec<u8>, Stop>
    ensures { Serves (judge_task scenario.now book.now lattice.now records.now)
        (shelf S.held S.faults S.failed store.old)
        (shelf S.held S.faults S.failed store.new) result }
{
    let files = load_scene_files(alloc, store, scenario, book, lattice)?;
    let names = files.lattice.names(alloc)?;
    let records = load_records(alloc, store, records, names.as_slice())?;
    judge_files(alloc, &files, &records)
}
