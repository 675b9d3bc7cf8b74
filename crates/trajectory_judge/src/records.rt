ghost use Rattle.std.specs.Prelude.{◌≡◌, ◌≢◌, ◌≤◌, ◌<◌, ◌+◌, ◌^◌, [], List as Items, length, IfOk};
ghost use Rattle.std.specs.Prelude.{IfErr, OnOk, IsTrue, Ok, Some, None, true, false, ℕ, ◌∷◌};
ghost use Rattle.std.specs.Bool.{OnFalse};
ghost use Rattle.preorder.specs.Name.{is_name};
ghost use Rattle.reading.specs.Reading.{Gives, read_numbered};
ghost use Rattle.violation_measures.specs.declared.scene_source.TheConstants.{MAX_MANEUVERS};
ghost use Rattle.trajectory_judge.specs.Faults.{is_memory};
ghost use Rattle.trajectory_judge.specs.Records.{AreRecords, AreRecordsOf, AreRuns, IsCut};
ghost use Rattle.trajectory_judge.specs.Records.{IsFirstFaultyRow, IsRecordedStep, beginning};
ghost use Rattle.trajectory_judge.specs.Records.{going_on, is_next, is_of_file, last_of};
ghost use Rattle.trajectory_judge.specs.Records.{records_of, row_step, with_step};
ghost use Rattle.trajectory_judge.specs.Rows.{COLUMNS, GotRow, IsOpen, row_of, row_width};
ghost use Rattle.trajectory_judge.specs.Rows.{rows_left};

use crate::fault::RecordFault;
use crate::fields::read_fields;
use crate::limits::{MAX_RECORDED_STEPS, MAX_RECORDINGS};
use crate::rows::{RowFault, Rows};
use preorder::{List, Name};
use rule_language::{Named, has_name};
use std::alloc::Global;
use violation_measures::Step;

/// The steps of a vehicle, one for each tick from the first to the last.
#[derive(Drop)]
pub struct Recording {
    /// No other recording of its file has it.
    pub name: Name,
    /// 1 to `MAX_RECORDED_STEPS`.
    pub steps: List<Step>,
}

/// Recordings with different names, in the order of their file.
#[derive(Drop)]
pub struct Records {
    /// 1 to `MAX_RECORDINGS`.
    pub runs: List<Recording>,
}

impl Named for Recording {
    ghost use Rattle.trajectory_judge.specs.Records.{name_of};

    ghost name_of = { name_of };

    fn is_named(&self, name: &[u8]) -> bool {
        self.name.as_slice() == name
    }
}

// Whether a step follows the last of the steps.
#[tactic(auto, unfolding(crate::specs::Records::going_on))]
fn follows(steps: &[Step], step: Step) -> bool
    ensures { result ≡ is_next (last_of steps.now) step }
{
    match steps.last() {
        Some(last) => u64::from(step.tick) == u64::from(last.tick) + 1,
        None => false,
    }
}

// Takes the next row after so many, if there is one.
fn next_row(rows: &mut Rows<'_>, taken: usize) -> Result<bool, RecordFault>
    requires open { IsOpen rows.old }
    requires width { row_width rows.old ≡ Some COLUMNS }
    requires bound { taken + length (rows_left rows.old) < 2 ^ 64 }
    ensures some { IfOk result (λ found. found ≡ true → GotRow rows.old rows.new) }
    ensures none { IfOk result (λ found. found ≡ false → rows_left rows.old ≡ []) }
    ensures width { IfOk result (λ found. found ≡ true → length (row_of rows.new) ≡ COLUMNS) }
    ensures fault { IfErr result (λ e. OnFalse (is_memory e) (IsCut rows.old (taken + 1) e)) }
{
    match rows.read() {
        Ok(found) => Ok(found),
        Err(RowFault::Uneven) => Err(RecordFault::Csv(taken + 1)),
        Err(RowFault::NoMemory) => Err(RecordFault::NoMemory),
    }
}

impl Records {
    // Goes on with the last recording.
    #[tactic(auto, unfolding(crate::specs::Records::going_on))]
    fn go_on(&mut self, row: usize, step: Step) -> Result<(), RecordFault>
        requires { 1 ≤ length self.old.runs }
        ensures exact { (run : Recording) → last_of self.old.runs ≡ Some run
            → Gives is_memory (λ _. self.new.runs) result (going_on row step run self.old.runs) }
        ensures sound { (m : ℕ) → AreRuns m self.old.runs → IsRecordedStep m step
            → OnOk result (AreRuns m self.new.runs) }
    {
        let last = self.runs.as_slice().len() - 1;
        let run = self.runs.at_mut(last);
        if !follows(run.steps.as_slice(), step) {
            return Err(RecordFault::TickGap(row));
        }
        if run.steps.as_slice().len() >= MAX_RECORDED_STEPS {
            return Err(RecordFault::TooMany(row));
        }
        run.steps.push(step)?;
        Ok(())
    }

    // Begins a recording.
    #[tactic(auto, unfolding(crate::specs::Records::beginning))]
    fn begin(
        &mut self,
        alloc: Global,
        row: usize,
        name: Name,
        step: Step,
    ) -> Result<(), RecordFault>
        requires { IsTrue (is_name name) }
        ensures exact { Gives is_memory (λ _. self.new.runs) result
            (beginning row name step self.old.runs) }
        ensures sound { (m : ℕ) → AreRuns m self.old.runs → IsRecordedStep m step
            → OnOk result (AreRuns m self.new.runs) }
    {
        if has_name(self.runs.as_slice(), name.as_slice()) {
            return Err(RecordFault::DuplicateName(row));
        }
        if self.runs.as_slice().len() >= MAX_RECORDINGS {
            return Err(RecordFault::TooMany(row));
        }
        let mut steps = List::new(alloc);
        steps.push(step)?;
        self.runs.push(Recording { name, steps })?;
        Ok(())
    }

    // Adds the step of a row under a name.
    #[tactic(auto, unfolding(crate::specs::Records::with_step))]
    fn add(&mut self, alloc: Global, row: usize, name: Name, step: Step) -> Result<(), RecordFault>
        requires { IsTrue (is_name name) }
        ensures exact { Gives is_memory (λ _. self.new) result (with_step row name step self.old) }
        ensures sound { (m : ℕ) → AreRuns m self.old.runs → IsRecordedStep m step
            → OnOk result (AreRuns m self.new.runs) }
    {
        match self.runs.as_slice().last() {
            Some(run) if run.name.as_slice() == name.as_slice() => self.go_on(row, step),
            _ => self.begin(alloc, row, name, step),
        }
    }

    // Adds what a row says.
    #[tactic(auto, unfolding(crate::specs::Records::row_step))]
    fn add_row(
        &mut self,
        alloc: Global,
        row: usize,
        rows: &Rows<'_>,
        maneuvers: &[Name],
    ) -> Result<(), RecordFault>
        requires few { length maneuvers.now ≤ MAX_MANEUVERS }
        requires sound { AreRuns (length maneuvers.now) self.old.runs }
        requires width { length (row_of rows.now) ≡ COLUMNS }
        ensures exact { Gives is_memory (λ _. self.new) result
            (row_step maneuvers.now row (row_of rows.now) self.old) }
        ensures sound { OnOk result (AreRuns (length maneuvers.now) self.new.runs) }
    {
        let (name, step) = read_fields(row, &rows.fields(), maneuvers)?;
        self.add(alloc, row, name, step)
    }

    // Adds what each row says, up to the first fault.
    fn add_rows(
        &mut self,
        alloc: Global,
        rows: &mut Rows<'_>,
        maneuvers: &[Name],
    ) -> Result<(), RecordFault>
        requires few { length maneuvers.now ≤ MAX_MANEUVERS }
        requires sound { AreRuns (length maneuvers.now) self.old.runs }
        requires open { IsOpen rows.old }
        requires width { row_width rows.old ≡ Some COLUMNS }
        requires bound { length (rows_left rows.old) < 2 ^ 64 }
        ensures exact { Gives is_memory (λ _. self.new) result
            (read_numbered (row_step maneuvers.now) 1 (rows_left rows.old) self.old) }
        ensures sound { OnOk result (AreRuns (length maneuvers.now) self.new.runs) }
    {
        let mut row = 0;
        while next_row(rows, row)? {
            row += 1;
            self.add_row(alloc, row, rows, maneuvers)?;
        }
        Ok(())
    }
}

// The recordings by their definition: what else is promised of them follows from that.
#[tactic(auto, unfolding(crate::specs::Records::records_of))]
fn records_of(alloc: Global, bytes: &[u8], maneuvers: &[Name]) -> Result<Records, RecordFault>
    requires { length maneuvers.now ≤ MAX_MANEUVERS }
    ensures exact { Gives is_memory (λ records. records) result
        (records_of maneuvers.now bytes.now) }
    ensures sound { IfOk result (AreRecords (length maneuvers.now)) }
{
    let mut rows = Rows::under_header(alloc, bytes)?;
    let mut records = Records {
        runs: List::new(alloc),
    };
    records.add_rows(alloc, &mut rows, maneuvers)?;
    if records.runs.as_slice().is_empty() {
        return Err(RecordFault::Empty);
    }
    Ok(records)
}

/// The recordings of a file's bytes, or the first fault. A step's maneuver is the place of its name
/// among these, counted from 0. There are at most `MAX_MANEUVERS` names; of two that are equal the
/// first counts.
pub fn read_records(alloc: Global, bytes: &[u8], maneuvers: &[Name]) -> Result<Records, RecordFault>
    requires { length maneuvers.now ≤ MAX_MANEUVERS }
    ensures exact { Gives is_memory (λ records. records) result
        (records_of maneuvers.now bytes.now) }
    ensures sound { IfOk result (AreRecords (length maneuvers.now)) }

    // What is read are well-formed recordings whose steps are what the rows say, and only such are
    // read: what is refused has none.
    ensures read { IfOk result (AreRecordsOf maneuvers.now bytes.now) }
    ensures only { (records : Records) → AreRecordsOf maneuvers.now bytes.now records
        → Gives is_memory (λ read. read) result (Ok records) }

    // A row's fault is that of the first faulty row: all rows before it were read.
    ensures first_fault { IfErr result (λ fault. OnFalse (is_of_file fault)
        (IsFirstFaultyRow maneuvers.now bytes.now fault)) }
{
    records_of(alloc, bytes, maneuvers)
}
