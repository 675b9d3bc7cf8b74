ghost use Rattle.std.specs.Prelude.{◌≡◌, ◌+◌, ◌++◌, ◌<◌, ◌≤◌, ◌^◌, ◌-◌, length, map, All, IfOk};
ghost use Rattle.std.specs.Prelude.{OnOk};
ghost use Rattle.std.specs.List.{range_with_len};
ghost use Rattle.preorder.specs.Preorder.{rules_of};
ghost use Rattle.rulebook_order.specs.NoWorseBy.{IsVerdictBy, NoWorseBy};
ghost use Rattle.violation_measures.specs.Binding.{IsBoundTo};
ghost use Rattle.violation_measures.specs.Vectors.{width};
ghost use Rattle.trajectory_judge.specs.Judgements.{AreAnyRecords, HasVerdict, IsAnyRecording};
ghost use Rattle.trajectory_judge.specs.Judgements.{IsMeasured, HaveLayers, measured, place_pairs};
ghost use Rattle.trajectory_judge.specs.Judgements.{places};
ghost use Rattle.trajectory_judge.specs.Peeling.{names_of, vectors_of};
ghost use Rattle.trajectory_judge.specs.Records.{name_of};

use crate::judged::Judged;
use crate::layers::peel;
use crate::records::{Recording, Records};
use preorder::{List, NoMemory, Preorder};
use rulebook_order::{PairOrder, Verdict, compare};
use std::alloc::Global;
use violation_measures::{Bound, FeatureSource};

/// What is said of recordings.
#[derive(Drop)]
pub struct Judgement {
    /// In the order of the recordings.
    pub runs: List<Judged>,
    /// The places of two recordings, counted from 0, and how the first stands to the second: each
    /// with each later one.
    pub pairs: List<(u32, u32, Verdict)>,
}

// Measures a recording. Its layer is found later.
fn measure_one<S: FeatureSource>(
    alloc: Global,
    run: &Recording,
    bound: &Bound,
    source: &S,
) -> Result<Judged, NoMemory>
    requires run { IsAnyRecording run.now }
    requires source { IsBoundTo (S.features source.now) bound.now }
    ensures { IfOk result (λ judged. IsMeasured (S.features source.now) bound.now run.now judged) }
{
    let vector = bound.trajectory_vector(alloc, source, run.steps.as_slice())?;
    Ok(Judged {
        name: run.name,
        layer: 0,
        vector,
    })
}

// Measures each recording.
fn measure<S: FeatureSource>(
    alloc: Global,
    records: &Records,
    bound: &Bound,
    source: &S,
) -> Result<List<Judged>, NoMemory>
    requires records { AreAnyRecords records.now }
    requires source { IsBoundTo (S.features source.now) bound.now }
    ensures names { IfOk result (λ runs. names_of runs ≡ map name_of records.now.runs) }
    ensures vectors { IfOk result (λ runs. vectors_of runs
        ≡ measured (S.features source.now) bound.now records.now) }
    ensures layers { IfOk result (All (λ run. run.layer ≡ 0)) }
{
    let mut runs = List::new(alloc);
    for run in records.runs.as_slice() {
        let judged = measure_one(alloc, run, bound, source)?;
        runs.push(judged)?;
    }
    Ok(runs)
}

// Adds how recording `i` stands to each later one.
fn push_against(
    pairs: &mut List<(u32, u32, Verdict)>,
    order: &Preorder,
    runs: &[Judged],
    i: usize,
) -> Result<(), NoMemory>
    requires width { All (λ run. length run.vector ≡ rules_of order.now) runs.now }
    requires few { length runs.now < 2 ^ 32 }
    requires inside { i < length runs.now }
    requires verdicts { All (HasVerdict (IsVerdictBy order.now) (vectors_of runs.now)) pairs.old }
    ensures places { OnOk result (map places pairs.new
        ≡ map places pairs.old ++ map (λ j. (i, j)) (range_with_len (i + 1)
        (length runs.now - (i + 1)))) }
    ensures verdicts { OnOk result (All (HasVerdict (IsVerdictBy order.now)
        (vectors_of runs.now)) pairs.new) }
{
    let vector = runs[i].vector.as_slice();
    for j in i + 1..runs.len() {
        let verdict = compare(order, vector, runs[j].vector.as_slice());
        pairs.push((i as u32, j as u32, verdict))?;
    }
    Ok(())
}

// How each recording stands to each later one.
fn compare_all(
    alloc: Global,
    order: &Preorder,
    runs: &[Judged],
) -> Result<List<(u32, u32, Verdict)>, NoMemory>
    requires width { All (λ run. length run.vector ≡ rules_of order.now) runs.now }
    requires few { length runs.now < 2 ^ 32 }
    ensures places { IfOk result (λ pairs. map places pairs ≡ place_pairs (length runs.now)) }
    ensures verdicts { IfOk result (All (HasVerdict (IsVerdictBy order.now)
        (vectors_of runs.now))) }
{
    let mut pairs = List::new(alloc);
    for i in 0..runs.len() {
        push_against(&mut pairs, order, runs, i)?;
    }
    Ok(pairs)
}

/// Judges recordings by a book that is bound to a source, and the order of its rules.
///
/// The source agrees with the one bound in all that it finds, and in its bounds. The order has the
/// bound's width.
pub fn judge<S: FeatureSource>(
    alloc: Global,
    records: &Records,
    bound: &Bound,
    source: &S,
    order: &Preorder,
) -> Result<Judgement, NoMemory>
    requires records { AreAnyRecords records.now }
    requires source { IsBoundTo (S.features source.now) bound.now }
    requires order { rules_of order.now ≡ width bound.now }

    // One entry for each recording, in their order, with its vector and its layer.
    ensures names { IfOk result (λ judged. names_of judged.runs ≡ map name_of records.now.runs) }
    ensures vectors { IfOk result (λ judged. vectors_of judged.runs
        ≡ measured (S.features source.now) bound.now records.now) }
    ensures layers { IfOk result (λ judged. HaveLayers (NoWorseBy order.now) judged.runs) }

    // Each recording with each later one, and the verdict on the two vectors.
    ensures pairs { IfOk result (λ judged. map places judged.pairs
        ≡ place_pairs (length records.now.runs)) }
    ensures verdicts { IfOk result (λ judged. All
        (HasVerdict (IsVerdictBy order.now) (vectors_of judged.runs)) judged.pairs) }
{
    let mut runs = measure(alloc, records, bound, source)?;
    peel(&PairOrder::new(*order), &mut runs);
    let pairs = compare_all(alloc, order, runs.as_slice())?;
    Ok(Judgement { runs, pairs })
}
