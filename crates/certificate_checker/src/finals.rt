//! Conditions 5 to 8: the finals, the goal links, and that nothing is there too much.

ghost use Rattle.std.specs.Prelude.{◌≡◌, ◌↔◌, ◌^◌, ◌<◌, ◌≤◌, ℕ, List, length, Some, true, All};
ghost use Rattle.std.specs.Prelude.{Contains, IfOk, IsTrue, slice_get};
ghost use Rattle.rulebook_order.specs.Certified.{IsGoalLabel, IsAnsweredAt, HasGoalLink, goals_in};
ghost use Rattle.rulebook_order.specs.Certified.{finished_at};
ghost use Rattle.rulebook_order.specs.NoWorse.{AreApart};
ghost use Rattle.rulebook_order.specs.VectorOrder.{Holds};
ghost use Rattle.certificate_checker.specs.GoodCertificate.{FinalIsAtGoal, StandsApart};
ghost use Rattle.certificate_checker.specs.GoodCertificate.{HasNoSurplus};
ghost use Rattle.certificate_checker.specs.Failing.{FirstFailing};
ghost use Rattle.certificate_checker.specs.Labels.{AreReached, ends_of, AreMarks};

use certificate_text::CertLabel;
use preorder::{NoMemory, Violation};
use rulebook_order::{StepGraph, VectorOrder, finished};
use std::alloc::Global;

// Whether a number is that of a label at a goal.
fn is_goal_label<G: StepGraph>(graph: &G, pairs: &[(G::State, Violation)], number: u32) -> bool
    requires reached { AreReached (G.graph graph.now) pairs.now }
    ensures { IsTrue result ↔ IsGoalLabel (G.graph graph.now) pairs.now number }
{
    match pairs.get(number as usize) {
        None => false,
        Some((state, _)) => graph.is_goal(state),
    }
}

/// The place of the first final that is no label at a goal.
pub fn stray_final<G: StepGraph>(
    graph: &G,
    pairs: &[(G::State, Violation)],
    finals: &[u32],
) -> Option<usize>
    requires reached { AreReached (G.graph graph.now) pairs.now }
    ensures { FirstFailing (length finals.now) (FinalIsAtGoal
        (G.graph graph.now) pairs.now finals.now) result }
{
    for (j, number) in finals.iter().enumerate() {
        if !is_goal_label(graph, pairs, *number) {
            return Some(j);
        }
    }
    None
}

/// The finished vectors of the labels.
pub fn ends<G: StepGraph>(
    alloc: Global,
    graph: &G,
    pairs: &[(G::State, Violation)],
) -> Result<Vec<Violation>, NoMemory>
    requires reached { AreReached (G.graph graph.now) pairs.now }
    ensures { IfOk result (λ ends. ends.items ≡ ends_of (G.graph graph.now) pairs.now) }
{
    let mut ends = Vec::new(alloc);
    for (state, vector) in pairs {
        ends.push(finished(alloc, graph, state, vector)?)?;
    }
    Ok(ends)
}

/// For each label whether it is a final.
pub fn marks(alloc: Global, count: usize, finals: &[u32]) -> Result<Vec<bool>, NoMemory>
    requires { All (λ f. f < count) finals.now }
    ensures marks { IfOk result (λ marks. AreMarks finals.now marks.items) }
    ensures length { IfOk result (λ marks. length marks.items ≡ count) }
{
    let mut marks = vec![in alloc; false; count]?;
    for number in finals {
        marks[*number as usize] = true;
    }
    Ok(marks)
}

// Whether a number is that of a final whose finished vector is no worse.
fn is_final_no_worse<O: VectorOrder>(
    order: &O,
    ends: &[Violation],
    marks: &[bool],
    number: u32,
    vector: &[u64],
) -> bool
    requires widths { All (λ end. length end ≡ O.rules order.now) ends.now }
    requires vector { length vector.now ≡ O.rules order.now }
    ensures { IsTrue result ↔ ((slice_get marks.now number ≡ Some true) × (end : List ℕ)
        × (slice_get ends.now number ≡ Some end) × Holds (O.no_worse order.now) end vector.now) }
{
    match (marks.get(number as usize), ends.get(number as usize)) {
        (Some(true), Some(end)) => order.no_worse(end.as_slice(), vector),
        _ => false,
    }
}

// Whether neither of two vectors is no worse than the other.
fn are_apart<O: VectorOrder>(order: &O, x: &[u64], y: &[u64]) -> bool
    requires x { length x.now ≡ O.rules order.now }
    requires y { length y.now ≡ O.rules order.now }
    ensures { IsTrue result ↔ AreApart (Holds (O.no_worse order.now)) x.now y.now }
{
    !order.no_worse(x, y) && !order.no_worse(y, x)
}

/// The place of the first final that does not stand apart from an earlier one.
pub fn crowded_final<G: StepGraph, O: VectorOrder>(
    graph: &G,
    order: &O,
    pairs: &[(G::State, Violation)],
    ends: &[Violation],
    finals: &[u32],
) -> Option<usize>
    requires ends { ends.now ≡ ends_of (G.graph graph.now) pairs.now }
    requires widths { All (λ end. length end ≡ O.rules order.now) ends.now }
    requires labels { All (λ f. f < length ends.now) finals.now }
    ensures { FirstFailing (length finals.now) (StandsApart (G.graph graph.now)
        (Holds (O.no_worse order.now)) pairs.now finals.now) result }
{
    let _ = graph;
    let _ = pairs;
    for j in 0..finals.len() {
        for i in 0..j {
            let x = ends[finals[i] as usize].as_slice();
            let y = ends[finals[j] as usize].as_slice();
            if !are_apart(order, x, y) {
                return Some(j);
            }
        }
    }
    None
}

/// The first label with more links than its state has choices.
pub fn surplus_label<G: StepGraph>(
    graph: &G,
    pairs: &[(G::State, Violation)],
    labels: &[CertLabel],
) -> Option<u32>
    requires count { length labels.now < 2 ^ 32 }
    requires length { length pairs.now ≡ length labels.now }
    requires reached { AreReached (G.graph graph.now) pairs.now }
    ensures { FirstFailing (length labels.now) (HasNoSurplus
        (G.graph graph.now) pairs.now labels.now) result }
{
    for (k, label) in labels.iter().enumerate() {
        let (state, _) = &pairs[k];
        if label.links.as_slice().len() > graph.choices(state) {
            return Some(k as u32);
        }
    }
    None
}

/// How many labels are at a goal.
pub fn goals<G: StepGraph>(graph: &G, pairs: &[(G::State, Violation)]) -> usize
    requires count { length pairs.now < 2 ^ 32 }
    requires reached { AreReached (G.graph graph.now) pairs.now }
    ensures { result ≡ goals_in (G.graph graph.now) pairs.now }
{
    let mut count = 0;
    for (state, _) in pairs {
        if graph.is_goal(state) {
            count += 1;
        }
    }
    count
}

// Whether a goal link is there, and names a final whose finished vector is no worse.
fn is_answered<G: StepGraph, O: VectorOrder>(
    graph: &G,
    order: &O,
    pairs: &[(G::State, Violation)],
    ends: &[Violation],
    finals: &[u32],
    marks: &[bool],
    goal_links: &[u32],
    j: usize,
    vector: &[u64],
) -> bool
    requires ends { ends.now ≡ ends_of (G.graph graph.now) pairs.now }
    requires widths { All (λ end. length end ≡ O.rules order.now) ends.now }
    requires labels { All (λ f. f < length ends.now) finals.now }
    requires marks { AreMarks finals.now marks.now }
    requires length { length marks.now ≡ length ends.now }
    requires vector { length vector.now ≡ O.rules order.now }
    ensures { IsTrue result ↔ IsAnsweredAt (G.graph graph.now)
        (Holds (O.no_worse order.now)) pairs.now finals.now goal_links.now j vector.now }
{
    let _ = graph;
    let _ = pairs;
    let _ = finals;
    match goal_links.get(j) {
        None => false,
        Some(number) => is_final_no_worse(order, ends, marks, *number, vector),
    }
}

/// The first label at a goal whose goal link does not answer it.
pub fn unanswered_goal<G: StepGraph, O: VectorOrder>(
    graph: &G,
    order: &O,
    pairs: &[(G::State, Violation)],
    ends: &[Violation],
    finals: &[u32],
    marks: &[bool],
    goal_links: &[u32],
) -> Option<u32>
    requires count { length pairs.now < 2 ^ 32 }
    requires reached { AreReached (G.graph graph.now) pairs.now }
    requires ends { ends.now ≡ ends_of (G.graph graph.now) pairs.now }
    requires widths { All (λ end. length end ≡ O.rules order.now) ends.now }
    requires labels { All (λ f. f < length ends.now) finals.now }
    requires marks { AreMarks finals.now marks.now }
    requires length { length marks.now ≡ length ends.now }
    ensures { FirstFailing (length pairs.now) (HasGoalLink (G.graph graph.now)
        (Holds (O.no_worse order.now)) pairs.now finals.now goal_links.now) result }
{
    let mut j = 0;
    for k in 0..pairs.len() {
        let (state, _) = &pairs[k];
        if graph.is_goal(state) {
            if !is_answered(
                graph,
                order,
                pairs,
                ends,
                finals,
                marks,
                goal_links,
                j,
                ends[k].as_slice(),
            ) {
                return Some(k as u32);
            }
            j += 1;
        }
    }
    None
}
