//! Conditions 1 to 4: the labels, their parents and their links.

ghost use Rattle.std.specs.Prelude.{◌≡◌, ◌↔◌, ◌+◌, ◌^◌, ◌<◌, ◌≤◌, ℕ, List, length, Some, IfOk};
ghost use Rattle.std.specs.Prelude.{IfErr, OnOk, IsTrue, MatchResult, slice_get};
ghost use Rattle.rulebook_order.specs.Certified.{IsLinked, IsLinkedTo};
ghost use Rattle.rulebook_order.specs.Graph.{IsReached};
ghost use Rattle.rulebook_order.specs.VectorOrder.{Holds};
ghost use Rattle.certificate_checker.specs.GoodCertificate.{pairs_of, ParentIsEarlier, HasChoice};
ghost use Rattle.certificate_checker.specs.GoodCertificate.{HasLinks, Everywhere, links_of};
ghost use Rattle.certificate_checker.specs.GoodCertificate.{later_labels};
ghost use Rattle.certificate_checker.specs.Failing.{FailsFirst, FirstFailing, AreLinked, Fails};
ghost use Rattle.certificate_checker.specs.Failing.{RejectedBy};
ghost use Rattle.certificate_checker.specs.Labels.{AreReached, HaveWidth};

use crate::checked::Rejection;
use certificate_text::{CertLabel, Certificate};
use preorder::{NoMemory, Violation};
use rulebook_order::{StepGraph, Steps, VectorOrder, extended, started};
use std::alloc::Global;
use std::sync::ledger::Ledger;

// The first label whose parent is not an earlier one.
fn late_parent(labels: &[CertLabel]) -> Option<u32>
    requires { length labels.now < 2 ^ 32 }
    ensures { FirstFailing (length labels.now) (ParentIsEarlier labels.now) result }
{
    for (k, label) in labels.iter().enumerate() {
        if k > 0 && label.parent as usize >= k {
            return Some(k as u32);
        }
    }
    None
}

// The states and running vectors of the labels, or the first label whose choice its parent's state
// has not.
fn pairs<G: StepGraph, L: Ledger>(
    alloc: Global,
    graph: &G,
    labels: &[CertLabel],
    steps: &mut Steps<L>,
) -> Result<Result<Vec<(G::State, Violation)>, u32>, NoMemory>
    requires first { 0 < length labels.now }
    requires count { length labels.now < 2 ^ 32 }
    requires parents { Everywhere (length labels.now) (ParentIsEarlier labels.now) }
    ensures pairs { IfOk result (λ r. IfOk r (λ ps. ps.items
        ≡ pairs_of (G.graph graph.now) labels.now)) }
    ensures choices { IfOk result (λ r. MatchResult r
        (λ _. Everywhere (length labels.now) (HasChoice (G.graph graph.now)
        (pairs_of (G.graph graph.now) labels.now) labels.now))
        (FailsFirst (length labels.now) (HasChoice (G.graph graph.now)
        (pairs_of (G.graph graph.now) labels.now) labels.now))) }
    ensures steps { steps.new ≤ steps.old + later_labels labels.now }
{
    let mut pairs = Vec::new(alloc);
    pairs.push(started(alloc, graph)?)?;
    for k in 1..labels.len() {
        let label = &labels[k];
        let (state, vector) = &pairs[label.parent as usize];
        let choice = label.choice as usize;
        if choice >= graph.choices(state) {
            return Ok(Err(k as u32));
        }
        let pair = extended(alloc, graph, state, vector, choice, steps)?;
        pairs.push(pair)?;
    }
    Ok(Ok(pairs))
}

// Whether the link of a choice names a label of the state that is no worse than the vector.
fn is_linked_to<G: StepGraph, O: VectorOrder>(
    graph: &G,
    order: &O,
    pairs: &[(G::State, Violation)],
    links: &[u32],
    choice: usize,
    state: &G::State,
    vector: &[u64],
) -> bool
    requires vector { length vector.now ≡ O.rules order.now }
    requires widths { HaveWidth (O.rules order.now) pairs.now }
    ensures { IsTrue result
        ↔ IsLinkedTo
        (Holds (O.no_worse order.now)) pairs.now links.now choice state.now vector.now }
{
    let _ = graph;
    match links.get(choice) {
        None => false,
        Some(link) => match pairs.get(*link as usize) {
            None => false,
            Some((found, covering)) => *found == *state
                && order.no_worse(covering.as_slice(), vector),
        },
    }
}

// Whether each choice of a label has its link.
fn is_linked<G: StepGraph, O: VectorOrder, L: Ledger>(
    alloc: Global,
    graph: &G,
    order: &O,
    pairs: &[(G::State, Violation)],
    links: &[u32],
    state: &G::State,
    vector: &Violation,
    steps: &mut Steps<L>,
) -> Result<bool, NoMemory>
    requires order { (G.graph graph.now).width ≡ O.rules order.now }
    requires reached { IsReached (G.graph graph.now) state.now vector.now }
    requires widths { HaveWidth (O.rules order.now) pairs.now }
    ensures linked { IfOk result (λ yes. IsTrue yes
        ↔ IsLinked (G.graph graph.now)
        (Holds (O.no_worse order.now)) pairs.now links.now state.now vector.now) }
    ensures steps { steps.new ≤ steps.old + length links.now }
{
    for choice in 0..graph.choices(state) {
        if choice >= links.len() {
            return Ok(false);
        }
        let (next, reached) = extended(alloc, graph, state, vector, choice, steps)?;
        if !is_linked_to(
            graph,
            order,
            pairs,
            links,
            choice,
            &next,
            reached.as_slice(),
        ) {
            return Ok(false);
        }
    }
    Ok(true)
}

// The first label with a choice that has no link.
fn unlinked_label<G: StepGraph, O: VectorOrder, L: Ledger>(
    alloc: Global,
    graph: &G,
    order: &O,
    pairs: &[(G::State, Violation)],
    labels: &[CertLabel],
    steps: &mut Steps<L>,
) -> Result<Option<u32>, NoMemory>
    requires order { (G.graph graph.now).width ≡ O.rules order.now }
    requires count { length labels.now < 2 ^ 32 }
    requires length { length pairs.now ≡ length labels.now }
    requires reached { AreReached (G.graph graph.now) pairs.now }
    ensures failing { IfOk result (FirstFailing (length labels.now)
        (HasLinks (G.graph graph.now) (Holds (O.no_worse order.now)) pairs.now labels.now)) }
    ensures steps { steps.new ≤ steps.old + links_of labels.now }
{
    for k in 0..labels.len() {
        let (state, vector) = &pairs[k];
        let links = labels[k].links.as_slice();
        if !is_linked(alloc, graph, order, pairs, links, state, vector, steps)? {
            return Ok(Some(k as u32));
        }
    }
    Ok(None)
}

/// The states and running vectors of the labels where conditions 1 to 4 hold, or the first that
/// fails.
pub fn check_labels<G: StepGraph, O: VectorOrder, L: Ledger>(
    alloc: Global,
    graph: &G,
    order: &O,
    cert: &Certificate,
    steps: &mut Steps<L>,
) -> Result<Vec<(G::State, Violation)>, Rejection>
    requires order { (G.graph graph.now).width ≡ O.rules order.now }
    requires count { length cert.now.labels < 2 ^ 32 }
    ensures pairs { IfOk result (λ pairs. pairs.items
        ≡ pairs_of (G.graph graph.now) cert.now.labels) }
    ensures linked { OnOk result (AreLinked (G.graph graph.now)
        (Holds (O.no_worse order.now)) cert.now.labels) }
    ensures rejected { IfErr result (RejectedBy (Fails (G.graph graph.now)
        (Holds (O.no_worse order.now)) cert.now)) }
    ensures steps { steps.new
        ≤ steps.old + later_labels cert.now.labels + links_of cert.now.labels }
{
    let labels = cert.labels.as_slice();
    if labels.is_empty() {
        return Err(Rejection::Condition(1, 0));
    }
    if let Some(label) = late_parent(labels) {
        return Err(Rejection::Condition(2, label));
    }
    let pairs = match pairs(alloc, graph, labels, steps)? {
        Err(label) => return Err(Rejection::Condition(3, label)),
        Ok(pairs) => pairs,
    };
    match unlinked_label(alloc, graph, order, pairs.as_slice(), labels, steps)? {
        Some(label) => Err(Rejection::Condition(4, label)),
        None => Ok(pairs),
    }
}
