ghost use Rattle.std.specs.Prelude.{◌≡◌, ◌+◌, ◌^◌, ◌<◌, ◌≤◌, length, All, IfOk, IfErr, OnOk};
ghost use Rattle.preorder.specs.Preorder.{rules_of};
ghost use Rattle.rulebook_order.specs.Answer.{IsAnswerList};
ghost use Rattle.rulebook_order.specs.NoWorseBy.{NoWorseBy, no_worse_by};
ghost use Rattle.rulebook_order.specs.PairOrder.{order_of};
ghost use Rattle.rulebook_order.specs.VectorOrder.{Holds};
ghost use Rattle.certificate_checker.specs.GoodCertificate.{pairs_of, IsGood, answers_of, links_of};
ghost use Rattle.certificate_checker.specs.GoodCertificate.{later_labels};
ghost use Rattle.certificate_checker.specs.Answers.{vectors_of, FollowParents, AreAttained};
ghost use Rattle.certificate_checker.specs.Failing.{AreLinked, AreAnswered, Fails, RejectedBy};
ghost use Rattle.certificate_checker.specs.Labels.{ends_of};

use crate::answers::final_answers;
use crate::checked::{Checked, Rejection};
use crate::finals::{
    crowded_final, ends, goals, marks, stray_final, surplus_label, unanswered_goal,
};
use crate::labels::check_labels;
use certificate_text::Certificate;
use preorder::Violation;
use rulebook_order::{PairOrder, StepGraph, Steps, VectorOrder};
use std::alloc::Global;
use std::sync::ledger::Ledger;

// Conditions 5 to 7, where 1 to 4 hold.
fn check_finals<G: StepGraph, O: VectorOrder>(
    alloc: Global,
    graph: &G,
    order: &O,
    cert: &Certificate,
    pairs: &[(G::State, Violation)],
    ends: &[Violation],
) -> Result<(), Rejection>
    requires order { (G.graph graph.now).width ≡ O.rules order.now }
    requires count { length cert.now.labels < 2 ^ 32 }
    requires linked { AreLinked (G.graph graph.now) (Holds (O.no_worse order.now)) cert.now.labels }
    requires pairs { pairs.now ≡ pairs_of (G.graph graph.now) cert.now.labels }
    requires ends { ends.now ≡ ends_of (G.graph graph.now) pairs.now }
    ensures answered { OnOk result (AreAnswered (G.graph graph.now)
        (Holds (O.no_worse order.now)) cert.now) }
    ensures rejected { IfErr result (RejectedBy (Fails (G.graph graph.now)
        (Holds (O.no_worse order.now)) cert.now)) }
{
    let finals = cert.finals.as_slice();
    let goal_links = cert.goal_links.as_slice();
    if let Some(j) = stray_final(graph, pairs, finals) {
        return Err(Rejection::Condition(5, finals[j]));
    }
    let marks = marks(alloc, ends.len(), finals)?;
    if let Some(label) = unanswered_goal(
        graph,
        order,
        pairs,
        ends,
        finals,
        marks.as_slice(),
        goal_links,
    ) {
        return Err(Rejection::Condition(6, label));
    }
    if let Some(j) = crowded_final(graph, order, pairs, ends, finals) {
        return Err(Rejection::Condition(7, finals[j]));
    }
    Ok(())
}

// Condition 8, where 1 to 7 hold: the certificate is good.
fn check_surplus<G: StepGraph, O: VectorOrder>(
    graph: &G,
    order: &O,
    cert: &Certificate,
    pairs: &[(G::State, Violation)],
) -> Result<(), Rejection>
    requires count { length cert.now.labels < 2 ^ 32 }
    requires linked { AreLinked (G.graph graph.now) (Holds (O.no_worse order.now)) cert.now.labels }
    requires answered { AreAnswered (G.graph graph.now) (Holds (O.no_worse order.now)) cert.now }
    requires pairs { pairs.now ≡ pairs_of (G.graph graph.now) cert.now.labels }
    ensures good { OnOk result (IsGood (G.graph graph.now)
        (Holds (O.no_worse order.now)) cert.now) }
    ensures rejected { IfErr result (RejectedBy (Fails (G.graph graph.now)
        (Holds (O.no_worse order.now)) cert.now)) }
{
    let _ = order;
    let labels = cert.labels.as_slice();
    if let Some(label) = surplus_label(graph, pairs, labels) {
        return Err(Rejection::Condition(8, label));
    }
    if cert.goal_links.as_slice().len() > goals(graph, pairs) {
        return Err(Rejection::Condition(8, labels.len() as u32));
    }
    Ok(())
}

// The answers where conditions 5 to 8 hold too, or the first that fails.
fn check_rest<G: StepGraph, O: VectorOrder>(
    alloc: Global,
    graph: &G,
    order: &O,
    cert: &Certificate,
    pairs: &[(G::State, Violation)],
) -> Result<Checked, Rejection>
    requires order { (G.graph graph.now).width ≡ O.rules order.now }
    requires count { length cert.now.labels < 2 ^ 32 }
    requires linked { AreLinked (G.graph graph.now) (Holds (O.no_worse order.now)) cert.now.labels }
    requires pairs { pairs.now ≡ pairs_of (G.graph graph.now) cert.now.labels }
    ensures good { OnOk result (IsGood (G.graph graph.now)
        (Holds (O.no_worse order.now)) cert.now) }
    ensures vectors { IfOk result (λ checked. vectors_of checked.answers
        ≡ answers_of (G.graph graph.now) cert.now) }
    ensures choices { IfOk result
        (λ checked. FollowParents cert.now.labels cert.now.finals checked.answers) }
    ensures rejected { IfErr result (RejectedBy (Fails (G.graph graph.now)
        (Holds (O.no_worse order.now)) cert.now)) }
{
    let ends = ends(alloc, graph, pairs)?;
    check_finals(alloc, graph, order, cert, pairs, ends.as_slice())?;
    check_surplus(graph, order, cert, pairs)?;
    let answers = final_answers(
        alloc,
        cert.labels.as_slice(),
        ends.as_slice(),
        cert.finals.as_slice(),
    )?;
    Ok(Checked { answers })
}

// The whole check, by the test of the pre-order.
fn check_by_test<G: StepGraph, L: Ledger>(
    alloc: Global,
    graph: &G,
    pairs: &PairOrder,
    cert: &Certificate,
    steps: &mut Steps<L>,
) -> Result<Checked, Rejection>
    requires order { (G.graph graph.now).width ≡ rules_of (order_of pairs.now) }
    requires count { length cert.now.labels < 2 ^ 32 }
    ensures good { OnOk result (IsGood (G.graph graph.now)
        (Holds (no_worse_by (order_of pairs.now))) cert.now) }
    ensures vectors { IfOk result (λ checked. vectors_of checked.answers
        ≡ answers_of (G.graph graph.now) cert.now) }
    ensures choices { IfOk result
        (λ checked. FollowParents cert.now.labels cert.now.finals checked.answers) }
    ensures attained { IfOk result (λ checked. AreAttained (G.graph graph.now) checked.answers) }
    ensures answer { IfOk result (λ checked. IsAnswerList (G.graph graph.now)
        (NoWorseBy (order_of pairs.now)) (vectors_of checked.answers)) }
    ensures rejected { IfErr result (RejectedBy (Fails (G.graph graph.now)
        (Holds (no_worse_by (order_of pairs.now))) cert.now)) }
    ensures steps { steps.new
        ≤ steps.old + later_labels cert.now.labels + links_of cert.now.labels }
{
    let labels = check_labels(alloc, graph, pairs, cert, steps)?;
    let checked = check_rest(alloc, graph, pairs, cert, labels.as_slice())?;
    Ok(checked)
}

/// Checks a certificate. It is accepted exactly where the eight conditions hold; its answers are
/// then exactly the answer over the graph, each once, each with a list of choices that attains it,
/// in the order of the certificate's finals.
/// Otherwise the first condition that fails is named, with the first label at which it does. The
/// certificate may come from anyone.
///
/// The graph has as many numbers in a vector as the order has rules, and there are fewer than 2^32
/// labels. One step is counted for each extension that is made, at most one for each label after the
/// first and each link. It takes memory.
pub fn check<G: StepGraph, L: Ledger>(
    alloc: Global,
    graph: &G,
    pairs: &PairOrder,
    cert: &Certificate,
    steps: &mut Steps<L>,
) -> Result<Checked, Rejection>
    requires order { (G.graph graph.now).width ≡ rules_of (order_of pairs.now) }
    requires count { length cert.now.labels < 2 ^ 32 }
    ensures good { OnOk result (IsGood (G.graph graph.now)
        (NoWorseBy (order_of pairs.now)) cert.now) }
    ensures vectors { IfOk result (λ checked. vectors_of checked.answers
        ≡ answers_of (G.graph graph.now) cert.now) }
    ensures choices { IfOk result
        (λ checked. FollowParents cert.now.labels cert.now.finals checked.answers) }
    ensures attained { IfOk result (λ checked. AreAttained (G.graph graph.now) checked.answers) }
    ensures answer { IfOk result (λ checked. IsAnswerList (G.graph graph.now)
        (NoWorseBy (order_of pairs.now)) (vectors_of checked.answers)) }
    ensures rejected { IfErr result (RejectedBy (Fails (G.graph graph.now)
        (NoWorseBy (order_of pairs.now)) cert.now)) }
    ensures steps { steps.new
        ≤ steps.old + later_labels cert.now.labels + links_of cert.now.labels }
{
    check_by_test(alloc, graph, pairs, cert, steps)
}
