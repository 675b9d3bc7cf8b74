//! Laws above the definitions, each the contract of a function that does nothing.

ghost use Rattle.std.specs.Prelude.{◌≡◌, ℕ, List};
ghost use Rattle.rulebook_order.specs.Answer.{IsAnswerList};
ghost use Rattle.rulebook_order.specs.NoWorseBy.{NoWorseBy};
ghost use Rattle.rulebook_order.specs.PairOrder.{order_of};
ghost use Rattle.rulebook_order.specs.VectorOrder.{Holds};
ghost use Rattle.certificate_checker.specs.Answers.{vectors_of, FollowParents};
ghost use Rattle.certificate_checker.specs.Failing.{Fails};
ghost use Rattle.certificate_checker.specs.GoodCertificate.{IsGood, answers_of};
ghost use Rattle.certificate_checker.specs.declared.checked.Attained.{Attained};

use certificate_text::Certificate;
use rulebook_order::{PairOrder, StepGraph, VectorOrder};

/// What `check` finds is given by the graph, the pre-order and the certificate alone: it is good,
/// or one condition fails first, at one label; and the answers with their lists of choices are one
/// list.
pub fn one_finding<G: StepGraph>(graph: &G, pairs: &PairOrder, cert: &Certificate)
    ensures good_or_failing { (number label : ℕ) → IsGood (G.graph graph.now)
        (NoWorseBy (order_of pairs.now)) cert.now → ¬ Fails (G.graph graph.now)
        (NoWorseBy (order_of pairs.now)) cert.now number label }
    ensures one_condition { (number label other_number other_label : ℕ)
        → Fails (G.graph graph.now) (NoWorseBy (order_of pairs.now)) cert.now number label
        → Fails (G.graph graph.now)
        (NoWorseBy (order_of pairs.now)) cert.now other_number other_label
        → (number ≡ other_number) × (label ≡ other_label) }
    ensures one_list { (answers others : List Attained)
        → vectors_of answers ≡ answers_of (G.graph graph.now) cert.now
        → vectors_of others ≡ answers_of (G.graph graph.now) cert.now
        → FollowParents cert.now.labels cert.now.finals answers
        → FollowParents cert.now.labels cert.now.finals others → answers ≡ others }
{
    let _ = graph;
    let _ = pairs;
    let _ = cert;
}

/// The answers of a good certificate are exactly the answer over the graph, each once, whatever
/// made it.
pub fn good_shows_the_answer<G: StepGraph, O: VectorOrder>(graph: &G, order: &O, cert: &Certificate)
    requires order { (G.graph graph.now).width ≡ O.rules order.now }
    requires good { IsGood (G.graph graph.now) (Holds (O.no_worse order.now)) cert.now }
    ensures { IsAnswerList (G.graph graph.now) (Holds (O.no_worse order.now))
        (answers_of (G.graph graph.now) cert.now) }
{
    let _ = graph;
    let _ = order;
    let _ = cert;
}
