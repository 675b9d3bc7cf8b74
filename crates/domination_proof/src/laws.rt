//! Laws above the definitions, each the contract of a function that does nothing.

ghost use Rattle.std.specs.Prelude.{◌≡◌, ◌≤◌, ℕ, length};
ghost use Rattle.preorder.specs.Preorder.{rules_of};
ghost use Rattle.rulebook_order.specs.Answer.{IsAnswerList};
ghost use Rattle.rulebook_order.specs.NoWorseBy.{NoWorseBy, no_worse_by};
ghost use Rattle.rulebook_order.specs.PairOrder.{order_of};
ghost use Rattle.rulebook_order.specs.VectorOrder.{Holds};
ghost use Rattle.label_search.specs.Found.{HasChoicesUpTo};
ghost use Rattle.certificate_text.specs.Text.{HasText, text};
ghost use Rattle.certificate_text.specs.declared.TheConstants.{MAX_LABELS};
ghost use Rattle.certificate_checker.specs.Failing.{Fails};
ghost use Rattle.certificate_checker.specs.GoodCertificate.{IsGood, answers_of};
ghost use Rattle.domination_proof.specs.Copies.{cert_of};
ghost use Rattle.domination_proof.specs.Shown.{IsShown};
ghost use Rattle.domination_proof.specs.declared.laws.TheConstants.{MAX_CHOICES, MAX_TEXT};

use certificate_text::Certificate;
use label_search::Found;
use rulebook_order::{PairOrder, StepGraph, VectorOrder};

/// The most choices of a state with which what is found of at most `MAX_LABELS` labels keeps within
/// `MAX_LINKS` links.
pub const MAX_CHOICES: usize = 32;

/// The most bytes in the text of what is found of at most `MAX_LABELS` labels with at most
/// `MAX_CHOICES` choices each.
pub const MAX_TEXT: usize = 10_800_000;

/// Where the clauses of a search hold of what was found, its numbers are a good certificate.
pub fn found_is_good<G: StepGraph, O: VectorOrder>(graph: &G, order: &O, found: &Found<G::State>)
    requires order { (G.graph graph.now).width ≡ O.rules order.now }
    requires shown { IsShown (G.graph graph.now) (Holds (O.no_worse order.now)) found.now }
    ensures { IsGood (G.graph graph.now) (Holds (O.no_worse order.now)) (cert_of found.now) }
{
    let _ = graph;
    let _ = order;
    let _ = found;
}

/// A check by the same pre-order accepts the certificate of what was found, and the certificate's
/// answers are exactly the answer over the graph, each once.
pub fn found_is_accepted<G: StepGraph>(graph: &G, pairs: &PairOrder, found: &Found<G::State>)
    requires order { (G.graph graph.now).width ≡ rules_of (order_of pairs.now) }
    requires shown { IsShown (G.graph graph.now) (Holds
        (no_worse_by (order_of pairs.now))) found.now }
    ensures good { IsGood (G.graph graph.now) (NoWorseBy (order_of pairs.now)) (cert_of found.now) }
    ensures never_rejected { (number label : ℕ) → ¬ Fails (G.graph graph.now)
        (NoWorseBy (order_of pairs.now)) (cert_of found.now) number label }
    ensures answer { IsAnswerList (G.graph graph.now) (NoWorseBy (order_of pairs.now))
        (answers_of (G.graph graph.now) (cert_of found.now)) }
{
    let _ = graph;
    let _ = pairs;
    let _ = found;
}

/// What was found has a text, and so is read again from it, where there are no more labels than a
/// certificate may have and no state has more than `MAX_CHOICES` choices. The text has at most
/// `MAX_TEXT` bytes.
pub fn found_has_a_text<G: StepGraph, O: VectorOrder>(graph: &G, order: &O, found: &Found<G::State>)
    requires shown { IsShown (G.graph graph.now) (Holds (O.no_worse order.now)) found.now }
    requires labels { length found.now.labels ≤ MAX_LABELS }
    requires choices { HasChoicesUpTo (G.graph graph.now) MAX_CHOICES }
    ensures has_text { HasText (cert_of found.now) }
    ensures short { length (text (cert_of found.now)) ≤ MAX_TEXT }
{
    let _ = graph;
    let _ = order;
    let _ = found;
}

/// A text is the text of one certificate within the limits.
pub fn one_certificate(first: &Certificate, second: &Certificate)
    ensures { HasText first.now → HasText second.now → text first.now ≡ text second.now
        → first.now ≡ second.now }
{
    let _ = first;
    let _ = second;
}
