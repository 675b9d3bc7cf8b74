//! The answers that what was found shows.

ghost use Rattle.std.specs.Prelude.{◌≡◌, All, map, IfOk};
ghost use Rattle.rulebook_order.specs.Graph.{IsReached, finished as finished_vector};
ghost use Rattle.rulebook_order.specs.VectorOrder.{Holds};
ghost use Rattle.certificate_checker.specs.Answers.{AreAttained, FollowParents, vectors_of};
ghost use Rattle.certificate_checker.specs.GoodCertificate.{answers_of};
ghost use Rattle.domination_proof.specs.Copies.{cert_of};
ghost use Rattle.domination_proof.specs.Shown.{IsShown};

use certificate_checker::{Attained, final_answers};
use certificate_text::Certificate;
use label_search::{Found, Label};
use preorder::{List, NoMemory, Violation};
use rulebook_order::{StepGraph, VectorOrder, finished};
use std::alloc::Global;

// The finished vector of each label.
fn ends_of<G: StepGraph>(
    alloc: Global,
    graph: &G,
    labels: &[Label<G::State>],
) -> Result<Vec<Violation>, NoMemory>
    requires { All (λ label. IsReached (G.graph graph.now) label.state label.vector) labels.now }
    ensures { IfOk result (λ ends. ends.items ≡ map
        (λ label. finished_vector (G.graph graph.now) label.state label.vector) labels.now) }
{
    let mut ends = Vec::new(alloc);
    for label in labels {
        ends.push(finished(alloc, graph, &label.state, &label.vector)?)?;
    }
    Ok(ends)
}

/// The answers that the certificate of what was found shows: for each final its finished vector,
/// with the choices that the parents give from the start to it. They are those that a check of the
/// certificate gives, which need not be run for them. It takes memory.
pub fn answers_found<G: StepGraph, O: VectorOrder>(
    alloc: Global,
    graph: &G,
    order: &O,
    found: &Found<G::State>,
    certificate: &Certificate,
) -> Result<List<Attained>, NoMemory>
    requires order { (G.graph graph.now).width ≡ O.rules order.now }
    requires shown { IsShown (G.graph graph.now) (Holds (O.no_worse order.now)) found.now }
    requires copied { certificate.now ≡ cert_of found.now }
    ensures vectors { IfOk result (λ answers. vectors_of answers
        ≡ answers_of (G.graph graph.now) certificate.now) }
    ensures choices { IfOk result (λ answers. FollowParents certificate.now.labels
        certificate.now.finals answers) }
    ensures attained { IfOk result (λ answers. AreAttained (G.graph graph.now) answers) }
{
    let _ = order;
    let ends = ends_of(alloc, graph, found.labels.as_slice())?;
    let answers = final_answers(
        alloc,
        certificate.labels.as_slice(),
        ends.as_slice(),
        certificate.finals.as_slice(),
    )?;
    Ok(answers)
}
