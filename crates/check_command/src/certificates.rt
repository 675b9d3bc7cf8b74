ghost use Rattle.std.specs.Prelude.{◌≡◌, ◌^◌, ◌<◌, length, All, IfOk, IfErr};
ghost use Rattle.preorder.specs.Preorder.{rules_of};
ghost use Rattle.rule_language.specs.Books.{IsBook};
ghost use Rattle.rulebook_order.specs.NoWorseBy.{NoWorseBy};
ghost use Rattle.rulebook_order.specs.PairOrder.{order_of};
ghost use Rattle.certificate_text.specs.Text.{HasText};
ghost use Rattle.certificate_checker.specs.Failing.{Fails, RejectedBy};
ghost use Rattle.certificate_checker.specs.GoodCertificate.{IsGood, answers_of};
ghost use Rattle.certificate_checker.specs.Answers.{vectors_of, FollowParents, AreAttained};
ghost use Rattle.rulebook_order.specs.Answer.{IsAnswerList};
ghost use Rattle.maneuver_lattice.specs.Moves.{scene_of};
ghost use Rattle.command_outcome.specs.declared.outcome.Role.TheVariants as role;
ghost use Rattle.command_outcome.specs.Ends.{Loads, shelf};
ghost use Rattle.command_outcome.specs.Outcome.{Refuses};
ghost use Rattle.check_command.specs.Answers.{NoWorseFor, graph_of};
ghost use Rattle.bound_scene.specs.BoundScenes.{IsBoundScene, IsGraphOf, graph_at};
ghost use Rattle.check_command.specs.Certificates.{IsOrderOf, IsShownText, IsSortedText};
ghost use Rattle.check_command.specs.Certificates.{certificate_fault_text, certificate_input};
ghost use Rattle.check_command.specs.Driven.{HasList};

use crate::answers::{ascending, push_front, push_rules};
use bound_scene::{BoundScene, Graph, SceneFiles};
use certificate_checker::{Attained, Checked, Rejection, check};
use certificate_text::{CertFault, Certificate, read_certificate};
use command_outcome::{Role, Stop, load_bytes, refuse, refuse_at};
use outside_io::Store;
use preorder::NoMemory;
use rule_language::Book;
use rulebook_order::{PairOrder, Steps};
use std::alloc::Global;
use std::marker::Brand;
use std::sync::ledger::{Blank, Ledger};

// The refusal of a certificate, or want of memory.
fn refuse_certificate(alloc: Global, fault: CertFault) -> Stop
    ensures { Refuses role.Certificate (certificate_fault_text fault) result }
{
    let role = Role::Certificate;
    match fault {
        CertFault::Syntax(line) => refuse_at(alloc, role, "syntax", line),
        CertFault::Truncated => refuse(alloc, role, "truncated"),
        CertFault::TooManyLabels => refuse(alloc, role, "too-many-labels"),
        CertFault::TooManyLinks => refuse(alloc, role, "too-many-links"),
        CertFault::TrailingBytes => refuse(alloc, role, "trailing-bytes"),
        CertFault::NoMemory => Stop::NoMemory,
    }
}

/// The certificate under the name.
pub fn load_certificate<S: Store>(
    alloc: Global,
    store: &mut S,
    name: &str,
) -> Result<Certificate, Stop>
    ensures loads { Loads (λ certificate. certificate) (certificate_input name.now)
        (shelf S.held S.faults S.failed store.old)
        (shelf S.held S.faults S.failed store.new) result }
    ensures within { IfOk result HasText }
{
    let bytes = load_bytes(alloc, store, Role::Certificate, name)?;
    match read_certificate(alloc, bytes.as_slice()) {
        Ok(certificate) => Ok(certificate),
        Err(fault) => Err(refuse_certificate(alloc, fault)),
    }
}

/// The order of vectors by the rules of a book.
pub fn order_by(book: &Book) -> PairOrder
    requires { IsBook book.now }
    ensures { IsOrderOf book.now (order_of result) }
{
    PairOrder::new(book.order())
}

// What a check finds. Steps are counted in a ledger that begins with this blank.
fn checked<L: Ledger>(
    alloc: Global,
    blank: Blank,
    graph: &Graph<'_>,
    order: &PairOrder,
    certificate: &Certificate,
) -> Result<Checked, Rejection>
    requires name { blank.name ≡ L.name }
    requires parts { blank.parts ≡ L.parts }
    requires some { 0 < blank.parts }
    requires order { (graph_at
        (scene_of graph.now.moves) graph.now.source.now graph.now.bound.now).width
        ≡ rules_of (order_of order.now) }
    requires count { length certificate.now.labels < 2 ^ 32 }
    ensures good { IfOk result (λ _. IsGood (graph_at
        (scene_of graph.now.moves) graph.now.source.now graph.now.bound.now)
        (NoWorseBy (order_of order.now)) certificate.now) }
    ensures vectors { IfOk result (λ checked. vectors_of checked.answers
        ≡ answers_of (graph_at
        (scene_of graph.now.moves) graph.now.source.now graph.now.bound.now) certificate.now) }
    ensures choices { IfOk result
        (λ checked. FollowParents certificate.now.labels certificate.now.finals checked.answers) }
    ensures attained { IfOk result (λ checked. AreAttained
        (graph_at
        (scene_of graph.now.moves) graph.now.source.now graph.now.bound.now) checked.answers) }
    ensures answer { IfOk result (λ checked. IsAnswerList
        (graph_at (scene_of graph.now.moves) graph.now.source.now graph.now.bound.now)
        (NoWorseBy (order_of order.now)) (vectors_of checked.answers)) }
    ensures rejected { IfErr result (RejectedBy (Fails
        (graph_at (scene_of graph.now.moves) graph.now.source.now graph.now.bound.now)
        (NoWorseBy (order_of order.now)) certificate.now)) }
{
    let mut steps = Steps::<L>::new(blank);
    check(alloc, graph, order, certificate, &mut steps)
}

/// The answers in ascending order, behind the words and the line of the rules' names.
pub fn shown_text(
    alloc: Global,
    words: &[u8],
    files: &SceneFiles,
    graph: &Graph<'_>,
    answers: &[Attained],
) -> Result<Vec<u8>, NoMemory>
    requires lattice { files.now.lattice ≡ (scene_of graph.now.moves).lattice }
    requires lists { All (HasList (scene_of graph.now.moves)) answers.now }
    ensures { IfOk result (λ text. IsSortedText words.now files.now.book.rules
        (scene_of graph.now.moves) answers.now text.items) }
{
    let sorted = ascending(alloc, answers)?;
    let mut text = words.to_vec(alloc)?;
    push_rules(&mut text, files.book.rules.as_slice())?;
    push_front(alloc, &mut text, graph, &files.lattice, &sorted)?;
    Ok(text)
}

/// The text of what the certificate shows of the scene, behind the words, where it is accepted;
/// else the first condition that it fails.
pub fn show_answers(
    alloc: Global,
    words: &[u8],
    scene: &BoundScene,
    graph: &Graph<'_>,
    order: &PairOrder,
    certificate: &Certificate,
) -> Result<Vec<u8>, Rejection>
    requires scene { IsBoundScene scene.now }
    requires graph { IsGraphOf scene.now.files
        (scene_of graph.now.moves) graph.now.source.now graph.now.bound.now }
    requires order { IsOrderOf scene.now.files.book (order_of order.now) }
    requires count { length certificate.now.labels < 2 ^ 32 }
    ensures shown { IfOk result
        (λ text. IsShownText words.now scene.now.files certificate.now text.items) }
    ensures rejected { IfErr result (RejectedBy (Fails (graph_of scene.now.files)
        (NoWorseFor scene.now.files) certificate.now)) }
{
    let checked = checked::<Brand>(alloc, Blank::new(1), graph, order, certificate)?;
    let text = shown_text(
        alloc,
        words,
        &scene.files,
        graph,
        checked.answers.as_slice(),
    )?;
    Ok(text)
}
