ghost use Rattle.std.specs.Prelude.{◌≡◌, ◌<◌};
ghost use Rattle.preorder.specs.Preorder.{rules_of};
ghost use Rattle.rulebook_order.specs.PairOrder.{order_of};
ghost use Rattle.rule_language.specs.Books.{IsBook};
ghost use Rattle.scenario_model.specs.Scenario.{IsScenario, lanelet_ids};
ghost use Rattle.lanelet_network.specs.Lanes.{lane_ids};
ghost use Rattle.maneuver_lattice.specs.Lattice.{IsLattice};

use certificate_checker::{Checked, check};
use domination_proof::{certificate_of, read_certificate, write_certificate};
use label_search::{Found, search};
use lanelet_network::Network;
use maneuver_lattice::SceneGraph;
use moving_obstacles::Traffic;
use rule_language::Book;
use rulebook_order::{PairOrder, StepGraph, Steps};
use sample_scene::{SampleScene, sample_scene};
use std::alloc::Global;
use std::marker::Brand;
use std::sync::ledger::{Blank, Ledger};
use std::test::Fail;
use violation_measures::{SceneSource, bind};

// The vectors of the answers are those of the finals, in their order. No rule of the book has a
// final part, so that a finished vector is the running one.
fn same_vectors<S: Drop>(found: &Found<S>, checked: &Checked) -> Result<(), Fail> {
    let answers = checked.answers.as_slice();
    if found.finals.as_slice().len() != answers.len() {
        return Err(Fail::new("another number of answers"));
    }
    for (i, number) in found.finals.as_slice().iter().enumerate() {
        let label = found
            .labels
            .as_slice()
            .get(*number as usize)
            .ok_or("a label")?;
        let answer = answers.get(i).ok_or("an answer")?;
        if label.vector.as_slice() != answer.vector.as_slice() {
            return Err(Fail::new("another vector"));
        }
    }
    Ok(())
}

// Searches the graph; writes the certificate, reads it again, and checks it. Gives how many labels
// and answers there are.
fn planned<G: StepGraph, L: Ledger>(
    alloc: Global,
    blank: Blank,
    graph: &G,
    order: &PairOrder,
) -> Result<(usize, usize), Fail>
    requires name { blank.name ≡ L.name }
    requires parts { blank.parts ≡ L.parts }
    requires some { 0 < blank.parts }
    requires order { (G.graph graph.now).width ≡ rules_of (order_of order.now) }
{
    let mut steps = Steps::<L>::new(blank);
    let found = search(alloc, graph, order, 20_000, &mut steps)?;
    let text = write_certificate(alloc, &certificate_of(alloc, &found)?)?;
    let cert = read_certificate(alloc, text.as_slice())?;
    let checked = check(alloc, graph, order, &cert, &mut steps)?;
    same_vectors(&found, &checked)?;
    Ok((
        found.labels.as_slice().len(),
        checked.answers.as_slice().len(),
    ))
}

// Plans the graph of a scene.
fn graph_planned(
    alloc: Global,
    graph: &SceneGraph<'_, SceneSource<'_>>,
    book: &Book,
) -> Result<(usize, usize), Fail>
    requires book { IsBook book.now }
    requires bound { graph.now.bound.now.book ≡ book.now }
{
    let order = PairOrder::new(book.order());
    planned::<SceneGraph<'_, SceneSource<'_>>, Brand>(alloc, Blank::new(1), graph, &order)
}

// Binds the book of a scene to the source, and plans the scene.
fn scene_planned(
    alloc: Global,
    scene: &SampleScene,
    network: &Network,
    source: &SceneSource<'_>,
) -> Result<(usize, usize), Fail>
    requires scenario { IsScenario scene.now.scenario }
    requires book { IsBook scene.now.book }
    requires lattice { IsLattice scene.now.lattice }
    requires network { lane_ids network.now ≡ lanelet_ids scene.now.scenario }
{
    let Ok(bound) = bind(alloc, &scene.book, source) else {
        return Err(Fail::new("not bound"));
    };
    let problem = &scene.scenario.problems.as_slice()[0];
    match SceneGraph::new(&scene.lattice, &bound, source, network, problem) {
        Ok(graph) => graph_planned(alloc, &graph, &scene.book),
        Err(_) => Err(Fail::new("no start")),
    }
}

#[test]
fn a_sample_is_planned_and_checked(rt: HostRuntime) -> Result<(), Fail> {
    let alloc = rt.alloc();
    let scene = sample_scene(alloc, 7)?;
    let Ok(network) = Network::new(alloc, &scene.scenario) else {
        return Err(Fail::new("no network"));
    };
    let traffic = Traffic::new(alloc, &scene.scenario)?;
    let names = scene.lattice.names(alloc)?;
    let source = SceneSource::new(
        &network,
        &traffic,
        scene.lattice.length,
        scene.lattice.width,
        names.as_slice(),
    );
    let (labels, answers) = scene_planned(alloc, &scene, &network, &source)?;
    assert!(rt; 0 < answers && answers <= labels);
    Ok(())
}
