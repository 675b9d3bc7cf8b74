ghost use Rattle.std.specs.Prelude.{⊤, ◌≡◌, ◌<◌, length, IfOk, OnOk};
ghost use Rattle.reading.specs.Reading.{Gives};
ghost use Rattle.scenario_xml.specs.Faults.{is_memory};
ghost use Rattle.scenario_xml.specs.Scenarios.{lanelet_step, obstacle_step, problem_step};
ghost use Rattle.scenario_xml.specs.Scenarios.{content_step, id_step, known_ids, contents};
ghost use Rattle.scenario_xml.specs.Sound.{AreContents};

use crate::children::{ChildReader, read_children};
use crate::element::id_attribute;
use crate::fault::{Kind, ScenarioFault, Wanted};
use crate::goal::problem;
use crate::identified::new_id;
use crate::known_ids::KnownIds;
use crate::lanelet::lanelet;
use crate::obstacle::any_obstacle;
use crate::versions::names_obstacle;
use element_tree::Tree;
use preorder::List;
use scenario_model::{
    Lanelet, MAX_LANELETS, MAX_OBSTACLES, MAX_PROBLEMS, Obstacle, Problem, Version,
};
use std::alloc::Global;

impl ChildReader for List<u64> {
    ghost step = { id_step };

    ghost is_sound = { λ _. ⊤ };

    #[tactic(auto, unfolding(crate::specs::Scenarios::id_step))]
    fn read_child(
        &mut self,
        _alloc: Global,
        tree: &Tree<'_>,
        child: u32,
    ) -> Result<(), ScenarioFault> {
        if tree.name(child) != b"lanelet".as_slice() {
            return Ok(());
        }
        if let Ok(id) = id_attribute(tree, child, Wanted::Id) {
            self.push(id)?;
        }
        Ok(())
    }
}

// The ids of all lanelets of the document. One without a good id is left out.
#[tactic(auto, unfolding(crate::specs::Scenarios::known_ids))]
fn known_ids(alloc: Global, tree: &Tree<'_>) -> Result<KnownIds, ScenarioFault>
    requires { 0 < length tree.now.nodes }
    ensures { Gives is_memory (λ k. k) result (known_ids tree.now) }
{
    let mut ids: List<u64> = List::new(alloc);
    read_children(&mut ids, alloc, tree, 0)?;
    let known_ids = KnownIds::of(alloc, ids)?;
    Ok(known_ids)
}

// What the root holds, as far as it is read.
#[derive(Drop)]
pub struct Contents {
    pub version: Version,
    pub known_ids: KnownIds,
    pub lanelets: List<Lanelet>,
    pub obstacles: List<Obstacle>,
    pub problems: List<Problem>,
}

impl Contents {
    #[tactic(auto, unfolding(crate::specs::Scenarios::lanelet_step), using(crate::proofs::ContentsLaws::lanelet_more))]
    fn add_lanelet(
        &mut self,
        alloc: Global,
        tree: &Tree<'_>,
        node: u32,
    ) -> Result<(), ScenarioFault>
        requires inside { node < length tree.now.nodes }
        requires sound { AreContents self.old }
        ensures exact { Gives is_memory (λ _. self.new) result
            (lanelet_step tree.now node self.old) }
        ensures sound { OnOk result (AreContents self.new) }
    {
        let id = new_id(
            tree,
            node,
            self.lanelets.as_slice(),
            Kind::Lanelet,
            MAX_LANELETS,
        )?;
        let lanelet = lanelet(alloc, tree, node, id, &self.known_ids)?;
        self.lanelets.push(lanelet)?;
        Ok(())
    }

    #[tactic(auto, unfolding(crate::specs::Scenarios::obstacle_step), using(crate::proofs::ContentsLaws::obstacle_more))]
    fn add_obstacle(
        &mut self,
        alloc: Global,
        tree: &Tree<'_>,
        node: u32,
    ) -> Result<(), ScenarioFault>
        requires inside { node < length tree.now.nodes }
        requires sound { AreContents self.old }
        ensures exact { Gives is_memory (λ _. self.new) result
            (obstacle_step tree.now node self.old) }
        ensures sound { OnOk result (AreContents self.new) }
    {
        let id = new_id(
            tree,
            node,
            self.obstacles.as_slice(),
            Kind::Obstacle,
            MAX_OBSTACLES,
        )?;
        let obstacle = any_obstacle(alloc, tree, node, id)?;
        self.obstacles.push(obstacle)?;
        Ok(())
    }

    #[tactic(auto, unfolding(crate::specs::Scenarios::problem_step), using(crate::proofs::ContentsLaws::problem_more))]
    fn add_problem(
        &mut self,
        alloc: Global,
        tree: &Tree<'_>,
        node: u32,
    ) -> Result<(), ScenarioFault>
        requires inside { node < length tree.now.nodes }
        requires sound { AreContents self.old }
        ensures exact { Gives is_memory (λ _. self.new) result
            (problem_step tree.now node self.old) }
        ensures sound { OnOk result (AreContents self.new) }
    {
        let id = new_id(
            tree,
            node,
            self.problems.as_slice(),
            Kind::Problem,
            MAX_PROBLEMS,
        )?;
        let problem = problem(alloc, tree, node, id)?;
        self.problems.push(problem)?;
        Ok(())
    }
}

impl ChildReader for Contents {
    ghost step = { content_step };

    ghost is_sound = { AreContents };

    #[tactic(auto, unfolding(crate::specs::Scenarios::content_step))]
    fn read_child(
        &mut self,
        alloc: Global,
        tree: &Tree<'_>,
        child: u32,
    ) -> Result<(), ScenarioFault> {
        let name = tree.name(child);
        if name == b"lanelet".as_slice() {
            self.add_lanelet(alloc, tree, child)
        } else if names_obstacle(self.version, name) {
            self.add_obstacle(alloc, tree, child)
        } else if name == b"planningProblem".as_slice() {
            self.add_problem(alloc, tree, child)
        } else {
            Ok(())
        }
    }
}

// What the root of a document of the version holds.
#[tactic(auto, unfolding(crate::specs::Scenarios::contents))]
pub fn contents_of(
    alloc: Global,
    tree: &Tree<'_>,
    version: Version,
) -> Result<Contents, ScenarioFault>
    requires { 0 < length tree.now.nodes }
    ensures exact { Gives is_memory (λ c. c) result (contents tree.now version) }
    ensures sound { IfOk result AreContents }
{
    let known_ids = known_ids(alloc, tree)?;
    let mut contents = Contents {
        version,
        known_ids,
        lanelets: List::new(alloc),
        obstacles: List::new(alloc),
        problems: List::new(alloc),
    };
    read_children(&mut contents, alloc, tree, 0)?;
    Ok(contents)
}
