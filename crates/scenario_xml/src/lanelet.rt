ghost use Rattle.std.specs.Prelude.{⊤, ◌≡◌, ◌<◌, ◌≤◌, length, All, IfOk, IfSome};
ghost use Rattle.scenario_model.specs.Scenario.{IsKnown, IsBound, IsLanelet};
ghost use Rattle.reading.specs.Reading.{Gives};
ghost use Rattle.scenario_xml.specs.Faults.{is_memory};
ghost use Rattle.scenario_xml.specs.Lanelets.{bound, way_word, reference_step, references};
ghost use Rattle.scenario_xml.specs.Lanelets.{same_way, adjacent, lanelet};
ghost use Rattle.scenario_model.specs.declared.limits.TheConstants.{PAST_IDS};

use crate::children::{ChildReader, read_children};
use crate::element::{child, id_attribute, wanted_child};
use crate::fault::{ScenarioFault, Wanted};
use crate::known_ids::KnownIds;
use crate::shape::points;
use element_tree::Tree;
use fixed_geometry::Point;
use preorder::List;
use scenario_model::{Adjacent, Lanelet, MAX_BOUND_POINTS};
use std::alloc::Global;

// A bound of the lanelet with the id.
#[tactic(auto, unfolding(crate::specs::Lanelets::bound))]
fn bound(
    alloc: Global,
    tree: &Tree<'_>,
    node: u32,
    id: u64,
    wanted: Wanted,
) -> Result<List<Point>, ScenarioFault>
    requires { node < length tree.now.nodes }
    ensures exact { Gives is_memory (λ b. b) result (bound tree.now node id wanted) }
    ensures sound { IfOk result IsBound }
{
    let found = wanted_child(tree, node, wanted)?;
    let points = points(alloc, tree, found)?;
    let count = points.as_slice().len();
    if 2 <= count && count <= MAX_BOUND_POINTS {
        Ok(points)
    } else {
        Err(ScenarioFault::BadBound(id))
    }
}

// A side of a lanelet, on which other lanelets lie.
#[derive(Clone, Copy, Debug, PartialEq, Eq)]
enum Way {
    Back,
    Ahead,
    Left,
    Right,
}

impl Way {
    // The name of the elements that refer to the lanelets on this side.
    fn name(self) -> &'static [u8]
        ensures { result.now ≡ way_word self }
    {
        match self {
            Way::Back => b"predecessor",
            Way::Ahead => b"successor",
            Way::Left => b"adjacentLeft",
            Way::Right => b"adjacentRight",
        }
    }
}

// The references on a side that were read so far.
#[derive(Drop)]
struct ReferencesSoFar {
    way: Way,
    references: List<u64>,
}

impl ChildReader for ReferencesSoFar {
    ghost step = { reference_step };

    ghost is_sound = { λ _. ⊤ };

    #[tactic(auto, unfolding(crate::specs::Lanelets::reference_step))]
    fn read_child(
        &mut self,
        _alloc: Global,
        tree: &Tree<'_>,
        child: u32,
    ) -> Result<(), ScenarioFault> {
        if tree.name(child) == self.way.name() {
            let id = id_attribute(tree, child, Wanted::Ref)?;
            self.references.push(id)?;
        }
        Ok(())
    }
}

// The known lanelets that a lanelet refers to on a side.
#[tactic(auto, unfolding(crate::specs::Lanelets::references))]
fn references(
    alloc: Global,
    tree: &Tree<'_>,
    node: u32,
    known_ids: &KnownIds,
    way: Way,
) -> Result<List<u64>, ScenarioFault>
    requires { node < length tree.now.nodes }
    ensures exact { Gives is_memory (λ r. r) result (references tree.now node known_ids.now way) }
    ensures known_ids { IfOk result (All (IsKnown known_ids.now)) }
{
    let mut so_far = ReferencesSoFar {
        way,
        references: List::new(alloc),
    };
    read_children(&mut so_far, alloc, tree, node)?;
    let kept = known_ids.only(alloc, so_far.references.as_slice())?;
    Ok(kept)
}

#[tactic(auto, unfolding(crate::specs::Lanelets::same_way))]
fn same_way(tree: &Tree<'_>, node: u32) -> bool
    requires { node < length tree.now.nodes }
    ensures { result ≡ same_way tree.now node }
{
    match tree.attribute(node, b"drivingDir") {
        Some(way) => way == b"same".as_slice(),
        None => true,
    }
}

// The known lanelet beside a lanelet.
#[tactic(auto, unfolding(crate::specs::Lanelets::adjacent))]
fn adjacent(
    tree: &Tree<'_>,
    node: u32,
    known_ids: &KnownIds,
    way: Way,
) -> Result<Option<Adjacent>, ScenarioFault>
    requires { node < length tree.now.nodes }
    ensures exact { Gives is_memory (λ a. a) result (adjacent tree.now node known_ids.now way) }
    ensures known_ids { IfOk result (λ found. IfSome found (λ a. IsKnown known_ids.now a.id)) }
{
    let Some(found) = child(tree, node, way.name()) else {
        return Ok(None);
    };
    let id = id_attribute(tree, found, Wanted::Ref)?;
    if !known_ids.holds(id) {
        return Ok(None);
    }
    Ok(Some(Adjacent {
        id,
        same_way: same_way(tree, found),
    }))
}

// A `lanelet` with the id.
#[tactic(auto, unfolding(crate::specs::Lanelets::lanelet))]
pub fn lanelet(
    alloc: Global,
    tree: &Tree<'_>,
    node: u32,
    id: u64,
    known_ids: &KnownIds,
) -> Result<Lanelet, ScenarioFault>
    requires inside { node < length tree.now.nodes }
    requires id { id < PAST_IDS }
    ensures exact { Gives is_memory (λ l. l) result (lanelet tree.now node id known_ids.now) }
    ensures id { IfOk result (λ l. l.id ≡ id) }
    ensures sound { IfOk result (IsLanelet known_ids.now) }
{
    let left = bound(alloc, tree, node, id, Wanted::LeftBound)?;
    let right = bound(alloc, tree, node, id, Wanted::RightBound)?;
    let predecessors = references(alloc, tree, node, known_ids, Way::Back)?;
    let successors = references(alloc, tree, node, known_ids, Way::Ahead)?;
    let adjacent_left = adjacent(tree, node, known_ids, Way::Left)?;
    let adjacent_right = adjacent(tree, node, known_ids, Way::Right)?;
    Ok(Lanelet {
        id,
        left,
        right,
        predecessors,
        successors,
        adjacent_left,
        adjacent_right,
    })
}
