ghost use Rattle.std.specs.Prelude.{◌≡◌, ◌<◌, ◌≤◌, length, All, IfOk, IfSome};
ghost use Rattle.reading.specs.Reading.{Gives};
ghost use Rattle.scenario_xml.specs.Faults.{is_memory};
ghost use Rattle.scenario_xml.specs.Goals.{is_region, any_region, region_step, regions};
ghost use Rattle.scenario_xml.specs.Sound.{IsSoundRegion, AreRegions};

use crate::children::{ChildReader, read_children};
use crate::element::{child, id_attribute};
use crate::fault::{Kind, ScenarioFault, Wanted};
use crate::shape::any_shape;
use element_tree::Tree;
use preorder::List;
use scenario_model::{MAX_REGIONS, Region};
use std::alloc::Global;

#[tactic(auto, unfolding(crate::specs::Goals::is_region))]
fn is_region(name: &[u8]) -> bool
    ensures { result ≡ is_region name.now }
{
    name == b"rectangle".as_slice()
        || name == b"circle".as_slice()
        || name == b"polygon".as_slice()
        || name == b"lanelet".as_slice()
}

// The region that an element is. None where its name is no region's.
#[tactic(auto, unfolding(crate::specs::Goals::any_region), using(crate::proofs::SoundLaws::sound_shape, crate::proofs::SoundLaws::sound_lanelet))]
fn any_region(
    alloc: Global,
    tree: &Tree<'_>,
    node: u32,
    id: u64,
) -> Result<Option<Region>, ScenarioFault>
    requires { node < length tree.now.nodes }
    ensures exact { Gives is_memory (λ r. r) result (any_region tree.now node id) }
    ensures sound { IfOk result (λ found. IfSome found IsSoundRegion) }
{
    if tree.name(node) == b"lanelet".as_slice() {
        let lanelet = id_attribute(tree, node, Wanted::Ref)?;
        return Ok(Some(Region::OnLanelet(lanelet)));
    }
    match any_shape(alloc, tree, node, id)? {
        Some(shape) => Ok(Some(Region::Inside(shape))),
        None => Ok(None),
    }
}

// The regions read so far, of the problem with the id.
#[derive(Drop)]
struct RegionsSoFar {
    id: u64,
    regions: List<Region>,
}

impl ChildReader for RegionsSoFar {
    ghost step = { region_step };

    ghost is_sound = { AreRegions };

    #[tactic(auto, unfolding(crate::specs::Goals::region_step))]
    fn read_child(
        &mut self,
        alloc: Global,
        tree: &Tree<'_>,
        child: u32,
    ) -> Result<(), ScenarioFault> {
        if !is_region(tree.name(child)) {
            return Ok(());
        }
        if self.regions.as_slice().len() >= MAX_REGIONS {
            return Err(ScenarioFault::TooMany(Kind::Region));
        }
        if let Some(region) = any_region(alloc, tree, child, self.id)? {
            self.regions.push(region)?;
        }
        Ok(())
    }
}

// The regions of a goal of the problem with the id.
#[tactic(auto, unfolding(crate::specs::Goals::regions))]
pub fn regions(
    alloc: Global,
    tree: &Tree<'_>,
    node: u32,
    id: u64,
) -> Result<List<Region>, ScenarioFault>
    requires { node < length tree.now.nodes }
    ensures exact { Gives is_memory (λ r. r) result (regions tree.now node id) }
    ensures few { IfOk result (λ r. length r ≤ MAX_REGIONS) }
    ensures sound { IfOk result (All IsSoundRegion) }
{
    let mut so_far = RegionsSoFar {
        id,
        regions: List::new(alloc),
    };
    let Some(position) = child(tree, node, b"position") else {
        return Ok(so_far.regions);
    };
    read_children(&mut so_far, alloc, tree, position)?;
    if so_far.regions.as_slice().is_empty() {
        return Err(ScenarioFault::Missing(Wanted::Position, tree.place(node)));
    }
    Ok(so_far.regions)
}
