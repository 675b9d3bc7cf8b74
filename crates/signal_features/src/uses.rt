ghost use Rattle.std.specs.Prelude.{◌≡◌, ◌<◌, ◌==◌, All, length, IfOk};
ghost use Rattle.std.specs.List.{filter, filter_map, list_any};
ghost use Rattle.signal_features.specs.Forms.{reference_at};
ghost use Rattle.signal_features.specs.Signals.{references, use_at, sign_ids, light_ids};

use crate::form::{all_children, id_at, is_named};
use crate::found::Found;
use crate::signals::SignalUse;
use element_tree::Tree;
use preorder::{List, NoMemory};
use scenario_xml::Wanted;
use std::alloc::Global;

// What a child of a lanelet refers to, by the name of such children.
#[tactic(auto, unfolding(crate::specs::Forms::reference_at))]
fn reference_at(tree: &Tree<'_>, name: &[u8], node: u32) -> Option<u64>
    requires { node < length tree.now.nodes }
    ensures { result ≡ reference_at tree.now name.now node }
{
    if !is_named(tree, name, node) {
        return None;
    }
    id_at(tree, node, Wanted::Ref)
}

fn is_one_of(ids: &[u64], id: u64) -> bool
    ensures { result ≡ list_any (λ known. id == known) ids.now }
{
    ids.iter().any(|known| id == *known)
}

// What the nodes with the name refer to.
#[tactic(auto, using(crate::proofs::Loops::kept_more, crate::proofs::Loops::kept_same))]
fn all_references(
    alloc: Global,
    tree: &Tree<'_>,
    name: &[u8],
    nodes: &[u32],
) -> Result<List<u64>, NoMemory>
    requires { All (λ k. k < length tree.now.nodes) nodes.now }
    ensures { IfOk result (λ ids. ids ≡ filter_map (reference_at tree.now name.now) nodes.now) }
{
    let mut ids = List::new(alloc);
    for node in nodes {
        if let Some(id) = reference_at(tree, name, *node) {
            ids.push(id)?;
        }
    }
    Ok(ids)
}

// Those of some ids that are of these.
fn only_of(alloc: Global, ids: &[u64], some: &[u64]) -> Result<List<u64>, NoMemory>
    ensures { IfOk result (λ kept. kept
        ≡ filter (λ id. list_any (λ known. id == known) ids.now) some.now) }
{
    let mut kept = List::new(alloc);
    for id in some {
        if is_one_of(ids, *id) {
            kept.push(*id)?;
        }
    }
    Ok(kept)
}

// What the children of a lanelet with the name refer to, of these ids.
#[tactic(auto, unfolding(crate::specs::Signals::references))]
fn references(
    alloc: Global,
    tree: &Tree<'_>,
    node: u32,
    name: &[u8],
    ids: &[u64],
) -> Result<List<u64>, NoMemory>
    requires { node < length tree.now.nodes }
    ensures { IfOk result (λ kept. kept ≡ references tree.now node name.now ids.now) }
{
    let nodes = all_children(alloc, tree, node)?;
    let all = all_references(alloc, tree, name, nodes.as_slice())?;
    only_of(alloc, ids, all.as_slice())
}

fn sign_ids(alloc: Global, found: &Found) -> Result<List<u64>, NoMemory>
    ensures { IfOk result (λ ids. ids ≡ sign_ids found.now.signs) }
{
    let mut ids = List::new(alloc);
    for sign in found.signs.as_slice() {
        ids.push(sign.id)?;
    }
    Ok(ids)
}

fn light_ids(alloc: Global, found: &Found) -> Result<List<u64>, NoMemory>
    ensures { IfOk result (λ ids. ids ≡ light_ids found.now.lights) }
{
    let mut ids = List::new(alloc);
    for light in found.lights.as_slice() {
        ids.push(light.id)?;
    }
    Ok(ids)
}

// The use of a child of the root, where it is a lanelet, of the signs and lights with these ids.
#[tactic(auto, unfolding(crate::specs::Signals::use_at))]
fn use_at(
    alloc: Global,
    tree: &Tree<'_>,
    node: u32,
    signs: &[u64],
    lights: &[u64],
) -> Result<Option<SignalUse>, NoMemory>
    requires { node < length tree.now.nodes }
    ensures { IfOk result (λ found. found ≡ use_at tree.now signs.now lights.now node) }
{
    if !is_named(tree, b"lanelet", node) {
        return Ok(None);
    }
    let Some(lanelet) = id_at(tree, node, Wanted::Id) else {
        return Ok(None);
    };
    let signs = references(alloc, tree, node, b"trafficSignRef", signs)?;
    let lights = references(alloc, tree, node, b"trafficLightRef", lights)?;
    Ok(Some(SignalUse {
        lanelet,
        signs,
        lights,
    }))
}

// The uses of these children of the root.
#[tactic(auto, using(crate::proofs::Loops::kept_more, crate::proofs::Loops::kept_same))]
pub fn uses(
    alloc: Global,
    tree: &Tree<'_>,
    nodes: &[u32],
    found: &Found,
) -> Result<List<SignalUse>, NoMemory>
    requires { All (λ k. k < length tree.now.nodes) nodes.now }
    ensures { IfOk result (λ uses. uses ≡ filter_map (use_at tree.now
        (sign_ids found.now.signs) (light_ids found.now.lights)) nodes.now) }
{
    let signs = sign_ids(alloc, found)?;
    let lights = light_ids(alloc, found)?;
    let mut uses = List::new(alloc);
    for node in nodes {
        if let Some(found) = use_at(alloc, tree, *node, signs.as_slice(), lights.as_slice())? {
            uses.push(found)?;
        }
    }
    Ok(uses)
}
