ghost use Rattle.std.specs.Prelude.{◌≡◌, ◌<◌, ◌≤◌, ◌≤ℤ◌, pos, codes, All, length, IfOk, IfSome};
ghost use Rattle.std.specs.List.{filter};
ghost use Rattle.element_tree.specs.Trees.{text_of, children};
ghost use Rattle.scenario_model.specs.declared.limits.TheConstants.{MAX_SPEED, MAX_TICK};
ghost use Rattle.signal_features.specs.Forms.{is_named, id_at, has_text, limit, sign_limit, sign};
ghost use Rattle.signal_features.specs.Forms.{duration, phase, each_of, phases, offset, light};
ghost use Rattle.signal_features.specs.Sound.{IsSign, IsPhase, IsLight};

use crate::limits::{MAX_PHASE_TICKS, MAX_PHASES};
use crate::signals::{Light, Phase, SpeedSign};
use element_tree::Tree;
use preorder::{List, NoMemory};
use scenario_xml::{Quantity, Wanted, child, id_attribute, number};
use std::alloc::Global;

// The elements directly in an element, in order.
pub fn all_children(alloc: Global, tree: &Tree<'_>, node: u32) -> Result<List<u32>, NoMemory>
    requires { node < length tree.now.nodes }
    ensures value { IfOk result (λ nodes. nodes ≡ children tree.now node) }
    ensures inside { IfOk result (All (λ k. k < length tree.now.nodes)) }
{
    let mut nodes = List::new(alloc);
    let mut next = tree.first_child(node);
    while let Some(found) = next {
        nodes.push(found)?;
        next = tree.next_sibling(found);
    }
    Ok(nodes)
}

// Whether the element has the name.
pub fn is_named(tree: &Tree<'_>, name: &[u8], node: u32) -> bool
    requires { node < length tree.now.nodes }
    ensures { result ≡ is_named tree.now name.now node }
{
    tree.name(node) == name
}

// Those of the nodes that have the name.
fn only_named(
    alloc: Global,
    tree: &Tree<'_>,
    name: &[u8],
    nodes: &[u32],
) -> Result<List<u32>, NoMemory>
    requires { All (λ k. k < length tree.now.nodes) nodes.now }
    ensures value { IfOk result (λ named. named
        ≡ filter (is_named tree.now name.now) nodes.now) }
    ensures inside { IfOk result (All (λ k. k < length tree.now.nodes)) }
{
    let mut named = List::new(alloc);
    for node in nodes {
        if is_named(tree, name, *node) {
            named.push(*node)?;
        }
    }
    Ok(named)
}

// The id that is the element's attribute of the name.
pub fn id_at(tree: &Tree<'_>, node: u32, wanted: Wanted) -> Option<u64>
    requires { node < length tree.now.nodes }
    ensures { result ≡ id_at tree.now node wanted }
{
    id_attribute(tree, node, wanted).ok()
}

// Whether the element has the text.
fn has_text(tree: &Tree<'_>, node: u32, text: &[u8]) -> bool
    requires { node < length tree.now.nodes }
    ensures { result ≡ has_text text.now (text_of tree.now node) }
{
    match tree.text(node) {
        Some(found) => found == text,
        None => false,
    }
}

#[tactic(auto, unfolding(crate::specs::Forms::limit))]
fn limit(tree: &Tree<'_>, node: u32) -> Option<i64>
    requires { node < length tree.now.nodes }
    ensures value { result ≡ limit tree.now node }
    ensures low { IfSome result (λ n. pos 0 ≤ℤ n) }
    ensures high { IfSome result (λ n. n ≤ℤ pos MAX_SPEED) }
{
    match number(tree, node, Quantity::Speed) {
        Ok(limit) if 0 <= limit => Some(limit),
        _ => None,
    }
}

// The limit of a `trafficSignElement`.
#[tactic(auto, unfolding(crate::specs::Forms::sign_limit))]
fn sign_limit(tree: &Tree<'_>, node: u32) -> Option<i64>
    requires { node < length tree.now.nodes }
    ensures value { result ≡ sign_limit tree.now node }
    ensures low { IfSome result (λ n. pos 0 ≤ℤ n) }
    ensures high { IfSome result (λ n. n ≤ℤ pos MAX_SPEED) }
{
    let code = child(tree, node, b"trafficSignID")?;
    if !has_text(tree, code, b"274") {
        return None;
    }
    let value = child(tree, node, b"additionalValue")?;
    limit(tree, value)
}

// A `trafficSign`.
#[tactic(auto, unfolding(crate::specs::Forms::sign))]
pub fn sign(tree: &Tree<'_>, node: u32) -> Option<SpeedSign>
    requires { node < length tree.now.nodes }
    ensures value { result ≡ sign tree.now node }
    ensures sound { IfSome result IsSign }
{
    let id = id_at(tree, node, Wanted::Id)?;
    let element = child(tree, node, b"trafficSignElement")?;
    let limit = sign_limit(tree, element)?;
    Some(SpeedSign { id, limit })
}

#[tactic(auto, unfolding(crate::specs::Forms::duration))]
fn duration(tree: &Tree<'_>, node: u32) -> Option<u32>
    requires { node < length tree.now.nodes }
    ensures value { result ≡ duration tree.now node }
    ensures some { IfSome result (λ ticks. 1 ≤ ticks) }
    ensures short { IfSome result (λ ticks. ticks ≤ MAX_PHASE_TICKS) }
{
    match number(tree, node, Quantity::Tick) {
        Ok(ticks) if 1 <= ticks && ticks <= i64::from(MAX_PHASE_TICKS) => Some(ticks as u32),
        _ => None,
    }
}

// A `cycleElement`.
#[tactic(auto, unfolding(crate::specs::Forms::phase))]
fn phase(tree: &Tree<'_>, node: u32) -> Option<Phase>
    requires { node < length tree.now.nodes }
    ensures value { result ≡ phase tree.now node }
    ensures sound { IfSome result IsPhase }
{
    let duration_node = child(tree, node, b"duration")?;
    let ticks = duration(tree, duration_node)?;
    let color = child(tree, node, b"color")?;
    Some(Phase {
        ticks,
        red: has_text(tree, color, b"red"),
    })
}

// The phases that the nodes are, if each can be read.
#[tactic(auto, using(crate::proofs::Loops::each_goes_on, crate::proofs::Loops::each_stops, crate::proofs::Loops::each_done))]
fn each_phase(
    alloc: Global,
    tree: &Tree<'_>,
    nodes: &[u32],
) -> Result<Option<List<Phase>>, NoMemory>
    requires { All (λ k. k < length tree.now.nodes) nodes.now }
    ensures value { IfOk result (λ found. found ≡ each_of (phase tree.now) nodes.now) }
    ensures sound { IfOk result (λ found. IfSome found (All IsPhase)) }
{
    let mut phases = List::new(alloc);
    for node in nodes {
        let Some(phase) = phase(tree, *node) else {
            return Ok(None);
        };
        phases.push(phase)?;
    }
    Ok(Some(phases))
}

// The phases of a `cycle`.
#[tactic(auto, unfolding(crate::specs::Forms::phases))]
fn phases(alloc: Global, tree: &Tree<'_>, node: u32) -> Result<Option<List<Phase>>, NoMemory>
    requires { node < length tree.now.nodes }
    ensures value { IfOk result (λ found. found ≡ phases tree.now node) }
    ensures some { IfOk result (λ found. IfSome found (λ all. 1 ≤ length all)) }
    ensures few { IfOk result (λ found. IfSome found (λ all. length all ≤ MAX_PHASES)) }
    ensures sound { IfOk result (λ found. IfSome found (All IsPhase)) }
{
    let nodes = all_children(alloc, tree, node)?;
    let nodes = only_named(alloc, tree, b"cycleElement", nodes.as_slice())?;
    let Some(phases) = each_phase(alloc, tree, nodes.as_slice())? else {
        return Ok(None);
    };
    let count = phases.as_slice().len();
    if 1 <= count && count <= MAX_PHASES {
        Ok(Some(phases))
    } else {
        Ok(None)
    }
}

// The `timeOffset` of a `cycle`.
#[tactic(auto, unfolding(crate::specs::Forms::offset))]
fn offset(tree: &Tree<'_>, node: u32) -> Option<u32>
    requires { node < length tree.now.nodes }
    ensures value { result ≡ offset tree.now node }
    ensures small { IfSome result (λ ticks. ticks ≤ MAX_TICK) }
{
    let Some(found) = child(tree, node, b"timeOffset") else {
        return Some(0);
    };
    match number(tree, found, Quantity::Tick) {
        Ok(ticks) => Some(ticks as u32),
        Err(_) => None,
    }
}

// A `trafficLight`.
#[tactic(auto, unfolding(crate::specs::Forms::light))]
pub fn light(alloc: Global, tree: &Tree<'_>, node: u32) -> Result<Option<Light>, NoMemory>
    requires { node < length tree.now.nodes }
    ensures value { IfOk result (λ found. found ≡ light tree.now node) }
    ensures sound { IfOk result (λ found. IfSome found IsLight) }
{
    let Some(id) = id_at(tree, node, Wanted::Id) else {
        return Ok(None);
    };
    let Some(cycle) = child(tree, node, b"cycle") else {
        return Ok(None);
    };
    let Some(phases) = phases(alloc, tree, cycle)? else {
        return Ok(None);
    };
    let Some(offset) = offset(tree, cycle) else {
        return Ok(None);
    };
    Ok(Some(Light { id, phases, offset }))
}
