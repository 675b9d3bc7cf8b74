ghost use Rattle.std.specs.Prelude.{◌≡◌, ◌<◌, ◌≤ℤ◌, length, false, unsigned_abs, ◌≤◌, IfOk};
ghost use Rattle.std.specs.Prelude.{IfErr, IfSome};
ghost use Rattle.reading.specs.Reading.{Gives};
ghost use Rattle.scenario_xml.specs.Faults.{is_memory};
ghost use Rattle.scenario_xml.specs.Numbers.{least, most, limit};
ghost use Rattle.scenario_xml.specs.Elements.{child, wanted_child, wanted_attribute, number};
ghost use Rattle.scenario_xml.specs.Elements.{wanted_number, optional_number, optional_exact};
ghost use Rattle.scenario_xml.specs.Elements.{id_attribute};
ghost use Rattle.scenario_model.specs.declared.limits.TheConstants.{PAST_IDS};

use crate::fault::{ScenarioFault, Wanted};
use crate::quantity::{Quantity, id_in, number_in};
use element_tree::Tree;

/// The first child of the element that has the name. None where it has none.
#[tactic(auto, unfolding(crate::specs::Elements::child))]
pub fn child(tree: &Tree<'_>, node: u32, name: &[u8]) -> Option<u32>
    requires { node < length tree.now.nodes }
    ensures exact { result ≡ child tree.now node name.now }
    ensures inside { IfSome result (λ k. k < length tree.now.nodes) }
{
    let mut next = tree.first_child(node);
    while let Some(found) = next {
        if tree.name(found) == name {
            return Some(found);
        }
        next = tree.next_sibling(found);
    }
    None
}

// A child that has to be there.
#[tactic(auto, unfolding(crate::specs::Elements::wanted_child))]
pub fn wanted_child(tree: &Tree<'_>, node: u32, wanted: Wanted) -> Result<u32, ScenarioFault>
    requires { node < length tree.now.nodes }
    ensures exact { Gives is_memory (λ k. k) result (wanted_child tree.now node wanted) }
    ensures inside { IfOk result (λ k. k < length tree.now.nodes) }
{
    match child(tree, node, wanted.name()) {
        Some(found) => Ok(found),
        None => Err(ScenarioFault::Missing(wanted, tree.place(node))),
    }
}

// An attribute that has to be there.
#[tactic(auto, unfolding(crate::specs::Elements::wanted_attribute))]
pub fn wanted_attribute<'a>(
    tree: &Tree<'a>,
    node: u32,
    wanted: Wanted,
) -> Result<&'a [u8], ScenarioFault>
    requires { node < length tree.now.nodes }
    ensures exact { Gives is_memory (λ v. v.now) result (wanted_attribute tree.now node wanted) }
    ensures sure { IfErr result (λ fault. is_memory fault ≡ false) }
{
    match tree.attribute(node, wanted.name()) {
        Some(value) => Ok(value),
        None => Err(ScenarioFault::Missing(wanted, tree.place(node))),
    }
}

/// The id that the element's attribute of the name is: 1 to `MAX_ID_DIGITS` digits. It fails with
/// `Missing` where the element lacks the attribute, and with `BadNumber` where that is no id.
#[tactic(auto, unfolding(crate::specs::Elements::id_attribute))]
pub fn id_attribute(tree: &Tree<'_>, node: u32, wanted: Wanted) -> Result<u64, ScenarioFault>
    requires { node < length tree.now.nodes }
    ensures exact { Gives is_memory (λ id. id) result (id_attribute tree.now node wanted) }
    ensures small { IfOk result (λ id. id < PAST_IDS) }
    ensures sure { IfErr result (λ fault. is_memory fault ≡ false) }
{
    let text = wanted_attribute(tree, node, wanted)?;
    id_in(tree.place(node), text)
}

/// The number that is the element's text, in the unit and the range of the quantity. It fails with
/// `BadNumber` where the text is no such number.
#[tactic(auto, unfolding(crate::specs::Elements::number))]
pub fn number(tree: &Tree<'_>, node: u32, quantity: Quantity) -> Result<i64, ScenarioFault>
    requires { node < length tree.now.nodes }
    ensures exact { Gives is_memory (λ n. n) result (number tree.now node quantity) }
    ensures low { IfOk result (λ n. least quantity ≤ℤ n) }
    ensures high { IfOk result (λ n. n ≤ℤ most quantity) }
    ensures size { IfOk result (λ n. unsigned_abs n ≤ limit quantity) }
    ensures sure { IfErr result (λ fault. is_memory fault ≡ false) }
{
    match tree.text(node) {
        Some(text) => number_in(tree.place(node), text, quantity),
        None => Err(ScenarioFault::BadNumber(tree.place(node))),
    }
}

// The number in a child that has to be there.
#[tactic(auto, unfolding(crate::specs::Elements::wanted_number))]
pub fn wanted_number(
    tree: &Tree<'_>,
    node: u32,
    wanted: Wanted,
    quantity: Quantity,
) -> Result<i64, ScenarioFault>
    requires { node < length tree.now.nodes }
    ensures exact { Gives is_memory (λ n. n) result (wanted_number tree.now node wanted quantity) }
    ensures low { IfOk result (λ n. least quantity ≤ℤ n) }
    ensures high { IfOk result (λ n. n ≤ℤ most quantity) }
    ensures size { IfOk result (λ n. unsigned_abs n ≤ limit quantity) }
{
    let found = wanted_child(tree, node, wanted)?;
    number(tree, found, quantity)
}

// The number in a child that may be absent, which then counts as 0.
#[tactic(auto, unfolding(crate::specs::Elements::optional_number))]
pub fn optional_number(
    tree: &Tree<'_>,
    node: u32,
    name: &[u8],
    quantity: Quantity,
) -> Result<i64, ScenarioFault>
    requires { node < length tree.now.nodes }
    ensures exact { Gives is_memory (λ n. n) result
        (optional_number tree.now node name.now quantity) }
    ensures size { IfOk result (λ n. unsigned_abs n ≤ limit quantity) }
{
    match child(tree, node, name) {
        Some(found) => number(tree, found, quantity),
        None => Ok(0),
    }
}

// The exact number of a child that may be absent, which then counts as 0.
#[tactic(auto, unfolding(crate::specs::Elements::optional_exact))]
pub fn optional_exact(
    tree: &Tree<'_>,
    node: u32,
    name: &[u8],
    quantity: Quantity,
) -> Result<i64, ScenarioFault>
    requires { node < length tree.now.nodes }
    ensures exact { Gives is_memory (λ n. n) result
        (optional_exact tree.now node name.now quantity) }
    ensures size { IfOk result (λ n. unsigned_abs n ≤ limit quantity) }
{
    match child(tree, node, name) {
        Some(found) => wanted_number(tree, found, Wanted::Exact, quantity),
        None => Ok(0),
    }
}
