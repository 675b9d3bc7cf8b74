ghost use Rattle.std.specs.Prelude.{◌≡◌, ◌<◌, ◌≤ℤ◌, length, IfOk, IfSome};
ghost use Rattle.reading.specs.Reading.{Gives};
ghost use Rattle.scenario_model.specs.Scenario.{IsSpan};
ghost use Rattle.scenario_xml.specs.Faults.{is_memory};
ghost use Rattle.scenario_xml.specs.Goals.{span, optional_span};
ghost use Rattle.scenario_xml.specs.Numbers.{least, most, limit};

use crate::element::{child, number, wanted_number};
use crate::fault::{ScenarioFault, Wanted};
use crate::quantity::Quantity;
use element_tree::Tree;
use scenario_model::Span;

// What an element spans.
#[tactic(auto, unfolding(crate::specs::Goals::span))]
pub fn span(tree: &Tree<'_>, node: u32, quantity: Quantity) -> Result<Span, ScenarioFault>
    requires { node < length tree.now.nodes }
    ensures exact { Gives is_memory (λ s. s) result (span tree.now node quantity) }
    ensures low { IfOk result (λ s. (least quantity ≤ℤ s.low) × (least quantity ≤ℤ s.high)) }
    ensures high { IfOk result (λ s. (s.low ≤ℤ most quantity) × (s.high ≤ℤ most quantity)) }
    ensures size { IfOk result (IsSpan (limit quantity)) }
{
    if let Some(found) = child(tree, node, b"exact") {
        let number = number(tree, found, quantity)?;
        return Ok(Span {
            low: number,
            high: number,
        });
    }
    let low = wanted_number(tree, node, Wanted::IntervalStart, quantity)?;
    let high = wanted_number(tree, node, Wanted::IntervalEnd, quantity)?;
    Ok(Span { low, high })
}

// What a child spans, which may be absent.
#[tactic(auto, unfolding(crate::specs::Goals::optional_span))]
pub fn optional_span(
    tree: &Tree<'_>,
    node: u32,
    name: &[u8],
    quantity: Quantity,
) -> Result<Option<Span>, ScenarioFault>
    requires { node < length tree.now.nodes }
    ensures exact { Gives is_memory (λ s. s) result
        (optional_span tree.now node name.now quantity) }
    ensures size { IfOk result (λ found. IfSome found (IsSpan (limit quantity))) }
{
    match child(tree, node, name) {
        Some(found) => Ok(Some(span(tree, found, quantity)?)),
        None => Ok(None),
    }
}
