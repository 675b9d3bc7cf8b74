ghost use Rattle.std.specs.Prelude.{◌≡◌, ◌<◌, ◌≤ℤ◌, pos, length, IfOk};
ghost use Rattle.reading.specs.Reading.{Gives};
ghost use Rattle.scenario_xml.specs.Faults.{is_memory};
ghost use Rattle.scenario_xml.specs.Scenarios.{root};
ghost use Rattle.scenario_model.specs.declared.limits.TheConstants.{MAX_STEP_MICROS};

use crate::element::wanted_attribute;
use crate::fault::{ScenarioFault, Wanted};
use crate::quantity::{Quantity, number_in};
use crate::versions::version_in;
use element_tree::Tree;
use scenario_model::Version;

// What the attributes of the root say.
#[derive(Clone, Copy, Debug, PartialEq, Eq)]
pub struct Head {
    pub version: Version,
    // How long a tick is, in microseconds.
    pub step_micros: i64,
}

// What the attributes of the root say.
#[tactic(auto, unfolding(crate::specs::Scenarios::root, crate::specs::Scenarios::tick_length), using(crate::proofs::Roots::no_root))]
pub fn root(tree: &Tree<'_>) -> Result<Head, ScenarioFault>
    ensures exact { Gives is_memory (λ head. head) result (root tree.now) }
    ensures some { IfOk result (λ _. 0 < length tree.now.nodes) }
    ensures low { IfOk result (λ head. pos 1 ≤ℤ head.step_micros) }
    ensures high { IfOk result (λ head. head.step_micros ≤ℤ MAX_STEP_MICROS) }
{
    if tree.count() == 0 || tree.name(0) != b"commonRoad".as_slice() {
        return Err(ScenarioFault::WrongRoot);
    }
    let text = wanted_attribute(tree, 0, Wanted::CommonRoadVersion)?;
    let version = version_in(text)?;
    let step = wanted_attribute(tree, 0, Wanted::TimeStepSize)?;
    let step_micros = number_in(tree.place(0), step, Quantity::Step)?;
    Ok(Head {
        version,
        step_micros,
    })
}
