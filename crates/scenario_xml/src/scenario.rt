ghost use Rattle.std.specs.Prelude.{◌≤ℤ◌, pos, IfOk, IfErr};
ghost use Rattle.std.specs.Bool.{OnFalse};
ghost use Rattle.reading.specs.Reading.{Gives};
ghost use Rattle.scenario_model.specs.Scenario.{IsScenario};
ghost use Rattle.scenario_xml.specs.Faults.{is_memory};
ghost use Rattle.scenario_xml.specs.ScenarioFaults.{IsFirstFaultIn, IsOnlyFaultIn, IsMarkupTold};
ghost use Rattle.scenario_xml.specs.ScenarioOf.{IsScenarioIn, IsOnlyScenarioIn, IsNoScenario};
ghost use Rattle.scenario_xml.specs.Scenarios.{checked_scenario, scenario_in, document_in};
ghost use Rattle.scenario_xml.specs.Scenarios.{scenario};
ghost use Rattle.scenario_xml.specs.Sound.{AreWhole};
ghost use Rattle.scenario_model.specs.declared.limits.TheConstants.{MAX_STEP_MICROS};

use crate::contents::{Contents, contents_of};
use crate::fault::ScenarioFault;
use crate::root::root;
use crate::unknown_id::first_unknown;
use element_tree::{Tree, read_tree};
use scenario_model::Scenario;
use std::alloc::Global;

// The scenario of what was read, if every goal's region is known and there is a problem.
#[tactic(auto, unfolding(crate::specs::Scenarios::checked_scenario))]
fn checked_scenario(step_micros: i64, contents: Contents) -> Result<Scenario, ScenarioFault>
    requires low { pos 1 ≤ℤ step_micros }
    requires high { step_micros ≤ℤ MAX_STEP_MICROS }
    requires contents { AreWhole contents }
    ensures exact { Gives is_memory (λ s. s) result (checked_scenario step_micros contents) }
    ensures sound { IfOk result IsScenario }
{
    if let Some(id) = first_unknown(contents.problems.as_slice(), &contents.known_ids) {
        return Err(ScenarioFault::UnknownRef(id));
    }
    if contents.problems.as_slice().is_empty() {
        return Err(ScenarioFault::NoProblem);
    }
    Ok(Scenario {
        version: contents.version,
        step_micros,
        lanelets: contents.lanelets,
        obstacles: contents.obstacles,
        problems: contents.problems,
    })
}

// The scenario of a tree.
#[tactic(auto, unfolding(crate::specs::Scenarios::scenario_in))]
fn scenario_in(alloc: Global, tree: &Tree<'_>) -> Result<Scenario, ScenarioFault>
    ensures exact { Gives is_memory (λ s. s) result (scenario_in tree.now) }
    ensures sound { IfOk result IsScenario }
{
    let head = root(tree)?;
    let contents = contents_of(alloc, tree, head.version)?;
    checked_scenario(head.step_micros, contents)
}

// The tree of some bytes.
#[tactic(auto, unfolding(crate::specs::Scenarios::document_in))]
fn document_in<'a>(alloc: Global, bytes: &'a [u8]) -> Result<Tree<'a>, ScenarioFault>
    ensures { Gives is_memory (λ t. t) result (document_in bytes.now) }
{
    Ok(read_tree(alloc, bytes)?)
}

/// The scenario of a document's bytes, or its first fault in the document's order. The document is
/// CommonRoad XML of version 2020a or 2018b, in a profile that is this project's own. Lengths are
/// kept in 0.1 mm, angles in microradians, speeds in mm/s, times in ticks.
#[tactic(auto, unfolding(crate::specs::Scenarios::scenario))]
pub fn read_scenario(alloc: Global, bytes: &[u8]) -> Result<Scenario, ScenarioFault>
    ensures exact { Gives is_memory (λ s. s) result (scenario bytes.now) }
    ensures sound { IfOk result IsScenario }

    // What is accepted is the scenario of the document, and there is no other; what is refused has
    // none.
    ensures read { IfOk result (IsScenarioIn bytes.now) }
    ensures only { IfOk result (IsOnlyScenarioIn bytes.now) }
    ensures refused { IfErr result (λ f. OnFalse (is_memory f) (IsNoScenario bytes.now)) }

    // A fault is the first one: of the markup, the root, a child of the root after all children
    // before it, a region, the whole.
    ensures first { IfErr result (λ f. OnFalse (is_memory f) (IsFirstFaultIn bytes.now f)) }
    ensures only_fault { IfErr result (λ f. OnFalse (is_memory f) (IsOnlyFaultIn bytes.now f)) }
    ensures markup { IfErr result (IsMarkupTold bytes.now) }
{
    let tree = document_in(alloc, bytes)?;
    scenario_in(alloc, &tree)
}
