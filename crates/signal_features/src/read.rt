ghost use Rattle.std.specs.Prelude.{◌≡◌, ◌<◌, length, map, IfOk, IfErr};
ghost use Rattle.std.specs.Bool.{OnFalse};
ghost use Rattle.reading.specs.Reading.{Gives};
ghost use Rattle.scenario_model.specs.Scenario.{lanelet_ids};
ghost use Rattle.scenario_xml.specs.ScenarioOf.{IsScenarioIn};
ghost use Rattle.signal_features.specs.Signals.{is_memory, signals_in, signals, AreSignalsIn};
ghost use Rattle.signal_features.specs.Signals.{IsSignalFaultIn};
ghost use Rattle.signal_features.specs.Sound.{AreSignals, AreFound};

use crate::fault::SignalFault;
use crate::form::all_children;
use crate::found::all_found;
use crate::signals::Signals;
use crate::uses::uses;
use element_tree::{MarkupFault, Tree, read_tree};
use scenario_model::Scenario;
use std::alloc::Global;

// The signals of a tree.
#[tactic(auto, unfolding(crate::specs::Signals::signals_in, crate::specs::Signals::found))]
fn signals_in(alloc: Global, tree: &Tree<'_>) -> Result<Signals, SignalFault>
    requires { 0 < length tree.now.nodes }
    ensures exact { Gives is_memory (λ s. s) result (signals_in tree.now) }
    ensures sound { IfOk result (λ s. AreFound (record { signs = s.signs; lights = s.lights })) }
{
    let nodes = all_children(alloc, tree, 0)?;
    let found = all_found(alloc, tree, nodes.as_slice())?;
    let uses = uses(alloc, tree, nodes.as_slice(), &found)?;
    Ok(Signals {
        signs: found.signs,
        lights: found.lights,
        uses,
    })
}

/// The signals of a document, from whose bytes the scenario was read. What has not the form of a
/// sign, a light or a reference is passed over (a profile of CommonRoad XML that is this project's
/// own, `specs/Forms.antt`).
///
/// It fails with `TooMany` where more than `MAX_SIGNS` signs or more than `MAX_LIGHTS` lights have
/// the form, those with an id that an earlier one has included; with the kind that is first to have
/// too many, in document order.
#[tactic(auto, unfolding(crate::specs::Signals::signals))]
pub fn read_signals(
    alloc: Global,
    bytes: &[u8],
    scenario: &Scenario,
) -> Result<Signals, SignalFault>
    requires { IsScenarioIn bytes.now scenario.now }
    ensures exact { Gives is_memory (λ s. s) result (signals bytes.now) }

    // What is read is the signals of the document, and no others, one use for each lanelet of the
    // scenario.
    ensures read { IfOk result (AreSignalsIn bytes.now) }
    ensures sound { IfOk result (AreSignals (lanelet_ids scenario.now)) }

    // Where it fails there are too many, up to a child of the root, and before it there are not.
    ensures fault { IfErr result (λ f. OnFalse (is_memory f) (IsSignalFaultIn bytes.now f)) }
{
    match read_tree(alloc, bytes) {
        Ok(tree) => signals_in(alloc, &tree),
        Err(_) => Err(SignalFault::NoMemory),
    }
}
