ghost use Rattle.std.specs.Prelude.{◌≡◌, ◌++◌, IfOk, codes};
ghost use Rattle.scenario_model.specs.Scenario.{IsScenario};
ghost use Rattle.scenario_xml.specs.Faults.{word};
ghost use Rattle.command_outcome.specs.declared.outcome.Role.TheVariants as role;
ghost use Rattle.command_outcome.specs.Ends.{Loads, shelf};
ghost use Rattle.command_outcome.specs.Outcome.{Refuses};
ghost use Rattle.bound_scene.specs.ScenarioInput.{kind_text, markup_fault_text};
ghost use Rattle.bound_scene.specs.ScenarioInput.{scenario_fault_text, scenario_input};

use command_outcome::{Role, Stop, load_bytes, refuse, refuse_at};
use element_tree::MarkupFault;
use outside_io::Store;
use scenario_model::Scenario;
use scenario_xml::{Kind, ScenarioFault, Wanted, read_scenario};
use std::alloc::Global;

/// The scenario under the name.
pub fn load_scenario<S: Store>(alloc: Global, store: &mut S, name: &str) -> Result<Scenario, Stop>
    ensures loads { Loads (λ scenario. scenario) (scenario_input name.now)
        (shelf S.held S.faults S.failed store.old)
        (shelf S.held S.faults S.failed store.new) result }
    ensures well_formed { IfOk result IsScenario }
{
    let bytes = load_bytes(alloc, store, Role::Scenario, name)?;
    match read_scenario(alloc, bytes.as_slice()) {
        Ok(scenario) => Ok(scenario),
        Err(fault) => Err(refuse_scenario(alloc, fault)),
    }
}

// The refusal of a scenario, or want of memory.
fn refuse_scenario(alloc: Global, fault: ScenarioFault) -> Stop
    ensures { Refuses role.Scenario (scenario_fault_text fault) result }
{
    match fault {
        ScenarioFault::Markup(inner) => refuse_markup(alloc, inner),
        ScenarioFault::WrongRoot => refuse(alloc, Role::Scenario, "wrong-root"),
        ScenarioFault::WrongVersion => refuse(alloc, Role::Scenario, "wrong-version"),
        ScenarioFault::Missing(what, at) => {
            refuse_at(alloc, Role::Scenario, missing_text(what), at)
        }
        ScenarioFault::BadNumber(at) => refuse_at(alloc, Role::Scenario, "bad-number", at),
        ScenarioFault::DuplicateId(id) => {
            refuse_at(alloc, Role::Scenario, "duplicate-id", id as usize)
        }
        ScenarioFault::UnknownRef(id) => {
            refuse_at(alloc, Role::Scenario, "unknown-ref", id as usize)
        }
        ScenarioFault::BadShape(id) => refuse_at(alloc, Role::Scenario, "bad-shape", id as usize),
        ScenarioFault::BadBound(id) => refuse_at(alloc, Role::Scenario, "bad-bound", id as usize),
        ScenarioFault::Unsupported(at) => refuse_at(alloc, Role::Scenario, "unsupported", at),
        ScenarioFault::NoProblem => refuse(alloc, Role::Scenario, "no-problem"),
        ScenarioFault::TooMany(what) => refuse(alloc, Role::Scenario, too_many_text(what)),
        ScenarioFault::NoMemory => Stop::NoMemory,
    }
}

// The refusal of a document that is not of the markup's form.
fn refuse_markup(alloc: Global, fault: MarkupFault) -> Stop
    ensures { Refuses role.Scenario (markup_fault_text fault) result }
{
    match fault {
        MarkupFault::Malformed(at) => refuse_at(alloc, Role::Scenario, "malformed", at),
        MarkupFault::Truncated(at) => refuse_at(alloc, Role::Scenario, "truncated", at),
        MarkupFault::TooDeep(at) => refuse_at(alloc, Role::Scenario, "too-deep", at),
        MarkupFault::TooMany(at) => refuse_at(alloc, Role::Scenario, "too-many", at),
        MarkupFault::Unsupported(at) => refuse_at(alloc, Role::Scenario, "unsupported", at),
        MarkupFault::NoMemory => Stop::NoMemory,
    }
}

fn too_many_text(what: Kind) -> &'static str
    ensures { result.now ≡ codes "too-many " ++ kind_text what }
{
    match what {
        Kind::Lanelet => "too-many lanelet",
        Kind::Obstacle => "too-many obstacle",
        Kind::Problem => "too-many problem",
        Kind::Goal => "too-many goal",
        Kind::Region => "too-many region",
    }
}

fn missing_text(what: Wanted) -> &'static str
    ensures { result.now ≡ codes "missing " ++ word what }
{
    match what {
        Wanted::CommonRoadVersion => "missing commonRoadVersion",
        Wanted::TimeStepSize => "missing timeStepSize",
        Wanted::Id => "missing id",
        Wanted::Ref => "missing ref",
        Wanted::LeftBound => "missing leftBound",
        Wanted::RightBound => "missing rightBound",
        Wanted::X => "missing x",
        Wanted::Y => "missing y",
        Wanted::Shape => "missing shape",
        Wanted::InitialState => "missing initialState",
        Wanted::Length => "missing length",
        Wanted::Width => "missing width",
        Wanted::Radius => "missing radius",
        Wanted::Position => "missing position",
        Wanted::Point => "missing point",
        Wanted::Exact => "missing exact",
        Wanted::Time => "missing time",
        Wanted::GoalState => "missing goalState",
        Wanted::IntervalStart => "missing intervalStart",
        Wanted::IntervalEnd => "missing intervalEnd",
        Wanted::Role => "missing role",
    }
}
