ghost use Rattle.std.specs.Prelude.{◌≡◌, ◌≤◌, [], ◌∷◌, IfOk};
ghost use Rattle.rule_language.specs.Books.{IsBook};
ghost use Rattle.maneuver_lattice.specs.Lattice.{IsLattice};
ghost use Rattle.scenario_model.specs.Scenario.{IsScenario};
ghost use Rattle.sample_scene.specs.Motorway.{goal, problem, scenario};
ghost use Rattle.sample_scene.specs.Sample.{HasStart, MayBeBound, sample};

use crate::cars::cars;
use crate::lanes::lanes;
use crate::lattice::lattice;
use crate::rules::book;
use fixed_geometry::Point;
use maneuver_lattice::Lattice;
use preorder::{List, NoMemory};
use rule_language::Book;
use scenario_model::{Goal, Pose, Problem, Scenario, Version};
use std::alloc::Global;

/// The largest number of a sample scene. The smallest is 0.
pub const MAX_NUMBER: u32 = 999_999;

/// A scene to be planned.
#[derive(Drop)]
pub struct SampleScene {
    /// The motorway, its cars, and one planning problem.
    pub scenario: Scenario,
    /// Five rules.
    pub book: Book,
    /// Thirteen maneuvers.
    pub lattice: Lattice,
}

fn goals(alloc: Global) -> Result<List<Goal>, NoMemory>
    ensures { IfOk result (λ goals. goals ≡ goal ∷ []) }
{
    let mut goals = List::new(alloc);
    goals.push(Goal {
        first_tick: 30,
        last_tick: 30,
        regions: List::new(alloc),
        heading: None,
        speed: None,
    })?;
    Ok(goals)
}

fn problem(alloc: Global) -> Result<Problem, NoMemory>
    ensures { IfOk result (λ it. it ≡ problem) }
{
    Ok(Problem {
        id: 900,
        start: Pose {
            tick: 0,
            position: Point { x: 0, y: 40_000 },
            heading: 0,
            speed: 10_000,
        },
        goals: goals(alloc)?,
    })
}

fn problems(alloc: Global) -> Result<List<Problem>, NoMemory>
    ensures { IfOk result (λ problems. problems ≡ problem ∷ []) }
{
    let mut problems = List::new(alloc);
    problems.push(problem(alloc)?)?;
    Ok(problems)
}

// The motorway with the cars of a number.
#[tactic(auto, unfolding(crate::specs::Motorway::scenario))]
fn scenario(alloc: Global, number: u32) -> Result<Scenario, NoMemory>
    ensures { IfOk result (λ it. it ≡ scenario number) }
{
    Ok(Scenario {
        version: Version::V2020a,
        step_micros: 200_000,
        lanelets: lanes(alloc)?,
        obstacles: cars(alloc, number)?,
        problems: problems(alloc)?,
    })
}

/// The sample scene of a number: forty cars on a motorway with three lanes, which depend on the
/// number alone, a book of five rules, and a lattice of thirteen maneuvers.
///
/// The number is at most `MAX_NUMBER`. Want of memory is the only refusal.
pub fn sample_scene(alloc: Global, number: u32) -> Result<SampleScene, NoMemory>
    requires { number ≤ MAX_NUMBER }
    ensures value { IfOk result (λ scene. scene ≡ sample number) }
    ensures scenario { IfOk result (λ scene. IsScenario scene.scenario) }
    ensures book { IfOk result (λ scene. IsBook scene.book) }
    ensures lattice { IfOk result (λ scene. IsLattice scene.lattice) }
    ensures starts { IfOk result HasStart }
    ensures binds { IfOk result MayBeBound }
{
    Ok(SampleScene {
        scenario: scenario(alloc, number)?,
        book: book(alloc)?,
        lattice: lattice(alloc)?,
    })
}
