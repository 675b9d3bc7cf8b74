ghost use Rattle.std.specs.Prelude.{◌≡◌, ◌≤◌, [], ◌∷◌, All, IfOk, IfSome, List as Items, length};
ghost use Rattle.std.specs.Prelude.{map, unsigned_abs, ℕ};
ghost use Rattle.fixed_geometry.specs.Plane.{IsInRange, IsWithin};
ghost use Rattle.fixed_geometry.specs.declared.limits.TheConstants.{MAX_OFFSET};
ghost use Rattle.scenario_model.specs.declared.lanelet.Lanelet.{Lanelet as Piece};
ghost use Rattle.scenario_model.specs.declared.obstacle.Obstacle.{Obstacle as Thing};
ghost use Rattle.scenario_model.specs.declared.limits.TheConstants.{MAX_HEADING, MAX_LANELETS};
ghost use Rattle.scenario_model.specs.declared.limits.TheConstants.{MAX_OBSTACLES, MAX_SPEED};
ghost use Rattle.scenario_model.specs.Scenario.{IsLanelet, IsObstacle, IsProblem, IsRead, IsSpan};
ghost use Rattle.scenario_model.specs.Scenario.{HaveDifferentIds, IsScenario};

use fixed_geometry::Point;
use preorder::{List, NoMemory};
use scenario_model::{Goal, Lanelet, Obstacle, Pose, Problem, Scenario, Span, Version};
use std::alloc::Global;

// A point.
pub fn at(x: i32, y: i32) -> Point
    ensures read { IsRead result }
    ensures in_range { IsInRange result }
    ensures within { IsWithin MAX_OFFSET result }
{
    Point {
        x: i64::from(x),
        y: i64::from(y),
    }
}

// A problem that starts at tick 0 with heading 0, and has one goal, at tick 1.
pub fn problem(
    alloc: Global,
    position: Point,
    speed: i32,
    heading: Option<Span>,
) -> Result<Problem, NoMemory>
    requires position { IsRead position }
    requires speed { unsigned_abs speed ≤ MAX_SPEED }
    requires heading { IfSome heading (IsSpan MAX_HEADING) }
    ensures { IfOk result (λ problem. (ids : Items ℕ) → IsProblem ids problem) }
{
    let mut goals = List::new(alloc);
    goals.push(Goal {
        first_tick: 1,
        last_tick: 1,
        regions: List::new(alloc),
        heading,
        speed: None,
    })?;
    let start = Pose {
        tick: 0,
        position,
        heading: 0,
        speed: i64::from(speed),
    };
    Ok(Problem {
        id: 9,
        start,
        goals,
    })
}

// A scenario with one problem.
pub fn scenario(
    alloc: Global,
    lanelets: List<Lanelet>,
    obstacles: List<Obstacle>,
    problem: Problem,
) -> Result<Scenario, NoMemory>
    requires lanelet_count { length lanelets ≤ MAX_LANELETS }
    requires lanelets { All (IsLanelet (map (λ (l : Piece). l.id) lanelets)) lanelets }
    requires different_lanelets { HaveDifferentIds (λ (l : Piece). l.id) lanelets }
    requires obstacle_count { length obstacles ≤ MAX_OBSTACLES }
    requires obstacles { All IsObstacle obstacles }
    requires different_obstacles { HaveDifferentIds (λ (o : Thing). o.id) obstacles }
    requires problem { (ids : Items ℕ) → IsProblem ids problem }
    ensures well_formed { IfOk result IsScenario }
    ensures lanelets { IfOk result (λ scenario. scenario.lanelets ≡ lanelets) }
    ensures problem { IfOk result (λ scenario. scenario.problems ≡ problem ∷ []) }
{
    let mut problems = List::new(alloc);
    problems.push(problem)?;
    Ok(Scenario {
        version: Version::V2020a,
        step_micros: 100_000,
        lanelets,
        obstacles,
        problems,
    })
}
