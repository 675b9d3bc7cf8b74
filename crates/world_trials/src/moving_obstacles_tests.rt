ghost use Rattle.std.specs.Prelude.{◌≤◌, All, length, unsigned_abs, IfOk};
ghost use Rattle.scenario_model.specs.Scenario.{IsRead, IsShape, IsPose, IsStateCount};
ghost use Rattle.scenario_model.specs.Scenario.{IsObstacle};
ghost use Rattle.scenario_model.specs.declared.limits.TheConstants.{MAX_HEADING};

use crate::fixtures::{at, problem, scenario};
use fixed_geometry::{Point, bounds, rectangle_at};
use moving_obstacles::Traffic;
use preorder::{List, NoMemory};
use scenario_model::{Obstacle, Pose, Shape};
use std::alloc::Global;
use std::test::Fail;

fn pose(tick: u16, position: Point, heading: i64) -> Pose
    requires position { IsRead position }
    requires heading { unsigned_abs heading ≤ MAX_HEADING }
    ensures { IsPose result }
{
    Pose {
        tick: u32::from(tick),
        position,
        heading,
        speed: 0,
    }
}

fn car() -> Shape
    ensures { IsShape result }
{
    Shape::Rectangle {
        length: 45_000,
        width: 18_000,
        heading: 0,
        center: at(0, 0),
    }
}

fn obstacle(
    alloc: Global,
    moving: bool,
    shape: Shape,
    states: List<Pose>,
) -> Result<Obstacle, NoMemory>
    requires shape { IsShape shape }
    requires states { All IsPose states }
    requires count { IsStateCount moving (length states) }
    ensures { IfOk result IsObstacle }
{
    let mut shapes = List::new(alloc);
    shapes.push(shape)?;
    Ok(Obstacle {
        id: 1,
        moving,
        shapes,
        states,
    })
}

// The traffic of one obstacle or none, where there is no lanelet.
fn traffic(alloc: Global, obstacles: List<Obstacle>) -> Result<Traffic, NoMemory>
    requires few { length obstacles ≤ 1 }
    requires obstacles { All IsObstacle obstacles }
{
    let problem = problem(alloc, at(0, 0), 0, None)?;
    let scenario = scenario(alloc, List::new(alloc), obstacles, problem)?;
    Traffic::new(alloc, &scenario)
}

// The traffic of one obstacle that stands.
fn standing(alloc: Global, shape: Shape, state: Pose) -> Result<Traffic, NoMemory>
    requires shape { IsShape shape }
    requires state { IsPose state }
{
    let mut states = List::new(alloc);
    states.push(state)?;
    let mut obstacles = List::new(alloc);
    obstacles.push(obstacle(alloc, false, shape, states)?)?;
    traffic(alloc, obstacles)
}

// The traffic of one car that moves from one pose to another.
fn moving(alloc: Global, from: Pose, to: Pose) -> Result<Traffic, NoMemory>
    requires from { IsPose from }
    requires to { IsPose to }
{
    let mut states = List::new(alloc);
    states.push(from)?;
    states.push(to)?;
    let mut obstacles = List::new(alloc);
    obstacles.push(obstacle(alloc, true, car(), states)?)?;
    traffic(alloc, obstacles)
}

#[test]
fn a_standing_car_is_ahead_met_behind_or_beside(rt: HostRuntime) -> Result<(), Fail> {
    for (y, x, met, gap, ahead) in [
        (0, 0, 0, 55_000, 100_000),
        (0, 55_000, 1, 0, 45_000),
        (0, 200_000, 0, 55_000, 10_000_000),
        (18_000, 0, 0, 55_000, 100_000),
        (-18_000, 0, 0, 55_000, 100_000),
        (18_001, 0, 0, 55_000, 10_000_000),
    ] {
        let traffic = standing(rt.alloc(), car(), pose(0, at(100_000, y), 0))?;
        let ego = rectangle_at(at(x, 0), 0, 45_000, 18_000);
        for tick in [0, 255, 256] {
            assert_eq!(rt; traffic.meeting(&ego, tick), met);
            assert_eq!(rt; traffic.nearest_gap(bounds(&ego), tick), gap);
            assert_eq!(rt; traffic.headway(at(x, 0), 0, 18_000, tick), ahead);
        }
    }
    Ok(())
}

#[test]
fn an_empty_road_is_free(rt: HostRuntime) -> Result<(), Fail> {
    let traffic = traffic(rt.alloc(), List::new(rt.alloc()))?;
    let ego = rectangle_at(at(0, 0), 0, 45_000, 18_000);
    assert_eq!(rt; traffic.count(), 0);
    assert_eq!(rt; traffic.meeting(&ego, 0), 0);
    assert_eq!(rt; traffic.nearest_gap(bounds(&ego), 0), 10_000_000);
    assert_eq!(rt; traffic.headway(at(0, 0), 0, 18_000, 0), 10_000_000);
    Ok(())
}

#[test]
fn a_moving_car_is_at_the_first_of_its_states_with_the_tick(rt: HostRuntime) -> Result<(), Fail> {
    let ego = rectangle_at(at(0, 0), 0, 45_000, 18_000);
    for (from, to, last, tick, shapes, met, gap, ahead) in [
        (0, 100_000, 1, 0, Some(1), 1, 0, 10_000_000),
        (0, 100_000, 1, 1, Some(1), 0, 55_000, 100_000),
        (0, 100_000, 1, 2, None, 0, 10_000_000, 10_000_000),
        (0, 100_000, 2, 1, None, 0, 10_000_000, 10_000_000),
        (0, 100_000, 2, 2, Some(1), 0, 55_000, 100_000),
        (100_000, 50_000, 0, 0, Some(1), 0, 55_000, 100_000),
        (0, 45_000, 1_023, 1_023, Some(1), 1, 0, 45_000),
        (0, 45_000, 1_024, 1_024, Some(1), 1, 0, 45_000),
        (0, 45_001, 1_024, 1_024, Some(1), 0, 1, 45_001),
        (0, 45_000, 1_024, 1_023, None, 0, 10_000_000, 10_000_000),
    ] {
        let first = pose(0, at(from, 0), 0);
        let second = pose(last, at(to, 0), 0);
        let traffic = moving(rt.alloc(), first, second)?;
        assert_eq!(rt; traffic.count(), 1);
        assert_eq!(rt;
            traffic.occupancy(0, tick).map(|shapes| shapes.len()),
            shapes
        );
        assert_eq!(rt; traffic.meeting(&ego, tick), met);
        assert_eq!(rt; traffic.nearest_gap(bounds(&ego), tick), gap);
        assert_eq!(rt; traffic.headway(at(0, 0), 0, 18_000, tick), ahead);
    }
    Ok(())
}

#[test]
fn shapes_touch_with_a_corner_and_turn(rt: HostRuntime) -> Result<(), Fail> {
    let ego = rectangle_at(at(0, 0), 0, 45_000, 18_000);
    for (x, met) in [(22_500, 1), (22_501, 0)] {
        let mut corners = List::new(rt.alloc());
        corners.push(at(x, 9_000))?;
        corners.push(at(40_000, 9_000))?;
        corners.push(at(40_000, 20_000))?;
        let traffic = standing(rt.alloc(), Shape::Corners { corners }, pose(0, at(0, 0), 0))?;
        assert_eq!(rt; traffic.meeting(&ego, 0), met);
    }
    let shape = Shape::Rectangle {
        length: 4,
        width: 2,
        heading: 0,
        center: at(10, 0),
    };
    let traffic = standing(rt.alloc(), shape, pose(0, at(100, 200), 1_570_796))?;
    assert_eq!(rt; traffic.count(), 1);
    let shapes = traffic.occupancy(0, 7).ok_or("no shapes")?;
    let placed = [at(101, 208), at(101, 212), at(99, 212), at(99, 208)];
    assert_eq!(rt; shapes.len(), 1);
    assert_eq!(rt; shapes[0].corners(), placed.as_slice());
    Ok(())
}
