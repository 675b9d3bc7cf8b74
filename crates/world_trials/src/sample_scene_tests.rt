ghost use Rattle.std.specs.Prelude.{◌≤◌};
ghost use Rattle.sample_scene.specs.declared.sample.TheConstants.{MAX_NUMBER};

use maneuver_lattice::LatticeStep;
use sample_scene::{MAX_NUMBER, SampleScene, sample_scene};
use scenario_model::{Obstacle, Pose};
use std::alloc::Global;
use std::test::Fail;

fn scene(alloc: Global, number: u32) -> Result<SampleScene, Fail> {
    if number > MAX_NUMBER {
        return Err(Fail::new("a number of seven digits"));
    }
    Ok(sample_scene(alloc, number)?)
}

// The state of the car at a place at a tick.
fn state_at(scene: &SampleScene, place: usize, tick: usize) -> Result<Pose, Fail> {
    let cars = scene.scenario.obstacles.as_slice();
    let car = cars.get(place).ok_or("a car")?;
    let pose = car.states.as_slice().get(tick).ok_or("a state")?;
    Ok(*pose)
}

// The number, the place of the car, the tick, x, y and the speed. The draws of 0 are 0, 21468 and
// 9988, which are those of the C standard's `rand` after `srand(0)`; of 7 they are 19564, 9806 and
// 10868, and at last 7394, 30011 and 30177.
#[test]
fn cars_drive_as_drawn(rt: HostRuntime) -> Result<(), Fail> {
    let rows = [
        (0, 0, 0, [2_780_000, 0, 8_000]),
        (0, 0, 1, [2_796_000, 0, 8_000]),
        (0, 0, 30, [3_260_000, 0, 8_000]),
        (7, 0, 0, [2_160_000, 40_000, 8_000]),
        (7, 0, 30, [2_640_000, 40_000, 8_000]),
        (7, 39, 30, [510_000, 80_000, 5_000]),
    ];
    for (number, place, tick, numbers) in rows {
        let scene = scene(rt.alloc(), number)?;
        let pose = state_at(&scene, place, tick)?;
        assert_eq!(rt; [pose.position.x, pose.position.y, pose.speed], numbers);
    }
    Ok(())
}

#[test]
fn there_are_as_many_of_each(rt: HostRuntime) -> Result<(), Fail> {
    let scene = scene(rt.alloc(), MAX_NUMBER)?;
    assert_eq!(rt; scene.scenario.lanelets.as_slice().len(), 3);
    assert_eq!(rt; scene.scenario.obstacles.as_slice().len(), 40);
    for car in scene.scenario.obstacles.as_slice() {
        assert_eq!(rt; car.states.as_slice().len(), 31);
    }
    assert_eq!(rt; scene.lattice.maneuvers.as_slice().len(), 13);
    for maneuver in scene.lattice.maneuvers.as_slice() {
        assert_eq!(rt; maneuver.steps.as_slice().len(), 5);
    }
    let rules = scene.book.rules.as_slice();
    assert_eq!(rt; rules.len(), 5);
    for (place, count) in [(0, 1), (1, 1), (2, 1), (3, 4), (4, 6)] {
        let rule = rules.get(place).ok_or("a rule")?;
        assert_eq!(rt; rule.parts.as_slice().len(), count);
    }
    Ok(())
}

// The last step of the maneuver at a place, where it has the name.
fn last_step(scene: &SampleScene, place: usize, name: &[u8]) -> Result<LatticeStep, Fail> {
    let maneuver = scene
        .lattice
        .maneuvers
        .as_slice()
        .get(place)
        .ok_or("a maneuver")?;
    if maneuver.name.as_slice() != name {
        return Err(Fail::new("another name"));
    }
    let step = maneuver.steps.as_slice().get(4).ok_or("a step")?;
    Ok(*step)
}

// The place of the maneuver, its name, and of its last step how far it is ahead and to the left,
// the speed and the acceleration.
#[test]
fn maneuvers_end_in_their_classes(rt: HostRuntime) -> Result<(), Fail> {
    let scene = scene(rt.alloc(), 0)?;
    let rows: [(usize, &[u8], [i64; 4]); 5] = [
        (2, b"right_slow", [50_000, -40_000, 5_000, 0]),
        (3, b"keep_mid", [100_000, 0, 10_000, 0]),
        (7, b"left_fast", [150_000, 40_000, 15_000, 0]),
        (10, b"up_mid", [125_000, 0, 15_000, 5_000]),
        (12, b"down_fast", [125_000, 0, 10_000, -5_000]),
    ];
    for (place, name, numbers) in rows {
        let step = last_step(&scene, place, name)?;
        assert_eq!(rt; [step.forward, step.left, step.speed, step.accel], numbers);
        assert_eq!(rt; [step.heading, step.turn], [0, 0]);
    }
    Ok(())
}
