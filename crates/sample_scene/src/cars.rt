ghost use Rattle.std.specs.Prelude.{◌≡◌, ℕ, ◌+◌, ◌*◌, pos, map, IfOk, [], ◌∷◌};
ghost use Rattle.std.specs.List.{range_with_len};
ghost use Rattle.sample_scene.specs.Draws.{state_after};
ghost use Rattle.sample_scene.specs.Motorway.{car, car_shape, course, drawn_car, drawn_course};
ghost use Rattle.sample_scene.specs.Motorway.{pose};
ghost use Rattle.sample_scene.specs.declared.cars.TheConstants.{CARS, STATES};

use crate::draws::Draws;
use crate::lanes::middle;
use fixed_geometry::Point;
use preorder::{List, NoMemory};
use scenario_model::{Obstacle, Pose, Shape};
use std::alloc::Global;

// How many cars there are.
const CARS: u32 = 40;

// At how many ticks a car has a state.
const STATES: u32 = 31;

/// How a car drives: the place of its lane, counted from 0; where it starts, in metres; and how
/// fast it is, in metres a second.
#[derive(Clone, Copy)]
pub struct Course {
    lane: u8,
    start: u16,
    speed: u8,
}

impl Course {
    // By three draws.
    fn drawn(a: u32, b: u32, d: u32) -> Course
        ensures { result ≡ course a b d }
    {
        Course {
            lane: (a % 3) as u8,
            start: (10 + b % 400) as u16,
            speed: (4 + d % 8) as u8,
        }
    }
}

// How far a car has come at a tick.
#[tactic(auto, using(crate::proofs::Sizes::product_is_small))]
fn passed(speed: u8, tick: u32) -> i64
    ensures { result ≡ pos (2000 * (speed * tick)) }
{
    2_000 * (i64::from(speed) * i64::from(tick))
}

// Where the car is at a tick.
fn pose(course: Course, tick: u32) -> Pose
    ensures { result ≡ pose course tick }
{
    Pose {
        tick,
        position: Point {
            x: 10_000 * i64::from(course.start) + passed(course.speed, tick),
            y: middle(u32::from(course.lane)),
        },
        heading: 0,
        speed: 1_000 * i64::from(course.speed),
    }
}

fn shapes(alloc: Global) -> Result<List<Shape>, NoMemory>
    ensures { IfOk result (λ shapes. shapes ≡ car_shape ∷ []) }
{
    let mut shapes = List::new(alloc);
    shapes.push(Shape::Rectangle {
        length: 45_000,
        width: 18_000,
        heading: 0,
        center: Point { x: 0, y: 0 },
    })?;
    Ok(shapes)
}

fn states(alloc: Global, course: Course) -> Result<List<Pose>, NoMemory>
    ensures { IfOk result (λ states. states ≡ map (pose course) (range_with_len 0 STATES)) }
{
    let mut states = List::new(alloc);
    for tick in 0..STATES {
        states.push(pose(course, tick))?;
    }
    Ok(states)
}

fn car(alloc: Global, id: u64, course: Course) -> Result<Obstacle, NoMemory>
    ensures { IfOk result (λ obstacle. obstacle ≡ car id course) }
{
    Ok(Obstacle {
        id,
        moving: true,
        shapes: shapes(alloc)?,
        states: states(alloc, course)?,
    })
}

// The course of the car at a place, by the next three draws.
fn drawn_course(draws: &mut Draws) -> Course
    ensures course { (number place : ℕ) → draws.old.state ≡ state_after number (3 * place)
        → result ≡ drawn_course number place }
    ensures draws { (number place : ℕ) → draws.old.state ≡ state_after number (3 * place)
        → draws.new.state ≡ state_after number (3 * (place + 1)) }
{
    let a = draws.draw();
    let b = draws.draw();
    let d = draws.draw();
    Course::drawn(a, b, d)
}

/// The cars, by three draws each.
pub fn cars(alloc: Global, number: u32) -> Result<List<Obstacle>, NoMemory>
    ensures { IfOk result (λ cars. cars ≡ map (drawn_car number) (range_with_len 0 CARS)) }
{
    let mut draws = Draws { state: number };
    let mut cars = List::new(alloc);
    for place in 0..CARS {
        let course = drawn_course(&mut draws);
        cars.push(car(alloc, 100 + u64::from(place), course)?)?;
    }
    Ok(cars)
}
