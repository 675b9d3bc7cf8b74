ghost use Rattle.std.specs.Prelude.{◌≡◌, ◌≤◌, ◌*◌, ◌^◌, ◌+ℤ◌, ◌*ℤ◌, [], ◌∷◌, ◌++◌, unsigned_abs};
ghost use Rattle.std.specs.Prelude.{pos, map, IfOk, OnOk};
ghost use Rattle.std.specs.List.{range_with_len};
ghost use Rattle.sample_scene.specs.Maneuvers.{changing, changing_step, faster, faster_maneuvers};
ghost use Rattle.sample_scene.specs.Maneuvers.{keep, left, leftward, maneuvers, right};
ghost use Rattle.sample_scene.specs.Maneuvers.{slower_maneuvers, steady, steady_maneuvers};
ghost use Rattle.sample_scene.specs.Maneuvers.{steady_step};

use crate::literal::name;
use maneuver_lattice::{LatticeStep, Maneuver};
use preorder::{List, Name, NoMemory};
use std::alloc::Global;

// One more than the number of a maneuver's last step. The first is 1.
const PAST_STEPS: u8 = 6;

// A class of the lattice, by its place, and its speed.
#[derive(Clone, Copy)]
struct Pace {
    place: u32,
    speed: u16,
}

const SLOW: Pace = Pace {
    place: 0,
    speed: 5_000,
};

const MID: Pace = Pace {
    place: 1,
    speed: 10_000,
};

const FAST: Pace = Pace {
    place: 2,
    speed: 15_000,
};

/// Where a vehicle is bound that keeps its speed.
#[derive(Clone, Copy)]
pub enum Side {
    /// It keeps to its lane.
    Ahead,
    /// It changes to the lane on its left.
    Left,
    /// It changes to the lane on its right.
    Right,
}

impl Side {
    // How far to the left it comes a step, in 0.1 mm.
    fn leftward(self) -> i64
        ensures value { result ≡ leftward self }
        ensures small { unsigned_abs result ≤ 8000 }
    {
        match self {
            Side::Ahead => 0,
            Side::Left => 8_000,
            Side::Right => -8_000,
        }
    }
}

/// How a vehicle changes its speed.
#[derive(Clone, Copy)]
pub enum Change {
    /// It becomes faster.
    Up,
    /// It becomes slower.
    Down,
}

impl Change {
    // How much faster it becomes a step, in mm/s.
    fn faster(self) -> i64
        ensures value { result ≡ faster self }
        ensures small { unsigned_abs result ≤ 1000 }
    {
        match self {
            Change::Up => 1_000,
            Change::Down => -1_000,
        }
    }
}

fn product(size: i64, times: u8) -> i64
    requires { unsigned_abs size ≤ 2 ^ 32 }
    ensures { result ≡ size *ℤ pos times }
{
    size * i64::from(times)
}

// So many times a number.
#[tactic(auto, using(crate::proofs::Sizes::scaled_is_small))]
fn scaled(size: i64, times: u8) -> i64
    requires { unsigned_abs size ≤ 2 ^ 32 }
    ensures value { result ≡ size *ℤ pos times }
    ensures small { unsigned_abs result ≤ 256 * unsigned_abs size }
{
    product(size, times)
}

fn sum(a: i64, b: i64) -> i64
    requires a { unsigned_abs a ≤ 2 ^ 40 }
    requires b { unsigned_abs b ≤ 2 ^ 40 }
    ensures { result ≡ a +ℤ b }
{
    a + b
}

fn steady_step(speed: u16, side: Side, number: u8) -> LatticeStep
    ensures { result ≡ steady_step speed side number }
{
    let speed = i64::from(speed);
    LatticeStep {
        forward: scaled(2 * speed, number),
        left: scaled(side.leftward(), number),
        heading: 0,
        speed,
        accel: 0,
        turn: 0,
    }
}

fn changing_step(speed: u16, change: Change, number: u8) -> LatticeStep
    ensures { result ≡ changing_step speed change number }
{
    let speed = i64::from(speed);
    let gained = scaled(change.faster(), number);
    LatticeStep {
        forward: sum(scaled(2 * speed, number), scaled(gained, number)),
        left: 0,
        heading: 0,
        speed: sum(speed, gained),
        accel: scaled(change.faster(), 5),
        turn: 0,
    }
}

fn steady_steps(alloc: Global, speed: u16, side: Side) -> Result<List<LatticeStep>, NoMemory>
    ensures { IfOk result (λ steps. steps ≡ map (steady_step speed side) (range_with_len 1 5)) }
{
    let mut steps = List::new(alloc);
    for number in 1..PAST_STEPS {
        steps.push(steady_step(speed, side, number))?;
    }
    Ok(steps)
}

fn changing_steps(alloc: Global, speed: u16, change: Change) -> Result<List<LatticeStep>, NoMemory>
    ensures { IfOk result (λ steps. steps ≡ map (changing_step speed change) (range_with_len 1 5)) }
{
    let mut steps = List::new(alloc);
    for number in 1..PAST_STEPS {
        steps.push(changing_step(speed, change, number))?;
    }
    Ok(steps)
}

// From a class to itself.
fn steady(alloc: Global, name: Name, pace: Pace, side: Side) -> Result<Maneuver, NoMemory>
    ensures { IfOk result (λ maneuver. maneuver ≡ steady name pace.place pace.speed side) }
{
    Ok(Maneuver {
        name,
        from: pace.place,
        to: pace.place,
        steps: steady_steps(alloc, pace.speed, side)?,
    })
}

// From a class to another.
fn changing(
    alloc: Global,
    name: Name,
    from: Pace,
    to: Pace,
    change: Change,
) -> Result<Maneuver, NoMemory>
    ensures { IfOk result
        (λ maneuver. maneuver ≡ changing name from.place to.place from.speed change) }
{
    Ok(Maneuver {
        name,
        from: from.place,
        to: to.place,
        steps: changing_steps(alloc, from.speed, change)?,
    })
}

// Adds those that stay in a class: straight ahead, 4 m to the left, and 4 m to the right.
fn add_steady(
    alloc: Global,
    them: &mut List<Maneuver>,
    pace: Pace,
    keeping: Name,
    to_left: Name,
    to_right: Name,
) -> Result<(), NoMemory>
    ensures { OnOk result (them.new ≡ them.old ++ keep keeping pace.place pace.speed
        ∷ left to_left pace.place pace.speed ∷ right to_right pace.place pace.speed ∷ []) }
{
    them.push(steady(alloc, keeping, pace, Side::Ahead)?)?;
    them.push(steady(alloc, to_left, pace, Side::Left)?)?;
    them.push(steady(alloc, to_right, pace, Side::Right)?)?;
    Ok(())
}

// The maneuvers that stay in their classes.
#[tactic(auto, unfolding(preorder::specs::Name::is_name))]
fn steady_maneuvers(alloc: Global) -> Result<List<Maneuver>, NoMemory>
    ensures { IfOk result (λ them. them ≡ steady_maneuvers) }
{
    let mut them = List::new(alloc);
    add_steady(
        alloc,
        &mut them,
        SLOW,
        name(b"keep_slow"),
        name(b"left_slow"),
        name(b"right_slow"),
    )?;
    add_steady(
        alloc,
        &mut them,
        MID,
        name(b"keep_mid"),
        name(b"left_mid"),
        name(b"right_mid"),
    )?;
    add_steady(
        alloc,
        &mut them,
        FAST,
        name(b"keep_fast"),
        name(b"left_fast"),
        name(b"right_fast"),
    )?;
    Ok(them)
}

// Adds those that lead to the next class up.
#[tactic(auto, unfolding(preorder::specs::Name::is_name))]
fn add_faster(alloc: Global, them: &mut List<Maneuver>) -> Result<(), NoMemory>
    ensures { OnOk result (them.new ≡ them.old ++ faster_maneuvers) }
{
    them.push(changing(alloc, name(b"up_slow"), SLOW, MID, Change::Up)?)?;
    them.push(changing(alloc, name(b"up_mid"), MID, FAST, Change::Up)?)?;
    Ok(())
}

// Adds those that lead to the next class down.
#[tactic(auto, unfolding(preorder::specs::Name::is_name))]
fn add_slower(alloc: Global, them: &mut List<Maneuver>) -> Result<(), NoMemory>
    ensures { OnOk result (them.new ≡ them.old ++ slower_maneuvers) }
{
    them.push(changing(alloc, name(b"down_mid"), MID, SLOW, Change::Down)?)?;
    them.push(changing(alloc, name(b"down_fast"), FAST, MID, Change::Down)?)?;
    Ok(())
}

/// The maneuvers, in their order.
#[tactic(auto, unfolding(crate::specs::Maneuvers::maneuvers))]
pub fn maneuvers(alloc: Global) -> Result<List<Maneuver>, NoMemory>
    ensures { IfOk result (λ them. them ≡ maneuvers) }
{
    let mut them = steady_maneuvers(alloc)?;
    add_faster(alloc, &mut them)?;
    add_slower(alloc, &mut them)?;
    Ok(them)
}
