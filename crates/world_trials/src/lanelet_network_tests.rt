ghost use Rattle.std.specs.Prelude.{◌≡◌, ◌<◌, ◌≤◌, length, map, All, IfOk};
ghost use Rattle.fixed_geometry.specs.Plane.{IsInRange};
ghost use Rattle.scenario_model.specs.declared.lanelet.Lanelet.{Lanelet as Piece};
ghost use Rattle.scenario_model.specs.Scenario.{IsRead, IsBound, IsLanelet, HaveDifferentIds};
ghost use Rattle.scenario_model.specs.declared.limits.TheConstants.{MAX_LANELETS, PAST_IDS};
ghost use Rattle.scenario_model.specs.declared.limits.TheConstants.{MAX_BOUND_POINTS};

use crate::fixtures::{at, problem, scenario};
use fixed_geometry::Point;
use lanelet_network::{Network, NetworkFault};
use preorder::{List, NoMemory};
use scenario_model::Lanelet;
use std::alloc::Global;
use std::test::Fail;

const HALF_TURN: i64 = 3_141_592;

fn bound(alloc: Global, points: &[(i32, i32)]) -> Result<List<Point>, NoMemory>
    requires enough { 2 ≤ length points.now }
    requires few { length points.now ≤ MAX_BOUND_POINTS }
    ensures { IfOk result IsBound }
{
    let mut bound = List::new(alloc);
    for (x, y) in points {
        bound.push(at(*x, *y))?;
    }
    Ok(bound)
}

fn segment(alloc: Global, from: Point, to: Point) -> Result<List<Point>, NoMemory>
    requires from { IsRead from }
    requires to { IsRead to }
    ensures { IfOk result IsBound }
{
    let mut bound = List::new(alloc);
    bound.push(from)?;
    bound.push(to)?;
    Ok(bound)
}

// Points that are 10 apart.
fn row(alloc: Global, count: u16, y: i32) -> Result<List<Point>, NoMemory>
    requires enough { 2 ≤ count }
    requires few { count ≤ MAX_BOUND_POINTS }
    ensures { IfOk result IsBound }
{
    let mut bound = List::new(alloc);
    for i in 0..count {
        bound.push(at(10 * i32::from(i), y))?;
    }
    Ok(bound)
}

// The network of these lanelets.
fn network(alloc: Global, lanelets: List<Lanelet>) -> Result<Network, Fail>
    requires few { length lanelets ≤ MAX_LANELETS }
    requires each { All (IsLanelet (map (λ (l : Piece). l.id) lanelets)) lanelets }
    requires different { HaveDifferentIds (λ (l : Piece). l.id) lanelets }
    ensures { IfOk result (λ network. length network ≡ length lanelets) }
{
    let problem = problem(alloc, at(0, 0), 10_000, None)?;
    let scenario = scenario(alloc, lanelets, List::new(alloc), problem)?;
    Ok(Network::new(alloc, &scenario)?)
}

// The network of one lanelet, which has no neighbour.
fn alone(alloc: Global, id: u64, left: List<Point>, right: List<Point>) -> Result<Network, Fail>
    requires id { id < PAST_IDS }
    requires left { IsBound left }
    requires right { IsBound right }
    ensures { IfOk result (λ network. length network ≡ 1) }
{
    let mut lanelets = List::new(alloc);
    lanelets.push(Lanelet {
        id,
        left,
        right,
        predecessors: List::new(alloc),
        successors: List::new(alloc),
        adjacent_left: None,
        adjacent_right: None,
    })?;
    network(alloc, lanelets)
}

// A lanelet of 200 m, straight along x.
fn straight(alloc: Global) -> Result<Network, Fail>
    ensures { IfOk result (λ network. length network ≡ 1) }
{
    let left = bound(alloc, &[(-500_000, 20_000), (1_500_000, 20_000)])?;
    let right = bound(alloc, &[(-500_000, -20_000), (1_500_000, -20_000)])?;
    alone(alloc, 1, left, right)
}

// A lanelet that leads along x, and one that comes from 3,000 to meet it where x is 1,000. There the
// grid of two lanelets, which has three columns, has a cell's border too.
fn two_that_meet(alloc: Global) -> Result<Network, Fail>
    ensures { IfOk result (λ network. length network ≡ 2) }
{
    let mut successors = List::new(alloc);
    successors.push(9)?;
    let mut predecessors = List::new(alloc);
    predecessors.push(4)?;
    let mut lanelets = List::new(alloc);
    lanelets.push(Lanelet {
        id: 4,
        left: bound(alloc, &[(0, 10), (1_000, 10)])?,
        right: bound(alloc, &[(0, -10), (1_000, -10)])?,
        predecessors: List::new(alloc),
        successors,
        adjacent_left: None,
        adjacent_right: None,
    })?;
    lanelets.push(Lanelet {
        id: 9,
        left: bound(alloc, &[(3_000, -10), (1_000, -10)])?,
        right: bound(alloc, &[(3_000, 10), (1_000, 10)])?,
        predecessors,
        successors: List::new(alloc),
        adjacent_left: None,
        adjacent_right: None,
    })?;
    network(alloc, lanelets)
}

// A lanelet as far away as those of a map in meters are.
fn far_away(alloc: Global) -> Result<Network, Fail>
    ensures { IfOk result (λ network. length network ≡ 1) }
{
    let (from, to) = (6_899_500_000, 6_901_000_000);
    let (high, low) = (53_340_025_000, 53_339_985_000);
    let left = segment(alloc, Point { x: from, y: high }, Point { x: to, y: high })?;
    let right = segment(alloc, Point { x: from, y: low }, Point { x: to, y: low })?;
    alone(alloc, 1, left, right)
}

// A lanelet whose left bound turns to the left.
fn bent(alloc: Global) -> Result<Network, Fail>
    ensures { IfOk result (λ network. length network ≡ 1) }
{
    let left = bound(alloc, &[(0, 0), (100, 0), (100, 100)])?;
    let right = bound(alloc, &[(0, -100), (200, -100), (200, 100)])?;
    alone(alloc, 1, left, right)
}

#[test]
fn a_lanelet_holds_its_border(rt: HostRuntime) -> Result<(), Fail> {
    let network = straight(rt.alloc())?;
    for (x, y, is_held) in [
        (0, 0, true),
        (0, 20_000, true),
        (0, 20_001, false),
        (1_500_000, -20_000, true),
        (-500_001, 0, false),
    ] {
        let point = at(x, y);
        assert_eq!(rt; network.holds(1, point)?, is_held);
        assert_eq!(rt; network.count_at(point), u32::from(is_held));
        assert_eq!(rt; network.against(point, HALF_TURN), is_held);
        assert!(rt; !network.against(point, 0));
    }
    let fault = Some(NetworkFault::UnknownLanelet);
    assert_eq!(rt; network.holds(7, at(0, 0)).err(), fault);
    assert_eq!(rt; network.direction_at(7, at(0, 0)).err(), fault);
    assert_eq!(rt; network.successors(7).err(), fault);
    assert_eq!(rt; network.index_of(7).err(), fault);
    assert_eq!(rt; network.successors(1)?.len(), 0);
    Ok(())
}

#[test]
fn lanelets_have_places_successors_and_headings(rt: HostRuntime) -> Result<(), Fail> {
    let network = two_that_meet(rt.alloc())?;
    assert_eq!(rt; network.index_of(4)?, 0);
    assert_eq!(rt; network.index_of(9)?, 1);
    assert_eq!(rt; network.id_at(0), 4);
    assert_eq!(rt; network.id_at(1), 9);
    assert_eq!(rt; network.successors(4)?, [9].as_slice());
    assert_eq!(rt; network.successors(9)?.len(), 0);
    for (x, y, count, back, ahead) in [
        (500, 0, 1, true, false),
        (999, 0, 1, true, false),
        (1_000, 0, 2, false, false),
        (1_000, 10, 2, false, false),
        (1_000, 11, 0, false, false),
        (1_001, 0, 1, false, true),
        (2_000, 0, 1, false, true),
        (3_000, -10, 1, false, true),
        (3_001, -10, 0, false, false),
    ] {
        assert_eq!(rt; network.count_at(at(x, y)), count);
        assert_eq!(rt; network.is_held(at(x, y)), count > 0);
        assert_eq!(rt; network.against(at(x, y), HALF_TURN), back);
        assert_eq!(rt; network.against(at(x, y), 0), ahead);
    }
    Ok(())
}

#[test]
fn the_first_nearest_point_of_the_left_bound_gives_the_direction(
    rt: HostRuntime,
) -> Result<(), Fail> {
    let network = bent(rt.alloc())?;
    for (x, y, dx, dy) in [
        (0, 0, 100, 0),
        (50, 0, 100, 0),
        (51, 0, 0, 100),
        (100, 50, 0, 100),
        (100, 100, 0, 100),
    ] {
        assert_eq!(rt; network.direction_at(1, at(x, y))?, at(dx, dy));
    }
    Ok(())
}

#[test]
fn lanelets_may_lie_far_away_and_have_2048_points(rt: HostRuntime) -> Result<(), Fail> {
    let alloc = rt.alloc();
    let far = far_away(alloc)?;
    let point = Point {
        x: 6_900_001_234,
        y: 53_340_005_000,
    };
    assert_eq!(rt; far.count_at(point), 1);
    assert_eq!(rt; far.direction_at(1, point)?, at(1_500_000, 0));
    assert_eq!(rt; far.successors(1)?.len(), 0);
    assert_eq!(rt; far.successors(7).err(), Some(NetworkFault::UnknownLanelet));
    let long = alone(alloc, 1, row(alloc, 2_048, 10)?, row(alloc, 2_048, -10)?)?;
    assert_eq!(rt; long.count_at(at(20_470, 0)), 1);
    assert_eq!(rt; long.count_at(at(20_471, 0)), 0);
    assert_eq!(rt; long.direction_at(1, at(30_000, 0))?, at(10, 0));
    Ok(())
}
