ghost use Rattle.std.specs.Prelude.{◌≡◌, map, IfOk};
ghost use Rattle.std.specs.List.{range_with_len};
ghost use Rattle.sample_scene.specs.Motorway.{bound, lane, middle};
ghost use Rattle.sample_scene.specs.declared.lanes.TheConstants.{LANES};

use fixed_geometry::Point;
use preorder::{List, NoMemory};
use scenario_model::Lanelet;
use std::alloc::Global;

// How many lanes there are.
const LANES: u32 = 3;

/// The middle of the lane at a place, counted from 0.
pub fn middle(place: u32) -> i64
    ensures { result ≡ middle place }
{
    40_000 * i64::from(place)
}

// A bound of a lane, at a distance to the left of the middle of the first one.
fn bound(alloc: Global, y: i64) -> Result<List<Point>, NoMemory>
    ensures { IfOk result (λ points. points ≡ bound y) }
{
    let mut points = List::new(alloc);
    points.push(Point { x: -500_000, y })?;
    points.push(Point { x: 5_000_000, y })?;
    Ok(points)
}

fn lane(alloc: Global, place: u32) -> Result<Lanelet, NoMemory>
    ensures { IfOk result (λ lanelet. lanelet ≡ lane place) }
{
    let middle = middle(place);
    Ok(Lanelet {
        id: u64::from(place) + 1,
        left: bound(alloc, middle + 20_000)?,
        right: bound(alloc, middle - 20_000)?,
        predecessors: List::new(alloc),
        successors: List::new(alloc),
        adjacent_left: None,
        adjacent_right: None,
    })
}

/// The lanes.
pub fn lanes(alloc: Global) -> Result<List<Lanelet>, NoMemory>
    ensures { IfOk result (λ lanes. lanes ≡ map lane (range_with_len 0 LANES)) }
{
    let mut lanes = List::new(alloc);
    for place in 0..LANES {
        lanes.push(lane(alloc, place)?)?;
    }
    Ok(lanes)
}
