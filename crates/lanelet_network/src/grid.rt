ghost use Rattle.std.specs.Prelude.{◌≡◌, ◌≤◌, ◌<◌, length, map, IfOk};
ghost use Rattle.std.specs.List.{range_with_len};
ghost use Rattle.scenario_model.specs.declared.limits.TheConstants.{MAX_LANELETS};
ghost use Rattle.lanelet_network.specs.Strips.{reaching as reaching_of, does_reach as is_reaching};
ghost use Rattle.lanelet_network.specs.LaneReach.{reach_in_x, reach_in_y};
ghost use Rattle.lanelet_network.specs.Cells.{cells_of, columns_of};
ghost use Rattle.lanelet_network.specs.Cells.{IsGridOf, cell_in, places_at as places_of};
ghost use Rattle.lanelet_network.specs.Cells.{places_in as places_in_cell};

use crate::axis::{Axis, Reach};
use crate::lane::Lane;
use fixed_geometry::{Box2, Point};
use std::alloc::{AllocError, Global};
use std::marker::Model;

// The places of the lanelets whose boxes touch the cell, in order.
#[derive(Drop)]
pub(crate) struct Cell {
    places: Vec<u32>,
}

impl Model for Cell {
    ghost use Rattle.std.specs.Prelude.{ℕ, List};

    ghost Value = { List ℕ };

    ghost view = { λ cell. cell.places.items };
}

// A column's cells, from below.
#[derive(Drop)]
pub(crate) struct Column {
    cells: Vec<Cell>,
}

impl Model for Column {
    ghost use Rattle.std.specs.Prelude.{ℕ, List};

    ghost Value = { List (List ℕ) };

    ghost view = { λ column. column.cells.items };
}

// The plane in cells, each with the lanelets whose boxes touch it.
#[derive(Drop)]
pub(crate) struct Grid {
    in_x: Axis,
    in_y: Axis,
    columns: Vec<Column>,
}

// A box that holds both boxes.
fn joined(a: Box2, b: Box2) -> Box2 {
    Box2 {
        low: Point {
            x: a.low.x.min(b.low.x),
            y: a.low.y.min(b.low.y),
        },
        high: Point {
            x: a.high.x.max(b.high.x),
            y: a.high.y.max(b.high.y),
        },
    }
}

// The box of the first lanelet; for none, a box at (0, 0).
fn first_bounds(lanes: &[Lane]) -> Box2 {
    match lanes.first() {
        Some(lane) => lane.bounds(),
        None => {
            let zero = Point { x: 0, y: 0 };
            Box2 {
                low: zero,
                high: zero,
            }
        }
    }
}

// A box round all lanelets.
fn bounds_of_all(lanes: &[Lane]) -> Box2 {
    let mut held = first_bounds(lanes);
    for lane in lanes {
        held = joined(held, lane.bounds());
    }
    held
}

// Whether what is at the place touches the strip.
#[tactic(auto, unfolding(crate::specs::Strips::does_reach))]
fn does_reach(reaches: &[Reach], strip: u64, place: u32) -> bool
    ensures { result ≡ is_reaching reaches.now strip place }
{
    match reaches.get(place as usize) {
        Some(reach) => reach.is_reached(strip),
        None => false,
    }
}

// Those of the places that touch the strip.
fn reaching(
    alloc: Global,
    reaches: &[Reach],
    strip: u64,
    places: &[u32],
) -> Result<Vec<u32>, AllocError>
    ensures { IfOk result (λ reached. reached.items ≡ reaching_of reaches.now strip places.now) }
{
    let mut reached = Vec::new(alloc);
    for place in places {
        if does_reach(reaches, strip, *place) {
            reached.push(*place)?;
        }
    }
    Ok(reached)
}

// A column's cells, with those of the places that touch them.
fn made_column(
    alloc: Global,
    in_y: &[Reach],
    rows: u64,
    places: &[u32],
) -> Result<Column, AllocError>
    ensures { IfOk result (λ column. column ≡ cells_of in_y.now rows places.now) }
{
    let mut cells = Vec::new(alloc);
    for row in 0..rows {
        let places = reaching(alloc, in_y, row, places)?;
        cells.push(Cell { places })?;
    }
    Ok(Column { cells })
}

// All columns, with those of the places that touch their cells.
fn all_columns(
    alloc: Global,
    in_x: &[Reach],
    in_y: &[Reach],
    size: (u64, u64),
    places: &[u32],
) -> Result<Vec<Column>, AllocError>
    ensures { IfOk result (λ columns.
        columns.items ≡ columns_of in_x.now in_y.now size.0 size.1 places.now) }
{
    let mut columns = Vec::new(alloc);
    for number in 0..size.0 {
        let in_column = reaching(alloc, in_x, number, places)?;
        columns.push(made_column(alloc, in_y, size.1, in_column.as_slice())?)?;
    }
    Ok(columns)
}

// The columns that each lanelet's box touches.
fn reaches_in_x(alloc: Global, lanes: &[Lane], axis: Axis) -> Result<Vec<Reach>, AllocError>
    ensures { IfOk result (λ reaches. reaches.items ≡ map (reach_in_x axis) lanes.now) }
{
    let mut reaches = Vec::new(alloc);
    for lane in lanes {
        reaches.push(lane.reach_in_x(axis))?;
    }
    Ok(reaches)
}

// The rows that each lanelet's box touches.
fn reaches_in_y(alloc: Global, lanes: &[Lane], axis: Axis) -> Result<Vec<Reach>, AllocError>
    ensures { IfOk result (λ reaches. reaches.items ≡ map (reach_in_y axis) lanes.now) }
{
    let mut reaches = Vec::new(alloc);
    for lane in lanes {
        reaches.push(lane.reach_in_y(axis))?;
    }
    Ok(reaches)
}

// The places of so many lanelets.
fn all_places(alloc: Global, count: u32) -> Result<Vec<u32>, AllocError>
    ensures { IfOk result (λ places. places.items ≡ range_with_len 0 count) }
{
    let mut places = Vec::new(alloc);
    for place in 0..count {
        places.push(place)?;
    }
    Ok(places)
}

impl Column {
    // The places in the cell at the row, if there is one.
    fn places_at(&self, row: u64) -> &[u32]
        ensures { result.now ≡ cell_in self.now row }
    {
        match self.cells.get(row as usize) {
            Some(cell) => cell.places(),
            None => &[],
        }
    }
}

impl Cell {
    fn places(&self) -> &[u32]
        ensures { result.now ≡ self.now }
    {
        self.places.as_slice()
    }
}

// The places in the cell at the column and the row, if there is one.
fn places_in(columns: &[Column], column: u64, row: u64) -> &[u32]
    ensures { result.now ≡ places_in_cell columns.now column row }
{
    match columns.get(column as usize) {
        Some(column) => column.places_at(row),
        None => &[],
    }
}

impl Grid {
    // The grid of the lanelets.
    pub(crate) fn new(alloc: Global, lanes: &[Lane]) -> Result<Grid, AllocError>
        requires { length lanes.now ≤ MAX_LANELETS }
        ensures { IfOk result (IsGridOf lanes.now) }
    {
        let bounds = bounds_of_all(lanes);
        let in_x = Axis::new(lanes.len(), bounds.low.x, bounds.high.x);
        let in_y = Axis::new(lanes.len(), bounds.low.y, bounds.high.y);
        let reach_in_x = reaches_in_x(alloc, lanes, in_x)?;
        let reach_in_y = reaches_in_y(alloc, lanes, in_y)?;
        let places = all_places(alloc, lanes.len() as u32)?;
        let columns = all_columns(
            alloc,
            reach_in_x.as_slice(),
            reach_in_y.as_slice(),
            (in_x.last + 1, in_y.last + 1),
            places.as_slice(),
        )?;
        Ok(Grid {
            in_x,
            in_y,
            columns,
        })
    }

    // The places in the point's cell.
    #[tactic(auto, unfolding(crate::specs::Cells::places_at))]
    pub(crate) fn places_at(&self, point: Point) -> &[u32]
        ensures { result.now ≡ places_of self.now point }
    {
        let column = self.in_x.strip(point.x);
        places_in(self.columns.as_slice(), column, self.in_y.strip(point.y))
    }
}
