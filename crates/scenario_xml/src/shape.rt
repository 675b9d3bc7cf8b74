ghost use Rattle.std.specs.Prelude.{◌≡◌, ◌<◌, ◌≤◌, ◌≤ℤ◌, length, map, sum, pos, true, All, IfOk};
ghost use Rattle.std.specs.Prelude.{IfSome};
ghost use Rattle.fixed_geometry.specs.Shapes.{IsExtent};
ghost use Rattle.reading.specs.Reading.{Gives};
ghost use Rattle.scenario_model.specs.Scenario.{corner_count, IsRead, IsShape};
ghost use Rattle.scenario_xml.specs.Faults.{is_memory};
ghost use Rattle.scenario_xml.specs.Shapes.{point, point_step, points, center, is_extent};
ghost use Rattle.scenario_xml.specs.Shapes.{rectangle, circle, polygon, any_shape, shape_step};
ghost use Rattle.scenario_xml.specs.Shapes.{shapes, IsSoFar};

use crate::children::{ChildReader, read_children};
use crate::element::{child, optional_number, wanted_number};
use crate::fault::{ScenarioFault, Wanted};
use crate::quantity::Quantity;
use element_tree::Tree;
use fixed_geometry::{CIRCLE_CORNERS, MAX_EXTENT, MIN_POLYGON_CORNERS, Point};
use preorder::List;
use scenario_model::{MAX_CORNERS, RECTANGLE_CORNERS, Shape};
use std::alloc::Global;

// A `point` or a `center`.
#[tactic(auto, unfolding(crate::specs::Shapes::point))]
pub fn point(tree: &Tree<'_>, node: u32) -> Result<Point, ScenarioFault>
    requires { node < length tree.now.nodes }
    ensures exact { Gives is_memory (λ p. p) result (point tree.now node) }
    ensures sound { IfOk result IsRead }
{
    let x = wanted_number(tree, node, Wanted::X, Quantity::Coordinate)?;
    let y = wanted_number(tree, node, Wanted::Y, Quantity::Coordinate)?;
    Ok(Point { x, y })
}

impl ChildReader for List<Point> {
    ghost step = { point_step };

    ghost is_sound = { All IsRead };

    #[tactic(auto, unfolding(crate::specs::Shapes::point_step))]
    fn read_child(
        &mut self,
        _alloc: Global,
        tree: &Tree<'_>,
        child: u32,
    ) -> Result<(), ScenarioFault> {
        if tree.name(child) == b"point".as_slice() {
            let point = point(tree, child)?;
            self.push(point)?;
        }
        Ok(())
    }
}

// The points in an element, in order.
#[tactic(auto, unfolding(crate::specs::Shapes::points))]
pub fn points(alloc: Global, tree: &Tree<'_>, node: u32) -> Result<List<Point>, ScenarioFault>
    requires { node < length tree.now.nodes }
    ensures exact { Gives is_memory (λ ps. ps) result (points tree.now node) }
    ensures sound { IfOk result (All IsRead) }
{
    let mut points = List::new(alloc);
    read_children(&mut points, alloc, tree, node)?;
    Ok(points)
}

// The center of a shape.
#[tactic(auto, unfolding(crate::specs::Shapes::center))]
fn center(tree: &Tree<'_>, node: u32) -> Result<Point, ScenarioFault>
    requires { node < length tree.now.nodes }
    ensures exact { Gives is_memory (λ p. p) result (center tree.now node) }
    ensures sound { IfOk result IsRead }
{
    match child(tree, node, b"center") {
        Some(found) => point(tree, found),
        None => Ok(Point { x: 0, y: 0 }),
    }
}

#[tactic(auto, unfolding(crate::specs::Shapes::is_extent))]
fn is_extent(number: i64) -> bool
    ensures exact { result ≡ is_extent number }
    ensures sound { result ≡ true → IsExtent number }
{
    1 <= number && number <= MAX_EXTENT as i64
}

// A `rectangle` of the obstacle or problem with the id.
#[tactic(auto, unfolding(crate::specs::Shapes::rectangle))]
fn rectangle(tree: &Tree<'_>, node: u32, id: u64) -> Result<Shape, ScenarioFault>
    requires { node < length tree.now.nodes }
    ensures exact { Gives is_memory (λ s. s) result (rectangle tree.now node id) }
    ensures sound { IfOk result IsShape }
{
    let length = wanted_number(tree, node, Wanted::Length, Quantity::Side)?;
    let width = wanted_number(tree, node, Wanted::Width, Quantity::Side)?;
    let heading = optional_number(tree, node, b"orientation", Quantity::Angle)?;
    let center = center(tree, node)?;
    if is_extent(length) && is_extent(width) {
        Ok(Shape::Rectangle {
            length,
            width,
            heading,
            center,
        })
    } else {
        Err(ScenarioFault::BadShape(id))
    }
}

// A `circle` of the obstacle or problem with the id.
#[tactic(auto, unfolding(crate::specs::Shapes::circle))]
fn circle(tree: &Tree<'_>, node: u32, id: u64) -> Result<Shape, ScenarioFault>
    requires { node < length tree.now.nodes }
    ensures exact { Gives is_memory (λ s. s) result (circle tree.now node id) }
    ensures sound { IfOk result IsShape }
{
    let radius = wanted_number(tree, node, Wanted::Radius, Quantity::Side)?;
    let center = center(tree, node)?;
    if is_extent(radius) {
        Ok(Shape::Circle { radius, center })
    } else {
        Err(ScenarioFault::BadShape(id))
    }
}

// A `polygon` of the obstacle or problem with the id.
#[tactic(auto, unfolding(crate::specs::Shapes::polygon))]
fn polygon(alloc: Global, tree: &Tree<'_>, node: u32, id: u64) -> Result<Shape, ScenarioFault>
    requires { node < length tree.now.nodes }
    ensures exact { Gives is_memory (λ s. s) result (polygon tree.now node id) }
    ensures sound { IfOk result IsShape }
{
    let corners = points(alloc, tree, node)?;
    let count = corners.as_slice().len();
    if MIN_POLYGON_CORNERS <= count && count <= MAX_CORNERS {
        Ok(Shape::Corners { corners })
    } else {
        Err(ScenarioFault::BadShape(id))
    }
}

// The shape that an element is. None where its name is no shape's.
#[tactic(auto, unfolding(crate::specs::Shapes::any_shape))]
pub fn any_shape(
    alloc: Global,
    tree: &Tree<'_>,
    node: u32,
    id: u64,
) -> Result<Option<Shape>, ScenarioFault>
    requires { node < length tree.now.nodes }
    ensures exact { Gives is_memory (λ s. s) result (any_shape tree.now node id) }
    ensures sound { IfOk result (λ found. IfSome found IsShape) }
{
    let name = tree.name(node);
    if name == b"rectangle".as_slice() {
        Ok(Some(rectangle(tree, node, id)?))
    } else if name == b"circle".as_slice() {
        Ok(Some(circle(tree, node, id)?))
    } else if name == b"polygon".as_slice() {
        Ok(Some(polygon(alloc, tree, node, id)?))
    } else {
        Ok(None)
    }
}

// How many corners a shape counts for.
fn corner_count(shape: &Shape) -> usize
    ensures { result ≡ corner_count shape.now }
{
    match shape {
        Shape::Rectangle { .. } => RECTANGLE_CORNERS,
        Shape::Circle { .. } => CIRCLE_CORNERS,
        Shape::Corners { corners } => corners.as_slice().len(),
    }
}

// The shapes read so far, of the obstacle with the id.
#[derive(Drop)]
struct ShapesSoFar {
    id: u64,
    shapes: List<Shape>,
    // How many corners may still come.
    room: usize,
}

impl ChildReader for ShapesSoFar {
    ghost step = { shape_step };

    ghost is_sound = { IsSoFar };

    #[tactic(auto, unfolding(crate::specs::Shapes::shape_step))]
    fn read_child(
        &mut self,
        alloc: Global,
        tree: &Tree<'_>,
        child: u32,
    ) -> Result<(), ScenarioFault> {
        let Some(shape) = any_shape(alloc, tree, child, self.id)? else {
            return Ok(());
        };
        let count = corner_count(&shape);
        if self.room < count {
            return Err(ScenarioFault::BadShape(self.id));
        }
        self.room -= count;
        self.shapes.push(shape)?;
        Ok(())
    }
}

// The shapes in an element, of the obstacle with the id.
#[tactic(auto, unfolding(crate::specs::Shapes::shapes))]
pub fn shapes(
    alloc: Global,
    tree: &Tree<'_>,
    node: u32,
    id: u64,
) -> Result<List<Shape>, ScenarioFault>
    requires { node < length tree.now.nodes }
    ensures exact { Gives is_memory (λ s. s) result (shapes tree.now node id) }
    ensures some { IfOk result (λ s. 1 ≤ length s) }
    ensures sound { IfOk result (All IsShape) }
    ensures corners { IfOk result (λ s. sum (map corner_count s) ≤ MAX_CORNERS) }
{
    let mut so_far = ShapesSoFar {
        id,
        shapes: List::new(alloc),
        room: MAX_CORNERS,
    };
    read_children(&mut so_far, alloc, tree, node)?;
    if so_far.shapes.as_slice().is_empty() {
        return Err(ScenarioFault::BadShape(so_far.id));
    }
    Ok(so_far.shapes)
}
