ghost use Rattle.std.specs.Prelude.{◌≡◌, ◌≤◌, ◌*◌, ◌+ℤ◌, All, length, map, unsigned_abs, IfOk};
ghost use Rattle.fixed_geometry.specs.Plane.{IsWithin, IsInRange};
ghost use Rattle.fixed_geometry.specs.Polygon.{IsCornerList};
ghost use Rattle.fixed_geometry.specs.Shapes.{IsExtent, rectangle};
ghost use Rattle.fixed_geometry.specs.declared.limits.TheConstants.{MAX_ANGLE, MAX_CENTER};
ghost use Rattle.fixed_geometry.specs.declared.limits.TheConstants.{MAX_OFFSET, MIN_POLYGON_CORNERS};
ghost use Rattle.scenario_model.specs.Scenario.{IsRead, IsShape, IsPose};
ghost use Rattle.scenario_model.specs.declared.limits.TheConstants.{MAX_COORDINATE, MAX_CORNERS};
ghost use Rattle.scenario_model.specs.declared.limits.TheConstants.{MAX_HEADING};
ghost use Rattle.moving_obstacles.specs.Placing.{placed_point as placed_point_of, placed};

use fixed_geometry::{Point, Polygon, circle_at, rectangle_at, rotate};
use preorder::{List, NoMemory};
use scenario_model::{Pose, Shape};
use std::alloc::Global;

// A coordinate moved by an offset.
fn moved(from: i64, offset: i64) -> i64
    requires from { unsigned_abs from ≤ MAX_COORDINATE }
    requires offset { unsigned_abs offset ≤ 2 * MAX_OFFSET }
    ensures value { result ≡ from +ℤ offset }
    ensures size { unsigned_abs result ≤ MAX_CENTER }
{
    from + offset
}

// A heading turned by an angle.
fn turned(heading: i64, angle: i64) -> i64
    requires heading { unsigned_abs heading ≤ MAX_HEADING }
    requires angle { unsigned_abs angle ≤ MAX_HEADING }
    ensures value { result ≡ heading +ℤ angle }
    ensures size { unsigned_abs result ≤ MAX_ANGLE }
{
    heading + angle
}

// A point of a shape at the pose: turned by its heading and moved to its position.
#[tactic(auto, unfolding(crate::specs::Placing::placed_point))]
fn placed_point(pose: Pose, point: Point) -> Point
    requires pose { IsPose pose }
    requires point { IsRead point }
    ensures value { result ≡ placed_point_of pose point }
    ensures size { IsWithin MAX_CENTER result }
{
    let offset = rotate(point, pose.heading);
    let x = moved(pose.position.x, offset.x);
    let y = moved(pose.position.y, offset.y);
    Point { x, y }
}

// The corners of a rectangle at the pose, about its placed center and with the sum of both
// headings.
fn placed_rectangle(pose: Pose, center: Point, heading: i64, length: i64, width: i64) -> [Point; 4]
    requires pose { IsPose pose }
    requires center { IsRead center }
    requires heading { unsigned_abs heading ≤ MAX_HEADING }
    requires length { IsExtent length }
    requires width { IsExtent width }
    ensures value { result
        ≡ rectangle (placed_point_of pose center) (pose.heading +ℤ heading) length width }
    ensures corners { IsCornerList result }
{
    let heading = turned(pose.heading, heading);
    rectangle_at(placed_point(pose, center), heading, length, width)
}

// The polygon with the corners.
fn polygon(corners: Vec<Point>) -> Polygon
    requires { IsCornerList corners.items }
    ensures { result ≡ corners.items }
{
    match Polygon::new(corners) {
        Ok(polygon) => polygon,
        Err(_) => unreachable!(),
    }
}

// The corners of a polygon at the pose.
fn placed_corners(alloc: Global, pose: Pose, corners: &[Point]) -> Result<Polygon, NoMemory>
    requires pose { IsPose pose }
    requires corners { (MIN_POLYGON_CORNERS ≤ length corners.now)
        × (length corners.now ≤ MAX_CORNERS) × All IsRead corners.now }
    ensures { IfOk result (λ polygon. polygon ≡ map (placed_point_of pose) corners.now) }
{
    let mut placed = Vec::new(alloc);
    for corner in corners {
        placed.push(placed_point(pose, *corner))?;
    }
    Ok(polygon(placed))
}

// The shape at the pose.
#[tactic(auto, unfolding(crate::specs::Placing::placed))]
fn placed_shape(alloc: Global, pose: Pose, shape: &Shape) -> Result<Polygon, NoMemory>
    requires pose { IsPose pose }
    requires shape { IsShape shape.now }
    ensures { IfOk result (λ polygon. polygon ≡ placed pose shape.now) }
{
    match shape {
        Shape::Rectangle {
            length,
            width,
            heading,
            center,
        } => {
            let corners = placed_rectangle(pose, *center, *heading, *length, *width);
            Ok(polygon(corners.to_vec(alloc)?))
        }
        Shape::Circle { radius, center } => {
            let corners = circle_at(placed_point(pose, *center), *radius);
            Ok(polygon(corners.to_vec(alloc)?))
        }
        Shape::Corners { corners } => placed_corners(alloc, pose, corners.as_slice()),
    }
}

// The shapes at the pose, in order.
pub(crate) fn placed_shapes(
    alloc: Global,
    pose: Pose,
    shapes: &[Shape],
) -> Result<List<Polygon>, NoMemory>
    requires pose { IsPose pose }
    requires shapes { All IsShape shapes.now }
    ensures { IfOk result (λ polygons. polygons ≡ map (placed pose) shapes.now) }
{
    let mut polygons = List::new(alloc);
    for shape in shapes {
        polygons.push(placed_shape(alloc, pose, shape)?)?;
    }
    Ok(polygons)
}
