ghost use Rattle.std.specs.Prelude.{◌≡◌, ◌≤◌, ◌≤ℤ◌, ◌+ℤ◌, ◌-ℤ◌, ◌*ℤ◌, neg_ℤ, int_le, pos};
ghost use Rattle.std.specs.Prelude.{unsigned_abs, false, IsTrue, IfSome};
ghost use Rattle.std.specs.List.{fold};
ghost use Rattle.std.specs.Int.{int_min};
ghost use Rattle.fixed_geometry.specs.Plane.{IsWithin};
ghost use Rattle.fixed_geometry.specs.declared.limits.TheConstants.{MAX_DIVIDEND, MICROS_PER_UNIT};
ghost use Rattle.fixed_geometry.specs.Vectors.{dot as dot_of, turn as turn_of};
ghost use Rattle.moving_obstacles.specs.Corridor.{IsFarBeside};
ghost use Rattle.moving_obstacles.specs.Nearness.{distances, is_ahead};

use fixed_geometry::{Point, ahead, beside, dot};
use scenario_model::Pose;

// Whether the number is at most the width in size.
fn is_beside(side: i128, width: i64) -> bool
    requires { unsigned_abs side ≤ MAX_DIVIDEND }
    ensures { result ≡ int_le (pos (unsigned_abs side)) width }
{
    side.abs() <= i128::from(width)
}

// The lesser of two distances.
fn lesser(least: i64, distance: i128) -> i64
    requires least { pos 0 ≤ℤ least }
    requires distance { unsigned_abs distance ≤ MAX_DIVIDEND }
    requires low { pos 0 ≤ℤ distance }
    ensures value { result ≡ int_min least distance }
    ensures low { pos 0 ≤ℤ result }
{
    if distance < i128::from(least) {
        distance as i64
    } else {
        least
    }
}

// The way between two points, where 64 bits are enough for it.
fn way(from: Point, to: Point) -> Option<Point>
    ensures x { IfSome result (λ way. way.x ≡ to.x -ℤ from.x) }
    ensures y { IfSome result (λ way. way.y ≡ to.y -ℤ from.y) }
{
    let x = to.x.checked_sub(from.x)?;
    let y = to.y.checked_sub(from.y)?;
    Some(Point { x, y })
}

// Whether the way doesn't lead ahead.
fn is_behind(unit: Point, way: Point) -> bool
    requires { IsWithin MICROS_PER_UNIT unit }
    ensures { IsTrue result → dot_of unit way ≤ℤ pos 0 }
{
    dot(unit, way) <= 0
}

// The direction a quarter turn to the left.
fn left_of(unit: Point) -> Point
    requires { IsWithin MICROS_PER_UNIT unit }
    ensures within { IsWithin MICROS_PER_UNIT result }
    ensures x { result.x ≡ neg_ℤ unit.y }
    ensures y { result.y ≡ unit.x }
{
    Point {
        x: -unit.y,
        y: unit.x,
    }
}

// What is farther to a side than the width, however it is rounded.
fn past(width: i64) -> i128
    ensures { result ≡ pos MICROS_PER_UNIT *ℤ (width +ℤ pos 1) }
{
    1_000_000 * (i128::from(width) + 1)
}

// Whether what is to the left, in millionths, is farther than the width.
fn is_far_left(aside: i128, width: i64) -> bool
    ensures { IsTrue result → (pos MICROS_PER_UNIT *ℤ (width +ℤ pos 1)) ≤ℤ aside }
{
    past(width) <= aside
}

// Whether it is farther to the right.
fn is_far_right(aside: i128, width: i64) -> bool
    ensures { IsTrue result → aside ≤ℤ neg_ℤ (pos MICROS_PER_UNIT *ℤ (width +ℤ pos 1)) }
{
    aside <= -past(width)
}

// Whether the way leads farther to a side than the width, however it is rounded.
fn is_far_beside(unit: Point, way: Point, width: i64) -> bool
    requires { IsWithin MICROS_PER_UNIT unit }
    ensures { IsTrue result → IsFarBeside (turn_of unit way) width }
{
    let aside = dot(left_of(unit), way);
    is_far_left(aside, width) || is_far_right(aside, width)
}

// Whether the pose is not ahead, as is told without a division.
fn is_apart(position: Point, unit: Point, width: i64, pose: Pose) -> bool
    requires { IsWithin MICROS_PER_UNIT unit }
    ensures { IsTrue result → is_ahead position unit width pose ≡ false }
{
    match way(position, pose.position) {
        Some(way) => is_behind(unit, way) || is_far_beside(unit, way, width),
        None => false,
    }
}

// The lesser of `least` and the distance to the pose, where it is ahead.
#[tactic(auto, unfolding(crate::specs::Nearness::is_ahead, crate::specs::Nearness::distances))]
fn nearer(position: Point, unit: Point, width: i64, pose: Pose, least: i64) -> i64
    requires unit { IsWithin MICROS_PER_UNIT unit }
    requires least { pos 0 ≤ℤ least }
    ensures value { result ≡ fold int_min least (distances position unit width (Some pose)) }
    ensures low { pos 0 ≤ℤ result }
{
    let distance = ahead(position, unit, pose.position);
    if 0 < distance && is_beside(beside(position, unit, pose.position), width) {
        lesser(least, distance)
    } else {
        least
    }
}

// The same, without a division where the pose is apart.
fn lesser_distance(position: Point, unit: Point, width: i64, pose: Pose, least: i64) -> i64
    requires unit { IsWithin MICROS_PER_UNIT unit }
    requires least { pos 0 ≤ℤ least }
    ensures value { result ≡ fold int_min least (distances position unit width (Some pose)) }
    ensures low { pos 0 ≤ℤ result }
{
    if is_apart(position, unit, width, pose) {
        least
    } else {
        nearer(position, unit, width, pose, least)
    }
}

// The lesser of `least` and the distance to the pose, where there is one and it is ahead.
#[tactic(auto, unfolding(crate::specs::Nearness::distances))]
pub(crate) fn least_distance(
    position: Point,
    unit: Point,
    width: i64,
    pose: Option<Pose>,
    least: i64,
) -> i64
    requires unit { IsWithin MICROS_PER_UNIT unit }
    requires least { pos 0 ≤ℤ least }
    ensures value { result ≡ fold int_min least (distances position unit width pose) }
    ensures low { pos 0 ≤ℤ result }
{
    match pose {
        Some(pose) => lesser_distance(position, unit, width, pose, least),
        None => least,
    }
}
