ghost use Rattle.std.specs.Prelude.{◌≡◌, ◌≤◌, ◌*◌, ◌^◌, ◌+ℤ◌, ◌-ℤ◌, ◌*ℤ◌, unsigned_abs};
ghost use Rattle.fixed_geometry.specs.Plane.{IsInRange, IsWithin};
ghost use Rattle.fixed_geometry.specs.Vectors.{way as way_of, dot as dot_of, turn as turn_of};
ghost use Rattle.fixed_geometry.specs.Vectors.{ahead as ahead_of, beside as beside_of};
ghost use Rattle.fixed_geometry.specs.declared.limits.TheConstants.{MAX_PLANE_COORDINATE};
ghost use Rattle.fixed_geometry.specs.declared.limits.TheConstants.{MAX_DIVIDEND, MICROS_PER_UNIT};

use crate::point::Point;
use crate::rounding::round_div;

// The way from one coordinate to another, both in range.
pub(crate) fn step(from: i64, to: i64) -> i64
    requires from { unsigned_abs from ≤ MAX_PLANE_COORDINATE }
    requires to { unsigned_abs to ≤ MAX_PLANE_COORDINATE }
    ensures value { result ≡ to -ℤ from }
    ensures size { unsigned_abs result ≤ 2 * MAX_PLANE_COORDINATE }
{
    to - from
}

/// How to come from one point to another, in 0.1 mm. Both points are in range.
#[tactic(auto, unfolding(crate::specs::Vectors::way))]
pub fn way(from: Point, to: Point) -> Point
    requires from { IsInRange from }
    requires to { IsInRange to }
    ensures value { result ≡ way_of from to }
    ensures size { IsWithin (2 * MAX_PLANE_COORDINATE) result }
{
    let x = step(from.x, to.x);
    let y = step(from.y, to.y);
    Point { x, y }
}

// The product of a way's part and a difference of any two coordinates.
fn product(u: i128, v: i128) -> i128
    requires u { unsigned_abs u ≤ 2 * MAX_PLANE_COORDINATE }
    requires v { unsigned_abs v ≤ 10 ^ 20 }
    ensures value { result ≡ u *ℤ v }
    ensures size { unsigned_abs result ≤ 2 * 10 ^ 32 }
{
    u * v
}

// The product of two parts of ways.
fn part_product(u: i64, v: i64) -> i128
    requires { unsigned_abs u ≤ 2 * MAX_PLANE_COORDINATE }
    ensures value { result ≡ u *ℤ v }
    ensures size { unsigned_abs result ≤ 2 * 10 ^ 32 }
{
    product(i128::from(u), i128::from(v))
}

// The sum of two such products.
fn plus(u: i128, v: i128) -> i128
    requires u { unsigned_abs u ≤ 2 * 10 ^ 32 }
    requires v { unsigned_abs v ≤ 2 * 10 ^ 32 }
    ensures value { result ≡ u +ℤ v }
    ensures size { unsigned_abs result ≤ 4 * 10 ^ 32 }
{
    u + v
}

// The difference of two such products.
fn minus(u: i128, v: i128) -> i128
    requires u { unsigned_abs u ≤ 2 * 10 ^ 32 }
    requires v { unsigned_abs v ≤ 2 * 10 ^ 32 }
    ensures value { result ≡ u -ℤ v }
    ensures size { unsigned_abs result ≤ 4 * 10 ^ 32 }
{
    u - v
}

/// The dot product of two vectors: above 0 where they lead more along each other than back.
///
/// The first is the way between two points in range, or smaller.
#[tactic(auto, unfolding(crate::specs::Vectors::dot))]
pub fn dot(u: Point, v: Point) -> i128
    requires { IsWithin (2 * MAX_PLANE_COORDINATE) u }
    ensures { result ≡ dot_of u v }
{
    plus(part_product(u.x, v.x), part_product(u.y, v.y))
}

// The cross product of two vectors: above 0 where the second leads to the left of the first.
#[tactic(auto, unfolding(crate::specs::Vectors::turn))]
pub(crate) fn turn(u: Point, v: Point) -> i128
    requires { IsWithin (2 * MAX_PLANE_COORDINATE) u }
    ensures { result ≡ turn_of u v }
{
    minus(part_product(u.x, v.y), part_product(u.y, v.x))
}

// How far one coordinate is above another, in range or not.
fn offset(from: i64, to: i64) -> i128
    ensures value { result ≡ to -ℤ from }
    ensures size { unsigned_abs result ≤ 10 ^ 20 }
{
    i128::from(to) - i128::from(from)
}

// A direction's part times an offset.
fn arm(part: i64, offset: i128) -> i128
    requires part { unsigned_abs part ≤ MICROS_PER_UNIT }
    requires offset { unsigned_abs offset ≤ 10 ^ 20 }
    ensures value { result ≡ part *ℤ offset }
    ensures size { unsigned_abs result ≤ 2 * 10 ^ 32 }
{
    product(i128::from(part), offset)
}

/// How far a point is ahead of another along a direction, in 0.1 mm, to the nearest, halves away
/// from 0. It is below 0 where the point is behind.
///
/// The points are any. The direction's parts are at most `MICROS_PER_UNIT` in size.
#[tactic(auto, unfolding(crate::specs::Vectors::ahead, crate::specs::Vectors::dot, crate::specs::Vectors::way))]
pub fn ahead(from: Point, unit: Point, to: Point) -> i128
    requires { IsWithin MICROS_PER_UNIT unit }
    ensures value { result ≡ ahead_of from unit to }
    ensures size { unsigned_abs result ≤ MAX_DIVIDEND }
{
    let x = offset(from.x, to.x);
    let y = offset(from.y, to.y);
    round_div(plus(arm(unit.x, x), arm(unit.y, y)), 1_000_000)
}

/// How far a point is to the left of another as seen along a direction, in 0.1 mm, to the nearest,
/// halves away from 0. It is below 0 where the point is to the right.
///
/// The points are any. The direction's parts are at most `MICROS_PER_UNIT` in size.
#[tactic(auto, unfolding(crate::specs::Vectors::beside, crate::specs::Vectors::turn, crate::specs::Vectors::way))]
pub fn beside(from: Point, unit: Point, to: Point) -> i128
    requires { IsWithin MICROS_PER_UNIT unit }
    ensures value { result ≡ beside_of from unit to }
    ensures size { unsigned_abs result ≤ MAX_DIVIDEND }
{
    let x = offset(from.x, to.x);
    let y = offset(from.y, to.y);
    round_div(minus(arm(unit.x, y), arm(unit.y, x)), 1_000_000)
}
