ghost use Rattle.std.specs.Prelude.{◌≡◌, ◌<◌, ◌≤◌, ◌*◌, All, length};
ghost use Rattle.fixed_geometry.specs.Plane.{IsInRange, IsWithin};
ghost use Rattle.fixed_geometry.specs.declared.limits.TheConstants.{MAX_PLANE_COORDINATE};
ghost use Rattle.lanelet_network.specs.Bounds.{squared_distance as squared_distance_of};
ghost use Rattle.lanelet_network.specs.Bounds.{nearest as nearest_of, lead as lead_of};
ghost use Rattle.lanelet_network.specs.Bounds.{direction_along as direction_of};

use fixed_geometry::{Point, dot, way};

// The squared distance of two points, in units of (0.1 mm)^2.
#[tactic(auto, unfolding(crate::specs::Bounds::squared_distance))]
fn squared_distance(p: Point, q: Point) -> i128
    requires p { IsInRange p }
    requires q { IsInRange q }
    ensures { result ≡ squared_distance_of p q }
{
    let way = way(p, q);
    dot(way, way)
}

// The place of the first point at the least squared distance.
fn nearest(p: Point, bound: &[Point]) -> usize
    requires p { IsInRange p }
    requires some { 1 ≤ length bound.now }
    requires bound { All IsInRange bound.now }
    ensures value { result ≡ nearest_of p bound.now }
    ensures within { result < length bound.now }
{
    let mut place = 0;
    let mut least = squared_distance(p, bound[0]);
    for i in 1..bound.len() {
        let distance = squared_distance(p, bound[i]);
        if distance < least {
            place = i;
            least = distance;
        }
    }
    place
}

// How the bound leads at the place.
#[tactic(auto, unfolding(crate::specs::Bounds::lead))]
fn lead(bound: &[Point], place: usize) -> Point
    requires place { place < length bound.now }
    requires enough { 2 ≤ length bound.now }
    requires bound { All IsInRange bound.now }
    ensures value { result ≡ lead_of bound.now place }
    ensures size { IsWithin (2 * MAX_PLANE_COORDINATE) result }
{
    if place + 1 < bound.len() {
        way(bound[place], bound[place + 1])
    } else {
        way(bound[place - 1], bound[place])
    }
}

/// How the bound leads at its first point that is nearest to the point: the way from there to the
/// next point, and from the point before at the last, in 0.1 mm.
///
/// All points are in range, and the bound has two or more.
#[tactic(auto, unfolding(crate::specs::Bounds::direction_along))]
pub fn direction_along(bound: &[Point], p: Point) -> Point
    requires enough { 2 ≤ length bound.now }
    requires bound { All IsInRange bound.now }
    requires p { IsInRange p }
    ensures value { result ≡ direction_of bound.now p }
    ensures size { IsWithin (2 * MAX_PLANE_COORDINATE) result }
{
    lead(bound, nearest(p, bound))
}
