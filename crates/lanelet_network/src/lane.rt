ghost use Rattle.std.specs.Prelude.{◌≡◌, ◌≤◌, ◌*◌, ◌++◌, All, length, reverse, IfOk, IfErr};
ghost use Rattle.fixed_geometry.specs.Plane.{IsInRange, IsWithin};
ghost use Rattle.scenario_model.specs.Scenario.{IsBound};
ghost use Rattle.fixed_geometry.specs.declared.limits.TheConstants.{MAX_PLANE_COORDINATE};
ghost use Rattle.fixed_geometry.specs.declared.limits.TheConstants.{MICROS_PER_UNIT};
ghost use Rattle.fixed_geometry.specs.Boxes.{bounds as bounds_of};
ghost use Rattle.lanelet_network.specs.Boxes.{in_range, in_box};
ghost use Rattle.lanelet_network.specs.LaneReach.{reach_in_x as reach_of_x};
ghost use Rattle.lanelet_network.specs.LaneReach.{reach_in_y as reach_of_y};
ghost use Rattle.lanelet_network.specs.Lanes.{lane_of, holds as does_hold};
ghost use Rattle.lanelet_network.specs.Lanes.{direction_at as direction_of};
ghost use Rattle.lanelet_network.specs.Lanes.{opposes as does_oppose};
ghost use Rattle.lanelet_network.specs.Lanes.{opposes_if_holding as does_oppose_if_holding};

use crate::axis::{Axis, Reach};
use crate::bound::direction_along;
use crate::fault::NetworkFault;
use fixed_geometry::{Box2, Point, Polygon, bounds, dot, point_in};
use scenario_model::Lanelet;
use std::alloc::{AllocError, Global};
use std::marker::Model;

/// A lanelet as the network keeps it. The first corners of its polygon are its left bound, and
/// `bounds` is the least box that holds them all: what is outside the box is not in the polygon.
#[derive(Drop)]
pub struct Lane {
    id: u64,
    polygon: Polygon,
    bounds: Box2,
    left_count: usize,
    successors: Vec<u64>,
}

impl Model for Lane {
    ghost use Rattle.std.specs.Prelude.{◌≡◌, ◌≤◌, length, take};
    ghost use Rattle.fixed_geometry.specs.Boxes.{bounds as bounds_of};
    ghost use Rattle.lanelet_network.specs.Lanes.{Lane as Shown};

    ghost Value = { Shown };

    ghost view = { λ l. record {
      id = l.id;
      left = take l.left_count l.polygon;
      corners = l.polygon;
      successors = l.successors.items;
    } };

    ghost invariant = { λ l. (2 ≤ l.left_count) × (l.left_count ≤ length l.polygon)
        × (l.bounds ≡ bounds_of l.polygon) };
}

// The left bound, and the right bound from its end.
fn corners(alloc: Global, left: &[Point], right: &[Point]) -> Result<Vec<Point>, AllocError>
    ensures { IfOk result (λ corners. corners.items ≡ left.now ++ reverse right.now) }
{
    left.iter()
        .chain(right.iter().rev())
        .copied()
        .collect(alloc)
}

// The polygon of two bounds.
fn polygon(alloc: Global, left: &[Point], right: &[Point]) -> Result<Polygon, NetworkFault>
    requires left { IsBound left.now }
    requires right { IsBound right.now }
    ensures ok { IfOk result (λ polygon. polygon ≡ left.now ++ reverse right.now) }
    ensures fault { IfErr result (λ fault. fault ≡ NetworkFault.NoMemory) }
{
    match Polygon::new(corners(alloc, left, right)?) {
        Ok(polygon) => Ok(polygon),
        Err(_) => unreachable!(),
    }
}

// Whether z lies in the closed range.
#[tactic(auto, unfolding(crate::specs::Boxes::in_range))]
fn is_in_range(low: i64, high: i64, z: i64) -> bool
    ensures { result ≡ in_range low high z }
{
    low <= z && z <= high
}

// Whether the point lies in the closed box.
#[tactic(auto, unfolding(crate::specs::Boxes::in_box))]
fn is_in_box(held: Box2, p: Point) -> bool
    ensures { result ≡ in_box held p }
{
    is_in_range(held.low.x, held.high.x, p.x) && is_in_range(held.low.y, held.high.y, p.y)
}

impl Lane {
    /// The lanelet as a network keeps it. It fails for want of memory alone.
    ///
    /// Each of its bounds has 2 to `MAX_BOUND_POINTS` points, with coordinates of at most
    /// `MAX_COORDINATE` in size.
    pub fn new(alloc: Global, lanelet: &Lanelet) -> Result<Lane, NetworkFault>
        requires left { IsBound lanelet.now.left }
        requires right { IsBound lanelet.now.right }
        ensures ok { IfOk result (λ lane. lane ≡ lane_of lanelet.now) }
        ensures fault { IfErr result (λ fault. fault ≡ NetworkFault.NoMemory) }
    {
        let left = lanelet.left.as_slice();
        let polygon = polygon(alloc, left, lanelet.right.as_slice())?;
        let successors = lanelet.successors.as_slice().to_vec(alloc)?;
        let bounds = bounds(polygon.corners());
        Ok(Lane {
            id: lanelet.id,
            polygon,
            bounds,
            left_count: left.len(),
            successors,
        })
    }

    /// Its id.
    pub fn id(&self) -> u64
        ensures { result ≡ self.now.id }
    {
        self.id
    }

    // The least box that holds the lanelet's polygon, in 0.1 mm.
    pub(crate) fn bounds(&self) -> Box2
        ensures { result ≡ bounds_of self.now.corners }
    {
        self.bounds
    }

    // The columns that the lanelet's box touches.
    #[tactic(auto, unfolding(crate::specs::LaneReach::reach_in_x))]
    pub(crate) fn reach_in_x(&self, columns: Axis) -> Reach
        ensures { result ≡ reach_of_x columns self.now }
    {
        let bounds = self.bounds();
        columns.reach(bounds.low.x, bounds.high.x)
    }

    // The rows that the lanelet's box touches.
    #[tactic(auto, unfolding(crate::specs::LaneReach::reach_in_y))]
    pub(crate) fn reach_in_y(&self, rows: Axis) -> Reach
        ensures { result ≡ reach_of_y rows self.now }
    {
        let bounds = self.bounds();
        rows.reach(bounds.low.y, bounds.high.y)
    }

    /// The ids of the known lanelets that follow, in document order.
    pub fn successors(&self) -> &[u64]
        ensures { result.now ≡ self.now.successors }
    {
        self.successors.as_slice()
    }

    // The left bound.
    fn left(&self) -> &[Point]
        ensures value { result.now ≡ self.now.left }
        ensures enough { 2 ≤ length result.now }
        ensures in_range { All IsInRange result.now }
    {
        &self.polygon.corners()[..self.left_count]
    }

    /// Whether the lanelet's closed polygon holds the point, which is in range.
    pub fn holds(&self, point: Point) -> bool
        requires { IsInRange point }
        ensures { result ≡ does_hold point self.now }
    {
        if !is_in_box(self.bounds, point) {
            return false;
        }
        point_in(point, self.polygon.corners())
    }

    /// How the lanelet's left bound leads where it is nearest to the point, in 0.1 mm. The point is
    /// in range.
    pub fn direction_at(&self, point: Point) -> Point
        requires { IsInRange point }
        ensures value { result ≡ direction_of self.now point }
        ensures size { IsWithin (2 * MAX_PLANE_COORDINATE) result }
    {
        direction_along(self.left(), point)
    }

    // Whether the lanelet leads more back than ahead at the point.
    #[tactic(auto, unfolding(crate::specs::Lanes::opposes))]
    fn opposes(&self, point: Point, ahead: Point) -> bool
        requires point { IsInRange point }
        requires ahead { IsWithin MICROS_PER_UNIT ahead }
        ensures { result ≡ does_oppose point ahead self.now }
    {
        dot(self.direction_at(point), ahead) < 0
    }

    /// Whether the lanelet leads more back than along the direction ahead at the point, or does not
    /// hold the point, which is in range.
    #[tactic(auto, unfolding(crate::specs::Lanes::opposes_if_holding))]
    pub fn opposes_if_holding(&self, point: Point, ahead: Point) -> bool
        requires point { IsInRange point }
        requires ahead { IsWithin MICROS_PER_UNIT ahead }
        ensures { result ≡ does_oppose_if_holding point ahead self.now }
    {
        !self.holds(point) || self.opposes(point, ahead)
    }
}
