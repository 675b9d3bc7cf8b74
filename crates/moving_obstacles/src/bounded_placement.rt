ghost use Rattle.std.specs.Prelude.{◌≡◌, ◌≤◌, ◌≤ℤ◌, pos, unsigned_abs, All, map, IfOk};
ghost use Rattle.std.specs.List.{fold, list_any};
ghost use Rattle.std.specs.Int.{int_min};
ghost use Rattle.fixed_geometry.specs.Boxes.{bounds as bounds_of, box_gap as box_gap_of};
ghost use Rattle.fixed_geometry.specs.Boxes.{IsBoxInRange};
ghost use Rattle.fixed_geometry.specs.declared.limits.TheConstants.{MAX_PLANE_COORDINATE};
ghost use Rattle.fixed_geometry.specs.Polygon.{IsCornerList, polygons_meet as do_polygons_meet};
ghost use Rattle.scenario_model.specs.Scenario.{IsShape, IsPose};
ghost use Rattle.moving_obstacles.specs.Bounds.{IsBoxIn, AreBounds};
ghost use Rattle.moving_obstacles.specs.Present.{IsPresenceOf};

use crate::nearness::{least_gap, meets_any};
use crate::presence::Presence;
use crate::track::Placement;
use fixed_geometry::{Box2, Point, Polygon, bounds, box_gap};
use preorder::NoMemory;
use scenario_model::{Pose, Shape};
use std::alloc::Global;
use std::marker::Model;

// A placement, and a box that holds its shapes: what is far from the box is asked about no shape.
#[derive(Drop)]
pub(crate) struct BoundedPlacement {
    placement: Placement,
    bounds: Box2,
}

impl Model for BoundedPlacement {
    ghost use Rattle.moving_obstacles.specs.declared.track.Placement.{Placement as Placed};

    ghost Value = { Placed };

    ghost use Rattle.moving_obstacles.specs.Bounds.{AreBounds};

    ghost view = { λ bounded. bounded.placement };

    ghost invariant = { λ bounded. AreBounds bounded.placement.shapes bounded.bounds };
}

// The lesser of two coordinates.
fn lesser(u: i64, v: i64) -> i64
    requires u { unsigned_abs u ≤ MAX_PLANE_COORDINATE }
    requires v { unsigned_abs v ≤ MAX_PLANE_COORDINATE }
    ensures first { result ≤ℤ u }
    ensures second { result ≤ℤ v }
    ensures size { unsigned_abs result ≤ MAX_PLANE_COORDINATE }
{
    u.min(v)
}

// The greater of two coordinates.
fn greater(u: i64, v: i64) -> i64
    requires u { unsigned_abs u ≤ MAX_PLANE_COORDINATE }
    requires v { unsigned_abs v ≤ MAX_PLANE_COORDINATE }
    ensures first { u ≤ℤ result }
    ensures second { v ≤ℤ result }
    ensures size { unsigned_abs result ≤ MAX_PLANE_COORDINATE }
{
    u.max(v)
}

// A box that holds both boxes.
fn joined(a: Box2, b: Box2) -> Box2
    requires a { IsBoxInRange a }
    requires b { IsBoxInRange b }
    ensures first { IsBoxIn a result }
    ensures second { IsBoxIn b result }
    ensures in_range { IsBoxInRange result }
{
    let left = lesser(a.low.x, b.low.x);
    let below = lesser(a.low.y, b.low.y);
    let right = greater(a.high.x, b.high.x);
    let above = greater(a.high.y, b.high.y);
    Box2 {
        low: Point { x: left, y: below },
        high: Point { x: right, y: above },
    }
}

// The box of the first shape; for none, a box at (0, 0).
fn first_bounds(shapes: &[Polygon]) -> Box2
    ensures { IsBoxInRange result }
{
    match shapes.first() {
        Some(shape) => bounds(shape.corners()),
        None => {
            let zero = Point { x: 0, y: 0 };
            Box2 {
                low: zero,
                high: zero,
            }
        }
    }
}

// A box that holds the shapes.
fn bounds_of_all(shapes: &[Polygon]) -> Box2
    ensures { AreBounds shapes.now result }
{
    let mut held = first_bounds(shapes);
    for shape in shapes {
        held = joined(held, bounds(shape.corners()));
    }
    held
}

impl BoundedPlacement {
    ghost use Rattle.moving_obstacles.specs.Tracks.{placement_of};

    // The shapes at the pose.
    pub(crate) fn new(
        alloc: Global,
        pose: Pose,
        shapes: &[Shape],
    ) -> Result<BoundedPlacement, NoMemory>
        requires pose { IsPose pose }
        requires shapes { All IsShape shapes.now }
        ensures { IfOk result (λ placement. placement ≡ placement_of shapes.now pose) }
    {
        let placement = Placement::new(alloc, pose, shapes)?;
        let bounds = bounds_of_all(placement.shapes.as_slice());
        Ok(BoundedPlacement { placement, bounds })
    }

    pub(crate) fn tick(&self) -> u32
        ensures { result ≡ self.now.pose.tick }
    {
        self.placement.pose.tick
    }

    // The placement as it is listed with those of the other tracks; its own is at the place.
    pub(crate) fn presence(&self, place: usize) -> Presence
        ensures place { result.place ≡ place }
        ensures in_range { IsBoxInRange result.bounds }
        ensures placement { IsPresenceOf self.now result }
    {
        Presence {
            place,
            bounds: self.bounds,
            pose: self.placement.pose,
        }
    }

    pub(crate) fn pose(&self) -> Pose
        ensures { result ≡ self.now.pose }
    {
        self.placement.pose
    }

    pub(crate) fn shapes(&self) -> &[Polygon]
        ensures { result.now ≡ self.now.shapes }
    {
        self.placement.shapes.as_slice()
    }

    // Whether the polygon, whose least box is given, meets one of the shapes.
    pub(crate) fn is_met(&self, ego: &[Point], ego_bounds: Box2) -> bool
        requires ego { IsCornerList ego.now }
        requires bounds { ego_bounds ≡ bounds_of ego.now }
        requires in_range { IsBoxInRange ego_bounds }
        ensures { result ≡ list_any (do_polygons_meet ego.now) self.now.shapes }
    {
        if 0 < box_gap(ego_bounds, self.bounds) {
            return false;
        }
        meets_any(ego, self.placement.shapes.as_slice())
    }

    // The least of the gaps to the shapes, and of `least`.
    pub(crate) fn least_gap(&self, ego: Box2, least: i64) -> i64
        requires ego { IsBoxInRange ego }
        requires least { pos 0 ≤ℤ least }
        ensures value { result ≡ fold int_min least
            (map (λ corners. box_gap_of ego (bounds_of corners)) self.now.shapes) }
        ensures low { pos 0 ≤ℤ result }
    {
        if least <= box_gap(ego, self.bounds) {
            return least;
        }
        least_gap(ego, self.placement.shapes.as_slice(), least)
    }
}
