ghost use Rattle.std.specs.Prelude.{◌≡◌, ◌≤ℤ◌, pos, map};
ghost use Rattle.std.specs.List.{fold, list_any};
ghost use Rattle.std.specs.Int.{int_min};
ghost use Rattle.fixed_geometry.specs.Boxes.{bounds as bounds_of, box_gap as box_gap_of};
ghost use Rattle.fixed_geometry.specs.Boxes.{IsBoxInRange};
ghost use Rattle.fixed_geometry.specs.Polygon.{IsCornerList, polygons_meet as do_polygons_meet};

use fixed_geometry::{Box2, Point, Polygon, bounds, box_gap, polygons_meet};

// Whether the polygon meets the shape.
fn meets(ego: &[Point], shape: &Polygon) -> bool
    requires { IsCornerList ego.now }
    ensures { result ≡ do_polygons_meet ego.now shape.now }
{
    polygons_meet(ego, shape.corners())
}

// Whether the polygon meets one of the shapes.
pub(crate) fn meets_any(ego: &[Point], shapes: &[Polygon]) -> bool
    requires { IsCornerList ego.now }
    ensures { result ≡ list_any (do_polygons_meet ego.now) shapes.now }
{
    shapes.iter().any(|shape| meets(ego, shape))
}

// The gap between the box and that of the shape.
fn gap(ego: Box2, shape: &Polygon) -> i64
    requires { IsBoxInRange ego }
    ensures value { result ≡ box_gap_of ego (bounds_of shape.now) }
    ensures low { pos 0 ≤ℤ result }
{
    box_gap(ego, bounds(shape.corners()))
}

// The lesser of two gaps.
fn lesser(u: i64, v: i64) -> i64
    requires u { pos 0 ≤ℤ u }
    requires v { pos 0 ≤ℤ v }
    ensures value { result ≡ int_min u v }
    ensures low { pos 0 ≤ℤ result }
{
    u.min(v)
}

// The least of the gaps to the shapes, and of `least`.
pub(crate) fn least_gap(ego: Box2, shapes: &[Polygon], least: i64) -> i64
    requires ego { IsBoxInRange ego }
    requires least { pos 0 ≤ℤ least }
    ensures value { result ≡ fold int_min least
        (map (λ corners. box_gap_of ego (bounds_of corners)) shapes.now) }
    ensures low { pos 0 ≤ℤ result }
{
    let mut nearest = least;
    for shape in shapes {
        nearest = lesser(nearest, gap(ego, shape));
    }
    nearest
}
