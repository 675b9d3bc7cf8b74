use crate::fixtures::at;
use fixed_geometry::{
    Box2, Point, Polygon, PolygonFault, ahead, beside, bounds, box_gap, circle_at, cross,
    direction, dot, point_in, polygons_meet, rectangle_at, rotate, round_div, segments_meet, way,
};
use std::test::Fail;

fn polygon(rt: &HostRuntime, corners: &[(i32, i32)]) -> Result<Polygon, Fail> {
    let mut points = Vec::new(rt.alloc());
    for (x, y) in corners {
        points.push(at(*x, *y))?;
    }
    Ok(Polygon::new(points)?)
}

#[test]
fn quotients_are_rounded_and_offsets_turned(rt: HostRuntime) {
    for (a, b, nearest) in [(-3, 2, -2), (1, 2, 1), (1, 3, 0), (-1, 3, 0), (7, 7, 1)] {
        assert_eq!(rt; round_div(a, b), nearest);
    }
    for (angle, cosine, sine, x, y) in [
        (0, 1_000_000, 0, 3, 4),
        (1_570_796, 0, 1_000_000, -4, 3),
        (3_141_592, -1_000_000, 0, -3, -4),
        (-1_570_796, 0, -1_000_000, 4, -3),
        (500_000, 877_583, 479_426, 1, 5),
    ] {
        assert_eq!(rt; direction(angle), Point { x: cosine, y: sine });
        assert_eq!(rt; rotate(at(3, 4), angle), Point { x, y });
    }
}

#[test]
fn segments_meet_where_they_touch_or_cross(rt: HostRuntime) {
    assert_eq!(rt; cross(at(0, 0), at(2, 0), at(0, 3)), 6);
    assert_eq!(rt; cross(at(0, 0), at(2, 0), at(0, -3)), -6);
    assert_eq!(rt; cross(at(0, 0), at(2, 1), at(4, 2)), 0);
    assert_eq!(rt; dot(way(at(1, 1), at(3, 4)), at(5, -2)), 4);
    let up = Point { x: 0, y: 1_000_000 };
    assert_eq!(rt; ahead(at(1, 1), up, at(3, 5)), 4);
    assert_eq!(rt; beside(at(1, 1), up, at(3, 5)), -2);
    for ((x, y), (u, v), meet) in [
        ((0, 2), (2, 0), true),
        ((1, 1), (5, 0), true),
        ((2, 2), (5, 0), true),
        ((3, 3), (5, 5), false),
        ((2, 0), (3, 5), false),
    ] {
        assert_eq!(rt; segments_meet(at(0, 0), at(2, 2), at(x, y), at(u, v)), meet);
    }
}

#[test]
fn polygons_hold_what_is_on_an_edge_or_inside(rt: HostRuntime) -> Result<(), Fail> {
    let far = 1_000_000_000_000;
    for (x, count, fault) in [
        (0, 2, Some(PolygonFault::TooFew)),
        (-far, 3, None),
        (far + 1, 3, Some(PolygonFault::OutOfRange)),
        (0, 4_096, None),
        (far + 1, 4_097, Some(PolygonFault::TooMany)),
    ] {
        let corners = vec![in rt.alloc(); Point { x, y: 0 }; count]?;
        assert_eq!(rt; Polygon::new(corners).err(), fault);
    }
    let triangle = polygon(&rt, &[(0, 0), (2, 0), (0, 2)])?;
    for (x, y, inside) in [(1, 1, true), (0, 0, true), (2, 2, false)] {
        assert_eq!(rt; point_in(at(x, y), triangle.corners()), inside);
    }
    let outer = polygon(&rt, &[(0, 0), (10, 0), (10, 10), (0, 10)])?;
    let inner = polygon(&rt, &[(4, 4), (6, 4), (6, 6), (4, 6)])?;
    assert!(rt; polygons_meet(outer.corners(), inner.corners()));
    assert!(rt; polygons_meet(inner.corners(), outer.corners()));
    let least = bounds(polygon(&rt, &[(1, 5), (-2, 3), (4, -1)])?.corners());
    assert_eq!(rt;
        least,
        Box2 {
            low: at(-2, -1),
            high: at(4, 5)
        }
    );
    Ok(())
}

#[test]
fn placed_shapes_meet_where_they_touch(rt: HostRuntime) {
    let rectangle = rectangle_at(at(0, 0), 0, 45_000, 18_000);
    for (x, meet, gap) in [(32_500, true, 0), (32_501, false, 1)] {
        let circle = circle_at(at(x, 0), 10_000);
        assert_eq!(rt; polygons_meet(&rectangle, &circle), meet);
        assert_eq!(rt; box_gap(bounds(&rectangle), bounds(&circle)), gap);
    }
    let upright = rectangle_at(at(0, 0), 1_570_796, 45_000, 18_000);
    for (corner, x, y) in [
        (0, 9_000, -22_500),
        (1, 9_000, 22_500),
        (2, -9_000, 22_500),
        (3, -9_000, -22_500),
    ] {
        assert_eq!(rt; upright[corner], at(x, y));
    }
    let circle = circle_at(at(0, 0), 10_000);
    for (corner, x, y) in [(0, 10_000, 0), (4, 0, 10_000), (8, -10_000, 0)] {
        assert_eq!(rt; circle[corner], at(x, y));
    }
    let a = Box2 {
        low: at(0, 0),
        high: at(2, 2),
    };
    let b = Box2 {
        low: at(5, 3),
        high: at(6, 6),
    };
    assert_eq!(rt; box_gap(a, b), 3);
}
