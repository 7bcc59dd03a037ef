// Planes, turns and distances of given points, at the ends of the grid too; values by hand.
use crate::words::point;
use face_plane::{FacePlane, FlatPoint};
use mb_base::Point;
use std::process::Abort;

// The size of the greatest coordinate.
const END: i32 = 1 << 30;

// Three points, the axis that their plane drops, and the second point there, turned and not.
const PLANES: [([[i32; 3]; 3], u8, [i64; 2]); 7] = [
    ([[0, 0, 0], [2, 0, 7], [0, 2, 0]], 0, [0, 7]),
    ([[0, 0, 0], [2, 7, 0], [0, 0, 2]], 0, [7, 0]),
    ([[0, 0, 0], [5, 0, 1], [0, 2, 0]], 2, [5, 0]),
    ([[0, 0, 0], [5, 1, 3], [0, 0, 2]], 1, [3, 5]),
    ([[1, 0, 0], [0, 1, 0], [0, 0, 1]], 2, [0, 1]),
    ([[0, 0, 0], [1, -1, 0], [0, 0, 1]], 1, [0, 1]),
    ([[0, 0, 0], [1, 2, 3], [2, 4, 6]], 2, [1, 2]),
];

// Three points of a plane, whether they turn left, turn right and keep left, and the squared distance of the first two.
const TURNS: [([[i32; 2]; 3], [bool; 3], u64); 5] = [
    ([[0, 0], [1, 0], [0, 1]], [true, false, true], 1),
    ([[0, 0], [0, 1], [1, 0]], [false, true, false], 1),
    ([[0, 0], [1, 2], [2, 4]], [false, false, true], 5),
    (
        [[-END, -END], [END, END], [-END, END]],
        [true, false, true],
        1 << 63,
    ),
    (
        [[END, END], [-END, -END], [-END, END]],
        [false, true, false],
        1 << 63,
    ),
];

// Whether a place has these coordinates.
fn is_at(place: FlatPoint, u: i64, v: i64) -> bool {
    place.u() == u && place.v() == v
}

// Whether the plane of three points drops this axis, and whether the second one is there, and with u and v exchanged.
fn is_plane(a: Point, b: Point, c: Point, drop: u8, second: [i64; 2]) -> bool {
    let plane = FacePlane::of(a, b, c);
    let [u, v] = second;
    plane.drop == drop && is_at(plane.flat(false, b), u, v) && is_at(plane.flat(true, b), v, u)
}

#[test]
fn a_plane_drops_the_greatest_axis(rt: HostRuntime) {
    for (at, drop, second) in PLANES {
        let (a, b, c) = (point(&rt, at[0]), point(&rt, at[1]), point(&rt, at[2]));
        assert!(rt; is_plane(a, b, c, drop, second), "at {at:?}");
    }
}

// The place of a point with these two coordinates.
fn at(rt: &impl Abort, [u, v]: [i32; 2]) -> FlatPoint {
    let plane = FacePlane { drop: 2 };
    plane.flat(false, point(rt, [u, v, 0]))
}

// Whether three places turn so, and whether the first two are so far from each other.
fn agrees(a: FlatPoint, b: FlatPoint, c: FlatPoint, turns: [bool; 3], far: u64) -> bool {
    let left = FlatPoint::turns_left(a, b, c) == turns[0];
    let right = FlatPoint::turns_right(a, b, c) == turns[1];
    let kept = FlatPoint::keeps_left(a, b, c) == turns[2];
    left && right && kept && FlatPoint::squared_distance(a, b) == far
}

// Whether the wedge of two places is this.
fn has_wedge(a: FlatPoint, b: FlatPoint, wanted: i64) -> bool {
    FlatPoint::wedge(a, b) == wanted
}

#[test]
fn turns_are_exact_at_the_ends_of_the_grid(rt: HostRuntime) {
    for (places, turns, far) in TURNS {
        let (a, b, c) = (at(&rt, places[0]), at(&rt, places[1]), at(&rt, places[2]));
        assert!(rt; agrees(a, b, c, turns, far), "at {places:?}");
    }
    let (a, b) = (at(&rt, [END, -END]), at(&rt, [END, END]));
    assert!(rt; has_wedge(a, b, 1 << 61));
}
