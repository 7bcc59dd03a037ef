// Rules at their edges, and each public call once with ample memory.
ghost use Rattle.std.specs.Prelude.{◌<◌, length};

use crate::lists::{listed, point_at, points_at, stand_at};
use crate::texts::has;
use mb_base::{ArgList, Corner, Limits, Op, Point, Soup, box_of, cross};

const GRID_END: i32 = 1 << 30;

const BEYOND: [[i32; 3]; 4] = [
    [GRID_END + 1, 0, 0],
    [0, -GRID_END - 1, 0],
    [0, 0, GRID_END + 1],
    [0, 0, i32::MIN],
];

#[test]
fn points_end_with_the_grid(rt: HostRuntime) {
    let corner = Point::of(GRID_END, -GRID_END, 0).expect(&rt, "a corner of the grid");
    assert!(rt; corner.at() == [GRID_END, -GRID_END, 0]);
    for at in &BEYOND {
        assert!(rt; point_at(*at).is_none(), "{at:?}");
    }
}

// The bytes, points, triangles and half-edges of some limits.
fn numbers_of(limits: &Limits) -> [u64; 4] {
    [
        limits.file_bytes(),
        u64::from(limits.points()),
        u64::from(limits.triangles()),
        u64::from(limits.halfedges()),
    ]
}

#[test]
fn limits_have_their_numbers(rt: HostRuntime) {
    let most = Limits::of(1 << 40, 150_000_000, 100_000_000, 60_000_000);
    let most = most.expect(&rt, "the greatest");
    assert!(rt; numbers_of(&most) == [1 << 40, 150_000_000, 100_000_000, 60_000_000]);
    let usual = Limits::program();
    assert!(rt; numbers_of(&usual) == [2_147_483_648, 15_000_000, 10_000_000, 6_000_000]);
}

// Limits of which one number is beyond what the others allow. 5 * 3 half-edges need 5 triangles, these 8 points, and
// these 41 * 8 + 99 * 5 bytes.
const UNLAWFUL: [(u64, [u32; 3]); 6] = [
    (1 << 40, [150_000_001, 100_000_000, 60_000_000]),
    (1 << 40, [150_000_000, 100_000_001, 60_000_000]),
    ((1 << 40) + 1, [150_000_000, 100_000_000, 60_000_000]),
    (822, [8, 5, 3]),
    (823, [7, 5, 3]),
    (823, [8, 5, 4]),
];

#[test]
fn limits_end_with_each_rule(rt: HostRuntime) {
    assert!(rt; Limits::of(823, 8, 5, 3).is_some());
    for (bytes, [points, triangles, halfedges]) in &UNLAWFUL {
        assert!(rt;
            Limits::of(*bytes, *points, *triangles, *halfedges).is_none(),
            "{bytes} bytes, {points} points"
        );
    }
}

// Three right angles meet in the origin.
const TETRAHEDRON: [[i32; 3]; 4] = [[0, 0, 0], [2, 0, 0], [0, 2, 0], [0, 0, 2]];

const SIDES: [[u32; 3]; 4] = [[0, 2, 1], [0, 1, 3], [1, 2, 3], [2, 0, 3]];

#[test]
fn lists_fit_where_each_point_is_used(rt: HostRuntime) {
    let points = points_at(rt.alloc(), &TETRAHEDRON).expect(&rt, "points");
    assert!(rt; points.len() == 4);
    assert!(rt; !Soup::fits(&points[..3], &SIDES), "there is no last point");
    assert!(rt;
        !Soup::fits(&points[..3], &[[0, 1, 2], [1, 0, 1]]),
        "a point twice in a triple"
    );
    assert!(rt;
        !Soup::fits(&points, &[[0, 1, 2]]),
        "the last point is unused"
    );
}

#[test]
fn a_soup_keeps_its_lists(rt: HostRuntime) {
    let points = points_at(rt.alloc(), &TETRAHEDRON).expect(&rt, "points");
    let triples = Vec::from_array(rt.alloc(), SIDES).expect(&rt, "triangles");
    assert!(rt; Soup::fits(&points, &triples));
    let soup = Soup::of(points, triples, 5);
    assert!(rt; has(&soup, &(&TETRAHEDRON, 5, &SIDES)));
    let (points, triples, labels) = soup.into_parts();
    assert!(rt;
        stand_at(&points, &TETRAHEDRON) && triples.as_slice() == &SIDES[..] && labels.is_none()
    );
}

const WORDS: [&str; 3] = ["union", "", "β.obj"];

fn gives_the_words(list: &ArgList) -> bool {
    list.len() == 3
        && list.as_slice().len() == 3
        && list.get(0) == WORDS[0]
        && list.get(1) == WORDS[1]
        && list.get(2) == WORDS[2]
}

#[test]
fn a_list_gives_its_words(rt: HostRuntime) {
    assert!(rt; ArgList::start(rt.alloc()).is_empty());
    let list = listed(rt.alloc(), &WORDS).expect(&rt, "a list");
    assert!(rt; gives_the_words(&list));
}

// J. M. Smith's table of the three operations.
#[test]
fn operations_have_their_constants(rt: HostRuntime) {
    assert!(rt; Op::Union.constants() == [1, 1, -1]);
    assert!(rt; Op::Intersect.constants() == [0, 0, 1]);
    assert!(rt; Op::Subtract.constants() == [1, 0, -1]);
}

// Three points and the cross product at the first of them. The last row is the greatest that can come: two sides of the
// whole grid.
const NORMALS: [([[i32; 3]; 3], [i128; 3]); 5] = [
    ([[0, 0, 0], [2, 0, 0], [0, 3, 0]], [0, 0, 6]),
    ([[0, 0, 0], [0, 3, 0], [0, 0, 5]], [15, 0, 0]),
    ([[0, 0, 0], [0, 0, 5], [2, 0, 0]], [0, 10, 0]),
    ([[2, 0, 0], [0, 3, 0], [0, 0, 5]], [15, 10, 6]),
    (
        [
            [-GRID_END, -GRID_END, 0],
            [GRID_END, -GRID_END, 0],
            [-GRID_END, GRID_END, 0],
        ],
        [0, 0, 1 << 62],
    ),
];

fn is_normal(triangle: [[i32; 3]; 3], normal: [i128; 3]) -> bool {
    let [a, b, c] = triangle;
    match (point_at(a), point_at(b), point_at(c)) {
        (Some(a), Some(b), Some(c)) => cross(a, b, c) == normal,
        _ => false,
    }
}

#[test]
fn a_cross_product_is_normal_to_its_triangle(rt: HostRuntime) {
    for (triangle, normal) in &NORMALS {
        assert!(rt; is_normal(*triangle, *normal), "{normal:?}");
    }
}

// Whether the box of the corners reaches from here to there.
fn reaches(corners: &[Corner], low: [i64; 3], high: [i64; 3]) -> bool
    requires { 0 < length corners.now }
{
    let found = box_of(corners);
    found.low == low && found.high == high
}

#[test]
fn a_box_reaches_as_far_as_its_corners(rt: HostRuntime) {
    let up = [true, false, false];
    let corners = [
        Corner { at: [3, -5, 0], up },
        Corner { at: [-4, 2, 0], up },
        Corner { at: [1, -7, 9], up },
    ];
    assert!(rt; reaches(&corners, [-4, -7, 0], [3, 2, 9]));
    assert!(rt; reaches(&corners[..2], [-4, -5, 0], [3, 2, 0]));
    assert!(rt; reaches(&corners[2..], [1, -7, 9], [1, -7, 9]));
}
