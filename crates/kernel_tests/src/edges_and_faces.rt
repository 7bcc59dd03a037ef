// Crossings against a table, and under the roundings that go farthest.
ghost use Rattle.std.specs.Prelude.{◌≡◌, ◌∷◌, []};
ghost use Rattle.side_terms.specs.Corners.{IsFineCorner, AllFine};
ghost use Rattle.edge_face.specs.Crossings.{number_of};

mod rows;

use edge_face::{Cross, Crosses, Kernels};
use mb_base::{Corner, Point, UNIT};
use rounding::{High, Low, Nearest};
use rows::ROWS;
use shadow_kernels::Grid;

/// What a line of the table says.
#[derive(Drop)]
struct Row {
    p: [Corner; 3],
    q: [Corner; 3],
    edge_face: Option<Cross>,
    face_edge: Option<Cross>,
    ghost p_fine: { AllFine p },
    ghost q_fine: { AllFine q },
}

/// A corner at a point given in grid steps.
fn at(x: u8, y: u8, z: u8, up: [bool; 3]) -> Corner
    ensures { IsFineCorner result }
{
    Corner {
        at: [x as i64 * UNIT, y as i64 * UNIT, z as i64 * UNIT],
        up,
    }
}

/// The byte at a place of a line, or a blank beyond its end.
pub(crate) fn byte_at(line: &[u8], place: usize) -> u8 {
    match line.get(place) {
        Some(byte) => *byte,
        None => b' ',
    }
}

/// The word of a line with this number. Each has six signs, and there is a blank between them.
pub(crate) fn word(line: &[u8], number: usize) -> [u8; 6] {
    let first = number.wrapping_mul(7);
    [
        byte_at(line, first),
        byte_at(line, first.wrapping_add(1)),
        byte_at(line, first.wrapping_add(2)),
        byte_at(line, first.wrapping_add(3)),
        byte_at(line, first.wrapping_add(4)),
        byte_at(line, first.wrapping_add(5)),
    ]
}

/// The number of a digit.
pub(crate) fn digit(byte: u8) -> u8 {
    byte.wrapping_sub(b'0')
}

/// A corner from a word as `210x-z`.
fn corner(word: [u8; 6]) -> Corner
    ensures { IsFineCorner result }
{
    let [x, y, z, up_x, up_y, up_z] = word;
    let up = [up_x == b'x', up_y == b'y', up_z == b'z'];
    at(digit(x), digit(y), digit(z), up)
}

/// Three corners from the word with this number on.
fn three(line: &[u8], first: usize) -> [Corner; 3]
    ensures { AllFine result }
{
    [
        corner(word(line, first)),
        corner(word(line, first.wrapping_add(1))),
        corner(word(line, first.wrapping_add(2))),
    ]
}

/// A crossing from a word as `-1:122`, or none from dots. From any other word it is one with a number that no kernels give.
fn crossing(word: [u8; 6]) -> Option<Cross> {
    if word == *b"......" {
        return None;
    }
    let (number, x, y, z) = match word {
        [b'+', b'1', b':', x, y, z] => (1, x, y, z),
        [b'-', b'1', b':', x, y, z] => (-1, x, y, z),
        [_, _, _, x, y, z] => (9, x, y, z),
    };
    crossing_at(number, digit(x) as i32, digit(y) as i32, digit(z) as i32)
}

/// Whether a sign may stand at a place of a line: digits and marks in the six corners, a blank after each word, and no other blank.
fn may_stand(place: usize, sign: u8) -> bool {
    let column = place % 7;
    if column == 6 || place > 41 {
        return (column == 6) == (sign == b' ');
    }
    if column < 3 {
        return digit(sign) <= 9;
    }
    let mark = [b'x', b'y', b'z'][column - 3];
    sign == b'-' || sign == mark
}

/// Whether a line has eight words of six signs each, of which six are corners.
fn is_row(line: &[u8]) -> bool {
    for (place, sign) in line.iter().enumerate() {
        if !may_stand(place, *sign) {
            return false;
        }
    }
    line.len() == 55
}

/// The row of a line.
fn read_row(line: &[u8]) -> Row {
    Row {
        p: three(line, 0),
        q: three(line, 3),
        edge_face: crossing(word(line, 6)),
        face_edge: crossing(word(line, 7)),
    }
}

/// Whether the crossings of a line are those that kernels find for its corners.
pub(crate) fn agrees<K: Kernels>(kernels: &K, line: &str) -> bool {
    let row = read_row(line.as_bytes());
    let edge_face = kernels.cross(&[row.p[0], row.p[1]], &row.q);
    let face_edge = kernels.cross(&row.p, &[row.q[0], row.q[1]]);
    is_row(line.as_bytes()) && edge_face == row.edge_face && face_edge == row.face_edge
}

/// The number of the edge from a to b and a face, asked of the edge from b to a: right for any lawful kernels, by their
/// laws alone.
fn number_back<K: Kernels>(kernels: &K, a: &Corner, b: &Corner, q: &[Corner; 3]) -> i64
    requires a_fine { IsFineCorner a.now }
    requires b_fine { IsFineCorner b.now }
    requires q_fine { AllFine q.now }
    ensures { result ≡ number_of (⟦<K as Crosses<2, 3>>⟧.crossing_of kernels.now (a.now ∷ b.now ∷ []) q.now) }
{
    match kernels.cross(&[*b, *a], q) {
        None => 0,
        Some(c) => -(c.number as i64),
    }
}

/// Whether the edge of a line, asked the other way round, has the line's number turned.
pub(crate) fn turns<K: Kernels>(kernels: &K, line: &str) -> bool {
    let row = read_row(line.as_bytes());
    let number = match row.edge_face {
        None => 0,
        Some(c) => c.number as i64,
    };
    let edge = [row.p[0], row.p[1]];
    is_row(line.as_bytes()) && number_back(kernels, &edge[0], &edge[1], &row.q) == number
}

#[test]
fn agrees_with_the_table(rt: HostRuntime) {
    let mut count = 0u8;
    for line in ROWS.lines() {
        assert!(rt; agrees(&Grid { rounding: Nearest }, line), "{line}");
        count = count.saturating_add(1);
    }
    assert!(rt; count == 200);
}

#[test]
fn turned_edges_have_turned_numbers(rt: HostRuntime) {
    for line in ROWS.lines() {
        assert!(rt; turns(&Grid { rounding: Nearest }, line), "{line}");
    }
}

/// A crossing at a point.
fn crossing_at(number: i8, x: i32, y: i32, z: i32) -> Option<Cross> {
    let at = Point::of(x, y, z)?;
    Some(Cross { number, at })
}

// The diagonal of the top of a cube, moved up and outwards, leaves a post through the top by one wall and enters it by
// another; and a diagonal of the post's wall crosses the top.
#[test]
fn a_cube_crosses_a_post(rt: HostRuntime) {
    let grid = Grid { rounding: Nearest };
    let still = [false; 3];
    let top = [
        at(0, 0, 10, [false, false, true]),
        at(10, 0, 10, [true, false, true]),
        at(10, 10, 10, [true, true, true]),
    ];
    let diagonal = [top[2], top[0]];
    let front = [at(3, 4, 5, still), at(6, 4, 5, still), at(3, 4, 20, still)];
    let side = [at(6, 4, 5, still), at(6, 7, 5, still), at(6, 7, 20, still)];
    assert!(rt; grid.cross(&diagonal, &front) == crossing_at(1, 4, 4, 10));
    assert!(rt; grid.cross(&diagonal, &side) == crossing_at(-1, 6, 6, 10));
    let wall = [front[1], front[2]];
    assert!(rt; grid.cross(&top, &wall) == crossing_at(1, 5, 4, 10));
}

// Lines as in the table, with the answers of an independent program of the same definitions, in fine steps of 1/256 of a grid
// step, under the two roundings that go farthest. All but the last differ from what rounding to the nearest gives.
static LOW_ROWS: [&str; 4] = [
    "024--z 442-y- 100xy- 213--- 231--- 444--- +1:442 +1:213",
    "424-yz 131x-z 402x-z 030--- 212--- 234--- +1:231 ......",
    "013--z 331-yz 021x-z 033--- 313--- 220--- ...... -1:033",
    "031xy- 415x-- 453-yz 555--- 142--- 100--- +1:131 +1:142",
];

static HIGH_ROWS: [&str; 4] = [
    "424-yz 131x-z 402x-z 030--- 212--- 234--- -1:224 -1:212",
    "402xyz 011--z 441--z 144--- 000--- 014--- +1:011 +1:000",
    "110x-- 132x-z 013-y- 021--- 212--- 231--- +1:132 ......",
    // Four of the five pairs of the face of P and the edge of Q have a count.
    "751xyz 400-y- 374--- 142--- 653--- 507--- ...... -1:353",
];

#[test]
fn the_farthest_roundings_cross_as_the_definitions_say(rt: HostRuntime) {
    for line in &LOW_ROWS {
        assert!(rt; agrees(&Grid { rounding: Low }, line), "{line}");
    }
    for line in &HIGH_ROWS {
        assert!(rt; agrees(&Grid { rounding: High }, line), "{line}");
    }
}
