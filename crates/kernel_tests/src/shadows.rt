// Shadow tests against a table, and counts by the laws alone.
ghost use Rattle.std.specs.Prelude.{◌≡◌, ◌∷◌, [], ◌≤ℤ◌, pos, negsuc};
ghost use Rattle.side_terms.specs.Corners.{IsFineCorner, AllFine};
ghost use Rattle.shadow_kernels.specs.Counts.{count_of, shadow_of};

mod more_rows;
mod rows;

use crate::edges_and_faces::{byte_at, digit, word};
use edge_face::Kernels;
use mb_base::Corner;
use more_rows::MORE_ROWS;
use rounding::Nearest;
use rows::ROWS;
use shadow_kernels::{Flats, Grid, Meet, Meets, Spot};

/// The count of the edges from a to b and from c to d, with Q's edge taken the other way round where it meets a vertex:
/// right under any kernels, by the laws alone.
fn edge_count<K: Flats>(kernels: &K, a: &Corner, b: &Corner, c: &Corner, d: &Corner) -> i64
    requires a_fine { IsFineCorner a.now }
    requires b_fine { IsFineCorner b.now }
    requires c_fine { IsFineCorner c.now }
    requires d_fine { IsFineCorner d.now }
    ensures { result ≡ count_of (⟦<K as Meets<2, 2>>⟧.meet_of kernels.now (a.now ∷ b.now ∷ []) (c.now ∷ d.now ∷ [])) }
{
    let edge = [*a, *b];
    let ends = shadow(kernels, &[*a], &[*d, *c]) - shadow(kernels, &[*b], &[*d, *c]);
    ends + shadow(kernels, &edge, &[*d]) - shadow(kernels, &edge, &[*c])
}

/// The shadow of a simplex of P and one of Q.
fn shadow<const M: usize, const N: usize, K: Meets<M, N>>(
    kernels: &K,
    p: &[Corner; M],
    q: &[Corner; N],
) -> i64
    requires p_fine { AllFine p.now }
    requires q_fine { AllFine q.now }
    ensures value { result ≡ shadow_of (K.meet_of kernels.now p.now q.now) }
    ensures low { negsuc 0 ≤ℤ result }
    ensures high { result ≤ℤ pos 1 }
{
    match kernels.meet(p, q) {
        None => 0,
        Some(m) => m.shadow() as i64,
    }
}

/// The number of corners and of answers of a line, and the columns of each, with the blank after it.
const CORNERS: usize = 6;

const CORNER_COLUMNS: usize = 7;

const ANSWER_COLUMNS: usize = 12;

/// A corner from a word as `210x-z`, in fine steps.
fn corner(word: [u8; 6]) -> Corner
    ensures { IsFineCorner result }
{
    let [x, y, z, up_x, up_y, up_z] = word;
    Corner {
        at: [digit(x) as i64, digit(y) as i64, digit(z) as i64],
        up: [up_x == b'x', up_y == b'y', up_z == b'z'],
    }
}

/// Three corners from the word with this number on.
fn three(line: &[u8], first: usize) -> [Corner; 3]
    ensures { AllFine result }
{
    [
        corner(word(line, first)),
        corner(word(line, first.wrapping_add(1))),
        corner(word(line, first.wrapping_add(2))),
    ]
}

/// The column at which the answer with this number begins.
fn answer_column(number: usize) -> usize {
    (CORNERS * CORNER_COLUMNS).wrapping_add(number.wrapping_mul(ANSWER_COLUMNS))
}

/// The digit of a line in the column so many after another.
fn digit_at(line: &[u8], column: usize, after: usize) -> i64 {
    digit(byte_at(line, column.wrapping_add(after))) as i64
}

/// Whether a line has this sign in the column so many after another.
fn has(line: &[u8], column: usize, after: usize, sign: u8) -> bool {
    byte_at(line, column.wrapping_add(after)) == sign
}

/// The answer of a line with this number, as `+1^21220x-z`, or none from dots.
fn answer(line: &[u8], number: usize) -> Option<Meet> {
    let column = answer_column(number);
    if has(line, column, 0, b'.') {
        return None;
    }
    let spot = Spot {
        x: digit_at(line, column, 3),
        py: digit_at(line, column, 4),
        qy: digit_at(line, column, 5),
        pz: digit_at(line, column, 6),
        qz: digit_at(line, column, 7),
        up: [
            has(line, column, 8, b'x'),
            has(line, column, 9, b'y'),
            has(line, column, 10, b'z'),
        ],
    };
    let count = if has(line, column, 0, b'+') { 1 } else { -1 };
    Some(Meet {
        count,
        above: has(line, column, 2, b'^'),
        spot,
    })
}

/// Whether a sign may stand in a column of a corner: digits and marks, then a blank.
fn may_stand_in_corner(column: usize, sign: u8) -> bool {
    match column {
        0..=2 => digit(sign) <= 9,
        3 => sign == b'-' || sign == b'x',
        4 => sign == b'-' || sign == b'y',
        5 => sign == b'-' || sign == b'z',
        _ => sign == b' ',
    }
}

/// Whether a sign may stand in a column of an answer: the count, the side, digits and marks, then a blank.
fn may_stand_in_answer(column: usize, sign: u8) -> bool {
    match column {
        0 => sign == b'+' || sign == b'-',
        1 => sign == b'1',
        2 => sign == b'^' || sign == b'_',
        3..=7 => digit(sign) <= 9,
        8 => sign == b'-' || sign == b'x',
        9 => sign == b'-' || sign == b'y',
        10 => sign == b'-' || sign == b'z',
        _ => sign == b' ',
    }
}

/// Whether a sign may stand in a column of an answer; in one that is none, dots, and the blank after them.
fn may_stand(line: &[u8], place: usize, sign: u8) -> bool {
    if place < CORNERS * CORNER_COLUMNS {
        return may_stand_in_corner(place % CORNER_COLUMNS, sign);
    }
    let column = place.wrapping_sub(CORNERS * CORNER_COLUMNS) % ANSWER_COLUMNS;
    if byte_at(line, place.wrapping_sub(column)) == b'.' && column < 11 {
        return sign == b'.';
    }
    may_stand_in_answer(column, sign)
}

/// Whether a line has six corners and six answers.
fn is_row(line: &[u8]) -> bool {
    for (place, sign) in line.iter().enumerate() {
        if !may_stand(line, place, *sign) {
            return false;
        }
    }
    line.len() == 113
}

/// Whether the answers of vertices and edges are those of a line.
fn flats_agree<K: Kernels>(kernels: &K, p: &[Corner; 3], q: &[Corner; 3], line: &[u8]) -> bool
    requires p_fine { AllFine p.now }
    requires q_fine { AllFine q.now }
{
    kernels.meet(&[p[0]], &[q[0]]) == answer(line, 0)
        && kernels.meet(&[p[0]], &[q[0], q[1]]) == answer(line, 1)
        && kernels.meet(&[p[0], p[1]], &[q[0]]) == answer(line, 2)
        && kernels.meet(&[p[0], p[1]], &[q[0], q[1]]) == answer(line, 3)
}

/// Whether the answers of vertices with faces are those of a line.
fn faces_agree<K: Kernels>(kernels: &K, p: &[Corner; 3], q: &[Corner; 3], line: &[u8]) -> bool
    requires p_fine { AllFine p.now }
    requires q_fine { AllFine q.now }
{
    kernels.meet(&[p[0]], q) == answer(line, 4) && kernels.meet(p, &[q[0]]) == answer(line, 5)
}

/// Whether the answers of kernels to the corners of a line are those of the line.
pub(crate) fn agrees<K: Kernels>(kernels: &K, line: &str) -> bool {
    let line = line.as_bytes();
    let p = three(line, 0);
    let q = three(line, 3);
    is_row(line) && flats_agree(kernels, &p, &q, line) && faces_agree(kernels, &p, &q, line)
}

#[test]
fn agrees_with_the_table(rt: HostRuntime) {
    let grid = Grid { rounding: Nearest };
    let mut count = 0u16;
    for rows in [ROWS, MORE_ROWS] {
        for line in rows.lines() {
            assert!(rt; agrees(&grid, line), "{line}");
            count = count.saturating_add(1);
        }
    }
    assert!(rt; count == 500);
}

// A corner near the origin, moved up on x or on no axis.
fn near(x: i8, y: i8, up: bool) -> Corner
    ensures { IsFineCorner result }
{
    Corner {
        at: [x as i64, y as i64, 0],
        up: [up, false, false],
    }
}

// Where an edge of P at x = 5 passes q at (5, 4, 0) by its end at (5, 8, 0).
const TIE: Spot = Spot {
    x: 5,
    py: 8,
    qy: 4,
    pz: 0,
    qz: 0,
    up: [false; 3],
};

// Whether the edge from a to b passes above q there, with this count.
fn passes(a: &Corner, b: &Corner, q: &Corner, count: i8) -> bool
    requires a_fine { IsFineCorner a.now }
    requires b_fine { IsFineCorner b.now }
    requires q_fine { IsFineCorner q.now }
{
    let met = Grid { rounding: Nearest }.meet(&[*a, *b], &[*q]);
    met == Some(Meet {
        count,
        above: true,
        spot: TIE,
    })
}

// Both ends have the x of q: the left end is the one that is not up, whichever way the edge runs.
#[test]
fn left_is_not_up_at_a_tie(rt: HostRuntime) {
    let (up, still, q) = (near(5, 0, true), near(5, 8, false), near(5, 4, false));
    assert!(rt; passes(&up, &still, &q, -1));
    assert!(rt; passes(&still, &up, &q, 1));
}
