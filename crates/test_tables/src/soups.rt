//! Small soups of triangles for tests: a tetrahedron, boxes along the axes, and any rows of numbers or triangles.

ghost use Rattle.std.specs.Prelude.{◌≡◌, IfOk, map};
ghost use Rattle.mesh_terms.specs.Meshes.{triples_of};

use mb_base::{Point, Soup};
use std::alloc::{AllocError, AllocFailed, Global};

/// The triangles of a tetrahedron over four points.
pub const TETRAHEDRON: [[u32; 3]; 4] = [[0, 2, 1], [0, 1, 3], [1, 2, 3], [2, 0, 3]];

/// The triangles of a box over the points of `box_points`, two for each side.
pub const BOX: [[u32; 3]; 12] = [
    [0, 3, 1],
    [0, 2, 3],
    [4, 5, 7],
    [4, 7, 6],
    [0, 1, 4],
    [1, 5, 4],
    [1, 3, 7],
    [1, 7, 5],
    [3, 2, 6],
    [3, 6, 7],
    [0, 4, 6],
    [0, 6, 2],
];

/// The triangles of two boxes, the second over later points: its first is the point with this number.
pub fn two_boxes(first: u8) -> [[u32; 3]; 24] {
    let later = u32::from(first);
    let mut triples = [[0; 3]; 24];
    for at in 0..12 {
        let [a, b, c] = BOX[at];
        triples[at] = [a, b, c];
        triples[at + 12] = [
            a.wrapping_add(later),
            b.wrapping_add(later),
            c.wrapping_add(later),
        ];
    }
    triples
}

/// Why there is no soup: a row is no point of the grid, the rows make no soup, or memory is wanting.
#[derive(Clone, Copy, Debug, PartialEq, Eq, Drop)]
pub enum NoSample {
    OutsideGrid,
    NoSoup,
    NoMemory,
}

impl From<AllocError> for NoSample {
    fn from(_: AllocError) -> Self {
        NoSample::NoMemory
    }
}

impl<T: Drop> From<AllocFailed<T>> for NoSample {
    fn from(_: AllocFailed<T>) -> Self {
        NoSample::NoMemory
    }
}

/// The corners of the box between two opposite ones: those of its bottom, then those of its top; of each the
/// front ones, then the back ones; from left to right.
pub fn box_points(low: [i32; 3], high: [i32; 3]) -> [[i32; 3]; 8] {
    let [x, y, z] = low;
    let [u, v, w] = high;
    [
        [x, y, z],
        [u, y, z],
        [x, v, z],
        [u, v, z],
        [x, y, w],
        [u, y, w],
        [x, v, w],
        [u, v, w],
    ]
}

/// The points of these rows of coordinates in grid steps. `OutsideGrid` comes only where a row is none.
pub fn points_of(alloc: Global, rows: &[[i32; 3]]) -> Result<Vec<Point>, NoSample>
    ensures { IfOk result (λ points. points.items ≡ rows.now) }
{
    let mut points = Vec::with_capacity(alloc, rows.len())?;
    for row in rows {
        points.push(point_of(row)?)?;
    }
    Ok(points)
}

// The point of a row.
fn point_of(row: &[i32; 3]) -> Result<Point, NoSample>
    ensures { IfOk result (λ point. point ≡ row.now) }
{
    let [x, y, z] = *row;
    match Point::of(x, y, z) {
        Some(point) => Ok(point),
        None => Err(NoSample::OutsideGrid),
    }
}

/// The soup of these rows of coordinates and these triangles. The time is the product of their numbers.
pub fn soup_of(alloc: Global, rows: &[[i32; 3]], triples: &[[u32; 3]]) -> Result<Soup, NoSample>
    ensures points { IfOk result (λ soup. soup.points ≡ rows.now) }
    ensures triples { IfOk result (λ soup. soup.triples ≡ triples_of triples.now) }
{
    let points = points_of(alloc, rows)?;
    let triples = triples.to_vec(alloc)?;
    if Soup::fits(&points, &triples) {
        Ok(Soup::of(points, triples, 0))
    } else {
        Err(NoSample::NoSoup)
    }
}

/// The soup of the box between two opposite corners.
pub fn box_soup(alloc: Global, low: [i32; 3], high: [i32; 3]) -> Result<Soup, NoSample> {
    soup_of(alloc, &box_points(low, high), &BOX)
}

/// The soup of these triangles over so many points on a line, a grid step apart.
pub fn line_soup(alloc: Global, count: u8, triples: &[[u32; 3]]) -> Result<Soup, NoSample> {
    let mut rows = Vec::new(alloc);
    for x in 0..i32::from(count) {
        rows.push([x, 0, 0])?;
    }
    soup_of(alloc, &rows, triples)
}
