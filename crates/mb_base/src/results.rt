// What the steps of an operation hand on: crossings, windings, vertices and segments.
use crate::point::Point;

/// A half-edge of one mesh that crosses a face of the other: how often, with its sign, and where.
#[derive(Clone, Copy, Debug, PartialEq, Eq, Drop)]
pub struct Hit {
    pub edge: u32,
    pub face: u32,
    pub number: i8,
    pub at: Point,
}

/// The crossings of the first mesh's edges with the second's faces, and of the second's edges with
/// the first's faces.
#[derive(Debug, Drop)]
pub struct Hits {
    pub x12: Vec<Hit>,
    pub x21: Vec<Hit>,
}

/// The winding number of each vertex of the first mesh in the second, and the other way round.
#[derive(Debug, Drop)]
pub struct Windings {
    pub w03: Vec<i64>,
    pub w30: Vec<i64>,
}

/// A directed piece of an edge or of the line in which two faces cross, between two vertices.
#[derive(Clone, Copy, Debug, Default, PartialEq, Eq, Drop)]
pub struct Segment {
    pub from: u32,
    pub to: u32,
}

/// A vertex that starts or ends a segment.
#[derive(Clone, Copy, Debug, PartialEq, Eq, Drop)]
pub struct Entry {
    pub vertex: u32,
    pub start: bool,
}

/// Where a vertex of a result comes from: a vertex of one mesh, or an edge of one and a face of the
/// other.
#[derive(Clone, Copy, Debug, PartialEq, Eq, Drop)]
pub enum Origin {
    PVertex { vertex: u32 },
    QVertex { vertex: u32 },
    PEdge { edge: u32, face: u32 },
    QEdge { edge: u32, face: u32 },
}
