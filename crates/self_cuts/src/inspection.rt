// The numbers of an inspection.
use mb_base::Point;

/// What an inspection says of a mesh.
#[derive(Clone, Copy, Debug, PartialEq, Eq, Drop)]
pub struct Inspection {
    /// The lesser corner of the least box that holds all points; of the empty mesh 0, 0, 0.
    pub low: Point,
    /// The greater corner.
    pub high: Point,
    /// How many triangles have their points on a line, or at one place.
    pub flat: u32,
    /// How many points lie where an earlier point does.
    pub doubled: u32,
    /// How many pairs of places are an edge of more than two triangles that are not flat.
    pub touching: u64,
    /// How many pairs of triangles, neither of them flat, have a point in common beyond what they share.
    pub cuts: u64,
}
