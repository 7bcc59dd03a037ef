// What is told of a mesh.

/// How many points, triangles and components a mesh has, its Euler characteristic, and six times its volume in cubic
/// grid steps.
#[derive(Clone, Copy, Debug, PartialEq, Eq, Drop)]
pub struct Measure {
    pub points: u64,
    pub triangles: u64,
    pub components: u64,
    pub euler: i64,
    pub volume6: i128,
}
