// Faces that no edge crosses, and that cross none: their triangles are copies of them.
//
// A face whose vertices are prescribed one number of times, and which has no records, takes a short way: its triangles
// are n copies of it, where n is that number. That this is what loops and filling would give is a law
// (`plain_faces_are_copied`); nearly all faces of a large mesh are such.
ghost use Rattle.std.specs.Prelude.{◌≡◌, ◌+◌, ◌<◌, ◌^◌, true, cond, OnOk, length, get_or};
ghost use Rattle.mesh_terms.specs.Limits.{most_points};
ghost use Rattle.mesh_terms.specs.Meshes.{IsBelow, triple_of};
ghost use Rattle.source_faces.specs.ListParts.{AreRuns};
ghost use Rattle.side_terms.specs.Sides.{IsSide};
ghost use Rattle.source_faces.specs.Adding.{IsAdded, are_equal_runs, copy_triple, face_copies, is_flat, same_run};

use crate::CopyRange;
use crate::triangles::SourceTriangles;
use lean::Surface;
use mb_base::{NoMemory, cross};
use retained_verts::point_of;

/// Whether the three vertices of a triangle are prescribed one number of times.
pub fn are_equal(runs: &[CopyRange], triple: [u32; 3]) -> bool
    requires { IsBelow (length runs.now) (triple_of triple) }
    ensures { result ≡ are_equal_runs runs.now (triple_of triple) }
{
    let [a, b, c] = triple;
    let (a, b, c) = (runs[a as usize], runs[b as usize], runs[c as usize]);
    are_alike(a, b) && are_alike(b, c)
}

// Whether two vertices are prescribed one number of times.
fn are_alike(one: CopyRange, other: CopyRange) -> bool
    ensures { result ≡ same_run one other }
{
    one.count == other.count && one.negative == other.negative
}

/// Adds a face whose vertices have this one number of copies: the first copies of the three are a triangle, the second ones,
/// and so on. It is turned over where the number is below 0, and forced where the face is flat.
pub fn push_copies(
    all: &mut SourceTriangles,
    side: &Surface,
    runs: &[CopyRange],
    face: u32,
    source: u32,
) -> Result<(), NoMemory>
    requires face { face < length side.now.triples }
    requires runs { AreRuns side.now most_points runs.now }
    requires few { all.old.forced + most_points < 2 ^ 64 }
    requires equal { are_equal_runs runs.now (get_or side.now.triples face (0, 0, 0)) ≡ true }
    ensures { OnOk result (IsAdded source (face_copies side.now runs.now face) all.old all.new) }
{
    let [a, b, c] = side.triples()[face as usize];
    let (a, b, c) = (runs[a as usize], runs[b as usize], runs[c as usize]);
    all.forced += u64::from(forced_copies(side, face, a.count));
    for i in 0..a.count {
        all.push(copy_triple(a, b, c, i), source)?;
    }
    Ok(())
}

/// The triangle of copies number i of three vertices, turned over where the number of the first one is below 0.
pub fn copy_triple(a: CopyRange, b: CopyRange, c: CopyRange, i: u32) -> [u32; 3]
    requires a { a.first + i < 2 ^ 32 }
    requires b { b.first + i < 2 ^ 32 }
    requires c { c.first + i < 2 ^ 32 }
    ensures { triple_of result ≡ copy_triple a b c i }
{
    if a.negative {
        [b.first + i, a.first + i, c.first + i]
    } else {
        [a.first + i, b.first + i, c.first + i]
    }
}

// How many of so many copies of a face are forced.
fn forced_copies(side: &Surface, face: u32, count: u32) -> u32
    requires side { IsSide side.now }
    requires face { face < length side.now.triples }
    ensures { result ≡ cond (is_flat side.now face) count 0 }
{
    if count > 0 && is_flat(side, face) {
        count
    } else {
        0
    }
}

// Whether the corners of a face lie on a line.
fn is_flat(side: &Surface, face: u32) -> bool
    requires side { IsSide side.now }
    requires face { face < length side.now.triples }
    ensures { result ≡ is_flat side.now face }
{
    let [a, b, c] = side.face(face);
    cross(point_of(&a), point_of(&b), point_of(&c)) == [0; 3]
}
