// Flat triangles.
ghost use Rattle.std.specs.Prelude.{◌≡◌, ◌<◌, length};
ghost use Rattle.inspection_terms.specs.Inspected.{flat_count};
ghost use Rattle.inspection_terms.specs.Triangles.{corners_at, is_flat};

use crate::cuts::triangles;
use crate::faces::{face_at, is_flat};
use mesh_check::Mesh;

/// How many triangles are flat.
pub fn flats(mesh: &Mesh) -> u32
    ensures { result ≡ flat_count mesh.now }
{
    let mut count = 0;
    for t in 0..triangles(mesh) {
        if is_flat_at(mesh, t) {
            count += 1;
        }
    }
    count
}

// Whether the triangle of a number is flat.
#[inline]
fn is_flat_at(mesh: &Mesh, t: u32) -> bool
    requires { t < length mesh.now.triples }
    ensures { result ≡ is_flat (corners_at mesh.now t) }
{
    is_flat(&face_at(mesh, t))
}
