// Whether a mesh plainly has no two opposite triangles.
ghost use Rattle.std.specs.Prelude.{◌≡◌, ◌<◌, ◌*◌, IsTrue, length};
ghost use Rattle.mesh_check.specs.Opposites.{third_vertex};
ghost use Rattle.mesh_check.specs.Reduced.{NoOpposite};

use halfedge::Twins;

/// Whether no two half-edges run the same way, and across the first edge of each triangle lies
/// another third vertex than its own. A triangle on the same vertices with the other orientation would
/// lie there.
pub fn has_no_opposites(twins: &Twins) -> bool
    ensures { IsTrue result → NoOpposite twins.now.triples }
{
    if !twins.are_single() {
        return false;
    }
    for triangle in 0..twins.triples().len() as u32 {
        let half = 3 * triangle;
        if third_vertex(twins, twins.twin(half)) == third_vertex(twins, half) {
            return false;
        }
    }
    true
}

// The vertex of its triangle that half-edge h does not touch.
fn third_vertex(twins: &Twins, h: u32) -> u32
    requires { h < 3 * length twins.now.triples }
    ensures { result ≡ third_vertex twins.now.triples h }
{
    let [a, b, c] = twins.triples()[h as usize / 3];
    match h % 3 {
        0 => c,
        1 => a,
        _ => b,
    }
}
