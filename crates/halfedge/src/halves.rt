//! Half-edges by their numbers, three to a triangle in the order of its vertices.
ghost use Rattle.std.specs.Prelude.{◌≡◌, ◌*◌, ◌<◌, ◌≤◌, length};
ghost use Rattle.chain_terms.specs.Chains.{all_edges};
ghost use Rattle.chain_terms.specs.Ranks.{start, finish};
ghost use Rattle.mesh_terms.specs.Halves.{next_half, prev_half};
ghost use Rattle.mesh_terms.specs.Limits.{most_triangles};
ghost use Rattle.mesh_terms.specs.Meshes.{triples_of};

/// The next half-edge round the triangle.
#[inline]
pub fn next(half: u32) -> u32
    requires { half < 3 * most_triangles }
    ensures { result ≡ next_half half }
{
    if half % 3 == 2 { half - 2 } else { half + 1 }
}

/// The half-edge before it round the triangle.
#[inline]
pub fn previous(half: u32) -> u32
    requires { half < 3 * most_triangles }
    ensures { result ≡ prev_half half }
{
    if half % 3 == 0 { half + 2 } else { half - 1 }
}

/// The vertex where the half-edge of the triangles starts.
#[inline]
pub fn start(triples: &[[u32; 3]], half: u32) -> u32
    requires { half < 3 * length triples.now }
    ensures { result ≡ start (all_edges (triples_of triples.now)) half }
{
    triples[half as usize / 3][half as usize % 3]
}

/// The vertex where it ends.
#[inline]
pub fn end(triples: &[[u32; 3]], half: u32) -> u32
    requires half { half < 3 * length triples.now }
    requires few { length triples.now ≤ most_triangles }
    ensures { result ≡ finish (all_edges (triples_of triples.now)) half }
{
    start(triples, next(half))
}
