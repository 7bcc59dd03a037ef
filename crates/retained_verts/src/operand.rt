// Which of the two meshes: how its vertices and edges are named and counted.
ghost use Rattle.std.specs.Prelude.{◌≡◌, ◌≤◌, nat_abs};
ghost use Rattle.mesh_terms.specs.Limits.{most_triangles};
ghost use Rattle.side_terms.specs.Prescribed.{hit_number_of};
ghost use Rattle.side_terms.specs.Hits.{IsNumber};
ghost use Rattle.retained_verts.specs.Parts.{edge_origin, vertex_number, vertex_origin};

use mb_base::{Op, Origin};

/// One of the two meshes.
#[derive(Clone, Copy, Drop)]
pub enum Operand {
    P,
    Q,
}

impl Operand {
    /// A vertex of this mesh as an origin.
    pub fn vertex(self, vertex: u32) -> Origin
        ensures { result ≡ vertex_origin self vertex }
    {
        match self {
            Operand::P => Origin::PVertex { vertex },
            Operand::Q => Origin::QVertex { vertex },
        }
    }

    /// An edge of this mesh with a face of the other as an origin.
    pub fn edge(self, edge: u32, face: u32) -> Origin
        ensures { result ≡ edge_origin self edge face }
    {
        match self {
            Operand::P => Origin::PEdge { edge, face },
            Operand::Q => Origin::QEdge { edge, face },
        }
    }

    /// How often a vertex of this mesh is prescribed.
    pub fn number(self, op: Op, winding: i64) -> i64
        requires { nat_abs winding ≤ most_triangles }
        ensures value { result ≡ vertex_number op self winding }
        ensures small { nat_abs result ≤ 100000001 }
    {
        let [c1, c2, c3] = op.constants();
        match self {
            Operand::P => c1 + c3 * winding,
            Operand::Q => c2 + c3 * winding,
        }
    }
}

/// How often a crossing is prescribed.
pub fn hit_number(op: Op, number: i8) -> i64
    requires { IsNumber number }
    ensures value { result ≡ hit_number_of op number }
    ensures small { nat_abs result ≤ 2 }
{
    let [_, _, c3] = op.constants();
    c3 * i64::from(number)
}
