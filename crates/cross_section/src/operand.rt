// Which of the two outlines, and how often what it has is prescribed.
ghost use Rattle.std.specs.Prelude.{◌≡◌, ◌≤◌, nat_abs};
ghost use Rattle.outline_terms.specs.Outlines.{most_vertices};
ghost use Rattle.cross_section.specs.Copies.{hit_number, vertex_number};

use mb_base::Op;

/// One of the two outlines.
#[derive(Clone, Copy, Drop)]
pub enum Operand {
    P,
    Q,
}

impl Operand {
    /// How often a vertex of this outline is prescribed.
    pub fn number(self, op: Op, winding: i64) -> i64
        requires { nat_abs winding ≤ most_vertices }
        ensures value { result ≡ vertex_number op self winding }
        ensures small { nat_abs result ≤ 1000001 }
    {
        let [c1, c2, c3] = op.constants();
        match self {
            Operand::P => c1 + c3 * winding,
            Operand::Q => c2 + c3 * winding,
        }
    }
}

/// How often a crossing is prescribed.
pub fn hit_number(op: Op, number: i8) -> i64
    requires { nat_abs number ≤ 1 }
    ensures value { result ≡ hit_number op number }
    ensures small { nat_abs result ≤ 1 }
{
    let [_, _, c3] = op.constants();
    c3 * i64::from(number)
}
