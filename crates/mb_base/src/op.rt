// The three operations.
ghost use Rattle.std.specs.Prelude.{◌≡◌, List, [], ◌∷◌, ℤ, pos, negsuc};
ghost use Rattle.mb_base.specs.Op.{constants_of};

/// A union, an intersection or a difference.
#[derive(Clone, Copy, Debug, PartialEq, Eq, Drop)]
pub enum Op {
    Union,
    Intersect,
    Subtract,
}

impl Op {
    /// What an operation makes of winding numbers: a vertex of the first mesh counts
    /// `c1 + c3 * w` times, one of the second `c2 + c3 * w` times, a crossing `c3` times its number.
    pub fn constants(self) -> [i64; 3]
        ensures { result ≡ constants_of self }
    {
        match self {
            Op::Union => [1, 1, -1],
            Op::Intersect => [0, 0, 1],
            Op::Subtract => [1, 0, -1],
        }
    }
}
