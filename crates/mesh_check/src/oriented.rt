// Triangles by their vertices, which say the orientation.
//
// To pair opposite triangles, one of them is seen as an edge from a number that holds its least and its second vertex
// to its third, so that the proof of pairing half-edges serves for triangles too; only the definitions of that proof
// do so.
ghost use Rattle.std.specs.Prelude.{◌≡◌};
ghost use Rattle.mesh_terms.specs.Meshes.{triple_of};
ghost use Rattle.mesh_check.specs.Orientations.{least_first, IsNarrow};

/// A triangle from its least vertex on, and its place among others. Of triangles on the same three
/// vertices, exactly those of one orientation have the same `least`, `second` and `third`.
#[derive(Clone, Copy, Debug, PartialEq, Eq, PartialOrd, Ord, Drop)]
pub struct Oriented {
    pub least: u32,
    pub second: u32,
    pub third: u32,
    pub place: u32,
}

impl Oriented {
    ghost use Rattle.mesh_check.specs.Cancelling.{vertices_of, turned_over};

    /// The triangle at this place.
    pub fn of(triple: &[u32; 3], place: u32) -> Oriented
        ensures vertices { vertices_of result ≡ least_first (triple_of triple.now) }
        ensures place { result.place ≡ place }
        ensures narrow { IsNarrow (vertices_of result) }
    {
        let [a, b, c] = *triple;
        let (least, second, third) = if b < a && b < c {
            (b, c, a)
        } else if c < a && c < b {
            (c, a, b)
        } else {
            (a, b, c)
        };
        Oriented {
            least,
            second,
            third,
            place,
        }
    }

    /// The vertices.
    pub fn vertices(self) -> (u32, u32, u32)
        ensures value { result ≡ vertices_of self }
        ensures narrow { IsNarrow (vertices_of self) }
    {
        (self.least, self.second, self.third)
    }

    /// The same vertices the other way round, at the same place.
    pub fn turned_over(self) -> Oriented
        ensures { result ≡ turned_over self }
    {
        Oriented {
            least: self.least,
            second: self.third,
            third: self.second,
            place: self.place,
        }
    }
}
