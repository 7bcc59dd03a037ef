// The limits of a run.
ghost use Rattle.std.specs.Prelude.{◌≡◌, ◌↔◌, IsSome, IfSome};
ghost use Rattle.mesh_terms.specs.Limits.{Limits as TheLimits, IsLawful};

use std::marker::Model;

/// The most triangles that any mesh has.
pub const MOST_TRIANGLES: u32 = 100_000_000;

/// The most points that any mesh has.
pub const MOST_POINTS: u32 = 150_000_000;

/// How much a run accepts. What keeps these limits can be written and read again: a result of an
/// operation within the half-edges is within the points and the triangles, and its OBJ file is
/// within the bytes.
#[derive(Clone, Copy, Debug, PartialEq, Eq, Drop)]
pub struct Limits {
    file_bytes: u64,
    points: u32,
    triangles: u32,
    halfedges: u32,
}

impl Model for Limits {
    ghost use Rattle.mesh_terms.specs.Limits.{Limits as TheLimits, IsLawful};

    ghost Value = { TheLimits };

    ghost view = { λ l. record { file_bytes = l.file_bytes; points = l.points; triangles = l.triangles; halfedges = l.halfedges } };

    ghost invariant = { λ l. IsLawful (record { file_bytes = l.file_bytes; points = l.points; triangles = l.triangles; halfedges = l.halfedges }) };

    ghost inverse = { λ l. record { file_bytes = l.file_bytes; points = l.points; triangles = l.triangles; halfedges = l.halfedges } };
}

impl Limits {
    /// The limits of these numbers; None exactly where they are not lawful: more than `MOST_TRIANGLES`
    /// triangles or `MOST_POINTS` points; fewer triangles than 5/3 of the half-edges, or fewer points
    /// than 3/2 of the triangles; fewer bytes than 41 for each point and 99 for each triangle, or
    /// more than 2^40.
    pub fn of(file_bytes: u64, points: u32, triangles: u32, halfedges: u32) -> Option<Limits>
        ensures lawful { IsSome result ↔ IsLawful (record { file_bytes = file_bytes; points = points; triangles = triangles; halfedges = halfedges }) }
        ensures value { IfSome result (λ l. l ≡ record { file_bytes = file_bytes; points = points; triangles = triangles; halfedges = halfedges }) }
    {
        let (n, t, h) = (points as u64, triangles as u64, halfedges as u64);
        let few = triangles <= MOST_TRIANGLES && points <= MOST_POINTS;
        let enough = 3 * t >= 5 * h && 2 * n >= 3 * t;
        let bytes = 41 * n + 99 * t <= file_bytes && file_bytes <= 1 << 40;
        if few && enough && bytes {
            Some(Limits {
                file_bytes,
                points,
                triangles,
                halfedges,
            })
        } else {
            None
        }
    }

    /// The limits of the program: 2 GiB a file, 15,000,000 points, 10,000,000 triangles, and
    /// 6,000,000 prescribed half-edges for each operation.
    pub fn program() -> Limits
        ensures value { result ≡ record { file_bytes = 2147483648; points = 15000000; triangles = 10000000; halfedges = 6000000 } }
    {
        Limits {
            file_bytes: 2_147_483_648,
            points: 15_000_000,
            triangles: 10_000_000,
            halfedges: 6_000_000,
        }
    }

    /// The most bytes of a file.
    pub fn file_bytes(&self) -> u64
        ensures value { result ≡ self.now.file_bytes }
        ensures lawful { IsLawful self.now }
    {
        self.file_bytes
    }

    /// The most points of a mesh.
    pub fn points(&self) -> u32
        ensures value { result ≡ self.now.points }
        ensures lawful { IsLawful self.now }
    {
        self.points
    }

    /// The most triangles of a mesh.
    pub fn triangles(&self) -> u32
        ensures value { result ≡ self.now.triangles }
        ensures lawful { IsLawful self.now }
    {
        self.triangles
    }

    /// The most prescribed half-edges of one operation.
    pub fn halfedges(&self) -> u32
        ensures value { result ≡ self.now.halfedges }
        ensures lawful { IsLawful self.now }
    {
        self.halfedges
    }
}
