// What remeshing gives, and why it may not.
ghost use Rattle.std.specs.Prelude.{◌≡◌};
ghost use Rattle.made_terms.specs.Refusals.{excess};
ghost use Rattle.plane_remesh.specs.Excess.{refusal};

use mb_base::{Counted, Limits, NoMemory};
use mesh_check::Mesh;

/// A remeshed mesh, how many planes had triangles, and how many triangles were kept.
#[derive(Drop)]
pub struct Remeshed {
    pub mesh: Mesh,
    pub planes: u64,
    pub kept: u64,
}

/// Why a mesh isn't remeshed: the result would have so many points or triangles, more than the limit; or want of memory.
#[derive(Clone, Copy, Debug, PartialEq, Eq, Drop)]
pub enum RemeshFault {
    Over { what: Counted, seen: u64 },
    NoMemory,
}

impl From<NoMemory> for RemeshFault {
    ghost use Rattle.plane_remesh.specs.declared.outcome.RemeshFault.TheVariants.{NoMemory};

    ghost from_gives = { λ _ e. e ≡ NoMemory };

    fn from(_: NoMemory) -> Self {
        RemeshFault::NoMemory
    }
}

/// Which limit so many points and triangles exceed.
pub fn over(limits: &Limits, points: u64, triangles: u64) -> Option<RemeshFault>
    ensures { result ≡ refusal (excess limits.now points triangles) }
{
    if points > u64::from(limits.points()) {
        let what = Counted::Points;
        return Some(RemeshFault::Over { what, seen: points });
    }
    if triangles > u64::from(limits.triangles()) {
        let what = Counted::Triangles;
        let seen = triangles;
        return Some(RemeshFault::Over { what, seen });
    }
    None
}
