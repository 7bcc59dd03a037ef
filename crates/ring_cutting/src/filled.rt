// The triangles of a filling.

use std::marker::Model;

/// Triangles, and how many of them were forced: cut where no place of their ring was an ear, or last and not turning
/// left.
#[derive(Debug, Drop)]
pub struct Filled {
    pub triples: Vec<[u32; 3]>,
    pub forced: u64,
}

impl Model for Filled {
    ghost use Rattle.mesh_terms.specs.Meshes.{triples_of};
    ghost use Rattle.ring_cutting.specs.Cuts.{Cut};

    ghost Value = { Cut };

    ghost view = { λ f. record { triples = triples_of f.triples.items; forced = f.forced } };
}
