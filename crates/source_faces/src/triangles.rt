// Triangles with their source faces.
ghost use Rattle.std.specs.Prelude.{◌≡◌, ◌+◌, ◌<◌, ◌^◌, ◌++◌, ◌∷◌, [], IfOk, OnOk};
ghost use Rattle.mesh_terms.specs.Meshes.{triple_of, triples_of};
ghost use Rattle.source_faces.specs.Adding.{IsAdded};

use mb_base::NoMemory;
use ring_cutting::Filled;
use std::alloc::Global;

/// Triangles in order, the source face of each, and how many of them were forced.
#[derive(Debug, Drop)]
pub struct SourceTriangles {
    pub triples: Vec<[u32; 3]>,
    pub source: Vec<u32>,
    pub forced: u64,
}

impl SourceTriangles {
    /// No triangles yet, with room for so many.
    pub fn with_capacity(alloc: Global, capacity: usize) -> Result<SourceTriangles, NoMemory>
        ensures triples { IfOk result (λ all. all.triples.items ≡ []) }
        ensures source { IfOk result (λ all. all.source.items ≡ []) }
        ensures forced { IfOk result (λ all. all.forced ≡ 0) }
    {
        Ok(SourceTriangles {
            triples: Vec::with_capacity(alloc, capacity)?,
            source: Vec::with_capacity(alloc, capacity)?,
            forced: 0,
        })
    }

    /// Adds a triangle of a source face, which was not forced.
    pub fn push(&mut self, triple: [u32; 3], source: u32) -> Result<(), NoMemory>
        ensures triples { OnOk result (triples_of self.new.triples.items ≡ triples_of self.old.triples.items ++ triple_of triple ∷ []) }
        ensures source { OnOk result (self.new.source.items ≡ self.old.source.items ++ source ∷ []) }
        ensures forced { self.new.forced ≡ self.old.forced }
    {
        self.triples.push(triple)?;
        Ok(self.source.push(source)?)
    }

    /// Adds the filling of a source face.
    pub fn push_filled(&mut self, filled: &Filled, source: u32) -> Result<(), NoMemory>
        requires { self.old.forced + filled.now.forced < 2 ^ 64 }
        ensures { OnOk result (IsAdded source filled.now self.old self.new) }
    {
        self.forced += filled.forced;
        for triple in &filled.triples {
            self.push(*triple, source)?;
        }
        Ok(())
    }
}
