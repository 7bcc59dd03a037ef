// The collapse of a half-edge.
ghost use Rattle.std.specs.Prelude.{◌≡◌, ◌<◌, ◌*◌, ℕ, OnErr, OnOk, get_or, length};
ghost use Rattle.std.specs.List.{All};
ghost use Rattle.mesh_terms.specs.Halves.{next_half, prev_half};
ghost use Rattle.mesh_terms.specs.Limits.{most_triangles};
ghost use Rattle.mesh_terms.specs.Meshes.{triples_of};
ghost use Rattle.mesh_tidy.specs.Pairs.{paired};
ghost use Rattle.mesh_tidy.specs.TidySurface.{Has, HasCollapsed, IsRenamed, left_of, number_of};
ghost use Rattle.tidy_laws.specs.Conditions.{CanCollapse};

use crate::surface::TidySurface;
use halfedge::halves::{next, previous, start};
use mb_base::NoMemory;
use std::alloc::Global;

impl TidySurface {
    /// Collapses the half-edge: its triangle and that of its twin go, and its start is put for its end. The half-edges that
    /// were the twins of the other four of the two triangles become twins of each other. After want of memory nothing is
    /// changed.
    pub fn collapse(&mut self, alloc: Global, half: u32) -> Result<(), NoMemory>
        requires has { Has self.old half }
        requires can { (a : ℕ) × (b : ℕ) × (c : ℕ) × (d : ℕ) × CanCollapse (left_of self.old) (number_of self.old half) a b c d }
        ensures collapsed { OnOk result (HasCollapsed self.old self.new half) }
        ensures kept { OnErr result (self.new ≡ self.old) }
    {
        let twin = self.twin(half);
        let from = self.start(half);
        let to = self.start(twin);
        self.stars.join(alloc, from, to)?;
        rename(&mut self.triples, self.stars.star(from), to, from);
        self.left[half as usize / 3] = false;
        self.left[twin as usize / 3] = false;
        pair_across(&mut self.twins, half);
        pair_across(&mut self.twins, twin);
        Ok(())
    }
}

// Where one of these half-edges starts at the old vertex, it starts at the new one.
fn rename(triples: &mut [[u32; 3]], halves: &[u32], old: u32, new: u32)
    requires { All (λ h. h < 3 * length triples.old) halves.now }
    ensures count { length triples.new ≡ length triples.old }
    ensures renamed { IsRenamed (triples_of triples.old) (triples_of triples.new) halves.now old new }
{
    for half in halves {
        if start(triples, *half) == old {
            triples[*half as usize / 3][*half as usize % 3] = new;
        }
    }
}

// Makes the twins of the other two half-edges of the triangle each other's twins.
fn pair_across(twins: &mut [u32], half: u32)
    requires few { half < 3 * most_triangles }
    requires next { next_half half < length twins.old }
    requires previous { prev_half half < length twins.old }
    requires one { get_or twins.old (next_half half) 0 < length twins.old }
    requires other { get_or twins.old (prev_half half) 0 < length twins.old }
    ensures { twins.new ≡ paired twins.old (get_or twins.old (next_half half) 0) (get_or twins.old (prev_half half) 0) }
{
    let one = twins[next(half) as usize];
    let other = twins[previous(half) as usize];
    twins[one as usize] = other;
    twins[other as usize] = one;
}
