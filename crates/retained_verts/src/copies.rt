// The lists of the prescribed vertices as they grow.
ghost use Rattle.std.specs.Prelude.{◌≡◌, ◌≤◌, ◌++◌, [], length, replicate, IfOk, OnOk};
ghost use Rattle.std.specs.List.{All};
ghost use Rattle.mesh_terms.specs.Limits.{most_points};
ghost use Rattle.retained_verts.specs.Parts.{crossings_of, origins_of, places_of, vertices_of};
ghost use Rattle.retained_verts.specs.Small.{AreSmallWindings};
ghost use Rattle.side_terms.specs.Corners.{AllFine};
ghost use Rattle.side_terms.specs.Hits.{IsNumber};

use crate::operand::{Operand, hit_number};
use crate::points::point_of;
use mb_base::{Corner, Hit, NoMemory, Op, Origin, Point};
use std::alloc::Global;

/// Where each vertex comes from, and its point.
#[derive(Drop)]
pub struct Copies {
    pub origins: Vec<Origin>,
    pub points: Vec<Point>,
}

impl Copies {
    /// No vertices yet, with room for so many.
    pub fn with_capacity(alloc: Global, capacity: usize) -> Result<Copies, NoMemory>
        ensures origins { IfOk result (λ c. c.origins.items ≡ []) }
        ensures points { IfOk result (λ c. c.points.items ≡ []) }
    {
        let origins = Vec::with_capacity(alloc, capacity)?;
        let points = Vec::with_capacity(alloc, capacity)?;
        Ok(Copies { origins, points })
    }

    /// Adds the prescribed vertices of a mesh.
    pub fn push_vertices(
        &mut self,
        op: Op,
        operand: Operand,
        corners: &[Corner],
        windings: &[i64],
    ) -> Result<(), NoMemory>
        requires fine { AllFine corners.now }
        requires few { length corners.now ≤ most_points }
        requires long { length windings.now ≡ length corners.now }
        requires small { AreSmallWindings windings.now }
        ensures origins { OnOk result (self.new.origins.items ≡ self.old.origins.items ++ origins_of (vertices_of op operand corners.now windings.now)) }
        ensures points { OnOk result (self.new.points.items ≡ self.old.points.items ++ places_of (vertices_of op operand corners.now windings.now)) }
    {
        for vertex in 0..corners.len() as u32 {
            let number = operand.number(op, windings[vertex as usize]);
            let point = point_of(&corners[vertex as usize]);
            self.push(operand.vertex(vertex), point, number.unsigned_abs())?;
        }
        Ok(())
    }

    /// Adds the crossings of a mesh's edges.
    pub fn push_hits(&mut self, op: Op, operand: Operand, hits: &[Hit]) -> Result<(), NoMemory>
        requires { All (λ h. IsNumber h.number) hits.now }
        ensures origins { OnOk result (self.new.origins.items ≡ self.old.origins.items ++ origins_of (crossings_of op operand hits.now)) }
        ensures points { OnOk result (self.new.points.items ≡ self.old.points.items ++ places_of (crossings_of op operand hits.now)) }
    {
        for hit in hits {
            let number = hit_number(op, hit.number);
            let origin = operand.edge(hit.edge, hit.face);
            self.push(origin, hit.at, number.unsigned_abs())?;
        }
        Ok(())
    }

    // Adds so many copies of one vertex.
    fn push(&mut self, origin: Origin, point: Point, times: u64) -> Result<(), NoMemory>
        ensures origins { OnOk result (self.new.origins.items ≡ self.old.origins.items ++ replicate times origin) }
        ensures points { OnOk result (self.new.points.items ≡ self.old.points.items ++ replicate times point) }
    {
        for _ in 0..times {
            self.origins.push(origin)?;
            self.points.push(point)?;
        }
        Ok(())
    }
}
