// How many copies of vertices and crossings a result has.
ghost use Rattle.std.specs.Prelude.{◌≡◌, ◌≤◌, ◌*◌, nat_abs, length};
ghost use Rattle.std.specs.List.{All, sum_by};
ghost use Rattle.outline_terms.specs.Outlines.{most_vertices};
ghost use Rattle.cross_section.specs.Copies.{hit_number, vertex_number};

use crate::operand::{Operand, hit_number};
use mb_base::Op;
use outline_pair_terms::FlatHit;

/// How many copies an outline's vertices with these winding numbers have.
pub fn vertex_copies(op: Op, operand: Operand, windings: &[i64]) -> u64
    requires small { All (λ w. nat_abs w ≤ most_vertices) windings.now }
    requires few { length windings.now ≤ most_vertices }
    ensures value { result ≡ sum_by (λ w. nat_abs (vertex_number op operand w)) windings.now }
    ensures size { result ≤ 1000001 * most_vertices }
{
    let mut sum: u64 = 0;
    for winding in windings {
        sum += operand.number(op, *winding).unsigned_abs();
    }
    sum
}

/// How many copies these hits have.
pub fn hit_copies(op: Op, hits: &[FlatHit]) -> u64
    requires small { All (λ h. nat_abs h.number ≤ 1) hits.now }
    requires few { length hits.now ≤ most_vertices * most_vertices }
    ensures value { result ≡ sum_by (λ h. nat_abs (hit_number op h.number)) hits.now }
    ensures size { result ≤ most_vertices * most_vertices }
{
    let mut sum: u64 = 0;
    for hit in hits {
        sum += hit_number(op, hit.number).unsigned_abs();
    }
    sum
}
