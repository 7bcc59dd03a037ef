//! Shadows of vertices and edges, with no spot handed out.

ghost use Rattle.std.specs.Prelude.{◌≡◌, ◌≤◌, unsigned_abs};
ghost use Rattle.side_terms.specs.Corners.{IsFineCorner};
ghost use Rattle.shadow_kernels.specs.Counts.{shadow_of};
ghost use Rattle.shadow_kernels.specs.Shadows.{meet01, meet10};

use crate::edges::edge_shadow;
use crate::{Edge, Sights};
use mb_base::Corner;

/// The shadow of a vertex and the edge from c to d, as `meet` gives it.
#[inline(always)]
pub fn vertex_edge_shadow<K: Sights>(kernel: &K, p: &Corner, c: &Corner, d: &Corner) -> i8
    requires p_fine { IsFineCorner p.now }
    requires c_fine { IsFineCorner c.now }
    requires d_fine { IsFineCorner d.now }
    ensures value { result ≡ shadow_of (meet01 (K.rule_of kernel.now) (K.between_of kernel.now) p.now c.now d.now) }
    ensures small { unsigned_abs result ≤ 1 }
{
    edge_shadow(kernel, Edge::OfQ, p, c, d)
}

/// The shadow of the edge from a to b and a vertex, as `meet` gives it.
#[inline(always)]
pub fn edge_vertex_shadow<K: Sights>(kernel: &K, a: &Corner, b: &Corner, q: &Corner) -> i8
    requires a_fine { IsFineCorner a.now }
    requires b_fine { IsFineCorner b.now }
    requires q_fine { IsFineCorner q.now }
    ensures value { result ≡ shadow_of (meet10 (K.rule_of kernel.now) (K.between_of kernel.now) a.now b.now q.now) }
    ensures small { unsigned_abs result ≤ 1 }
{
    edge_shadow(kernel, Edge::OfP, q, a, b)
}
