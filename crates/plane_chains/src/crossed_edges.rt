// Edges of a plane that cross.
ghost use Rattle.std.specs.Prelude.{◌≡◌, ◌<◌, ◌≤◌, ◌++◌, IfOk, OnOk, length, map};
ghost use Rattle.std.specs.List.{All};
ghost use Rattle.box_tree.specs.declared.TheConstants.{MOST_BOXES};
ghost use Rattle.face_plane.specs.Planes.{face_plane, turn};
ghost use Rattle.plane_chains.specs.EdgeBoxes.{pair_of};
ghost use Rattle.plane_chains.specs.Pairs.{crossing_pairs, have_common, pairs_among};
ghost use Rattle.sheet_terms.specs.Chains.{are_opposite, cross};

use crate::edge_tree::EdgeTree;
use crate::flat_places::FlatPlaces;
use face_plane::FlatPoint;
use mb_base::NoMemory;
use std::alloc::Global;

/// The pairs of edges that cross, by their numbers, each both ways round, in order. The edges whose boxes touch that of each are looked for in a tree.
pub fn crossings(
    alloc: Global,
    flat: FlatPlaces,
    edges: &[[u32; 2]],
) -> Result<Vec<[u32; 2]>, NoMemory>
    requires { All (λ e. All (λ v. v < length flat.points.now) e) edges.now }
    ensures pairs { IfOk result (λ pairs. map pair_of pairs.items ≡ crossing_pairs (face_plane flat.entry.plane.drop flat.entry.turned flat.entry.points.now) (map pair_of edges.now)) }
    ensures few { IfOk result (λ _. length edges.now ≤ MOST_BOXES) }
{
    let tree = EdgeTree::of(alloc, flat, edges)?;
    let mut pairs = Vec::new(alloc);
    let mut near = Vec::new(alloc);
    for number in 0..edges.len() {
        tree.find(&mut near, flat.box_of(edges[number]))?;
        push_crossings(&mut pairs, &flat, edges, number as u32, &near)?;
    }
    Ok(pairs)
}

// Adds the pairs of an edge with those of a list that it crosses.
fn push_crossings(
    pairs: &mut Vec<[u32; 2]>,
    flat: &FlatPlaces,
    edges: &[[u32; 2]],
    number: u32,
    near: &[u32],
) -> Result<(), NoMemory>
    requires number { number < length edges.now }
    requires near { All (λ k. k < length edges.now) near.now }
    requires places { All (λ e. All (λ v. v < length flat.now.points.now) e) edges.now }
    ensures { OnOk result (map pair_of pairs.new.items ≡ map pair_of pairs.old.items
        ++ pairs_among (face_plane flat.now.plane.drop flat.now.turned flat.now.points.now) (map pair_of edges.now) number near.now) }
{
    let edge = edges[number as usize];
    for other in near {
        if do_cross(flat, edge, edges[*other as usize]) {
            pairs.push([number, *other])?;
        }
    }
    Ok(())
}

// Whether two edges cross in a point inside both.
fn do_cross(flat: &FlatPlaces, one: [u32; 2], other: [u32; 2]) -> bool
    requires one { All (λ v. v < length flat.now.points.now) one }
    requires other { All (λ v. v < length flat.now.points.now) other }
    ensures { result ≡ cross (face_plane flat.now.plane.drop flat.now.turned flat.now.points.now) (pair_of one) (pair_of other) }
{
    if have_common_end(one, other) {
        return false;
    }
    let (p, q) = (flat.at(one[0]), flat.at(one[1]));
    let (r, s) = (flat.at(other[0]), flat.at(other[1]));
    parts(p, q, r, s) && parts(r, s, p, q)
}

// Whether two edges have an end in common.
fn have_common_end(one: [u32; 2], other: [u32; 2]) -> bool
    ensures { result ≡ have_common (pair_of one) (pair_of other) }
{
    one[0] == other[0] || one[0] == other[1] || one[1] == other[0] || one[1] == other[1]
}

// Whether the line from p to q has r on one of its sides and s on the other.
fn parts(p: FlatPoint, q: FlatPoint, r: FlatPoint, s: FlatPoint) -> bool
    ensures { result ≡ are_opposite (turn p q r) (turn p q s) }
{
    FlatPoint::turns_right(p, q, r) && FlatPoint::turns_left(p, q, s)
        || FlatPoint::turns_left(p, q, r) && FlatPoint::turns_right(p, q, s)
}
