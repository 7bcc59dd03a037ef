// Rectangles round the places that are left, in a tree: no place is asked whose rectangle misses the triangle.
//
// What blocks a triangle of a long ring is looked for in a tree of rectangles, each round the places below it that
// are left. They shrink as places are cut; without that, a spiral takes as long as with no tree. A rectangle is
// passed over that lies beyond a side of the triangle, or beside, below or above all of it: the first tells circles
// apart, the second two rows of teeth. The places stand in the tree in the order of the bits of their two coordinates
// in turn. That order and the sizes of the rectangles decide how long the search takes and nothing else: all that the
// proof uses is that each place that is left is in its own rectangle, and what is in a rectangle is in the one above.
// The tree has two nodes for each place, and needs no power of two.
ghost use Rattle.std.specs.Prelude.{◌≡◌, ◌≢◌, ◌*◌, ◌%◌, ◌<◌, ◌≤◌, ℕ, pos, int_lt, IfOk, IfSome, IfNone};
ghost use Rattle.std.specs.Prelude.{List, Bool, map, length, get_or, set, true, false};
ghost use Rattle.std.specs.List.Sorted.{IsPermutation};
ghost use Rattle.chain_terms.specs.Sums.{upto};
ghost use Rattle.face_plane.specs.Planes.{turn};
ghost use Rattle.ring_cutting.specs.Left.{lives, place_of};
ghost use Rattle.ring_cutting.specs.Linked.{is_left, goes_left_in, blocks_in, AreLinks};
ghost use Rattle.ring_cutting.specs.Placed.{place_blocks};
ghost use Rattle.ring_cutting.specs.Spans.{span_of, AreNested, HasNode, IsTree, HasHulls, NoneBelow};

use crate::asked::{Around, corners, is_blocker, place};
use crate::links::Links;
use crate::place::Place;
use crate::span::{Span, around, joined, misses, nothing};
use face_plane::FlatPoint;
use mb_base::NoMemory;
use std::alloc::Global;

// Node 1 is above all others. Below node k are nodes 2k and 2k + 1. With n places the nodes from n on are theirs, in an
// order in which neighbours are near each other in the plane. A node's rectangle has all places below it that are left.
#[derive(Debug, Drop)]
pub struct Hulls {
    pub spans: Vec<Span>,
    pub order: Vec<usize>,
    pub nodes: Vec<usize>,
}

// The tree round all places of a ring.
pub(crate) fn hulls_of(alloc: Global, places: &[Place]) -> Result<Hulls, NoMemory>
    requires some { 0 < length places.now }
    requires few { length places.now ≤ 100000000 }
    ensures { IfOk result (λ h. (bs : List Bool) → length bs ≡ length places.now → HasHulls places.now bs h) }
{
    let order = order_of(alloc, places)?;
    let nodes = nodes_of(alloc, &order)?;
    let mut spans = vec![in alloc; nothing(); 2 * places.len()]?;
    for i in 0..places.len() {
        put_span(
            &mut spans,
            number_at(&nodes, i),
            around(place(places, i).at),
        );
    }
    Ok(Hulls {
        spans,
        order,
        nodes,
    })
}

// The places in the order of the bits of their two coordinates in turn.
fn order_of(alloc: Global, places: &[Place]) -> Result<Vec<usize>, NoMemory>
    ensures { IfOk result (λ order. IsPermutation (upto (length places.now)) order.items) }
{
    let mut keys = keys_of(alloc, places)?;
    keys.sort_unstable();
    let mut order = Vec::with_capacity(alloc, places.len())?;
    for k in 0..keys.len() {
        order.push(keys[k].1)?;
    }
    Ok(order)
}

// The bits of the two coordinates of each place in turn, and its number.
fn keys_of(alloc: Global, places: &[Place]) -> Result<Vec<(u64, usize)>, NoMemory>
    ensures { IfOk result (λ keys. map (λ k. k.1) keys.items ≡ upto (length places.now)) }
{
    let mut keys = Vec::with_capacity(alloc, places.len())?;
    for (i, place) in places.iter().enumerate() {
        keys.push((bits_in_turn(place.at), i))?;
    }
    Ok(keys)
}

// The bits of two coordinates in turn.
fn bits_in_turn(at: FlatPoint) -> u64 {
    spread((at.u() + 0x4000_0000) as u64) | spread((at.v() + 0x4000_0000) as u64) << 1
}

// The low 32 bits of a number, each with a zero before it.
fn spread(x: u64) -> u64 {
    let x = (x | x << 16) & 0x0000_ffff_0000_ffff;
    let x = (x | x << 8) & 0x00ff_00ff_00ff_00ff;
    let x = (x | x << 4) & 0x0f0f_0f0f_0f0f_0f0f;
    let x = (x | x << 2) & 0x3333_3333_3333_3333;
    (x | x << 1) & 0x5555_5555_5555_5555
}

// The node of each place in an order.
fn nodes_of(alloc: Global, order: &[usize]) -> Result<Vec<usize>, NoMemory>
    requires few { length order.now ≤ 100000000 }
    requires moved { IsPermutation (upto (length order.now)) order.now }
    ensures many { IfOk result (λ nodes. length nodes.items ≡ length order.now) }
    ensures nodes { IfOk result (λ nodes. (i : ℕ) → i < length order.now → HasNode (length order.now) order.now nodes.items i) }
{
    let mut nodes = vec![in alloc; 0; order.len()]?;
    for k in 0..order.len() {
        nodes[order[k]] = order.len() + k;
    }
    Ok(nodes)
}

// The number at a place of a list.
fn number_at(numbers: &[usize], i: usize) -> usize
    requires { i < length numbers.now }
    ensures { result ≡ get_or numbers.now i 0 }
{
    numbers[i]
}

// The rectangle of a node.
fn span_at(spans: &[Span], node: usize) -> Span
    requires { node < length spans.now }
    ensures { result ≡ span_of spans.now node }
{
    spans[node]
}

// Gives a place's node a rectangle, and those above it what goes round it.
fn put_span(spans: &mut [Span], node: usize, span: Span)
    requires few { length spans.old ≤ 200000000 }
    requires within { node < length spans.old }
    requires last { length spans.old ≤ 2 * node }
    requires even { length spans.old % 2 ≡ 0 }
    requires nested { AreNested spans.old }
    ensures many { length spans.new ≡ length spans.old }
    ensures nested { AreNested spans.new }
    ensures here { span_of spans.new node ≡ span }
    ensures others { (k : ℕ) → length spans.old ≤ 2 * k → k ≢ node → span_of spans.new k ≡ span_of spans.old k }
{
    spans[node] = span;
    let mut k = node;
    while k > 1 {
        k /= 2;
        spans[k] = joined(spans[2 * k], spans[2 * k + 1]);
    }
}

// Leaves a place out that is cut.
pub(crate) fn forget(hulls: &mut Hulls, i: usize)
    requires few { length hulls.old.order.items ≤ 100000000 }
    requires within { i < length hulls.old.order.items }
    requires tree { IsTree (length hulls.old.order.items) hulls.old }
    ensures { (ps : List Place) (bs : List Bool) → HasHulls ps bs hulls.old → HasHulls ps (set bs i false) hulls.new }
{
    let node = number_at(&hulls.nodes, i);
    put_span(&mut hulls.spans, node, nothing());
}

// A place that is left, below a node, in the triangle of a place and its neighbours.
pub(crate) fn seek(
    hulls: &Hulls,
    places: &[Place],
    living: &[bool],
    c: &Around,
    node: usize,
) -> Option<usize>
    requires few { length places.now ≤ 100000000 }
    requires hulls { HasHulls places.now living.now hulls.now }
    requires left { int_lt (pos 0) (turn c.now.p.at c.now.x.at c.now.n.at) ≡ true }
    requires some { 0 < node }
    requires within { node < 2 * length places.now }
    ensures living { IfSome result (λ w. lives living.now w ≡ true) }
    ensures blocks { IfSome result (λ w. place_blocks c.now.p c.now.x c.now.n (place_of places.now w) ≡ true) }
    ensures none { IfNone result (NoneBelow places.now living.now hulls.now c.now node) }
{
    let span = span_at(&hulls.spans, node);
    if misses(&span, c.p.at, c.x.at, c.n.at) {
        return None;
    }
    if node >= places.len() {
        let w = number_at(&hulls.order, node - places.len());
        return if is_blocker(places, living, c, w) {
            Some(w)
        } else {
            None
        };
    }
    match seek(hulls, places, living, c, 2 * node + 1) {
        Some(w) => Some(w),
        None => seek(hulls, places, living, c, 2 * node),
    }
}

// A place that is left in the triangle of a place and its neighbours, which turn left.
pub(crate) fn blocker_of(hulls: &Hulls, places: &[Place], links: &Links, i: usize) -> Option<usize>
    requires few { length places.now ≤ 100000000 }
    requires hulls { HasHulls places.now links.now.living.items hulls.now }
    requires linked { AreLinks (length places.now) links.now }
    requires living { is_left links.now i ≡ true }
    requires left { goes_left_in places.now links.now i ≡ true }
    ensures some { IfSome result (λ w. is_left links.now w ≡ true) }
    ensures blocks { IfSome result (λ w. blocks_in places.now links.now i w ≡ true) }
    ensures none { IfNone result ((w : ℕ) → is_left links.now w ≡ true → blocks_in places.now links.now i w ≡ false) }
{
    seek(hulls, places, &links.living, &corners(places, links, i), 1)
}
