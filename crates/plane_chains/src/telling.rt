// Which triangles of a plane are kept.
ghost use Rattle.std.specs.Prelude.{◌≡◌, ◌<◌, ◌≤◌, ◌^◌, ◌++◌, ◌∷◌, [], ℕ, List, IfOk, OnOk, if◌then◌else◌, length, map, replicate, true};
ghost use Rattle.std.specs.List.{All, list_any};
ghost use Rattle.box_tree.specs.declared.TheConstants.{MOST_BOXES};
ghost use Rattle.face_plane.specs.Planes.{Plane, face_plane};
ghost use Rattle.mesh_terms.specs.Points.{IsOnGrid};
ghost use Rattle.plane_chains.specs.EdgeBoxes.{pair_of};
ghost use Rattle.plane_chains.specs.Listed.{AreListed, chosen, face_at, label_number, marks_of};
ghost use Rattle.plane_chains.specs.Pairs.{edge_at};
ghost use Rattle.plane_chains.specs.Sizes.{sizes};
ghost use Rattle.plane_chains.specs.Tellings.{IsTold, has_key, left_of, unmarked};
ghost use Rattle.plane_chains.specs.Ways.{marked};
ghost use Rattle.plane_chains.specs.Webs.{IsWeb};
ghost use Rattle.sheet_terms.specs.Chains.{same_edge};
ghost use Rattle.sheet_terms.specs.Faces.{Face};
ghost use Rattle.sheet_terms.specs.Kept.{free};

use crate::chain::Chain;
use crate::crossed_edges::crossings;
use crate::flat_places::FlatPlaces;
use crate::grid_crossings::grid_points;
use crate::lists::Rims;
use crate::opposites::without_opposites;
use crate::plane_faces::PlaneFaces;
use indexmap::IndexSet;
use mb_base::NoMemory;
use std::alloc::Global;

/// The greatest number of 32 bits.
const MOST_NUMBER: usize = 4_294_967_295;

/// The triangles of a plane that are kept, by their places in the plane's list, in order; the chain of those that aren't, whose edges don't cross; and the points of
/// the grid in which edges of the chain of all cross. How many triangles are free: those that aren't kept or cancelled.
#[derive(Drop)]
pub struct Told {
    pub points: Vec<[i32; 3]>,
    pub kept: Vec<u32>,
    pub chain: Chain,
    pub free: u32,
}

/// Tells which triangles of a plane are kept: while two edges of the chain of the others cross, all that have one of these edges in their rim. Of kept triangles
/// with the same places on their rims as many that face front go as face back, the first ones.
pub fn tell(alloc: Global, flat: FlatPlaces, faces: &PlaneFaces) -> Result<Told, NoMemory>
    requires places { All (λ rim. All (λ v. v < length flat.points.now) rim) faces.now.rims.0 }
    requires numbers { length faces.now.numbers.now ≡ length faces.now.rims.0 }
    requires labels { length faces.now.labels.of.items ≡ length faces.now.rims.0 }
    requires fronts { All (λ t. t < length faces.now.fronts.now) faces.now.numbers.now }
    ensures told { (fs : List Face) → AreListed (face_plane flat.entry.plane.drop flat.entry.turned flat.entry.points.now) faces.now.rims.0 faces.now.labels.of.items
        (marks_of faces.now.fronts.now faces.now.numbers.now) fs →
        IfOk result (λ t. IsTold flat.entry.points.now (face_plane flat.entry.plane.drop flat.entry.turned flat.entry.points.now) fs t.points.items t.kept.items t.chain.edges.items t.chain.nets.0) }
    ensures free { (fs : List Face) → AreListed (face_plane flat.entry.plane.drop flat.entry.turned flat.entry.points.now) faces.now.rims.0 faces.now.labels.of.items
        (marks_of faces.now.fronts.now faces.now.numbers.now) fs →
        IfOk result (λ t. t.free ≡ length (free (face_plane flat.entry.plane.drop flat.entry.turned flat.entry.points.now) fs)) }
    ensures grid { IfOk result (λ t. All (All IsOnGrid) t.points.items) }
    ensures below { IfOk result (λ t. All (λ i. i < length faces.now.rims.0) t.kept.items) }
    ensures few { IfOk result (λ t. length t.chain.edges.items ≤ MOST_BOXES) }
    ensures places { IfOk result (λ t. All (λ e. All (λ v. v < length flat.entry.points.now) e) t.chain.edges.items) }
    ensures full { IfOk result (λ t. length t.chain.nets.0 ≡ length t.chain.edges.items) }
    ensures small { IfOk result (λ t. sizes t.chain.nets.0 ≤ 2 ^ 31) }
{
    let mut marks = vec![in alloc; true; faces.rims.len()]?;
    let web = Web::of(alloc, flat, faces, &marks)?;
    let points = grid_points(alloc, &flat, &web.chain.edges, &web.pairs)?;
    let web = freed(alloc, flat, faces, &mut marks, web)?;
    let kept = kept_of(alloc, faces, &marks)?;
    let free = count_of(&marks)?;
    Ok(Told {
        points,
        kept,
        chain: web.chain,
        free,
    })
}

// Takes the marks from triangles that have an edge that crosses another, as long as there are some. The chain of those that are left, and no pairs.
fn freed(
    alloc: Global,
    flat: FlatPlaces,
    faces: &PlaneFaces,
    marks: &mut [bool],
    first: Web,
) -> Result<Web, NoMemory>
    requires places { All (λ rim. All (λ v. v < length flat.points.now) rim) faces.now.rims.0 }
    requires labels { length faces.now.labels.of.items ≡ length faces.now.rims.0 }
    requires marks { marks.old ≡ replicate (length faces.now.rims.0) true }
    requires web { IsWeb (face_plane flat.plane.drop flat.turned flat.points.now) faces.now.rims.0 faces.now.labels.of.items marks.old first }
    ensures web { IfOk result (IsWeb (face_plane flat.entry.plane.drop flat.entry.turned flat.entry.points.now) faces.now.rims.0 faces.now.labels.of.items marks.new) }
    ensures free { (fs : List Face) → faces.now.rims.0 ≡ map (λ f. f.rim) fs → faces.now.labels.of.items ≡ map (label_number fs) fs →
        OnOk result (chosen marks.new fs ≡ free (face_plane flat.entry.plane.drop flat.entry.turned flat.entry.points.now) fs) }
{
    let mut web = first;
    for _round in 0..faces.rims.len() {
        if web.pairs.is_empty() {
            return Ok(web);
        }
        let crossed = crossed_edges(alloc, &web.chain.edges, &web.pairs)?;
        unmark(marks, &faces.rims, &crossed);
        web = Web::of(alloc, flat, faces, marks)?;
    }
    Ok(web)
}

/// The chain of some triangles, and the pairs of its edges that cross.
#[derive(Drop)]
struct Web {
    chain: Chain,
    pairs: Vec<[u32; 2]>,
}

impl Web {
    // That of the triangles of a plane that have a mark.
    fn of(
        alloc: Global,
        flat: FlatPlaces,
        faces: &PlaneFaces,
        marks: &[bool],
    ) -> Result<Web, NoMemory>
        requires places { All (λ rim. All (λ v. v < length flat.points.now) rim) faces.now.rims.0 }
        requires labels { length faces.now.labels.of.items ≡ length faces.now.rims.0 }
        requires marks { length marks.now ≡ length faces.now.rims.0 }
        ensures { IfOk result (IsWeb (face_plane flat.entry.plane.drop flat.entry.turned flat.entry.points.now) faces.now.rims.0 faces.now.labels.of.items marks.now) }
    {
        let chain = Chain::of(alloc, &faces.rims, &faces.labels.of, marks)?;
        let pairs = crossings(alloc, flat, &chain.edges)?;
        Ok(Web { chain, pairs })
    }
}

// The edges that cross others.
fn crossed_edges(
    alloc: Global,
    edges: &[[u32; 2]],
    pairs: &[[u32; 2]],
) -> Result<IndexSet<(u32, u32)>, NoMemory>
    requires { All (λ p. p.0 < length edges.now) (map pair_of pairs.now) }
    ensures { IfOk result (λ keys. (e : ℕ × ℕ) → list_any (same_edge e) keys.keys
        ≡ list_any (λ p. same_edge e (edge_at (map pair_of edges.now) p.0)) (map pair_of pairs.now)) }
{
    let mut crossed = IndexSet::new(alloc);
    for pair in pairs {
        crossed.insert(first_edge(edges, *pair))?;
    }
    Ok(crossed)
}

// The first edge of a pair.
fn first_edge(edges: &[[u32; 2]], pair: [u32; 2]) -> (u32, u32)
    requires { (pair_of pair).0 < length edges.now }
    ensures { result ≡ edge_at (map pair_of edges.now) (pair_of pair).0 }
{
    let edge = edges[pair[0] as usize];
    (edge[0], edge[1])
}

// Takes the mark from each triangle that has one of these edges in its rim.
fn unmark(marks: &mut [bool], rims: &Rims, edges: &IndexSet<(u32, u32)>)
    requires { length marks.old ≡ length rims.now.0 }
    ensures { marks.new ≡ unmarked rims.now.0 edges.now.keys marks.old }
{
    for i in 0..marks.len() {
        if has_key(rims.list(i), edges) {
            marks[i] = false;
        }
    }
}

// Whether a rim has one of these edges.
fn has_key(rim: &[u32], edges: &IndexSet<(u32, u32)>) -> bool
    ensures { result ≡ has_key edges.now.keys rim.now }
{
    if rim.is_empty() {
        return false;
    }
    let mut from = rim[0];
    for to in &rim[1..] {
        if edges.contains(&(from.min(*to), from.max(*to))) {
            return true;
        }
        from = *to;
    }
    edges.contains(&(from.min(rim[0]), from.max(rim[0])))
}

// The triangles without a mark that are kept.
fn kept_of(alloc: Global, faces: &PlaneFaces, marks: &[bool]) -> Result<Vec<u32>, NoMemory>
    requires marks { length marks.now ≡ length faces.now.rims.0 }
    requires numbers { length faces.now.numbers.now ≡ length faces.now.rims.0 }
    requires fronts { All (λ t. t < length faces.now.fronts.now) faces.now.numbers.now }
    ensures kept { (at : Plane) (fs : List Face) → AreListed at faces.now.rims.0 faces.now.labels.of.items (marks_of faces.now.fronts.now faces.now.numbers.now) fs →
        IfOk result (λ kept. map (face_at fs) kept.items ≡ left_of at fs (chosen marks.now fs)) }
    ensures below { IfOk result (λ kept. All (λ i. i < length faces.now.rims.0) kept.items) }
{
    let mut out = Vec::new(alloc);
    for i in 0..marks.len() {
        push_unmarked(&mut out, marks[i], i, faces.is_front(i))?;
    }
    without_opposites(alloc, &faces.rims, &out)
}

// Adds a number with whether it faces front, unless it has a mark. `NoMemory` comes for a number of more than 32 bits.
fn push_unmarked(
    out: &mut Vec<(u32, bool)>,
    marked: bool,
    number: usize,
    front: bool,
) -> Result<(), NoMemory>
    ensures { OnOk result (out.new.items ≡ out.old.items ++ (if marked then [] else (number, front) ∷ [])) }
{
    if marked {
        return Ok(());
    }
    if number > MOST_NUMBER {
        return Err(NoMemory);
    }
    out.push((number as u32, front))?;
    Ok(())
}

// How many marks are set. `NoMemory` comes for more marks than numbers of 32 bits count.
fn count_of(marks: &[bool]) -> Result<u32, NoMemory>
    ensures { IfOk result (λ count. count ≡ length (marked marks.now (length marks.now))) }
{
    if marks.len() > MOST_NUMBER {
        return Err(NoMemory);
    }
    let mut count = 0;
    for mark in marks {
        if *mark {
            count += 1;
        }
    }
    Ok(count)
}
