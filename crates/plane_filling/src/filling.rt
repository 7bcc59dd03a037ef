// All regions filled, in order.
ghost use Rattle.std.specs.Prelude.{◌≡◌, ◌↔◌, ◌≤◌, ◌<◌, ◌+◌, ◌*◌, ◌^◌, ◌++◌, ◌∷◌, [], ℕ, List, IsTrue, IfOk, OnOk, MatchOption, length, map, replicate};
ghost use Rattle.std.specs.Bool.{MatchBool};
ghost use Rattle.std.specs.List.{All, concat};
ghost use Rattle.chain_terms.specs.Sums.{upto};
ghost use Rattle.mesh_terms.specs.Limits.{most_halfedges, most_triangles};
ghost use Rattle.mesh_terms.specs.Meshes.{triple_of, triples_of};
ghost use Rattle.places_by_key.specs.Buckets.{places_of};
ghost use Rattle.triangulate.specs.Fills.{fill_of};
ghost use Rattle.plane_filling.specs.Cuttings.{AreTriples};
ghost use Rattle.plane_filling.specs.Pieces.{Adds, AreFilled, CanBeFilled, all_pieces, alone_pieces, first_key, first_keys, forced_of, from_least};
ghost use Rattle.plane_filling.specs.Pieces.{piece_of, region_pieces, turns_at};
ghost use Rattle.plane_filling.specs.Ways.{Notes};

use crate::flat::FlatPoints;
use crate::loops::loops_of;
use crate::needless::Ways;
use crate::regions::{Region, Regions};
use crate::rings::cut_all;
use face_loops::Loop;
use face_plane::FacePlane;
use hole_joining::join_holes;
use mb_base::{NoMemory, Point};
use places_by_key::Buckets;
use std::alloc::Global;

/// The most places that the loops of one region may have.
const MOST_PLACES: usize = 60_000_000;

/// Triangles over places, and for each a triangle of the mesh over places that has its label.
#[derive(Drop)]
pub struct Filled {
    pub triples: Vec<[u32; 3]>,
    pub labels: Vec<u32>,
}

/// Fills all regions. They stand by the first triangle that lies in their plane and faces their side; kept triangles after the others there; and else as they are
/// listed. A triangle with a mark is alone in its plane and stands as it is at its place, from its least corner. None where a triangle was forced. `NoMemory` may come
/// for any regions, and comes where the loops of one have more than 60,000,000 places.
pub fn fill_all(
    alloc: Global,
    points: &[Point],
    triples: &[[u32; 3]],
    alone: &[bool],
    regions: &Regions,
    ways: &Ways,
) -> Result<Option<Filled>, NoMemory>
    requires marks { length alone.now ≡ length triples.now }
    requires few { length triples.now ≤ most_triangles }
    requires regions { CanBeFilled (length triples.now) (length points.now) regions.now }
    requires full { length ways.now.leads.items ≡ length points.now }
    requires noted { (es : List (ℕ × ℕ)) × Notes es ways.now }
    ensures { let ps = all_pieces points.now (triples_of triples.now) alone.now regions.now ways.now in
        IfOk result (λ made. MatchOption made (0 < forced_of ps) (AreFilled ps)) }
{
    let mut filled = Filled {
        triples: Vec::new(alloc),
        labels: Vec::new(alloc),
    };
    let turns = turns_of(alloc, regions, triples.len())?;
    for number in 0..triples.len() {
        filled.push_alone(alone[number], triples[number], number as u32)?;
        if !fill_at(alloc, &mut filled, points, regions, ways, &turns, number)? {
            return Ok(None);
        }
    }
    Ok(Some(filled))
}

// Fills the regions that stand by a triangle. False where a triangle was forced.
fn fill_at(
    alloc: Global,
    filled: &mut Filled,
    points: &[Point],
    regions: &Regions,
    ways: &Ways,
    turns: &Buckets,
    number: usize,
) -> Result<bool, NoMemory>
    requires regions { (count : ℕ) × CanBeFilled count (length points.now) regions.now }
    requires turns { (count : ℕ) × (count ≤ most_triangles) × (number < count) × (turns.now ≡ map (places_of (first_keys regions.now.all.items)) (upto (2 * count))) }
    requires full { length ways.now.leads.items ≡ length points.now }
    requires noted { (es : List (ℕ × ℕ)) × Notes es ways.now }
    ensures { let ps = region_pieces points.now regions.now ways.now (turns_at (first_keys regions.now.all.items) number) in
        IfOk result (λ done. MatchBool done ((forced_of ps ≡ 0) × Adds ps filled.old filled.new) (0 < forced_of ps)) }
{
    if !fill_some(
        alloc,
        filled,
        points,
        regions,
        ways,
        turns.bucket(2 * number),
    )? {
        return Ok(false);
    }
    let done = fill_some(
        alloc,
        filled,
        points,
        regions,
        ways,
        turns.bucket(2 * number + 1),
    )?;
    Ok(done)
}

// For each triangle the regions that stand by it, and the kept triangles that do.
fn turns_of(alloc: Global, regions: &Regions, count: usize) -> Result<Buckets, NoMemory>
    requires count { count ≤ most_triangles }
    requires few { length regions.now.all.items < 2 ^ 32 }
    requires firsts { All (λ x. x.first < count) regions.now.all.items }
    ensures { IfOk result (λ turns. turns ≡ map (places_of (first_keys regions.now.all.items)) (upto (2 * count))) }
{
    let keys = keys_of(alloc, &regions.all)?;
    Buckets::by_key(alloc, &keys, 2 * count)
}

// The keys by which regions stand.
fn keys_of(alloc: Global, regions: &[Region]) -> Result<Vec<u32>, NoMemory>
    requires { All (λ x. x.first < most_triangles) regions.now }
    ensures { IfOk result (λ keys. keys.items ≡ first_keys regions.now) }
{
    let mut keys = Vec::with_capacity(alloc, regions.len())?;
    for region in regions {
        keys.push(key_of(region))?;
    }
    Ok(keys)
}

// The key by which a region stands.
fn key_of(region: &Region) -> u32
    requires { region.now.first < most_triangles }
    ensures { result ≡ first_key region.now }
{
    2 * region.first + if region.kept { 1 } else { 0 }
}

// A triangle from its least corner.
fn from_least(triple: [u32; 3]) -> [u32; 3]
    ensures { triple_of result ≡ from_least (triple_of triple) }
{
    let [a, b, c] = triple;
    if a < b && a < c {
        [a, b, c]
    } else if b < c {
        [b, c, a]
    } else {
        [c, a, b]
    }
}

impl Filled {
    // Adds a triangle from its least corner, where it is alone in its plane.
    fn push_alone(&mut self, alone: bool, triple: [u32; 3], number: u32) -> Result<(), NoMemory>
        ensures { OnOk result (Adds (alone_pieces alone number (triple_of triple)) self.old self.new) }
    {
        if alone {
            self.push(from_least(triple), number)?;
        }
        Ok(())
    }

    // Adds a triangle.
    fn push(&mut self, triple: [u32; 3], label: u32) -> Result<(), NoMemory>
        ensures triples { OnOk result (triples_of self.new.triples.items ≡ triples_of self.old.triples.items ++ triple_of triple ∷ []) }
        ensures labels { OnOk result (self.new.labels.items ≡ self.old.labels.items ++ label ∷ []) }
    {
        self.triples.push(triple)?;
        self.labels.push(label)?;
        Ok(())
    }

    // Adds triangles of one label.
    fn push_all(&mut self, triples: &[[u32; 3]], label: u32) -> Result<(), NoMemory>
        ensures triples { OnOk result (triples_of self.new.triples.items ≡ triples_of self.old.triples.items ++ triples_of triples.now) }
        ensures labels { OnOk result (self.new.labels.items ≡ self.old.labels.items ++ replicate (length triples.now) label) }
    {
        for triple in triples {
            self.push(*triple, label)?;
        }
        Ok(())
    }
}

// Fills some regions. False where a triangle was forced.
fn fill_some(
    alloc: Global,
    filled: &mut Filled,
    points: &[Point],
    regions: &Regions,
    ways: &Ways,
    numbers: &[u32],
) -> Result<bool, NoMemory>
    requires regions { (count : ℕ) × CanBeFilled count (length points.now) regions.now }
    requires numbers { All (λ k. k < length regions.now.all.items) numbers.now }
    requires full { length ways.now.leads.items ≡ length points.now }
    requires noted { (es : List (ℕ × ℕ)) × Notes es ways.now }
    ensures { let ps = region_pieces points.now regions.now ways.now numbers.now in
        IfOk result (λ done. MatchBool done ((forced_of ps ≡ 0) × Adds ps filled.old filled.new) (0 < forced_of ps)) }
{
    for number in numbers {
        if !fill_one(alloc, filled, points, regions, ways, *number as usize)? {
            return Ok(false);
        }
    }
    Ok(true)
}

// Fills a region. False where a triangle was forced.
fn fill_one(
    alloc: Global,
    filled: &mut Filled,
    points: &[Point],
    regions: &Regions,
    ways: &Ways,
    number: usize,
) -> Result<bool, NoMemory>
    requires regions { (count : ℕ) × CanBeFilled count (length points.now) regions.now }
    requires number { number < length regions.now.all.items }
    requires full { length ways.now.leads.items ≡ length points.now }
    requires noted { (es : List (ℕ × ℕ)) × Notes es ways.now }
    ensures { let p = piece_of points.now regions.now ways.now number in
        IfOk result (λ done. MatchBool done ((p.forced ≡ 0) × Adds (p ∷ []) filled.old filled.new) (0 < p.forced)) }
{
    let region = regions.all[number];
    let flat = FlatPoints {
        view: region.view,
        points,
    };
    let (start, end) = regions.walks_of(number);
    let loops = loops_of(alloc, &flat, ways, &regions.walks, start, end)?;
    match filled_loops(alloc, region.view.plane, &loops, points)? {
        Some(triples) => {
            filled.push_all(&triples, region.label)?;
            Ok(true)
        }
        None => Ok(false),
    }
}

// The triangles of loops. None where one is forced.
fn filled_loops(
    alloc: Global,
    plane: FacePlane,
    loops: &[Loop],
    points: &[Point],
) -> Result<Option<Vec<[u32; 3]>>, NoMemory>
    requires axis { plane.drop < 3 }
    requires places { All (λ walk. All (λ v. v < length points.now) walk) loops.now }
    ensures { let c = fill_of plane.drop points.now loops.now in
        IfOk result (λ made. MatchOption made (0 < c.forced) (λ triples. AreTriples c triples.items)) }
{
    if !are_long(loops) {
        return Ok(None);
    }
    if !are_few(loops) {
        return Err(NoMemory);
    }
    let joined = join_holes(alloc, plane, loops, points)?;
    cut_all(alloc, plane, joined.turned, joined.rings, points)
}

// Whether each loop has three places or more.
fn are_long(loops: &[Loop]) -> bool
    ensures { IsTrue result ↔ All (λ each. 3 ≤ length each) loops.now }
{
    loops.iter().all(|each| each.vertices().len() >= 3)
}

// Whether all loops together have few places.
fn are_few(loops: &[Loop]) -> bool
    ensures { IsTrue result → length (concat loops.now) ≤ most_halfedges }
{
    let mut count = 0;
    for each in loops {
        let more = each.vertices().len();
        if more > MOST_PLACES - count {
            return false;
        }
        count += more;
    }
    true
}
