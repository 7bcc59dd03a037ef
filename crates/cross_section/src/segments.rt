// The segments of all lists.
ghost use Rattle.std.specs.Prelude.{◌≡◌, ◌≤◌, ◌<◌, ◌+◌, ◌*◌, ◌++◌, [], ℕ, IfOk, OnOk, get_or, length, map};
ghost use Rattle.std.specs.List.{All, flat_map};
ghost use Rattle.chain_terms.specs.Ranks.{finish, start};
ghost use Rattle.chain_terms.specs.Sums.{upto};
ghost use Rattle.places_by_key.specs.Buckets.{places_of};
ghost use Rattle.cross_section.specs.Copies.{AreCopies, AreNumbers};
ghost use Rattle.edge_pairing.specs.Entries.{ends_of, place_in, starts_of};
ghost use Rattle.edge_pairing.specs.Pairing.{paired_along};
ghost use Rattle.face_loops.specs.Segments.{edges_of};
ghost use Rattle.outline_pair_terms.specs.Lists.{flat_copies, flat_segments};
ghost use Rattle.outline_terms.specs.Outlines.{IsBetween, most_vertices, outline_edges};

use crate::Numbers;
use crate::copies::FlatCopies;
use edge_pairing::segments_of_edge;
use mb_base::{Entry, NoMemory, Op, Point, Segment};
use outlines::Outline;
use places_by_key::Buckets;
use std::alloc::Global;

/// The starts and the ends of lists.
#[derive(Drop)]
struct Lists {
    starts: Buckets,
    ends: Buckets,
}

/// The segments of all lists: those of P's edges, then those of Q's.
pub fn segments_of(
    alloc: Global,
    op: Op,
    p: &Outline,
    q: &Outline,
    p_edges: &[(u32, u32)],
    q_edges: &[(u32, u32)],
    numbers: &Numbers,
    copies: &FlatCopies,
) -> Result<Vec<Segment>, NoMemory>
    requires p_edges { p_edges.now ≡ outline_edges p.now }
    requires q_edges { q_edges.now ≡ outline_edges q.now }
    requires numbers { AreNumbers p.now q.now numbers.now }
    requires copies { AreCopies (outline_edges p.now) (outline_edges q.now) (flat_copies op p.now q.now numbers.now)
        copies.now.points.items copies.now.starts.items copies.now.ends.items }
    requires few { length copies.now.points.items ≤ most_vertices }
    ensures { IfOk result (λ s. edges_of s.items ≡ flat_segments p.now q.now (flat_copies op p.now q.now numbers.now)) }
{
    // Read first so that what outlines keep is known here.
    let (p_points, q_points) = (p.points(), q.points());
    let lists = lists_of(alloc, copies, p_edges.len() + q_edges.len())?;
    let mut segments = Vec::with_capacity(alloc, copies.points.len())?;
    push_edges(
        alloc,
        &mut segments,
        p_points,
        p_edges,
        &lists,
        0,
        &copies.points,
    )?;
    push_edges(
        alloc,
        &mut segments,
        q_points,
        q_edges,
        &lists,
        p_edges.len(),
        &copies.points,
    )?;
    Ok(segments)
}

// The starts and the ends of so many lists, by the numbers of the copies.
fn lists_of(alloc: Global, copies: &FlatCopies, count: usize) -> Result<Lists, NoMemory>
    requires starts_below { All (λ k. k < count) copies.now.starts.items }
    requires ends_below { All (λ k. k < count) copies.now.ends.items }
    requires few_starts { length copies.now.starts.items ≤ most_vertices }
    requires few_ends { length copies.now.ends.items ≤ most_vertices }
    ensures starts { IfOk result (λ l. l.starts ≡ map (places_of copies.now.starts.items) (upto count)) }
    ensures ends { IfOk result (λ l. l.ends ≡ map (places_of copies.now.ends.items) (upto count)) }
{
    let starts = Buckets::by_key(alloc, &copies.starts, count)?;
    let ends = Buckets::by_key(alloc, &copies.ends, count)?;
    Ok(Lists { starts, ends })
}

// Adds the segments on the edges of one outline, whose lists are numbered from a number on.
fn push_edges(
    alloc: Global,
    segments: &mut Vec<Segment>,
    ends: &[Point],
    edges: &[(u32, u32)],
    lists: &Lists,
    first: usize,
    points: &[Point],
) -> Result<(), NoMemory>
    requires between { All (IsBetween (length ends.now)) edges.now }
    requires few { first + length edges.now ≤ 2 * most_vertices }
    requires starts { first + length edges.now ≤ length lists.now.starts }
    requires ends { first + length edges.now ≤ length lists.now.ends }
    requires starts_below { All (λ l. All (λ v. v < length points.now) l) lists.now.starts }
    requires ends_below { All (λ l. All (λ v. v < length points.now) l) lists.now.ends }
    requires even { (k : ℕ) → k < length edges.now → length (get_or lists.now.starts (first + k) []) ≡ length (get_or lists.now.ends (first + k) []) }
    ensures { OnOk result (edges_of segments.new.items ≡ edges_of segments.old.items ++
        flat_map (λ k. paired_along (get_or ends.now (start edges.now k) []) (get_or ends.now (finish edges.now k) []) (place_in points.now)
        (get_or lists.now.starts (first + k) []) (get_or lists.now.ends (first + k) [])) (upto (length edges.now))) }
{
    let mut entries = Vec::new(alloc);
    for k in 0..edges.len() {
        let (from, to) = edges[k];
        fill_entries(
            &mut entries,
            lists.starts.bucket(first + k),
            lists.ends.bucket(first + k),
        )?;
        push_edge(
            alloc,
            segments,
            ends[from as usize],
            ends[to as usize],
            &entries,
            points,
        )?;
    }
    Ok(())
}

// Adds the segments on the edge between two points.
fn push_edge(
    alloc: Global,
    segments: &mut Vec<Segment>,
    from: Point,
    to: Point,
    entries: &[Entry],
    points: &[Point],
) -> Result<(), NoMemory>
    requires starts { All (λ v. v < length points.now) (starts_of entries.now) }
    requires ends { All (λ v. v < length points.now) (ends_of entries.now) }
    requires even { length (starts_of entries.now) ≡ length (ends_of entries.now) }
    ensures { OnOk result (edges_of segments.new.items ≡ edges_of segments.old.items ++
        paired_along from to (place_in points.now) (starts_of entries.now) (ends_of entries.now)) }
{
    let part = segments_of_edge(alloc, from, to, entries, points)?;
    Ok(segments.extend_from_slice(&part)?)
}

// Makes a list of starts and ends. What stood in the list before goes, and its memory is used again.
fn fill_entries(entries: &mut Vec<Entry>, starts: &[u32], ends: &[u32]) -> Result<(), NoMemory>
    ensures starts { OnOk result (starts_of entries.new.items ≡ starts.now) }
    ensures ends { OnOk result (ends_of entries.new.items ≡ ends.now) }
{
    entries.clear();
    for from in starts {
        entries.push(Entry {
            vertex: *from,
            start: true,
        })?;
    }
    for to in ends {
        entries.push(Entry {
            vertex: *to,
            start: false,
        })?;
    }
    Ok(())
}
