// Entries whose segments are known.
ghost use Rattle.std.specs.Prelude.{◌≡◌, ◌<◌, IsTrue, count_by, length};
ghost use Rattle.std.specs.List.{All};
ghost use Rattle.edge_pairing.specs.Entries.{starts_of, ends_of};

mod table;

use crate::rows::{Kind, expect_rows};
use crate::words::{parts_of, points_of, vertices_of};
use edge_pairing::{exchange_reverses, segments_of_edge, segments_of_pair};
use mb_base::{Entry, Point, Segment};
use std::alloc::Global;
use std::process::Abort;
use table::{EDGES, PAIRS};

// How many of the entries start a segment.
fn start_count(entries: &[Entry]) -> usize
    ensures { result ≡ count_by (λ e. e.start) entries.now }
{
    entries.iter().filter(|e| e.start).count()
}

// Whether as many start a segment as end one.
fn is_balanced(entries: &[Entry]) -> bool
    ensures { IsTrue result → length (starts_of entries.now) ≡ length (ends_of entries.now) }
{
    let starts = start_count(entries);
    entries.len().saturating_sub(starts) == starts
}

// Whether there is a point for each entry.
fn are_below(entries: &[Entry], points: &[Point]) -> bool
    ensures { IsTrue result → All (λ e. e.vertex < length points.now) entries.now }
{
    entries.iter().all(|e| (e.vertex as usize) < points.len())
}

// The entries of these numbers: of each its vertex, and 1 where it is a start.
fn entries_of(rt: &impl Abort, alloc: Global, numbers: &[u32]) -> Vec<Entry> {
    let mut entries = Vec::new(alloc);
    let (pairs, rest) = numbers.as_chunks::<2>();
    assert!(rt; rest.is_empty(), "an entry lacks its second number");
    for [vertex, start] in pairs {
        let (vertex, start) = (*vertex, *start == 1);
        entries
            .push(Entry { vertex, start })
            .expect(rt, "room for an entry");
    }
    entries
}

// The ends of the segments, two by two.
fn listed(rt: &impl Abort, alloc: Global, segments: &[Segment]) -> Vec<u32> {
    let mut list = Vec::new(alloc);
    for segment in segments {
        let ends = [segment.from, segment.to];
        list.extend_from_slice(&ends).expect(rt, "room for two");
    }
    list
}

// The ends of the segments of the entries: along an edge where its two ends are given, else across.
fn found(
    rt: &impl Abort,
    alloc: Global,
    edge: &[Point],
    entries: &[Entry],
    points: &[Point],
) -> Vec<u32> {
    assert!(rt; is_balanced(entries) && are_below(entries, points));
    let segments = if let [a, b] = edge {
        segments_of_edge(alloc, *a, *b, entries, points).expect(rt, "memory")
    } else {
        segments_of_pair(alloc, entries, points).expect(rt, "memory")
    };
    listed(rt, alloc, &segments)
}

/// Whether the segments of a line are those of its entries.
pub fn agrees(rt: &impl Abort, alloc: Global, line: &str) -> bool {
    let parts = parts_of(rt, alloc, line);
    let [edge, entries, points, wanted] = parts.as_slice() else {
        return false;
    };
    let edge = points_of(rt, alloc, edge, 3);
    let entries = entries_of(rt, alloc, &vertices_of(rt, alloc, entries));
    let points = points_of(rt, alloc, points, 3);
    let list = found(rt, alloc, &edge, &entries, &points);
    list.as_slice() == vertices_of(rt, alloc, wanted).as_slice()
}

#[test]
fn entries_are_paired_as_in_the_table(rt: HostRuntime) {
    exchange_reverses();
    expect_rows(&rt, rt.alloc(), &Kind::Pairs, EDGES, 41);
    expect_rows(&rt, rt.alloc(), &Kind::Pairs, PAIRS, 42);
}
