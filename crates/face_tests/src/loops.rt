// Segments whose loops are known.
ghost use Rattle.std.specs.Prelude.{◌≡◌, ◌==◌, ◌&&◌, IsTrue, count_by};
ghost use Rattle.std.specs.List.{list_all};
ghost use Rattle.face_loops.specs.Segments.{edges_of, is_once, IsOneToOne};

mod table;

use crate::rows::{Kind, expect_rows};
use crate::words::{parts_of, vertices_of};
use face_loops::loops;
use mb_base::Segment;
use std::alloc::Global;
use std::process::Abort;
use table::ROWS;

// How many of the segments start at the vertex.
fn start_count(segments: &[Segment], vertex: u32) -> usize
    ensures { result ≡ count_by (λ s. s.from == vertex) segments.now }
{
    segments.iter().filter(|s| s.from == vertex).count()
}

// How many end there.
fn end_count(segments: &[Segment], vertex: u32) -> usize
    ensures { result ≡ count_by (λ s. s.to == vertex) segments.now }
{
    segments.iter().filter(|s| s.to == vertex).count()
}

// Whether the vertex starts one of the segments and ends one.
fn is_once(segments: &[Segment], vertex: u32) -> bool
    ensures { result ≡ is_once segments.now vertex }
{
    start_count(segments, vertex) == 1 && end_count(segments, vertex) == 1
}

// Whether the ends of each segment do.
fn are_once(segments: &[Segment]) -> bool
    ensures { result ≡ list_all (λ s. is_once segments.now s.from && is_once segments.now s.to) segments.now }
{
    segments
        .iter()
        .all(|s| is_once(segments, s.from) && is_once(segments, s.to))
}

// Whether each vertex that occurs does.
fn is_one_to_one(segments: &[Segment]) -> bool
    ensures { IsTrue result → IsOneToOne (edges_of segments.now) }
{
    are_once(segments)
}

// The segments whose ends are the numbers, two by two.
fn segments_of(rt: &impl Abort, alloc: Global, numbers: &[u32]) -> Vec<Segment> {
    let mut segments = Vec::new(alloc);
    let (pairs, rest) = numbers.as_chunks::<2>();
    assert!(rt; rest.is_empty(), "a segment lacks an end");
    for [from, to] in pairs {
        let (from, to) = (*from, *to);
        segments
            .push(Segment { from, to })
            .expect(rt, "room for a segment");
    }
    segments
}

// The length of each loop and its vertices; nothing for segments that do not form loops.
fn listed(rt: &impl Abort, alloc: Global, segments: &[Segment]) -> Vec<u32> {
    let mut list = Vec::new(alloc);
    if is_one_to_one(segments) {
        let all = loops(alloc, segments).expect(rt, "memory");
        for found in &all {
            let count = u32::try_from(found.vertices().len()).expect(rt, "few vertices");
            list.push(count).expect(rt, "room for a number");
            list.extend_from_slice(found.vertices())
                .expect(rt, "room for a loop");
        }
    }
    list
}

/// Whether the loops of a line are those of its segments.
pub fn agrees(rt: &impl Abort, alloc: Global, line: &str) -> bool {
    let parts = parts_of(rt, alloc, line);
    let [segments, wanted] = parts.as_slice() else {
        return false;
    };
    let segments = segments_of(rt, alloc, &vertices_of(rt, alloc, segments));
    let list = listed(rt, alloc, &segments);
    list.as_slice() == vertices_of(rt, alloc, wanted).as_slice()
}

#[test]
fn segments_form_the_loops_of_the_table(rt: HostRuntime) {
    expect_rows(&rt, rt.alloc(), &Kind::Loops, ROWS, 72);
}
