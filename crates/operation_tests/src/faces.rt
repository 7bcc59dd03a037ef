// The vertices, segments and loops of all source faces, on pairs of small meshes, as the crates below give them.
ghost use Rattle.std.specs.Prelude.{IfOk};
ghost use Rattle.mesh_check.specs.Reduced.{NoOpposite};

mod conserved;
mod handed;
mod table;
mod text;
mod words;

use crate::rows::{Kind, expect_rows};
use handed::are_numbers;
use lean::Side;
use mb_base::{Hits, Limits, Op, Windings};
use mesh_check::{Mesh, reduce};
use retained_verts::prescribe;
use std::alloc::Global;
use std::process::Abort;
use table::PAIRS;
use test_tables::{NoRow, marked_side, plain_side, read_numbers, read_pair};
use text::push_prescribed;
use words::push_faces;

// What the numbers of two sides give, as the table writes it.
fn written(
    rt: &impl Abort,
    alloc: Global,
    op: Op,
    p: &Side,
    q: &Side,
    windings: &Windings,
    hits: &Hits,
) -> String
    requires p_apart { NoOpposite p.now.triples }
    requires q_apart { NoOpposite q.now.triples }
{
    assert!(rt; are_numbers(p, q, windings, hits));
    let prescribed = prescribe(alloc, op, p, q, windings, hits, &Limits::program());
    let prescribed = prescribed.expect(rt, "few half-edges");
    assert!(rt; prescribed.halfedges <= 60_000_000);
    let mut text = String::new(alloc);
    push_prescribed(&mut text, &prescribed).expect(rt, "the vertices");
    let (p, q) = (p.surface(), q.surface());
    let pushed = push_faces(alloc, &mut text, op, p, q, windings, hits, &prescribed);
    pushed.expect(rt, "the faces");
    text
}

// The first side of an operation: its mesh reduced, with the marks for the operation.
fn first_side(alloc: Global, mesh: &Mesh, op: Op) -> Result<Side, NoRow>
    ensures { IfOk result (λ side. NoOpposite side.triples) }
{
    let reduced = reduce(alloc, mesh)?;
    let side = marked_side(alloc, &reduced, op)?;
    Ok(side)
}

// The second side: its mesh reduced, without marks.
fn second_side(alloc: Global, mesh: &Mesh) -> Result<Side, NoRow>
    ensures { IfOk result (λ side. NoOpposite side.triples) }
{
    let reduced = reduce(alloc, mesh)?;
    let side = plain_side(alloc, &reduced)?;
    Ok(side)
}

// What the numbers of a line give for two sides.
fn written_of(rt: &impl Abort, alloc: Global, op: Op, p: &Side, q: &Side, numbers: &str) -> String
    requires p_apart { NoOpposite p.now.triples }
    requires q_apart { NoOpposite q.now.triples }
{
    let (windings, hits) = read_numbers(alloc, numbers).expect(rt, "numbers");
    written(rt, alloc, op, p, q, &windings, &hits)
}

// What two meshes and the numbers of a line give.
fn answer(rt: &impl Abort, alloc: Global, op: Op, p: &Mesh, q: &Mesh, numbers: &str) -> String {
    let p = first_side(alloc, p, op).expect(rt, "the first side");
    let q = second_side(alloc, q).expect(rt, "the second side");
    written_of(rt, alloc, op, &p, &q, numbers)
}

/// Compares what the meshes of a line and the numbers of the next give with the third line.
pub fn expect_line(rt: &impl Abort, alloc: Global, meshes: &str, numbers: &str, expected: &str) {
    let (op, p, q) = read_pair(alloc, meshes).expect(rt, "a pair");
    let text = answer(rt, alloc, op, &p, &q, numbers);
    assert_eq!(rt; text.as_str(), expected, "{meshes}");
}

#[test]
fn agrees_with_the_table(rt: HostRuntime) {
    expect_rows(&rt, rt.alloc(), &Kind::Faces, PAIRS, 100);
}
