// How far operations on made meshes raise the counter of steps.
ghost use Rattle.std.specs.Prelude.{◌≡◌, ◌<◌, ◌≤◌, ◌+◌, IfOk, length};
ghost use Rattle.chain_terms.specs.Chains.{all_edges};
ghost use Rattle.component_terms.specs.Counts.{component_count};
ghost use Rattle.mesh_boolean.specs.Operation.{first_side, reduced_mesh, second_side};
ghost use Rattle.winding.specs.Windings.{components_of};

use mb_base::{Limits, NoMemory, Op, Point, Steps};
use mesh_boolean::boolean;
use mesh_check::{Mesh, reduce};
use mesh_make::{make_box, make_lattice, measure};
use rounding::Nearest;
use shadow_kernels::Grid;
use std::alloc::Global;
use std::marker::Brand;
use std::sync::ledger::{Blank, Ledger};
use std::test::Fail;
use test_tables::{box_points, soup_of, two_boxes};

// How many components a mesh has once it is reduced.
fn reduced_components(alloc: Global, mesh: &Mesh) -> Result<u64, NoMemory>
    ensures { IfOk result (λ n. n ≡ component_count (length (reduced_mesh mesh.now).points) (all_edges (reduced_mesh mesh.now).triples)) }
{
    let reduced = reduce(alloc, mesh)?;
    Ok(measure(alloc, &reduced)?.components)
}

// How many the first side of an operation has.
fn first_components(alloc: Global, op: Op, p: &Mesh) -> Result<u64, NoMemory>
    ensures { IfOk result (λ n. n ≡ components_of (first_side op p.now)) }
{
    let _ = op;
    reduced_components(alloc, p)
}

// How many the second has.
#[tactic(auto, using(crate::proofs::Counted::second_counted))]
fn second_components(alloc: Global, q: &Mesh) -> Result<u64, NoMemory>
    ensures { IfOk result (λ n. n ≡ components_of (second_side q.now)) }
{
    reduced_components(alloc, q)
}

// The most winding sums that an operation takes, a step each: one for each component of its sides.
fn most_sums(alloc: Global, op: Op, p: &Mesh, q: &Mesh) -> Result<u64, Fail>
    ensures { IfOk result (λ n. n ≡ components_of (first_side op p.now) + components_of (second_side q.now)) }
{
    let first = first_components(alloc, op, p)?;
    let second = second_components(alloc, q)?;
    Ok(first.checked_add(second).ok_or("too many components")?)
}

// How many points an operation gives, and the most by which it raises the counter.
fn counted<L: Ledger>(
    alloc: Global,
    op: Op,
    p: &Mesh,
    q: &Mesh,
    steps: &mut Steps<L>,
) -> Result<(usize, u64), Fail>
    ensures { IfOk result (λ r. steps.new ≤ steps.old + r.1) }
{
    let most = most_sums(alloc, op, p, q)?;
    let kernels = Grid { rounding: Nearest };
    match boolean(alloc, op, p, q, &kernels, &Limits::program(), steps) {
        Ok(outcome) => Ok((outcome.mesh.points().len(), most)),
        Err(_) => Err("too many half-edges, or no memory".into()),
    }
}

fn box_of(alloc: Global, low: [i32; 3], high: [i32; 3]) -> Result<Mesh, Fail> {
    let [x, y, z] = low;
    let low = Point::of(x, y, z).ok_or("a point of the grid")?;
    let [x, y, z] = high;
    let high = Point::of(x, y, z).ok_or("a point of the grid")?;
    Ok(make_box(alloc, low, high, &Limits::program())?)
}

// A union, an intersection and a difference of two meshes: the points of each, and the most by which they raise the counter
// together.
fn three_operations<L: Ledger>(
    alloc: Global,
    a: &Mesh,
    b: &Mesh,
    steps: &mut Steps<L>,
) -> Result<([usize; 3], u64), Fail>
    ensures { IfOk result (λ r. steps.new ≤ steps.old + r.1) }
{
    let (union, first) = counted(alloc, Op::Union, a, b, steps)?;
    let (common, second) = counted(alloc, Op::Intersect, a, b, steps)?;
    let (rest, third) = counted(alloc, Op::Subtract, a, b, steps)?;
    let two = first.checked_add(second).ok_or("too many components")?;
    let most = two.checked_add(third).ok_or("too many components")?;
    Ok(([union, common, rest], most))
}

// Those of a box and a post that stands through its top.
fn post_through_a_box<L: Ledger>(
    alloc: Global,
    steps: &mut Steps<L>,
) -> Result<([usize; 3], u64), Fail>
    ensures { IfOk result (λ r. steps.new ≤ steps.old + r.1) }
{
    let a = box_of(alloc, [0; 3], [10; 3])?;
    let b = box_of(alloc, [3, 4, 5], [6, 7, 20])?;
    three_operations(alloc, &a, &b, steps)
}

// A lattice of 8,000 boxes, and a box that cuts it.
fn lattice_and_box(alloc: Global) -> Result<(Mesh, Mesh), Fail> {
    let grid = make_lattice(alloc, 20, 7, &Limits::program())?;
    let cut = box_of(alloc, [1005, -100, -150], [3000, 2100, 2050])?;
    Ok((grid, cut))
}

// The lattice less the box.
fn cut_lattice<L: Ledger>(alloc: Global, steps: &mut Steps<L>) -> Result<(usize, u64), Fail>
    ensures { IfOk result (λ r. steps.new ≤ steps.old + r.1) }
{
    let (grid, cut) = lattice_and_box(alloc)?;
    counted(alloc, Op::Subtract, &grid, &cut, steps)
}

// Two boxes: the last vertex of the first is the first of the second.
fn joined_boxes(alloc: Global) -> Result<Mesh, Fail> {
    let [a, b, c, d, e, f, g, h] = box_points([0; 3], [10; 3]);
    let [_, i, j, k, l, m, n, o] = box_points([10; 3], [20; 3]);
    let points = [a, b, c, d, e, f, g, h, i, j, k, l, m, n, o];
    Ok(Mesh::check(alloc, soup_of(alloc, &points, &two_boxes(7))?)?)
}

// Two boxes that share a vertex, and a box apart from them.
fn joined_boxes_and_one<L: Ledger>(
    alloc: Global,
    steps: &mut Steps<L>,
) -> Result<(usize, u64), Fail>
    ensures { IfOk result (λ r. steps.new ≤ steps.old + r.1) }
{
    let joined = joined_boxes(alloc)?;
    let other = box_of(alloc, [40; 3], [50; 3])?;
    counted(alloc, Op::Union, &joined, &other, steps)
}

// Which operations are done.
#[derive(Clone, Copy, Drop)]
enum Case {
    PostThroughBox,
    CutLattice,
    JoinedBoxes,
}

// The numbers of points that they give, 0 where fewer than three are done, and the most by which they raise a counter that
// begins anew.
fn done_from<L: Ledger>(alloc: Global, blank: Blank, case: Case) -> Result<([usize; 3], u64), Fail>
    requires name { blank.name ≡ L.name }
    requires parts { blank.parts ≡ L.parts }
    requires some { 0 < blank.parts }
{
    let mut steps = Steps::<L>::over(blank);
    let (points, most) = match case {
        Case::PostThroughBox => return post_through_a_box(alloc, &mut steps),
        Case::CutLattice => cut_lattice(alloc, &mut steps)?,
        Case::JoinedBoxes => joined_boxes_and_one(alloc, &mut steps)?,
    };
    Ok(([points, 0, 0], most))
}

// What is done, the points that it gives, and the most by which it raises the counter.
const DONE: [(Case, [usize; 3], u64); 3] = [
    (Case::PostThroughBox, [22, 14, 22], 6),
    (Case::CutLattice, [36_800, 0, 0], 8001),
    (Case::JoinedBoxes, [24, 0, 0], 2),
];

// Three operations on two boxes take six sums at most, a cut of a lattice one for each box and one for the cutting box, and two
// boxes that share a vertex count as one component.
#[test]
fn operations_take_at_most_a_sum_for_each_component(rt: HostRuntime) -> Result<(), Fail> {
    for (case, points, most) in DONE {
        let (given, sums) = done_from::<Brand>(rt.alloc(), Blank::new(1), case)?;
        assert!(rt;
            given == points && sums == most,
            "where {most} are the most: {sums}"
        );
    }
    Ok(())
}
