// Lattices of boxes.
ghost use Rattle.std.specs.Prelude.{◌≡◌, ◌≤◌, ◌<◌, ◌+◌, ◌*◌, ◌++◌, List, IfOk, OnOk, length, map};
ghost use Rattle.mesh_terms.specs.Labels.{no_labels};
ghost use Rattle.mesh_terms.specs.Meshes.{triples_of};
ghost use Rattle.made_terms.specs.Lattice.{
  lattice_box,
  lattice_row,
  lattice_layer,
  lattice_points,
  lattice_triples,
  boxes_triples,
  further,
};
ghost use Rattle.made_terms.specs.Refusals.{lattice_fault};
ghost use Rattle.made_terms.specs.Solids.{box_triples};
ghost use Rattle.mesh_make.specs.Refused.{IsRefusedFor, refusal};

use crate::fault::MakeFault;
use crate::made::{excess, mesh_of};
use crate::rows::push_points;
use crate::solids::{BOX, box_rows};
use mb_base::{Limits, NoMemory, Point};
use mesh_check::Mesh;
use std::alloc::Global;

/// A lattice of n boxes along each axis, 100 steps apart, 10 to 40 steps long by a rule that the seed shifts: a large mesh
/// from two numbers. Points and triangles of the boxes follow one another, those along z first, then those along y.
pub fn make_lattice(alloc: Global, n: u32, seed: u32, limits: &Limits) -> Result<Mesh, MakeFault>
    requires some { 1 ≤ n }
    requires few { n ≤ 60 }
    requires seed { seed ≤ 999999 }
    ensures refused { IsRefusedFor (lattice_fault limits.now n seed) result }
    ensures points { IfOk result (λ m. m.points ≡ lattice_points n seed) }
    ensures triples { IfOk result (λ m. m.triples ≡ lattice_triples n) }
    ensures labels { IfOk result (λ m. m.labels ≡ no_labels (lattice_triples n)) }
{
    if let Some(fault) = lattice_fault(n, seed, limits) {
        return Err(fault);
    }
    Ok(lattice_of(alloc, n, seed)?)
}

// Why there is no such lattice: the counts of its points and triangles alone, since it lies on the grid.
fn lattice_fault(n: u32, seed: u32, limits: &Limits) -> Option<MakeFault>
    requires { n ≤ 60 }
    ensures { result ≡ refusal (lattice_fault limits.now n seed) }
{
    let boxes = cube(n);
    excess(limits, u64::from(8 * boxes), u64::from(12 * boxes))
}

// The lattice, whatever the limits.
fn lattice_of(alloc: Global, n: u32, seed: u32) -> Result<Mesh, NoMemory>
    requires few { n ≤ 60 }
    requires seed { seed ≤ 999999 }
    ensures points { IfOk result (λ m. m.points ≡ lattice_points n seed) }
    ensures triples { IfOk result (λ m. m.triples ≡ lattice_triples n) }
    ensures labels { IfOk result (λ m. m.labels ≡ no_labels (lattice_triples n)) }
{
    let points = lattice_points(alloc, n, seed)?;
    let triples = boxes_triples(alloc, cube(n))?;
    mesh_of(alloc, points, triples)
}

// How many boxes there are.
fn cube(n: u32) -> u32
    requires { n ≤ 60 }
    ensures value { result ≡ n * n * n }
    ensures small { result ≤ 216000 }
{
    n * n * n
}

// The points of all boxes.
fn lattice_points(alloc: Global, n: u32, seed: u32) -> Result<Vec<Point>, NoMemory>
    requires few { n ≤ 60 }
    requires seed { seed ≤ 999999 }
    ensures { IfOk result (λ points. points.items ≡ lattice_points n seed) }
{
    let mut points = Vec::with_capacity(alloc, 8 * cube(n) as usize)?;
    for i in 0..n {
        push_layer(&mut points, n, seed, i)?;
    }
    Ok(points)
}

// Pushes the points of the boxes at one place along x.
fn push_layer(points: &mut Vec<Point>, n: u32, seed: u32, i: u32) -> Result<(), NoMemory>
    requires few { n ≤ 60 }
    requires seed { seed ≤ 999999 }
    requires i { i < n }
    ensures { OnOk result (points.new.items ≡ points.old.items ++ lattice_layer n seed i) }
{
    for j in 0..n {
        push_row(points, n, seed, i, j)?;
    }
    Ok(())
}

// Pushes the points of the boxes at one place along x and y.
fn push_row(points: &mut Vec<Point>, n: u32, seed: u32, i: u32, j: u32) -> Result<(), NoMemory>
    requires few { n ≤ 60 }
    requires seed { seed ≤ 999999 }
    requires i { i < n }
    requires j { j < n }
    ensures { OnOk result (points.new.items ≡ points.old.items ++ lattice_row n seed i j) }
{
    for k in 0..n {
        push_points(points, &lattice_box(seed, i, j, k))?;
    }
    Ok(())
}

// The corners of one box.
fn lattice_box(seed: u32, i: u32, j: u32, k: u32) -> [[i64; 3]; 8]
    requires seed { seed ≤ 999999 }
    requires i { i < 60 }
    requires j { j < 60 }
    requires k { k < 60 }
    ensures { result ≡ lattice_box seed i j k }
{
    let side = i64::from(10 * (1 + (i + 2 * j + 3 * k + seed) % 4));
    let [x, y, z] = [i64::from(100 * i), i64::from(100 * j), i64::from(100 * k)];
    box_rows(&[x, y, z], &[x + side, y + side, z + side])
}

// The triangles of so many boxes over their points, one box after the other.
fn boxes_triples(alloc: Global, boxes: u32) -> Result<Vec<[u32; 3]>, NoMemory>
    requires { boxes ≤ 216000 }
    ensures { IfOk result (λ triples. triples_of triples.items ≡ boxes_triples boxes) }
{
    let mut triples = Vec::with_capacity(alloc, 12 * boxes as usize)?;
    for b in 0..boxes {
        push_box(&mut triples, 8 * b)?;
    }
    Ok(triples)
}

// Pushes the triangles of a box over the points from `base` on.
fn push_box(triples: &mut Vec<[u32; 3]>, base: u32) -> Result<(), NoMemory>
    requires { base ≤ 1728000 }
    ensures { OnOk result (triples_of triples.new.items ≡ triples_of triples.old.items ++ map (further base) box_triples) }
{
    for triple in &BOX {
        let [a, b, c] = *triple;
        triples.push([base + a, base + b, base + c])?;
    }
    Ok(())
}
