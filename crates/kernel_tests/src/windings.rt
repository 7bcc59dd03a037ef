// Winding numbers in cubes, worked out by hand.
ghost use Rattle.std.specs.Prelude.{◌≡◌, ◌<◌};

mod numbers;
mod pairs;
mod stacks;
mod table;

use crate::boxes::{Span, boxes_of, mesh_of, plain_boxes};
use lean::{Side, corner_of};
use mb_base::{Point, Steps};
use mesh_check::Mesh;
use rounding::Nearest;
use shadow_kernels::Grid;
use std::alloc::Global;
use std::marker::Brand;
use std::sync::ledger::{Blank, Ledger};
use std::test::Fail;
use test_tables::{BOX, box_points};
use winding::{winding_at, winding_sum};

const CUBE: Span = [[0; 3], [100_000; 3]];

const INNER: Span = [[20_000; 3], [80_000; 3]];

fn turned_cube(alloc: Global) -> Result<Mesh, Fail> {
    let [low, high] = CUBE;
    let mut triples = Vec::new(alloc);
    for [a, b, c] in &BOX {
        triples.push([*a, *c, *b])?;
    }
    mesh_of(alloc, &box_points(low, high), &triples)
}

// The winding number of a point in tens of thousands of grid steps.
fn number_from<L: Ledger>(
    alloc: Global,
    mesh: &Mesh,
    at: &[i8; 3],
    blank: Blank,
) -> Result<i64, Fail>
    requires name { blank.name ≡ L.name }
    requires parts { blank.parts ≡ L.parts }
    requires some { 0 < blank.parts }
{
    let mut steps = Steps::<L>::over(blank);
    let [x, y, z] = *at;
    let unit = 10_000;
    let point = Point::of(x as i32 * unit, y as i32 * unit, z as i32 * unit);
    Ok(winding_at(alloc, point.ok_or("outside the grid")?, mesh, &mut steps)?)
}

// Whether the mesh has these winding numbers at these points.
fn has_numbers(alloc: Global, mesh: &Mesh, numbers: &[([i8; 3], i64)]) -> Result<bool, Fail> {
    for (at, number) in numbers {
        if number_from::<Brand>(alloc, mesh, at, Blank::new(1))? != *number {
            return Ok(false);
        }
    }
    Ok(true)
}

// On the mesh, a coordinate that is equal to a vertex's is not beyond it.
#[test]
fn a_cube_winds_once_round_its_inside(rt: HostRuntime) -> Result<(), Fail> {
    let mesh = boxes_of(rt.alloc(), &[CUBE])?;
    let numbers = [
        ([5, 4, 3], 1),
        ([11, 4, 3], 0),
        ([10, 10, 10], 1),
        ([0, 0, 0], 0),
    ];
    assert!(rt; has_numbers(rt.alloc(), &mesh, &numbers)?);
    Ok(())
}

#[test]
fn a_cube_inside_out_winds_backwards(rt: HostRuntime) -> Result<(), Fail> {
    let mesh = turned_cube(rt.alloc())?;
    assert!(rt; has_numbers(rt.alloc(), &mesh, &[([5, 4, 3], -1)])?);
    Ok(())
}

#[test]
fn nested_cubes_wind_twice(rt: HostRuntime) -> Result<(), Fail> {
    let mesh = boxes_of(rt.alloc(), &[CUBE, INNER])?;
    assert!(rt; has_numbers(rt.alloc(), &mesh, &[([5, 4, 3], 2), ([1, 1, 1], 1)])?);
    Ok(())
}

// The winding number of a point that is moved up on each axis.
fn sum_from<L: Ledger>(point: Point, q: &Side, blank: Blank) -> i64
    requires name { blank.name ≡ L.name }
    requires parts { blank.parts ≡ L.parts }
    requires some { 0 < blank.parts }
{
    let mut steps = Steps::<L>::over(blank);
    let p = corner_of(point, [true; 3]);
    winding_sum(&p, q, &Grid { rounding: Nearest }, &mut steps)
}

#[test]
fn a_point_moved_up_lies_on_the_other_side(rt: HostRuntime) -> Result<(), Fail> {
    let side = plain_boxes(rt.alloc(), &[CUBE])?;
    let low = Point::of(0, 0, 0).ok_or("outside the grid")?;
    assert!(rt; sum_from::<Brand>(low, &side, Blank::new(1)) == 1);
    let high = Point::of(100_000, 5, 7).ok_or("outside the grid")?;
    assert!(rt; sum_from::<Brand>(high, &side, Blank::new(1)) == 0);
    Ok(())
}
