// A plate less a slot: numbers, the operation, the solid, and what is refused.
ghost use Rattle.mesh_terms.specs.Points.{IsOnGrid};

use crate::rows::ring_of;
use cross_section::{
    ExtrudeFault, Flat, FlatHit, MOST_VERTICES, Numbers, Outline, OutlineFault, combine_outlines,
    extrude, outline_numbers,
};
use mb_base::{Counted, Limits, Op, Point};
use mesh_make::measure;
use rounding::Nearest;
use shadow_kernels::Grid;
use std::alloc::Global;
use std::test::Fail;

const PLATE: [[i32; 2]; 4] = [[0, 0], [10, 0], [10, 10], [0, 10]];

const SLOT: [[i32; 2]; 4] = [[6, 4], [20, 4], [20, 7], [6, 7]];

const KERNELS: Grid<Nearest> = Grid { rounding: Nearest };

fn numbers(alloc: Global, op: Op) -> Result<Numbers, Fail> {
    let plate = ring_of(alloc, &PLATE)?;
    let slot = ring_of(alloc, &SLOT)?;
    Ok(outline_numbers(alloc, op, &plate, &slot, &KERNELS, &Nearest)?)
}

fn hit(p_edge: u32, q_edge: u32, number: i8, x: i32, y: i32) -> Result<FlatHit, Fail> {
    match Point::of(x, y, 0) {
        Some(at) => Ok(FlatHit {
            p_edge,
            q_edge,
            number,
            at,
        }),
        None => Err("no point of the grid".into()),
    }
}

#[test]
fn a_slot_crosses_one_edge_of_the_plate_twice(rt: HostRuntime) -> Result<(), Fail> {
    let numbers = numbers(rt.alloc(), Op::Subtract)?;
    let there = hit(1, 0, 1, 10, 4)?;
    let back = hit(1, 2, -1, 10, 7)?;
    assert!(rt; numbers.w02.as_slice() == [0, 0, 0, 0].as_slice());
    assert!(rt; numbers.w20.as_slice() == [1, 0, 0, 1].as_slice());
    assert!(rt; numbers.hits.as_slice() == [there, back].as_slice());
    Ok(())
}

fn limits(points: u32, triangles: u32, halfedges: u32) -> Result<Limits, Fail> {
    match Limits::of(1 << 31, points, triangles, halfedges) {
        Some(limits) => Ok(limits),
        None => Err("limits".into()),
    }
}

fn combined(alloc: Global, op: Op, limits: &Limits) -> Result<Result<Flat, OutlineFault>, Fail> {
    let plate = ring_of(alloc, &PLATE)?;
    let slot = ring_of(alloc, &SLOT)?;
    Ok(combine_outlines(alloc, op, &plate, &slot, &KERNELS, &Nearest, limits))
}

fn cut(alloc: Global) -> Result<Outline, Fail> {
    match combined(alloc, Op::Subtract, &Limits::program())? {
        Ok(flat) => Ok(flat.outline),
        Err(_) => Err("refused".into()),
    }
}

// Why an operation is refused, if it is.
fn refused(alloc: Global, op: Op, points: u32) -> Result<Option<OutlineFault>, Fail> {
    match combined(alloc, op, &limits(points, 2, 1)?)? {
        Ok(_) => Ok(None),
        Err(fault) => Ok(Some(fault)),
    }
}

#[test]
fn vertices_and_crossings_are_counted(rt: HostRuntime) -> Result<(), Fail> {
    let Ok(flat) = combined(rt.alloc(), Op::Subtract, &Limits::program())? else {
        return Err("refused".into());
    };
    assert!(rt; flat.kept == [4, 2] && flat.crossings == 2);
    Ok(())
}

fn over_points(seen: u64) -> Option<OutlineFault> {
    Some(OutlineFault::Over {
        what: Counted::Points,
        seen,
    })
}

#[test]
fn eight_vertices_are_within_eight_points_alone(rt: HostRuntime) -> Result<(), Fail> {
    assert!(rt; refused(rt.alloc(), Op::Subtract, 8)? == None);
    assert!(rt; refused(rt.alloc(), Op::Subtract, 7)? == over_points(8));
    assert!(rt; refused(rt.alloc(), Op::Union, 7)? == over_points(8));
    assert!(rt; refused(rt.alloc(), Op::Intersect, 4)? == None);
    assert!(rt; refused(rt.alloc(), Op::Intersect, 3)? == over_points(4));
    assert!(rt; MOST_VERTICES == 1_000_000);
    Ok(())
}

// Points, triangles, triangles that were forced, components and six times the volume.
fn measures(alloc: Global, low: i32, high: i32) -> Result<[i128; 5], Fail>
    requires low { IsOnGrid low }
    requires high { IsOnGrid high }
{
    let Ok(solid) = extrude(alloc, &cut(alloc)?, low, high, &Limits::program()) else {
        return Err("refused".into());
    };
    let measure = measure(alloc, &solid.mesh)?;
    Ok([
        measure.points as i128,
        measure.triangles as i128,
        solid.forced as i128,
        measure.components as i128,
        measure.volume6,
    ])
}

#[test]
fn the_solid_has_its_measures(rt: HostRuntime) -> Result<(), Fail> {
    assert!(rt; measures(rt.alloc(), 0, 5)? == [16, 28, 0, 1, 2640]);
    assert!(rt; measures(rt.alloc(), -3, -1)? == [16, 28, 0, 1, 1056]);
    Ok(())
}

// Why there is no solid, if there is none.
fn unmade(alloc: Global, low: i32, high: i32, limits: &Limits) -> Result<Option<ExtrudeFault>, Fail>
    requires low { IsOnGrid low }
    requires high { IsOnGrid high }
{
    match extrude(alloc, &cut(alloc)?, low, high, limits) {
        Ok(_) => Ok(None),
        Err(fault) => Ok(Some(fault)),
    }
}

fn over(what: Counted, seen: u64) -> Option<ExtrudeFault> {
    Some(ExtrudeFault::Over { what, seen })
}

#[test]
fn a_solid_has_height(rt: HostRuntime) -> Result<(), Fail> {
    let program = Limits::program();
    let flat = Some(ExtrudeFault::FlatSolid);
    assert!(rt; unmade(rt.alloc(), 5, 5, &program)? == flat);
    assert!(rt; unmade(rt.alloc(), 5, 4, &program)? == flat);
    assert!(rt; unmade(rt.alloc(), 5, 5, &limits(3, 2, 1)?)? == flat);
    assert!(rt; unmade(rt.alloc(), 4, 5, &program)? == None);
    Ok(())
}

#[test]
fn a_solid_is_within_the_limits(rt: HostRuntime) -> Result<(), Fail> {
    assert!(rt; unmade(rt.alloc(), 0, 5, &limits(42, 28, 1)?)? == None);
    assert!(rt; unmade(rt.alloc(), 0, 5, &limits(42, 27, 1)?)? == over(Counted::Triangles, 28));
    assert!(rt; unmade(rt.alloc(), 0, 5, &limits(16, 10, 1)?)? == over(Counted::Triangles, 28));
    assert!(rt; unmade(rt.alloc(), 0, 5, &limits(15, 10, 1)?)? == over(Counted::Points, 16));
    Ok(())
}
