// Whole runs of scripts over meshes that are hostile: all at one point, inside out, one in the other.
use super::expect_run;
use super::files::{FLAT_TETRAHEDRON, NESTED_CUBES, TURNED_CUBE};
use super::made::shelf_of;
use mb_base::{Limits, NoMemory};
use std::process::Abort;
use std::test::Fail;

// Judges what a script says of a mesh.
fn says<R: Abort + AllocGlobal>(
    rt: &R,
    mesh: &[u8],
    script: &[u8],
    told: &[u8],
) -> Result<(), NoMemory> {
    let mut shelf = shelf_of(rt.alloc(), script, mesh)?;
    let words = ["run", "s.txt", "--digits", "0"];
    let told = [told, b""];
    expect_run(rt, &words, &Limits::program(), &mut shelf, 0, 0, told)
}

#[test]
fn a_mesh_at_one_point_is_united_with_itself(rt: HostRuntime) -> Result<(), Fail> {
    says(
        &rt,
        FLAT_TETRAHEDRON,
        b"load z m.obj\nunion u z z\nmeasure u\nsubtract d z z\n",
        b"load z m.obj: points 4, triangles 4, unused 0\nu = union z z: kept 4 4, crossings 0, forced 8\n\
        u: points 8, triangles 8, components 2, euler 4, volume6 0\nd = subtract z z: kept 4 0, crossings 0, forced 4\n",
    )?;
    Ok(())
}

#[test]
fn a_cube_inside_out_has_a_negative_volume(rt: HostRuntime) -> Result<(), Fail> {
    says(
        &rt,
        TURNED_CUBE,
        b"load i m.obj\nbox c 2 2 2 4 4 4\nunion u i c\nmeasure u\n",
        b"load i m.obj: points 8, triangles 12, unused 0\nu = union i c: kept 8 16, crossings 0, forced 0\n\
        u: points 24, triangles 36, components 3, euler 6, volume6 -5904\n",
    )?;
    Ok(())
}

#[test]
fn a_box_in_two_nested_cubes_is_counted_twice(rt: HostRuntime) -> Result<(), Fail> {
    says(
        &rt,
        NESTED_CUBES,
        b"load n m.obj\nbox c 4 4 4 6 6 6\nintersect k n c\nmeasure k\nsubtract d n c\nmeasure d\n",
        b"load n m.obj: points 16, triangles 24, unused 0\nk = intersect n c: kept 0 16, crossings 0, forced 0\n\
        k: points 16, triangles 24, components 2, euler 4, volume6 96\nd = subtract n c: kept 16 16, crossings 0, forced 0\n\
        d: points 32, triangles 48, components 4, euler 8, volume6 7200\n",
    )?;
    Ok(())
}
