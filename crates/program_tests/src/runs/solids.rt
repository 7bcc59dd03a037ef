// Whole runs with ASCII STL files.
use super::files::TETRAHEDRON;
use super::{Case, ROOM, copied, judge, plain};
use mb_base::Limits;
use std::test::Fail;

// The tetrahedron as it is written.
const SOLID: &[u8] =
    b"solid manifold\nfacet normal 0 0 0\nouter loop\nvertex 0 0 0\nvertex 0 1 0\nvertex 1 0 0\nendloop\nendfacet\nfacet normal 0 0 0\nouter loop\nvertex 0 0 0\nvertex 1 0 0\nvertex 0 0 1\nendloop\nendfacet\nfacet normal 0 0 0\nouter loop\nvertex 1 0 0\nvertex 0 1 0\nvertex 0 0 1\nendloop\nendfacet\nfacet normal 0 0 0\nouter loop\nvertex 0 1 0\nvertex 0 0 0\nvertex 0 0 1\nendloop\nendfacet\nendsolid manifold\n";

// It as it is read again: points stand in the order in which corners have them.
const RENUMBERED: &[u8] =
    b"v 0 0 0\nv 0 1 0\nv 1 0 0\nv 0 0 1\nf 1 2 3\nf 1 3 4\nf 3 2 4\nf 2 1 4\n";

// A corner of its last facet a tenth of a step away from those of the others, and a facet with two corners
// at one point.
const CLOSE_CORNERS: &[u8] =
    b"solid manifold\nfacet normal 0 0 0\nouter loop\nvertex 0 0 0\nvertex 0 1 0\nvertex 1 0 0\nendloop\nendfacet\nfacet normal 0 0 0\nouter loop\nvertex 0 0 0\nvertex 1 0 0\nvertex 0 0 1\nendloop\nendfacet\nfacet normal 0 0 0\nouter loop\nvertex 1 0 0\nvertex 0 1 0\nvertex 0 0 1\nendloop\nendfacet\nfacet normal 0 0 0\nouter loop\nvertex 0 1 0\nvertex 0 0 0\nvertex 0 0 1.00001\nendloop\nendfacet\nfacet normal 0 0 0\nouter loop\nvertex 0 0 0\nvertex 0.00001 0 0\nvertex 1 0 0\nendloop\nendfacet\nendsolid manifold\n";

// And a whole step away.
const CORNERS_APART: &[u8] =
    b"solid manifold\nfacet normal 0 0 0\nouter loop\nvertex 0 0 0\nvertex 0 1 0\nvertex 1 0 0\nendloop\nendfacet\nfacet normal 0 0 0\nouter loop\nvertex 0 0 0\nvertex 1 0 0\nvertex 0 0 1\nendloop\nendfacet\nfacet normal 0 0 0\nouter loop\nvertex 1 0 0\nvertex 0 1 0\nvertex 0 0 1\nendloop\nendfacet\nfacet normal 0 0 0\nouter loop\nvertex 0 1 0\nvertex 0 0 0\nvertex 0 0 1.0001\nendloop\nendfacet\nendsolid manifold\n";

// Its text cut after the eighth line.
const CUT_SOLID: &[u8] =
    b"solid manifold\nfacet normal 0 0 0\nouter loop\nvertex 0 0 0\nvertex 0 1 0\nvertex 1 0 0\nendloop\nendfacet\n";

#[test]
fn a_mesh_is_copied_to_stl(rt: HostRuntime) -> Result<(), Fail> {
    let words = ["copy", "t.obj", "t.stl"];
    let case = Case {
        words: &words,
        name: "t.obj",
        bytes: TETRAHEDRON,
        to: "t.stl",
        most: ROOM,
        // The size, one read, the beginning and one piece: a fifth call would fail.
        shelf_fails: 5,
        out_fails: 0,
        limits: Limits::program(),
        status: 0,
        out: b"copied t.stl: points 4, triangles 4, unused 0\n",
        err: b"",
        is_saved: true,
        saved: SOLID,
    };
    judge(&rt, &case)?;
    Ok(())
}

#[test]
fn an_empty_mesh_is_a_solid_without_facets(rt: HostRuntime) -> Result<(), Fail> {
    let words = ["copy", "e.stl", "u.STL"];
    let case = Case {
        words: &words,
        name: "e.stl",
        bytes: b"solid\nendsolid",
        to: "u.STL",
        most: ROOM,
        shelf_fails: 0,
        out_fails: 0,
        limits: Limits::program(),
        status: 0,
        out: b"copied u.STL: points 0, triangles 0, unused 0\n",
        err: b"",
        is_saved: true,
        saved: b"solid manifold\nendsolid manifold\n",
    };
    judge(&rt, &case)?;
    Ok(())
}

#[test]
fn corners_at_one_point_of_the_grid_are_one_point(rt: HostRuntime) -> Result<(), Fail> {
    let words = ["copy", "c.stl", "u.obj"];
    let line = b"copied u.obj: points 4, triangles 4, unused 0\n";
    let whole = copied(&words, "c.stl", SOLID, line, RENUMBERED);
    judge(&rt, &whole)?;
    let close = copied(&words, "c.stl", CLOSE_CORNERS, line, RENUMBERED);
    judge(&rt, &close)?;
    Ok(())
}

#[test]
fn a_faulty_solid_has_its_line(rt: HostRuntime) -> Result<(), Fail> {
    let words = ["copy", "c.stl", "u.obj"];
    let faulty: [(&[u8], &[u8]); 5] = [
        (CORNERS_APART, b"c.stl: 11 OpenEdge 1 5\n"),
        (CUT_SOLID, b"c.stl:9: 10 NotStl\n"),
        (TETRAHEDRON, b"c.stl:1: 10 NotStl\n"),
        (
            b"solid\nfacet normal 0 0 0\nouter loop\nvertex 0 0 0,5\n",
            b"c.stl:4: 3 BadNumber\n",
        ),
        (b"", b"c.stl:1: 10 NotStl\n"),
    ];
    for (bytes, err) in faulty {
        let case = plain(&words, "c.stl", bytes, 4, err);
        judge(&rt, &case)?;
    }
    Ok(())
}

#[test]
fn a_solid_winds_round_a_point(rt: HostRuntime) -> Result<(), Fail> {
    let words = ["inside", "c.stl", "0.2", "0.2", "0.2"];
    let case = Case {
        words: &words,
        name: "c.stl",
        bytes: SOLID,
        to: "u.obj",
        most: ROOM,
        shelf_fails: 0,
        out_fails: 0,
        limits: Limits::program(),
        status: 0,
        out: b"winding 1\n",
        err: b"",
        is_saved: false,
        saved: b"",
    };
    judge(&rt, &case)?;
    Ok(())
}
