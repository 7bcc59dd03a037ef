// The ASCII STL text of a mesh.
ghost use Rattle.std.specs.Prelude.{◌≡◌, ◌≤◌, ◌<◌, ◌++◌, ◌-◌, ℕ, Some, length, IsOk, OnOk, OnErr};
ghost use Rattle.std.specs.Option.{option_map};
ghost use Rattle.std.specs.List.{All, flat_map};
ghost use Rattle.arrayvec.specs.ArrayVec.{array_vec_len};
ghost use Rattle.run_terms.specs.Files.{Counts};
ghost use Rattle.mesh_terms.specs.Meshes.{IsBelow, triple_of};
ghost use Rattle.format_terms.specs.StlWritten.{corner_line, facet_text, stl_text};
ghost use Rattle.mb_outside.specs.Sinks.{Kept, TakesPart};
ghost use Rattle.mesh_writer.specs.Corners.{corner_lines};
ghost use Rattle.mesh_writer.specs.Passing.{Broke, Wrote};

use crate::lines::put_corner;
use crate::page::{Page, put_text, send_full};
use mb_base::Point;
use mb_outside::{Failed, Sink, write_all};
use mesh_check::Mesh;

// Writes a line.
fn write_line<K: Sink>(line: &[u8], page: &mut Page, sink: &mut K) -> Result<(), Failed>
    requires short { length line.now ≤ 128 }
    requires free { array_vec_len page.old ≤ 3968 }
    ensures wrote { OnOk result (Wrote K.Sink line.now (page.old.items, page.new.items) (sink.old, sink.new)) }
    ensures broke { OnErr result (Broke K.Sink line.now page.old.items (sink.old, sink.new)) }
    ensures free { OnOk result (array_vec_len page.new ≤ 3968) }
{
    put_text(page, line);
    send_full(page, sink)
}

// Writes the line of a corner at this one of the points.
fn write_corner<K: Sink>(
    points: &[Point],
    vertex: u32,
    digits: u8,
    page: &mut Page,
    sink: &mut K,
) -> Result<(), Failed>
    requires within { vertex < length points.now }
    requires digits { digits ≤ 6 }
    requires free { array_vec_len page.old ≤ 3968 }
    ensures wrote { OnOk result (Wrote K.Sink (corner_line digits points.now vertex) (page.old.items, page.new.items) (sink.old, sink.new)) }
    ensures broke { OnErr result (Broke K.Sink (corner_line digits points.now vertex) page.old.items (sink.old, sink.new)) }
    ensures free { OnOk result (array_vec_len page.new ≤ 3968) }
{
    put_corner(page, &points[vertex as usize], digits);
    send_full(page, sink)
}

// Writes two lines.
fn write_two<K: Sink>(
    first: &[u8],
    second: &[u8],
    page: &mut Page,
    sink: &mut K,
) -> Result<(), Failed>
    requires first_short { length first.now ≤ 128 }
    requires second_short { length second.now ≤ 128 }
    requires free { array_vec_len page.old ≤ 3968 }
    ensures wrote { OnOk result (Wrote K.Sink (first.now ++ second.now) (page.old.items, page.new.items) (sink.old, sink.new)) }
    ensures broke { OnErr result (Broke K.Sink (first.now ++ second.now) page.old.items (sink.old, sink.new)) }
    ensures free { OnOk result (array_vec_len page.new ≤ 3968) }
{
    write_line(first, page, sink)?;
    write_line(second, page, sink)
}

// Writes the lines of the corners of a triangle.
fn write_corners<K: Sink>(
    points: &[Point],
    triple: &[u32; 3],
    digits: u8,
    page: &mut Page,
    sink: &mut K,
) -> Result<(), Failed>
    requires below { IsBelow (length points.now) (triple_of triple.now) }
    requires digits { digits ≤ 6 }
    requires free { array_vec_len page.old ≤ 3968 }
    ensures wrote { OnOk result (Wrote K.Sink (corner_lines digits points.now (triple_of triple.now)) (page.old.items, page.new.items) (sink.old, sink.new)) }
    ensures broke { OnErr result (Broke K.Sink (corner_lines digits points.now (triple_of triple.now)) page.old.items (sink.old, sink.new)) }
    ensures free { OnOk result (array_vec_len page.new ≤ 3968) }
{
    let [a, b, c] = *triple;
    write_corner(points, a, digits, page, sink)?;
    write_corner(points, b, digits, page, sink)?;
    write_corner(points, c, digits, page, sink)
}

// Writes the facet of a triangle.
fn write_facet<K: Sink>(
    points: &[Point],
    triple: &[u32; 3],
    digits: u8,
    page: &mut Page,
    sink: &mut K,
) -> Result<(), Failed>
    requires below { IsBelow (length points.now) (triple_of triple.now) }
    requires digits { digits ≤ 6 }
    requires free { array_vec_len page.old ≤ 3968 }
    ensures wrote { OnOk result (Wrote K.Sink (facet_text digits points.now (triple_of triple.now)) (page.old.items, page.new.items) (sink.old, sink.new)) }
    ensures broke { OnErr result (Broke K.Sink (facet_text digits points.now (triple_of triple.now)) page.old.items (sink.old, sink.new)) }
    ensures free { OnOk result (array_vec_len page.new ≤ 3968) }
{
    write_two(b"facet normal 0 0 0\n", b"outer loop\n", page, sink)?;
    write_corners(points, triple, digits, page, sink)?;
    write_two(b"endloop\n", b"endfacet\n", page, sink)
}

// Writes the facets of the triangles.
fn write_facets<K: Sink>(
    points: &[Point],
    triples: &[[u32; 3]],
    digits: u8,
    page: &mut Page,
    sink: &mut K,
) -> Result<(), Failed>
    requires below { All (λ t. IsBelow (length points.now) (triple_of t)) triples.now }
    requires digits { digits ≤ 6 }
    requires free { array_vec_len page.old ≤ 3968 }
    ensures wrote { OnOk result (Wrote K.Sink (flat_map (λ t. facet_text digits points.now (triple_of t)) triples.now)
        (page.old.items, page.new.items) (sink.old, sink.new)) }
    ensures broke { OnErr result (Broke K.Sink (flat_map (λ t. facet_text digits points.now (triple_of t)) triples.now) page.old.items (sink.old, sink.new)) }
    ensures free { OnOk result (array_vec_len page.new ≤ 3968) }
{
    for triple in triples {
        write_facet(points, triple, digits, page, sink)?;
    }
    Ok(())
}

// Writes the lines of a mesh, of which the page keeps the last.
fn write_solid<K: Sink>(
    mesh: &Mesh,
    digits: u8,
    page: &mut Page,
    sink: &mut K,
) -> Result<(), Failed>
    requires digits { digits ≤ 6 }
    requires free { array_vec_len page.old ≤ 3968 }
    ensures wrote { OnOk result (Wrote K.Sink (stl_text digits mesh.now.points mesh.now.triples) (page.old.items, page.new.items) (sink.old, sink.new)) }
    ensures broke { OnErr result (Broke K.Sink (stl_text digits mesh.now.points mesh.now.triples) page.old.items (sink.old, sink.new)) }
{
    write_line(b"solid manifold\n", page, sink)?;
    write_facets(mesh.points(), mesh.triples(), digits, page, sink)?;
    write_line(b"endsolid manifold\n", page, sink)
}

/// Writes the ASCII STL text of a mesh to a sink, with `digits` decimal digits for a unit: a line `solid manifold`; for each triangle
/// the lines `facet normal 0 0 0` and `outer loop`, a line `vertex X Y Z` for each of its three points, and the lines `endloop` and
/// `endfacet`; and a line `endsolid manifold`.
///
/// After `Failed`, which comes only where the sink's count of faults rose, a first part of the text was written. A text that fits
/// the room that the sink tells is written whole. The room is less by what was written, whole or in part. It takes no memory; a page
/// of 4,096 bytes goes to the sink where after a line fewer than 128 bytes are free on it, and at the end where it is not empty.
pub fn write_stl<K: Sink>(mesh: &Mesh, digits: u8, sink: &mut K) -> Result<(), Failed>
    requires { digits ≤ 6 }
    ensures added { OnOk result (K.told sink.new ≡ option_map (λ held. held ++ stl_text digits mesh.now.points mesh.now.triples) (K.told sink.old)) }
    ensures less { OnOk result (K.room sink.new ≡ option_map (λ free. free - length (stl_text digits mesh.now.points mesh.now.triples)) (K.room sink.old)) }
    ensures part { OnErr result (TakesPart (stl_text digits mesh.now.points mesh.now.triples) (K.told sink.old) (K.told sink.new)
        (K.room sink.old) (K.room sink.new)) }
    ensures count { Counts (K.faults sink.old) (K.faults sink.new) result }
    ensures kept { Kept K.Sink sink.old sink.new }
    ensures sure { (free : ℕ) → K.room sink.old ≡ Some free → length (stl_text digits mesh.now.points mesh.now.triples) ≤ free → IsOk result }
{
    let mut page = Page::new();
    write_solid(mesh, digits, &mut page, sink)?;
    write_all(sink, page.as_slice())
}
