// The OBJ text of a mesh.
ghost use Rattle.std.specs.Prelude.{◌≡◌, ◌≤◌, ◌++◌, ◌-◌, ℕ, Some, [], length, IsOk, IsTrue, OnOk, OnErr};
ghost use Rattle.std.specs.Option.{option_map};
ghost use Rattle.std.specs.List.{flat_map};
ghost use Rattle.arrayvec.specs.ArrayVec.{array_vec_len};
ghost use Rattle.run_terms.specs.Files.{Counts};
ghost use Rattle.mesh_terms.specs.Labels.{label_at};
ghost use Rattle.mesh_terms.specs.Meshes.{triple_of};
ghost use Rattle.format_terms.specs.ObjWritten.{point_line, face_line, face_lines, obj_text};
ghost use Rattle.mb_outside.specs.Sinks.{Kept, TakesPart};
ghost use Rattle.mesh_writer.specs.Faces.{label_before};
ghost use Rattle.mesh_writer.specs.Passing.{PassedOn, StoppedOn};

use crate::lines::{put_change, put_face, put_point};
use crate::page::{Page, send_full};
use mb_base::Point;
use mb_outside::{Failed, Sink, write_all};
use mesh_check::Mesh;

// Writes the lines of the points.
fn write_points<K: Sink>(
    points: &[Point],
    digits: u8,
    page: &mut Page,
    sink: &mut K,
) -> Result<(), Failed>
    requires digits { digits ≤ 6 }
    requires free { array_vec_len page.old ≤ 3968 }
    ensures passed { OnOk result (PassedOn K.Sink (flat_map (point_line digits) points.now) (page.old.items, page.new.items) (sink.old, sink.new)) }
    ensures stopped { OnErr result (StoppedOn K.Sink (flat_map (point_line digits) points.now) page.old.items (sink.old, sink.new)) }
    ensures free { OnOk result (array_vec_len page.new ≤ 3968) }
    ensures idle { points.now ≡ [] → (sink.new ≡ sink.old) × (page.new.items ≡ page.old.items) }
    ensures count { Counts (K.faults sink.old) (K.faults sink.new) result }
    ensures kept { Kept K.Sink sink.old sink.new }
{
    for point in points {
        put_point(page, point, digits);
        send_full(page, sink)?;
    }
    Ok(())
}

// Writes the lines of the triangles.
fn write_faces<K: Sink>(triples: &[[u32; 3]], page: &mut Page, sink: &mut K) -> Result<(), Failed>
    requires { array_vec_len page.old ≤ 3968 }
    ensures passed { OnOk result (PassedOn K.Sink (flat_map (λ t. face_line (triple_of t)) triples.now) (page.old.items, page.new.items) (sink.old, sink.new)) }
    ensures stopped { OnErr result (StoppedOn K.Sink (flat_map (λ t. face_line (triple_of t)) triples.now) page.old.items (sink.old, sink.new)) }
    ensures idle { triples.now ≡ [] → (sink.new ≡ sink.old) × (page.new.items ≡ page.old.items) }
    ensures count { Counts (K.faults sink.old) (K.faults sink.new) result }
    ensures kept { Kept K.Sink sink.old sink.new }
{
    for triple in triples {
        put_face(page, triple);
        send_full(page, sink)?;
    }
    Ok(())
}

// Whether a triangle is known, without a look at the bytes, to have the label of the one before.
fn repeats(mesh: &Mesh, place: u32) -> bool
    ensures { IsTrue result → label_before mesh.now.labels place ≡ label_at mesh.now.labels place }
{
    place > 0 && mesh.shares_label(place - 1, place)
}

// Writes the lines of the triangles with their labels.
fn write_labelled<K: Sink>(mesh: &Mesh, page: &mut Page, sink: &mut K) -> Result<(), Failed>
    requires each { length mesh.now.labels ≡ length mesh.now.triples }
    requires free { array_vec_len page.old ≤ 3968 }
    ensures passed { OnOk result (PassedOn K.Sink (face_lines [] mesh.now.labels mesh.now.triples) (page.old.items, page.new.items) (sink.old, sink.new)) }
    ensures stopped { OnErr result (StoppedOn K.Sink (face_lines [] mesh.now.labels mesh.now.triples) page.old.items (sink.old, sink.new)) }
    ensures idle { mesh.now.triples ≡ [] → (sink.new ≡ sink.old) × (page.new.items ≡ page.old.items) }
    ensures count { Counts (K.faults sink.old) (K.faults sink.new) result }
    ensures kept { Kept K.Sink sink.old sink.new }
{
    let triples = mesh.triples();
    let mut before: &[u8] = &[];
    for place in 0..triples.len() {
        let label = mesh.label(place as u32);
        put_change(page, before, label, repeats(mesh, place as u32));
        put_face(page, &triples[place]);
        send_full(page, sink)?;
        before = label;
    }
    Ok(())
}

// Writes the lines of the triangles, those without labels in one pass that looks for none.
fn write_triangles<K: Sink>(mesh: &Mesh, page: &mut Page, sink: &mut K) -> Result<(), Failed>
    requires { array_vec_len page.old ≤ 3968 }
    ensures passed { OnOk result (PassedOn K.Sink (face_lines [] mesh.now.labels mesh.now.triples) (page.old.items, page.new.items) (sink.old, sink.new)) }
    ensures stopped { OnErr result (StoppedOn K.Sink (face_lines [] mesh.now.labels mesh.now.triples) page.old.items (sink.old, sink.new)) }
    ensures idle { mesh.now.triples ≡ [] → (sink.new ≡ sink.old) × (page.new.items ≡ page.old.items) }
    ensures count { Counts (K.faults sink.old) (K.faults sink.new) result }
    ensures kept { Kept K.Sink sink.old sink.new }
{
    match mesh.labels() {
        Some(_) => write_labelled(mesh, page, sink),
        None => write_faces(mesh.triples(), page, sink),
    }
}

/// Writes the OBJ text of a mesh to a sink, with `digits` decimal digits for a unit: a line `v X Y Z` for each point, then a
/// line `f A B C` for each triangle, its vertices counted from 1, and before it a line `g LABEL` where its label is not that
/// of the triangle before, or `g` for an empty one.
///
/// After `Failed`, which comes only where the sink's count of faults rose, a first part of the text was written. A text that fits
/// the room that the sink tells is written whole. The room is less by what was written, whole or in part. It takes no memory; a page
/// of 4,096 bytes goes to the sink where after a line of a point or a triangle fewer than 128 bytes are free on it, and at the end where it is
/// not empty. So of an empty mesh nothing is written.
pub fn write_obj<K: Sink>(mesh: &Mesh, digits: u8, sink: &mut K) -> Result<(), Failed>
    requires { digits ≤ 6 }
    ensures added { OnOk result (K.told sink.new ≡ option_map (λ held. held ++ obj_text digits mesh.now.points mesh.now.triples mesh.now.labels)
        (K.told sink.old)) }
    ensures less { OnOk result (K.room sink.new ≡ option_map (λ free. free - length (obj_text digits mesh.now.points mesh.now.triples mesh.now.labels))
        (K.room sink.old)) }
    ensures part { OnErr result (TakesPart (obj_text digits mesh.now.points mesh.now.triples mesh.now.labels) (K.told sink.old) (K.told sink.new)
        (K.room sink.old) (K.room sink.new)) }
    ensures idle { obj_text digits mesh.now.points mesh.now.triples mesh.now.labels ≡ [] → sink.new ≡ sink.old }
    ensures count { Counts (K.faults sink.old) (K.faults sink.new) result }
    ensures kept { Kept K.Sink sink.old sink.new }
    ensures sure { (free : ℕ) → K.room sink.old ≡ Some free → length (obj_text digits mesh.now.points mesh.now.triples mesh.now.labels) ≤ free → IsOk result }
{
    let mut page = Page::new();
    write_points(mesh.points(), digits, &mut page, sink)?;
    write_triangles(mesh, &mut page, sink)?;
    write_all(sink, page.as_slice())
}
