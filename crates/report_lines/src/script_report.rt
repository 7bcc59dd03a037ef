// The lines that the steps of a script say on the output.
ghost use Rattle.std.specs.Prelude.{◌≡◌, ◌≤◌, ◌++◌, ℕ, codes};
ghost use Rattle.mb_outside.specs.Seen.{MeetsOnOutput};
ghost use Rattle.play_terms.specs.Commands.{say_line};
ghost use Rattle.play_terms.specs.Combined.{Combined, Combined2};
ghost use Rattle.play_terms.specs.ScriptCommands.{op_word, op2_word};
ghost use Rattle.play_terms.specs.ScriptLines.{combine2_line, combine_line, extrude_line, inspect_line, load_line, measure_line, remesh_line, save_line, tidy_line};
ghost use Rattle.mesh_terms.specs.Meshes.{Mesh as TheMesh};
ghost use Rattle.mesh_files.specs.Reasons.{soup_of};
ghost use Rattle.report_lines.specs.Counts.{counts2_of, counts_of};
ghost use Rattle.report_lines.specs.Inspections.{IsInspectionOf};
ghost use Rattle.report_lines.specs.Measures.{IsMeasureOf};
ghost use Rattle.report_lines.specs.Reports.{said};
ghost use Rattle.report_lines.specs.Taken.{Takes};

use crate::inspection_tail::{corners_tail, inspected_tail};
use crate::report::say;
use crate::script_tail::{
    combined_tail, combined2_tail, extruded_tail, measured_tail, remeshed_tail, saved_tail,
    size_tail, tidied_tail,
};
use crate::tail::copied_tail;
use mb_base::Op;
use mb_outside::{Failed, Sink};
use mesh_check::Mesh;
use mesh_make::Measure;
use self_cuts::Inspection;

/// The numbers of an operation: how many vertices of each mesh were kept, how many crossings there are, and how many cuts were forced.
#[derive(Clone, Copy, Debug, PartialEq, Eq, Drop)]
pub struct OperationCounts {
    pub kept: [u64; 2],
    pub crossings: u64,
    pub forced: u64,
}

/// The numbers of an operation on outlines: how many vertices of each were kept, and how many crossings there are.
#[derive(Clone, Copy, Debug, PartialEq, Eq, Drop)]
pub struct OutlineCounts {
    pub kept: [u64; 2],
    pub crossings: u64,
}

/// Reports a mesh that was read: `load NAME FILE: points P, triangles T, unused U`. After `Failed`, which comes only where the sink's count
/// rose, it has a first part of the line.
pub fn say_loaded<K: Sink>(
    name: &str,
    file: &str,
    mesh: &Mesh,
    unused: u32,
    sink: &mut K,
) -> Result<(), Failed>
    ensures meets { MeetsOnOutput K.Sink (say_line (load_line name.now file.now (soup_of mesh.now unused))) sink.old sink.new (said result) }
    ensures takes { Takes K.Sink (load_line name.now file.now (soup_of mesh.now unused)) sink.old sink.new result }
{
    let points = mesh.points().len() as u64;
    let triangles = mesh.triples().len() as u64;
    let tail = copied_tail(points, triangles, u64::from(unused));
    let (name, file) = (name.as_bytes(), file.as_bytes());
    say(&[b"load ", name, b" ", file, tail.as_slice()], sink)
}

/// Reports a mesh that was saved: `save NAME FILE: points P, triangles T`. After `Failed`, which comes only where the sink's count rose, it
/// has a first part of the line.
pub fn say_saved<K: Sink>(name: &str, file: &str, mesh: &Mesh, sink: &mut K) -> Result<(), Failed>
    ensures meets { MeetsOnOutput K.Sink (say_line (save_line name.now file.now mesh.now)) sink.old sink.new (said result) }
    ensures takes { Takes K.Sink (save_line name.now file.now mesh.now) sink.old sink.new result }
{
    let points = mesh.points().len() as u64;
    let triangles = mesh.triples().len() as u64;
    let tail = saved_tail(points, triangles);
    let (name, file) = (name.as_bytes(), file.as_bytes());
    say(&[b"save ", name, b" ", file, tail.as_slice()], sink)
}

/// Reports the measures of a mesh: `NAME: points P, triangles T, components C, euler E, volume6 V`. After `Failed`, which comes only where the
/// sink's count rose, it has a first part of the line.
pub fn say_measured<K: Sink>(name: &str, measure: &Measure, sink: &mut K) -> Result<(), Failed>
    ensures meets { (m : TheMesh) → IsMeasureOf m measure.now →
        MeetsOnOutput K.Sink (say_line (measure_line name.now m)) sink.old sink.new (said result) }
    ensures takes { (m : TheMesh) → IsMeasureOf m measure.now → Takes K.Sink (measure_line name.now m) sink.old sink.new result }
{
    let size = size_tail(measure.points, measure.triangles);
    let tail = measured_tail(measure.components, measure.euler, measure.volume6);
    say(&[name.as_bytes(), size.as_slice(), tail.as_slice()], sink)
}

/// Reports the inspection of a mesh: `NAME: low X Y Z, high X Y Z, flat F, doubled D, touching E, cuts C`, with the corners of its box under
/// so many digits. After `Failed`, which comes only where the sink's count rose, it has a first part of the line.
pub fn say_inspected<K: Sink>(
    name: &str,
    digits: u8,
    seen: &Inspection,
    sink: &mut K,
) -> Result<(), Failed>
    requires { digits ≤ 6 }
    ensures meets { (m : TheMesh) (cuts : ℕ) → IsInspectionOf m cuts seen.now →
        MeetsOnOutput K.Sink (say_line (inspect_line digits name.now m cuts)) sink.old sink.new (said result) }
    ensures takes { (m : TheMesh) (cuts : ℕ) → IsInspectionOf m cuts seen.now →
        Takes K.Sink (inspect_line digits name.now m cuts) sink.old sink.new result }
{
    let corners = corners_tail(&seen.low, &seen.high, digits);
    let counts = inspected_tail(seen.flat, seen.doubled, seen.touching, seen.cuts);
    say(
        &[name.as_bytes(), corners.as_slice(), counts.as_slice()],
        sink,
    )
}

/// Reports a tidied mesh: `NAME = tidy OLD: collapsed N`. After `Failed`, which comes only where the sink's count rose, it has a first
/// part of the line.
pub fn say_tidied<K: Sink>(
    name: &str,
    source: &str,
    collapsed: u64,
    sink: &mut K,
) -> Result<(), Failed>
    ensures meets { MeetsOnOutput K.Sink (say_line (tidy_line name.now source.now collapsed)) sink.old sink.new (said result) }
    ensures takes { Takes K.Sink (tidy_line name.now source.now collapsed) sink.old sink.new result }
{
    let tail = tidied_tail(collapsed);
    let (name, source) = (name.as_bytes(), source.as_bytes());
    say(&[name, b" = tidy ", source, tail.as_slice()], sink)
}

/// Reports a remeshed mesh: `NAME = remesh OLD: planes P, kept K`. After `Failed`, which comes only where the sink's count rose, it has a
/// first part of the line.
pub fn say_remeshed<K: Sink>(
    name: &str,
    source: &str,
    planes: u64,
    kept: u64,
    sink: &mut K,
) -> Result<(), Failed>
    ensures meets { MeetsOnOutput K.Sink (say_line (remesh_line name.now source.now planes kept)) sink.old sink.new (said result) }
    ensures takes { Takes K.Sink (remesh_line name.now source.now planes kept) sink.old sink.new result }
{
    let tail = remeshed_tail(planes, kept);
    let (name, source) = (name.as_bytes(), source.as_bytes());
    say(&[name, b" = remesh ", source, tail.as_slice()], sink)
}

/// Reports an extruded outline: `NAME = extrude OLD: forced F`. After `Failed`, which comes only where the sink's count rose, it has a
/// first part of the line.
pub fn say_extruded<K: Sink>(
    name: &str,
    source: &str,
    forced: u64,
    sink: &mut K,
) -> Result<(), Failed>
    ensures meets { MeetsOnOutput K.Sink (say_line (extrude_line name.now source.now forced)) sink.old sink.new (said result) }
    ensures takes { Takes K.Sink (extrude_line name.now source.now forced) sink.old sink.new result }
{
    let tail = extruded_tail(forced);
    let (name, source) = (name.as_bytes(), source.as_bytes());
    say(&[name, b" = extrude ", source, tail.as_slice()], sink)
}

// The word of an operation, between the name that gets the result and those of the two meshes. It has any lifetime, so that it can
// stand in a list with these.
fn op_text<'a>(op: Op) -> &'a [u8]
    ensures { result.now ≡ codes " = " ++ op_word op ++ codes " " }
{
    match op {
        Op::Union => b" = union ",
        Op::Intersect => b" = intersect ",
        Op::Subtract => b" = subtract ",
    }
}

/// Reports an operation: `NAME = OP LEFT RIGHT: kept N M, crossings X, forced F`. After `Failed`, which comes only where the sink's count
/// rose, it has a first part of the line.
pub fn say_combined<'a, K: Sink>(
    op: Op,
    name: &'a str,
    left: &'a str,
    right: &'a str,
    counts: &OperationCounts,
    sink: &mut K,
) -> Result<(), Failed>
    ensures meets { (o : Combined) → counts.now ≡ counts_of o →
        MeetsOnOutput K.Sink (say_line (combine_line op name.now left.now right.now o)) sink.old sink.new (said result) }
    ensures takes { (o : Combined) → counts.now ≡ counts_of o →
        Takes K.Sink (combine_line op name.now left.now right.now o) sink.old sink.new result }
{
    let tail = combined_tail(counts.kept, counts.crossings, counts.forced);
    let (name, left, right) = (name.as_bytes(), left.as_bytes(), right.as_bytes());
    let word = op_text(op);
    say(&[name, word, left, b" ", right, tail.as_slice()], sink)
}

// The word of an operation on outlines, between the name that gets the result and those of the two.
fn op2_text<'a>(op: Op) -> &'a [u8]
    ensures { result.now ≡ codes " = " ++ op2_word op ++ codes " " }
{
    match op {
        Op::Union => b" = union2 ",
        Op::Intersect => b" = intersect2 ",
        Op::Subtract => b" = subtract2 ",
    }
}

/// Reports an operation on outlines: `NAME = OP LEFT RIGHT: kept N M, crossings X`. After `Failed`, which comes only where the sink's count
/// rose, it has a first part of the line.
pub fn say_combined2<'a, K: Sink>(
    op: Op,
    name: &'a str,
    left: &'a str,
    right: &'a str,
    counts: &OutlineCounts,
    sink: &mut K,
) -> Result<(), Failed>
    ensures meets { (o : Combined2) → counts.now ≡ counts2_of o →
        MeetsOnOutput K.Sink (say_line (combine2_line op name.now left.now right.now o)) sink.old sink.new (said result) }
    ensures takes { (o : Combined2) → counts.now ≡ counts2_of o →
        Takes K.Sink (combine2_line op name.now left.now right.now o) sink.old sink.new result }
{
    let tail = combined2_tail(counts.kept, counts.crossings);
    let (name, left, right) = (name.as_bytes(), left.as_bytes(), right.as_bytes());
    let word = op2_text(op);
    say(&[name, word, left, b" ", right, tail.as_slice()], sink)
}
