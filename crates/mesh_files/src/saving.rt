// Saving a mesh to a shelf.
ghost use Rattle.std.specs.Prelude.{◌≡◌, ◌≤◌, ◌++◌, ◌-◌, ℕ, Some, [], length, IsTrue, IsOk, OnErr, OnOk, IfErr};
ghost use Rattle.std.specs.Option.{option_map};
ghost use Rattle.run_terms.specs.Files.{Counts};
ghost use Rattle.run_terms.specs.Meets.{Meets};
ghost use Rattle.play_terms.specs.Commands.{write_mesh};
ghost use Rattle.play_terms.specs.Formats.{mesh_text};
ghost use Rattle.mb_outside.specs.Seen.{MeetsOnShelf};
ghost use Rattle.mb_outside.specs.Sinks.{Kept, TakesPart};
ghost use Rattle.mesh_writer.specs.Pages.{without};
ghost use Rattle.mesh_files.specs.Reasons.{saved};
ghost use Rattle.mesh_files.specs.Pieces.{HasRoom, HoldsPart, WritesPart, spare_after, text_in};

use crate::stop::Stop;
use mb_outside::{Failed, Shelf, Sink};
use mesh_check::Mesh;
use mesh_writer::{PageSink, write_obj, write_stl};
use play_terms::{Format, format_of};

// Writes the text of a mesh for a file of this name.
fn write_text<K: Sink>(mesh: &Mesh, name: &str, digits: u8, sink: &mut K) -> Result<(), Failed>
    requires { digits ≤ 6 }
    ensures added { OnOk result (K.told sink.new ≡ option_map (λ held. held ++ text_in digits name.now mesh.now) (K.told sink.old)) }
    ensures less { OnOk result (K.room sink.new ≡ option_map (λ free. free - length (text_in digits name.now mesh.now)) (K.room sink.old)) }
    ensures part { OnErr result (TakesPart (text_in digits name.now mesh.now) (K.told sink.old) (K.told sink.new) (K.room sink.old) (K.room sink.new)) }
    ensures count { Counts (K.faults sink.old) (K.faults sink.new) result }
    ensures kept { Kept K.Sink sink.old sink.new }
    ensures sure { (free : ℕ) → K.room sink.old ≡ Some free → length (text_in digits name.now mesh.now) ≤ free → IsOk result }
{
    match format_of(name.as_bytes()) {
        Format::Obj => write_obj(mesh, digits, sink),
        Format::Stl => write_stl(mesh, digits, sink),
    }
}

// Appends the text of a mesh to a file that is there.
fn append_text<S: Shelf>(mesh: &Mesh, name: &str, digits: u8, shelf: &mut S) -> Result<(), Failed>
    requires digits { digits ≤ 6 }
    requires empty { IsTrue (S.tells shelf.old) → S.files shelf.old name.now ≡ Some [] }
    ensures text { OnOk result (IsTrue (S.tells shelf.old) → S.files shelf.new name.now ≡ Some (text_in digits name.now mesh.now)) }
    ensures spare { OnOk result (S.spare shelf.new ≡ spare_after name.now (length (text_in digits name.now mesh.now)) (S.spare shelf.old)) }
    ensures part { OnErr result (HoldsPart (S.tells shelf.old) (S.files shelf.new name.now) name.now (text_in digits name.now mesh.now)
        (S.spare shelf.old) (S.spare shelf.new)) }
    ensures others { IsTrue (S.tells shelf.old) → without name.now (S.files shelf.new) ≡ without name.now (S.files shelf.old) }
    ensures writes { Counts (S.write_faults shelf.old) (S.write_faults shelf.new) result }
    ensures reads { S.read_faults shelf.new ≡ S.read_faults shelf.old }
    ensures short { S.short_reads shelf.new ≡ S.short_reads shelf.old }
    ensures told { S.tells shelf.new ≡ S.tells shelf.old }
    ensures sure { HasRoom (S.spare shelf.old) name.now (text_in digits name.now mesh.now) → IsOk result }
{
    let mut sink = PageSink::of(shelf, name);
    write_text(mesh, name, digits, &mut sink)
}

/// Saves a mesh as the text of a file of a shelf, where a unit has `digits` decimal digits on the grid: as ASCII STL where the name
/// ends with `.stl`, ASCII case ignored, and else as OBJ.
///
/// The only stop is `WriteFault`, which comes only where the shelf's count of write faults rose. The file then holds a first part
/// of its text, or what it held. No other file changes. Where the shelf's spare is this file's and the text fits its
/// room, the mesh is saved. Such a spare is less by what was written, whole or in part; any other is as it was. It takes no memory.
pub fn save_mesh<S: Shelf>(mesh: &Mesh, name: &str, digits: u8, shelf: &mut S) -> Result<(), Stop>
    requires { digits ≤ 6 }
    ensures meets { MeetsOnShelf S.Shelf (write_mesh digits name.now mesh.now.points mesh.now.triples mesh.now.labels) shelf.old shelf.new
        (saved name.now result) }
    ensures stop { IfErr result (λ stop. stop ≡ Stop.WriteFault) }
    ensures spare { OnOk result (S.spare shelf.new ≡
        spare_after name.now (length (mesh_text digits name.now mesh.now.points mesh.now.triples mesh.now.labels)) (S.spare shelf.old)) }
    ensures part { OnErr result (WritesPart (S.tells shelf.old) name.now (mesh_text digits name.now mesh.now.points mesh.now.triples mesh.now.labels)
        (S.files shelf.old) (S.files shelf.new) (S.spare shelf.old) (S.spare shelf.new)) }
    ensures sure { HasRoom (S.spare shelf.old) name.now (mesh_text digits name.now mesh.now.points mesh.now.triples mesh.now.labels) → IsOk result }
{
    let Ok(()) = shelf.begin(name) else {
        return Err(Stop::WriteFault);
    };
    let Ok(()) = append_text(mesh, name, digits, shelf) else {
        return Err(Stop::WriteFault);
    };
    Ok(())
}
