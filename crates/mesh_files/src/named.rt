// The files of a command, by name: the bytes of one are read, or the mesh in it, or a mesh is saved to one. What stops at a file carries its name.
ghost use Rattle.std.specs.Prelude.{◌≡◌, ◌≤◌, false, length, IfErr, IsOk, OnErr, OnOk};
ghost use Rattle.mesh_terms.specs.Limits.{IsLawful};
ghost use Rattle.play_terms.specs.Commands.{ask_file, ask_mesh, write_mesh};
ghost use Rattle.play_terms.specs.Formats.{mesh_text};
ghost use Rattle.mb_outside.specs.Seen.{MeetsOnShelf};
ghost use Rattle.mesh_files.specs.Reads.{soup_with};
ghost use Rattle.mesh_files.specs.Pieces.{HasRoom, WritesPart, spare_after};
ghost use Rattle.mesh_files.specs.Halts.{IsUnreadAt, IsUnwrittenAt, halted, halted_by, is_unsaid};

use crate::files::read_file;
use crate::halt::Halt;
use crate::reading::{Read, read_mesh};
use crate::saving::save_mesh;
use mb_base::Limits;
use mb_outside::Shelf;
use mesh_check::Mesh;
use std::alloc::Global;

/// Reads the bytes of a file, as `read_file` does.
pub fn read_named_file<'a, S: Shelf>(
    alloc: Global,
    name: &'a str,
    limits: &Limits,
    shelf: &mut S,
) -> Result<Vec<u8>, Halt<'a>>
    ensures meets { MeetsOnShelf S.Shelf (ask_file limits.now name.now) shelf.old shelf.new (halted_by (λ bytes. bytes.items) result) }
    ensures unread { IfErr result (IsUnreadAt name.now) }
    ensures lawful { IsLawful limits.now }
{
    match read_file(alloc, name, limits, shelf) {
        Ok(bytes) => Ok(bytes),
        Err(stop) => Err(Halt::At { name, stop }),
    }
}

/// Reads a mesh from a file, as `read_mesh` does.
pub fn read_named_mesh<'a, S: Shelf>(
    alloc: Global,
    name: &'a str,
    digits: u8,
    limits: &Limits,
    shelf: &mut S,
) -> Result<Read, Halt<'a>>
    requires digits { digits ≤ 6 }
    ensures meets { MeetsOnShelf S.Shelf (ask_mesh digits limits.now name.now) shelf.old shelf.new (halted_by soup_with result) }
    ensures unread { IfErr result (IsUnreadAt name.now) }
    ensures unsaid { IfErr result (λ halt. is_unsaid halt ≡ false) }
    ensures lawful { IsLawful limits.now }
{
    match read_mesh(alloc, name, digits, limits, shelf) {
        Ok(read) => Ok(read),
        Err(stop) => Err(Halt::At { name, stop }),
    }
}

/// Saves a mesh to a file, as `save_mesh` does.
pub fn save_named_mesh<'a, S: Shelf>(
    mesh: &Mesh,
    name: &'a str,
    digits: u8,
    shelf: &mut S,
) -> Result<(), Halt<'a>>
    requires digits { digits ≤ 6 }
    ensures meets { MeetsOnShelf S.Shelf (write_mesh digits name.now mesh.now.points mesh.now.triples mesh.now.labels) shelf.old shelf.new (halted result) }
    ensures unwritten { IfErr result (IsUnwrittenAt name.now) }
    ensures spare { OnOk result (S.spare shelf.new ≡
        spare_after name.now (length (mesh_text digits name.now mesh.now.points mesh.now.triples mesh.now.labels)) (S.spare shelf.old)) }
    ensures part { OnErr result (WritesPart (S.tells shelf.old) name.now (mesh_text digits name.now mesh.now.points mesh.now.triples mesh.now.labels)
        (S.files shelf.old) (S.files shelf.new) (S.spare shelf.old) (S.spare shelf.new)) }
    ensures sure { HasRoom (S.spare shelf.old) name.now (mesh_text digits name.now mesh.now.points mesh.now.triples mesh.now.labels) → IsOk result }
{
    match save_mesh(mesh, name, digits, shelf) {
        Ok(()) => Ok(()),
        Err(stop) => Err(Halt::At { name, stop }),
    }
}
