// Reading from a shelf that tells no files, and reading and saving over one that does.
ghost use Rattle.std.specs.Prelude.{◌≤◌, ◌++◌, IsOk};
ghost use Rattle.mesh_files.specs.Pieces.{HasRoom, text_in};

use crate::obj::TETRAHEDRON;
use crate::shelves::{holds, shelf_with};
use mb_base::Limits;
use mb_outside::{MemoryShelf, Shelf, ShortShelf, SureShelf};
use mesh_check::Mesh;
use mesh_files::{Stop, read_mesh, save_mesh};
use std::alloc::Global;
use std::process::Abort;

// Why a shelf's file is no mesh, where it is none.
fn stop_of<S: Shelf>(alloc: Global, shelf: &mut S) -> Option<Stop> {
    match read_mesh(alloc, "t.obj", 4, &Limits::program(), shelf) {
        Ok(_) => None,
        Err(stop) => Some(stop),
    }
}

// How the reading of a mesh ends from a shelf that holds these bytes and states this size of them.
fn read_from(rt: &impl Abort, alloc: Global, stated: u64, given: &[u8]) -> Option<Stop> {
    let mut shelf = ShortShelf::of(alloc, "t.obj", given, stated).expect(rt, "a shelf");
    stop_of(alloc, &mut shelf)
}

#[test]
fn a_file_that_ends_early_is_a_read_fault(rt: HostRuntime) {
    let short = read_from(&rt, rt.alloc(), 100, &[b' '; 64]);
    assert!(rt; matches!(short, Some(Stop::ReadFault)));
    assert!(rt; read_from(&rt, rt.alloc(), 64, &[b' '; 100]).is_none());
}

// A shelf with one file.
fn shelf_of(rt: &impl Abort, alloc: Global, bytes: &[u8]) -> MemoryShelf {
    shelf_with(rt, alloc, 2, 1000, 1000, Vec::new(alloc), "t.obj", bytes)
}

// Whether a shelf's file is read as a mesh and saved to another.
fn copies<S: Shelf>(alloc: Global, shelf: &mut S) -> bool {
    match read_mesh(alloc, "t.obj", 4, &Limits::program(), shelf) {
        Ok(read) => save_mesh(&read.mesh, "u.obj", 4, shelf).is_ok(),
        Err(_) => false,
    }
}

// Whether the bytes are read as a mesh and saved so again.
fn is_copied(rt: &impl Abort, alloc: Global, bytes: &[u8]) -> bool {
    let mut shelf = shelf_of(rt, alloc, bytes);
    copies(alloc, &mut shelf) && holds(&shelf, "u.obj", bytes)
}

#[test]
fn what_was_read_is_saved(rt: HostRuntime) {
    assert!(rt; is_copied(&rt, rt.alloc(), TETRAHEDRON));
    assert!(rt; is_copied(&rt, rt.alloc(), b""));
}

#[test]
fn what_is_no_mesh_says_why(rt: HostRuntime) {
    let open = b"v 0 0 0\nv 1 0 0\nv 0 1 0\nf 1 2 3\n";
    let stop = stop_of(rt.alloc(), &mut shelf_of(&rt, rt.alloc(), open));
    assert!(rt; matches!(stop, Some(Stop::BadEdge { from: 0, to: 1 })));
}

// Saves a mesh twice to a file. Where the file is the shelf's spare and has room for both texts, both are written.
fn save_twice<S: Shelf>(mesh: &Mesh, name: &str, digits: u8, shelf: &mut S) -> Result<(), Stop>
    requires { digits ≤ 6 }
    ensures { HasRoom (S.spare shelf.old) name.now (text_in digits name.now mesh.now ++ text_in digits name.now mesh.now) → IsOk result }
{
    save_mesh(mesh, name, digits, shelf)?;
    save_mesh(mesh, name, digits, shelf)
}

// Whether a shelf's file is read as a mesh and saved twice to another.
fn copies_twice<S: Shelf>(alloc: Global, shelf: &mut S) -> bool {
    match read_mesh(alloc, "t.obj", 4, &Limits::program(), shelf) {
        Ok(read) => save_twice(&read.mesh, "u.obj", 4, shelf).is_ok(),
        Err(_) => false,
    }
}

// Whether the tetrahedron is saved twice to a file with so much room.
fn is_saved_twice(rt: &impl Abort, alloc: Global, room: usize) -> bool {
    let shelf = SureShelf::of(alloc, "t.obj", TETRAHEDRON, "u.obj", room);
    copies_twice(alloc, &mut shelf.expect(rt, "a shelf"))
}

#[test]
fn each_save_takes_its_text_off_the_room(rt: HostRuntime) {
    assert!(rt; is_saved_twice(&rt, rt.alloc(), 128));
    assert!(rt; !is_saved_twice(&rt, rt.alloc(), 127));
}
