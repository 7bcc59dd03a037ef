// Reading the mesh in a file of a shelf.
ghost use Rattle.std.specs.Prelude.{◌≡◌, ◌≤◌, Ok, IsTrue, IfOk, IfErr};
ghost use Rattle.mesh_terms.specs.Limits.{IsLawful};
ghost use Rattle.run_terms.specs.Meets.{Seen, Meets};
ghost use Rattle.run_terms.specs.Tasks.{give};
ghost use Rattle.play_terms.specs.Commands.{ask_mesh, checked};
ghost use Rattle.play_terms.specs.Formats.{mesh_soup};
ghost use Rattle.mb_outside.specs.Seen.{MeetsOnShelf};
ghost use Rattle.grid_number.specs.TextFaults.{IsFaultOf};
ghost use Rattle.mesh_files.specs.Reads.{soup_with};
ghost use Rattle.mesh_files.specs.Reasons.{ended_by, is_reading_stop};

use crate::files::read_file;
use crate::stop::Stop;
use mb_base::{Limits, Soup, TextFault};
use mb_outside::Shelf;
use mesh_check::Mesh;
use obj_text::read_obj;
use play_terms::{Format, format_of};
use std::alloc::Global;
use stl_text::read_stl;

/// A mesh that was read, and how many points of its file no triangle uses.
#[derive(Drop)]
pub struct Read {
    pub mesh: Mesh,
    pub unused: u32,
}

// The points, triangles and labels of a text, in the format of its file's name. The text is let go.
fn soup_of_text(
    alloc: Global,
    name: &str,
    bytes: Vec<u8>,
    digits: u8,
    limits: &Limits,
) -> Result<Soup, TextFault>
    requires { digits ≤ 6 }
    ensures soup { IfOk result (λ soup. mesh_soup digits limits.now name.now bytes.items ≡ Ok soup) }
    ensures fault { IfErr result (IsFaultOf (mesh_soup digits limits.now name.now bytes.items)) }
{
    match format_of(name.as_bytes()) {
        Format::Obj => read_obj(alloc, &bytes, digits, limits),
        Format::Stl => read_stl(alloc, &bytes, digits, limits),
    }
}

// The mesh of a text, which is let go before the mesh is checked.
fn mesh_of_text(
    alloc: Global,
    name: &str,
    bytes: Vec<u8>,
    digits: u8,
    limits: &Limits,
) -> Result<Read, Stop>
    requires { digits ≤ 6 }
    ensures meets { (now : Seen) →
        Meets (give (checked name.now (mesh_soup digits limits.now name.now bytes.items))) now now (ended_by soup_with name.now result) }
    ensures stop { IfErr result (λ stop. IsTrue (is_reading_stop stop)) }
{
    let soup = soup_of_text(alloc, name, bytes, digits, limits)?;
    let unused = soup.unused();
    let mesh = Mesh::check(alloc, soup)?;
    Ok(Read { mesh, unused })
}

/// Reads a mesh from a file of a shelf, where a unit has `digits` decimal digits on the grid: the file, as `read_file` does, then
/// its text, which is ASCII STL where the name ends with `.stl`, ASCII case ignored, and else OBJ, and then whether the mesh is
/// closed. After the stops of `read_file` come those of the text, first line first: a line that is wrong, or a count of points or
/// triangles past its limit; and then the least edge without its reverse. Where a read gave nothing below the size that was
/// stated, the shelf's count of such reads rises, but where it stands at 2^64 - 1, its last value, it stays. It takes memory for
/// the file's bytes and the mesh.
pub fn read_mesh<S: Shelf>(
    alloc: Global,
    name: &str,
    digits: u8,
    limits: &Limits,
    shelf: &mut S,
) -> Result<Read, Stop>
    requires { digits ≤ 6 }
    ensures meets { MeetsOnShelf S.Shelf (ask_mesh digits limits.now name.now) shelf.old shelf.new (ended_by soup_with name.now result) }
    ensures stop { IfErr result (λ stop. IsTrue (is_reading_stop stop)) }
    ensures lawful { IsLawful limits.now }
    ensures files { S.files shelf.new ≡ S.files shelf.old }
    ensures spare { S.spare shelf.new ≡ S.spare shelf.old }
{
    let bytes = read_file(alloc, name, limits, shelf)?;
    mesh_of_text(alloc, name, bytes, digits, limits)
}
