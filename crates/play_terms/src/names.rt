//! What a file of a mesh is by the suffix of its name.

ghost use Rattle.std.specs.Prelude.{◌≡◌};
ghost use Rattle.format_terms.specs.ObjWritten.{is_obj};
ghost use Rattle.format_terms.specs.StlWritten.{is_stl};
ghost use Rattle.play_terms.specs.Formats.{format_of, is_mesh_name};

/// Whether a name ends with `.obj` or `.stl`, ASCII case ignored.
pub fn is_mesh_name(name: &[u8]) -> bool
    ensures { result ≡ is_mesh_name name.now }
{
    is_obj_name(name) || is_stl_name(name)
}

/// The format of a file by its name: ASCII STL where that ends with `.stl`, ASCII case ignored, and else OBJ.
pub fn format_of(name: &[u8]) -> Format
    ensures { result ≡ format_of name.now }
{
    if is_stl_name(name) {
        Format::Stl
    } else {
        Format::Obj
    }
}

// Whether a name ends with `.stl`, ASCII case ignored.
fn is_stl_name(name: &[u8]) -> bool
    ensures { result ≡ is_stl name.now }
{
    let start = name.len().saturating_sub(4);
    name[start..].eq_ignore_ascii_case(b".stl")
}

// Whether a name ends with `.obj`, ASCII case ignored.
fn is_obj_name(name: &[u8]) -> bool
    ensures { result ≡ is_obj name.now }
{
    let start = name.len().saturating_sub(4);
    name[start..].eq_ignore_ascii_case(b".obj")
}

use crate::Format;
