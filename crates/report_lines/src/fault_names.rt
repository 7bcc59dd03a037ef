// The names of faults as the lines on standard error have them: kinds of faults of a text and of a script, of meshes that a line makes, and what is counted.
ghost use Rattle.std.specs.Prelude.{◌≡◌, ◌≤◌, length};
ghost use Rattle.mb_base.specs.Faults.{counted_of, kind_number};
ghost use Rattle.play_terms.specs.Lines.{kind_name, limit_name};
ghost use Rattle.play_terms.specs.ScriptLines.{script_kind_name, step_kind_name};

use mb_base::{Counted, TextKind};

/// The number and the name of a kind of fault of a text.
pub fn kind_text(kind: TextKind) -> (u64, &'static [u8])
    ensures number { result.0 ≡ kind_number kind }
    ensures text { result.1.now ≡ kind_name (kind_number kind) }
    ensures short { length result.1.now ≤ 17 }
{
    match kind {
        TextKind::UnknownLine => (1, b"UnknownLine"),
        TextKind::BadVertex => (2, b"BadVertex"),
        TextKind::BadNumber => (3, b"BadNumber"),
        TextKind::OutOfGrid => (4, b"OutOfGrid"),
        TextKind::BadFace => (5, b"BadFace"),
        TextKind::BadIndex => (6, b"BadIndex"),
        TextKind::FaceRepeatsVertex => (7, b"FaceRepeatsVertex"),
        TextKind::NotStl => (10, b"NotStl"),
    }
}

/// The name of what is counted against a limit.
pub fn limit_text(what: Counted) -> &'static [u8]
    ensures text { result.now ≡ limit_name (counted_of what) }
    ensures short { length result.now ≤ 10 }
{
    match what {
        Counted::FileBytes => b"file_bytes",
        Counted::Points => b"points",
        Counted::Triangles => b"triangles",
        Counted::Halfedges => b"halfedges",
    }
}

/// The name of a kind of fault of a script.
pub fn script_kind_text(kind: u8) -> &'static [u8]
    ensures text { result.now ≡ script_kind_name kind }
    ensures short { length result.now ≤ 14 }
{
    match kind {
        20 => b"BadWord",
        21 => b"WrongCount",
        22 => b"BadName",
        23 => b"NameNotDefined",
        24 => b"BadNumber",
        _ => b"BadSuffix",
    }
}

/// The name of a kind of fault of a mesh that a line of a script makes.
pub fn step_kind_text(kind: u8) -> &'static [u8]
    ensures text { result.now ≡ step_kind_name kind }
    ensures short { length result.now ≤ 9 }
{
    match kind {
        15 => b"OutOfGrid",
        _ => b"FlatSolid",
    }
}
