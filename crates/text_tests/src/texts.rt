// A text that is read as OBJ, or as solids of STL, and what it has to give.
ghost use Rattle.std.specs.Prelude.{◌≤◌};

use crate::lists::{joined, stand_at};
use mb_base::{Counted, Limits, Soup, TextFault, TextKind};
use obj_text::read_obj;
use std::alloc::Global;
use std::process::Abort;
use stl_text::read_stl;

// Where the points of a mesh are, how many were left out, and its triangles.
pub type Lists<'a> = (&'a [[i32; 3]], u32, &'a [[u32; 3]]);

// A part of a text, with the line and the fault that refuse the whole.
pub type Refused = (&'static [u8], u64, TextKind);

fn read(
    alloc: Global,
    solid: bool,
    bytes: &[u8],
    digits: u8,
    limits: &Limits,
) -> Result<Soup, TextFault>
    requires { digits ≤ 6 }
{
    if solid {
        read_stl(alloc, bytes, digits, limits)
    } else {
        read_obj(alloc, bytes, digits, limits)
    }
}

// Whether these are the lists.
pub fn has(soup: &Soup, wanted: &Lists<'_>) -> bool {
    let (places, unused, triples) = wanted;
    stand_at(soup.points(), places) && soup.unused() == *unused && soup.triples() == *triples
}

// Whether a text is read as these lists.
pub fn is_read(
    alloc: Global,
    solid: bool,
    bytes: &[u8],
    digits: u8,
    limits: &Limits,
    wanted: &Lists<'_>,
) -> bool
    requires { digits ≤ 6 }
{
    match read(alloc, solid, bytes, digits, limits) {
        Ok(soup) => has(&soup, wanted),
        Err(_) => false,
    }
}

// Whether a text is refused by this fault.
fn is_refused(
    alloc: Global,
    solid: bool,
    bytes: &[u8],
    digits: u8,
    limits: &Limits,
    wanted: TextFault,
) -> bool
    requires { digits ≤ 6 }
{
    match read(alloc, solid, bytes, digits, limits) {
        Ok(_) => false,
        Err(fault) => fault == wanted,
    }
}

// Whether a text is refused at this line, with this fault.
pub fn is_refused_at(
    alloc: Global,
    solid: bool,
    bytes: &[u8],
    digits: u8,
    line: u64,
    kind: TextKind,
) -> bool
    requires { digits ≤ 6 }
{
    let bad = TextFault::Bad { line, kind };
    is_refused(alloc, solid, bytes, digits, &Limits::program(), bad)
}

// Whether a text is refused within these limits, since it has so many of these.
pub fn is_over(
    alloc: Global,
    solid: bool,
    bytes: &[u8],
    limits: &Limits,
    what: Counted,
    seen: u64,
) -> bool {
    is_refused(
        alloc,
        solid,
        bytes,
        4,
        limits,
        TextFault::Over { what, seen },
    )
}

// Whether a text after this front is refused so.
fn refuses_after(rt: &impl Abort, alloc: Global, solid: bool, front: &[u8], row: &Refused) -> bool {
    let (after, line, kind) = row;
    let bytes = joined(alloc, front, after, b"").expect(rt, "a text");
    is_refused_at(alloc, solid, &bytes, 4, *line, *kind)
}

// Each text after this front is refused at its line, with its fault.
pub fn refuses(rt: &impl Abort, alloc: Global, solid: bool, front: &[u8], rows: &[Refused]) {
    for row in rows {
        assert!(rt;
            refuses_after(rt, alloc, solid, front, row),
            "at {:?}",
            row.0
        );
    }
}
