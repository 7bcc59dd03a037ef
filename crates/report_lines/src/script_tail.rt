// The ends of the lines that scripts say.
ghost use Rattle.std.specs.Prelude.{◌≡◌, ◌≤◌, ◌++◌, codes, decimal, slice_index};
ghost use Rattle.std.specs.Fmt.{signed_decimal};
ghost use Rattle.arrayvec.specs.ArrayVec.{array_vec_len};
ghost use Rattle.text_terms.specs.Written.{line_of};

use crate::tail::{Tail, put, put_pair};

/// The numbers of points and triangles, which the lines of saved and measured meshes have.
pub fn size_tail(points: u64, triangles: u64) -> Tail
    ensures text { result.items ≡ codes ": points " ++ decimal points ++ codes ", triangles " ++ decimal triangles }
    ensures short { array_vec_len result ≤ 61 }
{
    let mut tail = Tail::new();
    put_pair(&mut tail, b": points ", points);
    put_pair(&mut tail, b", triangles ", triangles);
    tail
}

/// The end of the line that reports a saved mesh.
pub fn saved_tail(points: u64, triangles: u64) -> Tail
    ensures { result.items ≡ line_of (codes ": points " ++ decimal points ++ codes ", triangles " ++ decimal triangles) }
{
    let mut tail = size_tail(points, triangles);
    put(&mut tail, b"\n");
    tail
}

/// The end of the line that reports the measures of a mesh, after the numbers of its points and triangles.
pub fn measured_tail(components: u64, euler: i64, volume6: i128) -> Tail
    ensures { result.items ≡
        line_of (codes ", components " ++ decimal components ++ codes ", euler " ++ signed_decimal euler ++ codes ", volume6 " ++ signed_decimal volume6) }
{
    let mut tail = Tail::new();
    put_pair(&mut tail, b", components ", components);
    put_pair(&mut tail, b", euler ", euler);
    put_pair(&mut tail, b", volume6 ", volume6);
    put(&mut tail, b"\n");
    tail
}

/// The end of the line that reports a tidied mesh.
pub fn tidied_tail(collapsed: u64) -> Tail
    ensures { result.items ≡ line_of (codes ": collapsed " ++ decimal collapsed) }
{
    let mut tail = Tail::new();
    put_pair(&mut tail, b": collapsed ", collapsed);
    put(&mut tail, b"\n");
    tail
}

/// The end of the line that reports a remeshed mesh.
pub fn remeshed_tail(planes: u64, kept: u64) -> Tail
    ensures { result.items ≡ line_of (codes ": planes " ++ decimal planes ++ codes ", kept " ++ decimal kept) }
{
    let mut tail = Tail::new();
    put_pair(&mut tail, b": planes ", planes);
    put_pair(&mut tail, b", kept ", kept);
    put(&mut tail, b"\n");
    tail
}

/// The end of the line that reports an extruded outline.
pub fn extruded_tail(forced: u64) -> Tail
    ensures { result.items ≡ line_of (codes ": forced " ++ decimal forced) }
{
    let mut tail = Tail::new();
    put_pair(&mut tail, b": forced ", forced);
    put(&mut tail, b"\n");
    tail
}

/// The end of the line that reports an operation on outlines.
pub fn combined2_tail(kept: [u64; 2], crossings: u64) -> Tail
    ensures { result.items ≡
        line_of (codes ": kept " ++ decimal (slice_index kept 0) ++ codes " " ++ decimal (slice_index kept 1) ++ codes ", crossings " ++ decimal crossings) }
{
    let mut tail = Tail::new();
    put_pair(&mut tail, b": kept ", kept[0]);
    put_pair(&mut tail, b" ", kept[1]);
    put_pair(&mut tail, b", crossings ", crossings);
    put(&mut tail, b"\n");
    tail
}

/// The end of the line that reports an operation.
pub fn combined_tail(kept: [u64; 2], crossings: u64, forced: u64) -> Tail
    ensures { result.items ≡
        line_of (codes ": kept " ++ decimal (slice_index kept 0) ++ codes " " ++ decimal (slice_index kept 1)
        ++ codes ", crossings " ++ decimal crossings ++ codes ", forced " ++ decimal forced) }
{
    let mut tail = Tail::new();
    put_pair(&mut tail, b": kept ", kept[0]);
    put_pair(&mut tail, b" ", kept[1]);
    put_pair(&mut tail, b", crossings ", crossings);
    put_pair(&mut tail, b", forced ", forced);
    put(&mut tail, b"\n");
    tail
}
