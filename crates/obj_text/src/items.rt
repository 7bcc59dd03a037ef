// The coordinates of a point, and the vertices that the items of a face name.
ghost use Rattle.std.specs.Prelude.{◌≡◌, ◌<◌, ◌≤◌, ◌∷◌, [], Ok, Err, Some, IfOk, IfErr, OnOk, All, option_copied, length, position};
ghost use Rattle.text_terms.specs.Numbers.{cut_at};
ghost use Rattle.mb_base.specs.Faults.{kind_number};
ghost use Rattle.text_terms.specs.FirstFault.{each_read, on_line};
ghost use Rattle.text_terms.specs.Coordinates.{coordinate};
ghost use Rattle.format_terms.specs.Obj.{point_coordinates, face_vertices};
ghost use Rattle.format_terms.specs.ObjFaces.{minus_first, is_whole, is_slash, item_tail, named_vertex, item_vertex};
ghost use Rattle.grid_number.specs.TextFaults.{IsFaultOf};
ghost use Rattle.obj_text.specs.Items.{digits_up_to, whole_up_to, most, IsRead};

use crate::words::ObjWords;
use grid_number::{bad, coordinate};
use mb_base::{Point, TextFault, TextKind};

// A number of a vertex counts no further than this. There are fewer points.
const MOST: u64 = 1 << 32;

/// The point of the words after `v` on the line with this number, under so many digits.
pub fn point_of(words: ObjWords<'_>, number: u64, digits: u8) -> Result<Point, TextFault>
    requires { digits ≤ 6 }
    ensures point { IfOk result (λ p. point_coordinates digits number words.entry ≡ Ok p) }
    ensures fault { IfErr result (IsFaultOf (point_coordinates digits number words.entry)) }
{
    let Some((x, y, z)) = words.three_of_few() else {
        return Err(bad(number, TextKind::BadVertex));
    };
    match point_at(x, y, z, digits) {
        Ok(point) => Ok(point),
        Err(kind) => Err(bad(number, kind)),
    }
}

// The point of three words.
fn point_at(x: &[u8], y: &[u8], z: &[u8], digits: u8) -> Result<Point, TextKind>
    requires { digits ≤ 6 }
    ensures point { IfOk result (λ p. each_read (coordinate digits) (x.now ∷ y.now ∷ z.now ∷ []) ≡ Ok p) }
    ensures fault { IfErr result (λ kind. each_read (coordinate digits) (x.now ∷ y.now ∷ z.now ∷ []) ≡ Err (kind_number kind)) }
{
    let x = coordinate(x, digits)?;
    let y = coordinate(y, digits)?;
    let z = coordinate(z, digits)?;
    match Point::of(x, y, z) {
        Some(point) => Ok(point),
        None => unreachable!(),
    }
}

/// Puts the vertices that the words after `f` name on the line with this number, of so many points, in
/// place of what `vertices` held.
pub fn read_vertices(
    mut words: ObjWords<'_>,
    number: u64,
    count: u32,
    vertices: &mut Vec<u32>,
) -> Result<(), TextFault>
    ensures read { OnOk result (face_vertices count number words.entry ≡ Ok vertices.new.items) }
    ensures three { OnOk result (3 ≤ length vertices.new.items) }
    ensures below { OnOk result (All (λ v. v < count) vertices.new.items) }
    ensures fault { IfErr result (IsFaultOf (face_vertices count number words.entry)) }
{
    let Some((first, second, third)) = words.three() else {
        return Err(bad(number, TextKind::BadFace));
    };
    read_three(first, second, third, number, count, vertices)?;
    for item in words {
        push_vertex(item, number, count, vertices)?;
    }
    Ok(())
}

// Puts the vertices that three items name in place of what `vertices` held.
fn read_three(
    first: &[u8],
    second: &[u8],
    third: &[u8],
    number: u64,
    count: u32,
    vertices: &mut Vec<u32>,
) -> Result<(), TextFault>
    ensures read { OnOk result (each_read (item_vertex count) (first.now ∷ second.now ∷ third.now ∷ []) ≡ Ok vertices.new.items) }
    ensures three { OnOk result (length vertices.new.items ≡ 3) }
    ensures below { OnOk result (All (λ v. v < count) vertices.new.items) }
    ensures fault { IfErr result (IsFaultOf (on_line number (each_read (item_vertex count) (first.now ∷ second.now ∷ third.now ∷ [])))) }
{
    match three_vertices(first, second, third, count) {
        Ok(three) => {
            vertices.clear();
            vertices.extend_from_slice(&three)?;
            Ok(())
        }
        Err(kind) => Err(bad(number, kind)),
    }
}

// The vertices that three items name.
fn three_vertices(
    first: &[u8],
    second: &[u8],
    third: &[u8],
    count: u32,
) -> Result<[u32; 3], TextKind>
    ensures value { IfOk result (λ vs. each_read (item_vertex count) (first.now ∷ second.now ∷ third.now ∷ []) ≡ Ok vs) }
    ensures below { IfOk result (All (λ v. v < count)) }
    ensures fault { IfErr result (λ kind. each_read (item_vertex count) (first.now ∷ second.now ∷ third.now ∷ []) ≡ Err (kind_number kind)) }
{
    Ok([
        vertex(first, count)?,
        vertex(second, count)?,
        vertex(third, count)?,
    ])
}

// Adds the vertex that an item names.
fn push_vertex(
    item: &[u8],
    number: u64,
    count: u32,
    vertices: &mut Vec<u32>,
) -> Result<(), TextFault>
    ensures read { OnOk result (IsRead (item_vertex count) item.now vertices.old.items vertices.new.items) }
    ensures below { OnOk result (All (λ v. v < count) vertices.old.items → All (λ v. v < count) vertices.new.items) }
    ensures fault { IfErr result (IsFaultOf (on_line number (item_vertex count item.now))) }
{
    match vertex(item, count) {
        Ok(vertex) => Ok(vertices.push(vertex)?),
        Err(kind) => Err(bad(number, kind)),
    }
}

// The vertex, from 0, that an item of a face names, of so many points.
fn vertex(item: &[u8], count: u32) -> Result<u32, TextKind>
    ensures value { IfOk result (λ v. item_vertex count item.now ≡ Ok v) }
    ensures below { IfOk result (λ v. v < count) }
    ensures fault { IfErr result (λ kind. item_vertex count item.now ≡ Err (kind_number kind)) }
{
    let (number, tail) = cut_at_slash(item);
    if !is_tail(tail) {
        return Err(TextKind::BadFace);
    }
    match whole_number(number) {
        None => Err(TextKind::BadFace),
        Some((negative, size)) => named(negative, size, count),
    }
}

// The vertex of a number, with a `-` before it or without, of so many points.
fn named(negative: bool, size: u64, count: u32) -> Result<u32, TextKind>
    ensures value { IfOk result (λ v. named_vertex count (Some (negative, size)) ≡ Ok v) }
    ensures below { IfOk result (λ v. v < count) }
    ensures fault { IfErr result (λ kind. named_vertex count (Some (negative, size)) ≡ Err (kind_number kind)) }
{
    if size == 0 || size > u64::from(count) {
        return Err(TextKind::BadIndex);
    }
    let size = size as u32;
    Ok(if negative { count - size } else { size - 1 })
}

// Whether nothing follows the number of an item, or `/j`, `//k` or `/j/k`.
fn is_tail(tail: Option<&[u8]>) -> bool
    ensures { result ≡ item_tail (option_copied tail.entry) }
{
    let Some(tail) = tail else {
        return true;
    };
    match cut_at_slash(tail) {
        (second, None) => is_whole(second),
        (second, Some(third)) => (second.is_empty() || is_whole(second)) && is_whole(third),
    }
}

// The text before the first slash, and the text after it, where there is one.
fn cut_at_slash(text: &[u8]) -> (&[u8], Option<&[u8]>)
    ensures before { result.0.now ≡ (cut_at is_slash text.now).0 }
    ensures after { option_copied result.1 ≡ (cut_at is_slash text.now).1 }
{
    match first_slash(text) {
        None => (text, None),
        Some(place) => {
            let (before, _) = text.split_at(place);
            let (_, after) = text.split_at(place + 1);
            (before, Some(after))
        }
    }
}

// The place of the first slash, where there is one.
fn first_slash(text: &[u8]) -> Option<usize>
    ensures { result ≡ position is_slash text.now }
{
    text.iter().position(|byte| *byte == b'/')
}

// Whether a word is an optional `-` and digits.
fn is_whole(word: &[u8]) -> bool
    ensures { result ≡ is_whole word.now }
{
    whole_number(word).is_some()
}

// An optional `-` and digits: whether it is there, and the size, as far as it counts.
fn whole_number(word: &[u8]) -> Option<(bool, u64)>
    ensures { result ≡ whole_up_to most word.now }
{
    let (negative, digits) = minus_first(word);
    let size = digits_value(digits)?;
    Some((negative, size))
}

/// Whether a word begins with `-`, and the word without it.
pub fn minus_first(word: &[u8]) -> (bool, &[u8])
    ensures sign { result.0 ≡ (minus_first word.now).0 }
    ensures rest { result.1.now ≡ (minus_first word.now).1 }
{
    match word.split_first() {
        Some((b'-', rest)) => (true, rest),
        _ => (false, word),
    }
}

// The number that digits spell, as far as it counts. None where a word has other bytes or none.
fn digits_value(word: &[u8]) -> Option<u64>
    ensures { result ≡ digits_up_to most word.now }
{
    if word.is_empty() {
        return None;
    }
    let mut number: u64 = 0;
    for digit in word {
        if !digit.is_ascii_digit() {
            return None;
        }
        number = (number * 10 + u64::from(*digit - b'0')).min(MOST);
    }
    Some(number)
}
