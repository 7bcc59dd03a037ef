// The lines of a mesh, put on a page. A line is made from its end to its front, since the last digits of a number are known first.
ghost use Rattle.std.specs.Prelude.{◌≡◌, ◌≤◌, ◌+◌, ◌++◌, IsTrue, length, drop, decimal};
ghost use Rattle.arrayvec.specs.ArrayVec.{array_vec_len};
ghost use Rattle.text_terms.specs.Written.{line_of, three_numbers};
ghost use Rattle.mesh_terms.specs.Labels.{IsLabel};
ghost use Rattle.mesh_terms.specs.Meshes.{triple_of};
ghost use Rattle.format_terms.specs.ObjLabels.{label_change, label_line};
ghost use Rattle.format_terms.specs.ObjWritten.{point_line, face_line};
ghost use Rattle.format_terms.specs.StlWritten.{corner_text};

use crate::page::{LINE, Page, put_text};
use grid_number::write_grid_before;
use itoa::write_digits;
use mb_base::Point;

// Writes a word before the place `end` of a line, and answers where it starts.
#[inline(always)]
fn word_before(word: &[u8], line: &mut [u8; LINE], end: usize) -> usize
    requires room { (length word.now ≤ end) × (end ≤ 128) }
    ensures start { result + length word.now ≡ end }
    ensures text { drop result line.new ≡ word.now ++ drop end line.old }
{
    let start = end - word.len();
    line[start..end].copy_from_slice(word);
    start
}

// Writes a vertex number, counted from 1, in the same way.
fn vertex_before(vertex: u32, line: &mut [u8; LINE], end: usize) -> usize
    requires room { (10 ≤ end) × (end ≤ 128) }
    ensures start { result + length (decimal (vertex + 1)) ≡ end }
    ensures short { end ≤ result + 10 }
    ensures text { drop result line.new ≡ decimal (vertex + 1) ++ drop end line.old }
{
    write_digits(u64::from(vertex) + 1, line, end)
}

// Writes the coordinates of a point in the same way.
fn numbers_before(point: &Point, digits: u8, line: &mut [u8; LINE], end: usize) -> usize
    requires digits { digits ≤ 6 }
    requires room { (38 ≤ end) × (end ≤ 128) }
    ensures short { (result ≤ end) × (end ≤ result + 38) }
    ensures text { drop result line.new ≡ three_numbers digits point.now ++ drop end line.old }
{
    let [x, y, z] = point.at();
    let end = write_grid_before(z, digits, line, end);
    let end = word_before(b" ", line, end);
    let end = write_grid_before(y, digits, line, end);
    let end = word_before(b" ", line, end);
    write_grid_before(x, digits, line, end)
}

// Adds a line of a word and the coordinates of a point.
#[inline(always)]
fn put_numbers(page: &mut Page, word: &[u8], point: &Point, digits: u8)
    requires word { length word.now ≤ 8 }
    requires digits { digits ≤ 6 }
    requires room { array_vec_len page.old ≤ 3968 }
    ensures { page.new.items ≡ page.old.items ++ line_of (word.now ++ three_numbers digits point.now) }
{
    let mut line = [b'\n'; LINE];
    let end = numbers_before(point, digits, &mut line, LINE - 1);
    let start = word_before(word, &mut line, end);
    put_text(page, &line[start..]);
}

// Adds the line of a point.
pub fn put_point(page: &mut Page, point: &Point, digits: u8)
    requires digits { digits ≤ 6 }
    requires room { array_vec_len page.old ≤ 3968 }
    ensures { page.new.items ≡ page.old.items ++ point_line digits point.now }
{
    put_numbers(page, b"v ", point, digits);
}

// Adds the line of a corner at a point.
pub fn put_corner(page: &mut Page, point: &Point, digits: u8)
    requires digits { digits ≤ 6 }
    requires room { array_vec_len page.old ≤ 3968 }
    ensures { page.new.items ≡ page.old.items ++ corner_text digits point.now }
{
    put_numbers(page, b"vertex ", point, digits);
}

// Adds the line of a label before a triangle, where it is not that of the one before. So much room is left that the line
// of the triangle may follow. Where both are known to be the same, their bytes are not looked at.
pub fn put_change(page: &mut Page, before: &[u8], label: &[u8], same: bool)
    requires label { IsLabel label.now }
    requires same { IsTrue same → label.now ≡ before.now }
    requires room { array_vec_len page.old ≤ 3968 }
    ensures text { page.new.items ≡ page.old.items ++ label_change before.now label.now }
    ensures room { array_vec_len page.new ≤ 4061 }
{
    if !same && label != before {
        put_label(page, label);
    }
}

// Adds the line of a label.
fn put_label(page: &mut Page, label: &[u8])
    requires label { IsLabel label.now }
    requires room { array_vec_len page.old ≤ 3968 }
    ensures text { page.new.items ≡ page.old.items ++ label_line label.now }
    ensures room { array_vec_len page.new ≤ 4061 }
{
    if label.is_empty() {
        put_text(page, b"g\n");
    } else {
        put_text(page, b"g ");
        put_text(page, label);
        put_text(page, b"\n");
    }
}

// Adds the line of a triangle.
pub fn put_face(page: &mut Page, triple: &[u32; 3])
    requires { array_vec_len page.old ≤ 4061 }
    ensures { page.new.items ≡ page.old.items ++ face_line (triple_of triple.now) }
{
    let [a, b, c] = *triple;
    let mut line = [b'\n'; LINE];
    let end = vertex_before(c, &mut line, LINE - 1);
    let end = word_before(b" ", &mut line, end);
    let end = vertex_before(b, &mut line, end);
    let end = word_before(b" ", &mut line, end);
    let end = vertex_before(a, &mut line, end);
    let start = word_before(b"f ", &mut line, end);
    put_text(page, &line[start..]);
}
