// The parts of the line that reports the inspection of a mesh, after its name.
ghost use Rattle.std.specs.Prelude.{◌≡◌, ◌≤◌, ◌+◌, ◌++◌, length, decimal, codes};
ghost use Rattle.arrayvec.specs.ArrayVec.{array_vec_len};
ghost use Rattle.mesh_terms.specs.Points.{IsOnGrid};
ghost use Rattle.text_terms.specs.Written.{line_of, three_numbers, written};

use crate::tail::{Tail, put, put_pair};
use arrayvec::ArrayVec;
use grid_number::write_grid;
use mb_base::Point;

// Adds a coordinate of the grid.
fn put_coordinate(tail: &mut Tail, coordinate: i32, digits: u8)
    requires on_grid { IsOnGrid coordinate }
    requires digits { digits ≤ 6 }
    requires room { array_vec_len tail.old + 12 ≤ 128 }
    ensures text { tail.new.items ≡ tail.old.items ++ written digits coordinate }
    ensures len { array_vec_len tail.new ≤ array_vec_len tail.old + 12 }
{
    let mut text = ArrayVec::new();
    write_grid(coordinate, digits, &mut text);
    put(tail, text.as_slice());
}

// Adds a word and the coordinates of a point.
fn put_point(tail: &mut Tail, word: &[u8], point: &Point, digits: u8)
    requires digits { digits ≤ 6 }
    requires room { array_vec_len tail.old + length word.now + 38 ≤ 128 }
    ensures text { tail.new.items ≡ tail.old.items ++ (word.now ++ three_numbers digits point.now) }
    ensures len { array_vec_len tail.new ≤ array_vec_len tail.old + length word.now + 38 }
{
    let [x, y, z] = point.at();
    put(tail, word);
    put_coordinate(tail, x, digits);
    put(tail, b" ");
    put_coordinate(tail, y, digits);
    put(tail, b" ");
    put_coordinate(tail, z, digits);
}

/// The corners of the box of an inspected mesh.
pub fn corners_tail(low: &Point, high: &Point, digits: u8) -> Tail
    requires { digits ≤ 6 }
    ensures { result.items ≡ codes ": low " ++ three_numbers digits low.now ++ codes ", high " ++ three_numbers digits high.now }
{
    let mut tail = Tail::new();
    put_point(&mut tail, b": low ", low, digits);
    put_point(&mut tail, b", high ", high, digits);
    tail
}

/// The end of the line that reports an inspected mesh, after its corners.
pub fn inspected_tail(flat: u32, doubled: u32, touching: u64, cuts: u64) -> Tail
    ensures { result.items ≡
        line_of (codes ", flat " ++ decimal flat ++ codes ", doubled " ++ decimal doubled ++ codes ", touching " ++ decimal touching
        ++ codes ", cuts " ++ decimal cuts) }
{
    let mut tail = Tail::new();
    put_pair(&mut tail, b", flat ", flat);
    put_pair(&mut tail, b", doubled ", doubled);
    put_pair(&mut tail, b", touching ", touching);
    put_pair(&mut tail, b", cuts ", cuts);
    put(&mut tail, b"\n");
    tail
}
