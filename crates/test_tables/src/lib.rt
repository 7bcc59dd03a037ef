//! What the tables of tests write in a line: pairs of small meshes with an operation, winding numbers and hits, and where vertices come from.
#![tactic(auto)]

mod digits;
mod handed;
mod meshes;
mod no_row;
mod numbers;
mod soups;
mod vertices;

pub use digits::push_digit;
pub use handed::{are_hits, are_windings};
pub use meshes::{POST_IN_BOX, marked_side, plain_side, read_meshes, read_pair};
pub use no_row::NoRow;
pub use numbers::{read_numbers, write_numbers};
pub use soups::{
    BOX, NoSample, TETRAHEDRON, box_points, box_soup, line_soup, points_of, soup_of, two_boxes,
};
pub use vertices::push_vertex;
