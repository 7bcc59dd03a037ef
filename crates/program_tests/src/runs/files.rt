// The files of the tests.
pub const TETRAHEDRON: &[u8] =
    b"v 0 0 0\nv 1 0 0\nv 0 1 0\nv 0 0 1\nf 1 3 2\nf 1 2 4\nf 2 3 4\nf 3 1 4\n";

// A tetrahedron whose coordinates have two digits after the point.
pub const FINE_TETRAHEDRON: &[u8] =
    b"v 0 0 0\nv 1.26 0 0\nv 0 1.24 0\nv 0 0 -1.25\nf 1 2 3\nf 1 4 2\nf 2 4 3\nf 3 4 1\n";

// A cube.
pub const CUBE: &[u8] =
    b"v 0 0 0\nv 10 0 0\nv 0 10 0\nv 10 10 0\nv 0 0 10\nv 10 0 10\nv 0 10 10\nv 10 10 10\nf 1 4 2\nf 1 3 4\nf 5 6 8\nf 5 8 7\nf 1 2 5\nf 2 6 5\nf 2 4 8\nf 2 8 6\nf 4 3 7\nf 4 7 8\nf 1 5 7\nf 1 7 3\n";

// A cube with its inside out.
pub const TURNED_CUBE: &[u8] =
    b"v 0 0 0\nv 10 0 0\nv 0 10 0\nv 10 10 0\nv 0 0 10\nv 10 0 10\nv 0 10 10\nv 10 10 10\nf 1 2 4\nf 1 4 3\nf 5 8 6\nf 5 7 8\nf 1 5 2\nf 2 5 6\nf 2 8 4\nf 2 6 8\nf 4 7 3\nf 4 8 7\nf 1 7 5\nf 1 3 7\n";

// A cube in a cube.
pub const NESTED_CUBES: &[u8] =
    b"v 0 0 0\nv 10 0 0\nv 0 10 0\nv 10 10 0\nv 0 0 10\nv 10 0 10\nv 0 10 10\nv 10 10 10\nv 2 2 2\nv 8 2 2\nv 2 8 2\nv 8 8 2\nv 2 2 8\nv 8 2 8\nv 2 8 8\nv 8 8 8\nf 1 4 2\nf 1 3 4\nf 5 6 8\nf 5 8 7\nf 1 2 5\nf 2 6 5\nf 2 4 8\nf 2 8 6\nf 4 3 7\nf 4 7 8\nf 1 5 7\nf 1 7 3\nf 9 12 10\nf 9 11 12\nf 13 14 16\nf 13 16 15\nf 9 10 13\nf 10 14 13\nf 10 12 16\nf 10 16 14\nf 12 11 15\nf 12 15 16\nf 9 13 15\nf 9 15 11\n";

// A prism over a triangle with slanted sides.
pub const PRISM: &[u8] =
    b"v 0 0 0\nv 3 1 0\nv 0 3 0\nv 0 0 4\nv 3 1 4\nv 0 3 4\nf 1 3 2\nf 4 5 6\nf 1 2 5\nf 1 5 4\nf 2 3 6\nf 2 6 5\nf 3 1 4\nf 3 4 6\n";

// A cube without one of its twelve triangles.
pub const OPEN_CUBE: &[u8] =
    b"v 0 0 0\nv 10 0 0\nv 0 10 0\nv 10 10 0\nv 0 0 10\nv 10 0 10\nv 0 10 10\nv 10 10 10\nf 1 4 2\nf 1 3 4\nf 5 6 8\nf 1 2 5\nf 2 6 5\nf 2 4 8\nf 2 8 6\nf 4 3 7\nf 4 7 8\nf 1 5 7\nf 1 7 3\n";

// A cube, and two triangles back to back beside it.
pub const CUBE_AND_FLAT: &[u8] =
    b"v 0 0 0\nv 10 0 0\nv 0 10 0\nv 10 10 0\nv 0 0 10\nv 10 0 10\nv 0 10 10\nv 10 10 10\nv 50 0 0\nv 51 0 0\nv 50 1 0\nf 1 4 2\nf 1 3 4\nf 5 6 8\nf 5 8 7\nf 1 2 5\nf 2 6 5\nf 2 4 8\nf 2 8 6\nf 4 3 7\nf 4 7 8\nf 1 5 7\nf 1 7 3\nf 9 10 11\nf 9 11 10\n";

// Two cubes that share one point.
pub const CUBES_AT_A_CORNER: &[u8] =
    b"v 0 0 0\nv 10 0 0\nv 0 10 0\nv 10 10 0\nv 0 0 10\nv 10 0 10\nv 0 10 10\nv 10 10 10\nv 20 10 10\nv 10 20 10\nv 20 20 10\nv 10 10 20\nv 20 10 20\nv 10 20 20\nv 20 20 20\nf 1 4 2\nf 1 3 4\nf 5 6 8\nf 5 8 7\nf 1 2 5\nf 2 6 5\nf 2 4 8\nf 2 8 6\nf 4 3 7\nf 4 7 8\nf 1 5 7\nf 1 7 3\nf 8 11 9\nf 8 10 11\nf 12 13 15\nf 12 15 14\nf 8 9 12\nf 9 13 12\nf 9 11 15\nf 9 15 13\nf 11 10 14\nf 11 14 15\nf 8 12 14\nf 8 14 10\n";

// A cube as a modelling program writes it, and its copy.
pub const MODELLED_CUBE: &[u8] =
    b"# made by a modeller\nmtllib cube.mtl\no Cube\nv 0.000000 0.000000 0.000000\nv 10.000000 0.000000 0.000000\nv 0.000000 10.000000 0.000000\nv 10.000000 10.000000 0.000000\nv 0.000000 0.000000 10.000000\nv 10.000000 0.000000 10.000000\nv 0.000000 10.000000 10.000000\nv 10.000000 10.000000 10.000000\nvn 0.0000 0.0000 -1.0000\nvt 0.000000 0.000000\nusemtl Material\ns off\nf 1/1/1 3/1/1 4/1/1 2/1/1\nf 5//1 6//1 8//1 7//1\nf 1 2 6 5\nf 2/1 4/1 8/1 6/1\nf -5 -6 -2 \\\n-1\nf 1 5 7 3\n";

pub const MODELLED_CUBE_COPIED: &[u8] =
    b"v 0 0 0\nv 10 0 0\nv 0 10 0\nv 10 10 0\nv 0 0 10\nv 10 0 10\nv 0 10 10\nv 10 10 10\nf 1 3 4\nf 1 4 2\nf 5 6 8\nf 5 8 7\nf 1 2 6\nf 1 6 5\nf 2 4 8\nf 2 8 6\nf 4 3 7\nf 4 7 8\nf 1 5 7\nf 1 7 3\n";

// A box that stands through the top of the cube.
pub const BOX: &[u8] =
    b"v 3 4 5\nv 6 4 5\nv 3 7 5\nv 6 7 5\nv 3 4 20\nv 6 4 20\nv 3 7 20\nv 6 7 20\nf 1 4 2\nf 1 3 4\nf 5 6 8\nf 5 8 7\nf 1 2 5\nf 2 6 5\nf 2 4 8\nf 2 8 6\nf 4 3 7\nf 4 7 8\nf 1 5 7\nf 1 7 3\n";

// The union of the cube and the box, as a program that follows the definitions in plain sums gives it.
pub const UNION: &[u8] =
    b"v 0 0 0\nv 10 0 0\nv 0 10 0\nv 10 10 0\nv 0 0 10\nv 10 0 10\nv 0 10 10\nv 10 10 10\nv 3 4 20\nv 6 4 20\nv 3 7 20\nv 6 7 20\nv 4 4 10\nv 6 6 10\nv 5 4 10\nv 3 4 10\nv 6 4 10\nv 6 7 10\nv 6 5 10\nv 3 7 10\nv 5 7 10\nv 3 5 10\nf 1 4 2\nf 1 3 4\nf 13 5 6\nf 6 8 14\nf 6 14 19\nf 6 19 17\nf 6 17 15\nf 6 15 13\nf 18 14 8\nf 18 8 7\nf 5 13 16\nf 7 5 16\nf 7 16 22\nf 7 22 20\nf 7 20 21\nf 7 21 18\nf 1 2 5\nf 2 6 5\nf 2 4 8\nf 2 8 6\nf 4 3 7\nf 4 7 8\nf 1 5 7\nf 1 7 3\nf 9 10 12\nf 9 12 11\nf 13 15 9\nf 9 16 13\nf 15 17 10\nf 10 9 15\nf 14 18 12\nf 12 19 14\nf 17 19 12\nf 12 10 17\nf 20 11 21\nf 18 21 11\nf 11 12 18\nf 22 16 9\nf 9 11 22\nf 22 11 20\n";

// The tetrahedron in two groups, and its copy.
pub const GROUPED_TETRAHEDRON: &[u8] =
    b"v 0 0 0\nv 1 0 0\nv 0 1 0\nv 0 0 1\ng red  blue\nf 1 3 2\nf 1 2 4\ng\nf 2 3 4\nf 3 1 4\n";

pub const GROUPED_COPIED: &[u8] =
    b"v 0 0 0\nv 1 0 0\nv 0 1 0\nv 0 0 1\ng red blue\nf 1 3 2\nf 1 2 4\ng\nf 2 3 4\nf 3 1 4\n";

// The cube with all faces in one group.
pub const BODY: &[u8] =
    b"v 0 0 0\nv 10 0 0\nv 0 10 0\nv 10 10 0\nv 0 0 10\nv 10 0 10\nv 0 10 10\nv 10 10 10\ng body\nf 1 4 2\nf 1 3 4\nf 5 6 8\nf 5 8 7\nf 1 2 5\nf 2 6 5\nf 2 4 8\nf 2 8 6\nf 4 3 7\nf 4 7 8\nf 1 5 7\nf 1 7 3\n";

// That cube less the box, as a program that follows the definitions in plain sums gives it.
pub const BODY_LESS_BOX: &[u8] =
    b"v 0 0 0\nv 10 0 0\nv 0 10 0\nv 10 10 0\nv 0 0 10\nv 10 0 10\nv 0 10 10\nv 10 10 10\nv 3 4 5\nv 6 4 5\nv 3 7 5\nv 6 7 5\nv 4 4 10\nv 6 6 10\nv 5 4 10\nv 3 4 10\nv 6 4 10\nv 6 7 10\nv 6 5 10\nv 3 7 10\nv 5 7 10\nv 3 5 10\ng body\nf 1 4 2\nf 1 3 4\nf 13 5 6\nf 6 8 14\nf 6 14 19\nf 6 19 17\nf 6 17 15\nf 6 15 13\nf 18 14 8\nf 18 8 7\nf 5 13 16\nf 7 5 16\nf 7 16 22\nf 7 22 20\nf 7 20 21\nf 7 21 18\nf 1 2 5\nf 2 6 5\nf 2 4 8\nf 2 8 6\nf 4 3 7\nf 4 7 8\nf 1 5 7\nf 1 7 3\ng\nf 12 9 10\nf 11 9 12\nf 15 10 9\nf 9 16 13\nf 9 13 15\nf 17 10 15\nf 18 12 10\nf 10 19 14\nf 10 14 18\nf 19 10 17\nf 20 11 12\nf 12 21 20\nf 21 12 18\nf 16 9 22\nf 20 22 9\nf 9 11 20\n";

// The tetrahedron with its last corner twice.
pub const SPLIT_TETRAHEDRON: &[u8] =
    b"v 0 0 0\nv 1 0 0\nv 0 1 0\nv 0 0 1\nv 0 0 1\nf 1 3 2\nf 1 2 4\nf 2 3 5\nf 3 1 5\nf 4 2 5\nf 1 4 5\n";

// The same in groups, with that corner first and last and its two flat triangles between the others; and tidied.
pub const SPLIT_IN_GROUPS: &[u8] =
    b"v 0 0 1\nv 0 0 0\nv 1 0 0\nv 0 1 0\nv 0 0 1\ng a\nf 2 4 3\ng b\nf 1 3 5\ng c\nf 2 3 1\ng d\nf 2 1 5\ng\nf 3 4 5\ng a\nf 4 2 5\n";

pub const SPLIT_IN_GROUPS_TIDIED: &[u8] =
    b"v 0 0 0\nv 1 0 0\nv 0 1 0\nv 0 0 1\ng a\nf 1 3 2\ng c\nf 1 2 4\ng\nf 2 3 4\ng a\nf 3 1 4\n";

// A tetrahedron whose corners lie at one point.
pub const FLAT_TETRAHEDRON: &[u8] =
    b"v 0 0 0\nv 0 0 0\nv 0 0 0\nv 0 0 0\nf 1 3 2\nf 1 2 4\nf 2 3 4\nf 3 1 4\n";

// A mesh with four corners at one point, of which a half-edge can be collapsed only once a greater one was; and tidied.
pub const OPENING: &[u8] =
    b"v 0 0 0\nv 1 0 0\nv 1 0 0\nv 0 1 0\nv 1 0 0\nv 1 0 0\nf 1 5 2\nf 3 2 5\nf 6 5 1\nf 5 6 3\nf 1 4 6\nf 3 6 2\nf 6 4 2\nf 1 2 4\n";

pub const OPENING_TIDIED: &[u8] = b"v 0 0 0\nv 0 1 0\nv 1 0 0\nf 1 2 3\nf 1 3 2\n";

// An edge whose ends lie at one point, and to which a third vertex is joined.
pub const THIRD_NEIGHBOUR: &[u8] =
    b"v 0 0 0\nv 0 0 0\nv 2 2 0\nv 1 1 3\nv 1 1 -3\nf 1 2 4\nf 2 3 4\nf 3 1 4\nf 2 1 5\nf 3 2 5\nf 1 3 5\n";

// Two tetrahedra with one edge, whose ends lie at one point.
pub const DOUBLED_EDGE: &[u8] =
    b"v 0 0 0\nv 0 0 0\nv 3 0 0\nv 0 3 0\nv -3 0 1\nv 0 -3 2\nf 1 3 2\nf 1 2 4\nf 2 3 4\nf 3 1 4\nf 1 5 2\nf 1 2 6\nf 2 5 6\nf 5 1 6\n";

// Two triangles back to back, with two corners at one point.
pub const BACK_TO_BACK: &[u8] = b"v 0 0 0\nv 0 0 0\nv 3 0 0\nf 1 2 3\nf 2 1 3\n";
