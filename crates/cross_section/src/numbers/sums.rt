// Winding numbers as sums over edges.
ghost use Rattle.std.specs.Prelude.{◌≡◌, ◌≤◌, nat_abs, length};
ghost use Rattle.std.specs.List.{All};
ghost use Rattle.chain_terms.specs.Sums.{total};
ghost use Rattle.side_terms.specs.Corners.{AllFine, IsFineCorner};
ghost use Rattle.outline_pair_terms.specs.Numbers.{ends_of};
ghost use Rattle.cross_section.specs.Sides.{IsLevel};

use crate::numbers::side::FlatSide;
use crate::numbers::tests::EdgeTests;
use mb_base::{Corner, box_of};

/// The winding number of a vertex: the sum of the parts of all edges.
pub fn winding_sum<T: EdgeTests>(vertex: &Corner, edges: &FlatSide, tests: &T) -> i64
    requires { IsFineCorner vertex.now }
    ensures value { result ≡ total (λ e. T.part_of tests.now vertex.now (ends_of edges.now e)) edges.now.edges }
    ensures size { nat_abs result ≤ length edges.now.edges }
{
    let mut sum: i64 = 0;
    for number in 0..edges.edges().len() as u32 {
        sum += tests.part(vertex, &edges.edge(number));
    }
    sum
}

/// How much the winding number changes along the way from one vertex to another: the sum of the changes of all edges. Those are
/// asked whose boxes touch that of the way; the others change nothing.
pub fn change_along<T: EdgeTests>(way: &[Corner; 2], edges: &FlatSide, tests: &T) -> i64
    requires fine { AllFine way.now }
    requires level { All IsLevel way.now }
    ensures value { result ≡ total (λ e. T.change_of tests.now way.now (ends_of edges.now e)) edges.now.edges }
    ensures size { nat_abs result ≤ length edges.now.edges }
{
    let mut sum: i64 = 0;
    for number in edges.tree().touching(box_of(way)) {
        sum += tests.change(way, &edges.edge(number));
    }
    sum
}
