// How far the points of the entries spread on the axes.
ghost use Rattle.std.specs.Prelude.{◌≡◌, ◌<◌, ◌≤◌, ◌^◌, unsigned_abs, length, map};
ghost use Rattle.std.specs.List.{All};
ghost use Rattle.mesh_terms.specs.Points.{IsOnGrid, coordinate_of};
ghost use Rattle.edge_pairing.specs.Entries.{places_of, place_in};
ghost use Rattle.edge_pairing.specs.Pairing.{spread, spread_axis};

use mb_base::{Entry, Point};

/// The axis on which the points of the entries spread most, the lowest such.
pub fn widest_axis(entries: &[Entry], points: &[Point]) -> usize
    requires { All (λ e. e.vertex < length points.now) entries.now }
    ensures { result ≡ spread_axis (places_of entries.now points.now) }
{
    let x = spread_on(0, entries, points);
    let y = spread_on(1, entries, points);
    let z = spread_on(2, entries, points);
    if y <= x && z <= x {
        0
    } else if z <= y {
        1
    } else {
        2
    }
}

// From the least to the greatest of their coordinates.
fn spread_on(axis: usize, entries: &[Entry], points: &[Point]) -> i64
    requires axis { axis < 3 }
    requires below { All (λ e. e.vertex < length points.now) entries.now }
    ensures value { result ≡ spread (map (λ p. coordinate_of p axis) (places_of entries.now points.now)) }
{
    if entries.is_empty() {
        return 0;
    }
    let mut low = coordinate(axis, points[entries[0].vertex as usize]);
    let mut high = low;
    for entry in entries {
        let here = coordinate(axis, points[entry.vertex as usize]);
        low = low.min(here);
        high = high.max(here);
    }
    high - low
}

// The coordinate of a point on an axis.
fn coordinate(axis: usize, point: Point) -> i64
    requires { axis < 3 }
    ensures value { result ≡ coordinate_of point axis }
    ensures on_grid { IsOnGrid result }
{
    i64::from(point.at()[axis])
}
