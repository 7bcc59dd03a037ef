// Rows of three coordinates, on the grid or off it.
ghost use Rattle.std.specs.Prelude.{◌≡◌, ◌≤◌, ◌^◌, ◌++◌, List, true, OnOk, Some, None, if◌then◌else◌, unsigned_abs};
ghost use Rattle.mesh_terms.specs.Points.{IsPoint};
ghost use Rattle.text_terms.specs.Numbers.{is_on_grid};
ghost use Rattle.made_terms.specs.Solids.{moved};
ghost use Rattle.made_terms.specs.Refusals.{is_grid_point, all_on_grid};

use mb_base::{NoMemory, Point};

/// The greatest size of a coordinate on the grid.
const GRID_END: u64 = 1 << 30;

/// The coordinates of a point as a row.
pub fn row_of(point: Point) -> [i64; 3]
    ensures value { result ≡ point }
    ensures on_grid { IsPoint point }
{
    let [x, y, z] = point.at();
    [i64::from(x), i64::from(y), i64::from(z)]
}

/// The row with x, y and z added to that of a point.
pub fn moved_row(row: &[i64; 3], x: i64, y: i64, z: i64) -> [i64; 3]
    requires on_grid { IsPoint row.now }
    requires x_small { unsigned_abs x ≤ 2 ^ 31 }
    requires y_small { unsigned_abs y ≤ 2 ^ 31 }
    requires z_small { unsigned_abs z ≤ 2 ^ 31 }
    ensures { result ≡ moved x y z row.now }
{
    [row[0] + x, row[1] + y, row[2] + z]
}

/// The point of a row on the grid.
pub fn point_of(row: &[i64; 3]) -> Option<Point>
    ensures { result ≡ if is_grid_point row.now then Some row.now else None }
{
    if !is_grid_point(row) {
        return None;
    }
    Point::of(row[0] as i32, row[1] as i32, row[2] as i32)
}

// Whether a coordinate is on the grid.
fn is_on_grid(coordinate: i64) -> bool
    ensures { result ≡ is_on_grid coordinate }
{
    coordinate.unsigned_abs() <= GRID_END
}

/// Whether all three coordinates of a row are on the grid.
pub fn is_grid_point(row: &[i64; 3]) -> bool
    ensures { result ≡ is_grid_point row.now }
{
    is_on_grid(row[0]) && is_on_grid(row[1]) && is_on_grid(row[2])
}

/// Whether all rows are on the grid.
pub fn all_on_grid(rows: &[[i64; 3]]) -> bool
    ensures { result ≡ all_on_grid rows.now }
{
    for row in rows {
        if !is_grid_point(row) {
            return false;
        }
    }
    true
}

/// Pushes the points of these rows.
pub fn push_points(points: &mut Vec<Point>, rows: &[[i64; 3]]) -> Result<(), NoMemory>
    requires { all_on_grid rows.now ≡ true }
    ensures { OnOk result (points.new.items ≡ points.old.items ++ rows.now) }
{
    for row in rows {
        match point_of(row) {
            Some(point) => points.push(point)?,
            // All rows are on the grid.
            None => unreachable!(),
        }
    }
    Ok(())
}
