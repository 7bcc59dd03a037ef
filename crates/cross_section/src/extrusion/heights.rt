// The points of an outline at a height.
ghost use Rattle.std.specs.Prelude.{◌≡◌, ◌++◌, ◌∷◌, [], OnOk, map};
ghost use Rattle.mesh_terms.specs.Points.{IsOnGrid};
ghost use Rattle.outline_terms.specs.Extrusion.{at_height};

use mb_base::{NoMemory, Point};

/// Adds points, each moved to a height.
pub fn push_at(points: &mut Vec<Point>, others: &[Point], height: i32) -> Result<(), NoMemory>
    requires { IsOnGrid height }
    ensures { OnOk result (points.new.items ≡ points.old.items ++ map (at_height height) others.now) }
{
    for point in others {
        points.push(moved_to(*point, height))?;
    }
    Ok(())
}

// The point at a height.
fn moved_to(point: Point, height: i32) -> Point
    requires { IsOnGrid height }
    ensures { result ≡ at_height height point }
{
    let [x, y, _] = point.at();
    point_at(x, y, height)
}

// The point with coordinates on the grid.
fn point_at(x: i32, y: i32, z: i32) -> Point
    requires x { IsOnGrid x }
    requires y { IsOnGrid y }
    requires z { IsOnGrid z }
    ensures { result ≡ x ∷ y ∷ z ∷ [] }
{
    match Point::of(x, y, z) {
        Some(point) => point,
        // All three are on the grid.
        None => unreachable!(),
    }
}
