// Where edges end.
ghost use Rattle.std.specs.Prelude.{◌≡◌, ◌<◌, [], get_or, length, map};
ghost use Rattle.std.specs.List.{All};
ghost use Rattle.plane_chains.specs.EdgeBoxes.{pair_of};
ghost use Rattle.plane_sheets.specs.Seen.{seen_in};

use face_plane::FlatPoint;
use plane_chains::FlatPlaces;

/// Where an edge starts and where it ends.
pub fn ends_at(flat: FlatPlaces, edges: &[[u32; 2]], i: usize) -> (FlatPoint, FlatPoint)
    requires places { All (λ e. All (λ v. v < length flat.points.now) e) edges.now }
    requires inside { i < length edges.now }
    ensures start { result.0 ≡ seen_in flat.entry (get_or (map pair_of edges.now) i (0, 0)).0 }
    ensures end { result.1 ≡ seen_in flat.entry (get_or (map pair_of edges.now) i (0, 0)).1 }
    ensures places { All (λ v. v < length flat.entry.points.now) (get_or edges.now i []) }
    ensures two { length (get_or edges.now i []) ≡ 2 }
{
    let [a, b] = edges[i];
    (flat.at(a), flat.at(b))
}

/// The places of an edge.
pub fn places_of(edges: &[[u32; 2]], i: usize) -> [u32; 2]
    requires { i < length edges.now }
    ensures value { result ≡ get_or edges.now i result }
    ensures two { length (get_or edges.now i []) ≡ 2 }
{
    edges[i]
}
