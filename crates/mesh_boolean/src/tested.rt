// What an operation asks of its kernels.
ghost use Rattle.mesh_boolean.specs.Operation.{Tests};

use edge_face::{Crosses, Kernels};
use shadow_kernels::Meets;

/// Kernels seen as the four tests that an operation asks. All lawful kernels are seen so.
pub trait Tested {
    /// The tests.
    ghost tests: { Self → Tests };
}

impl<K: Kernels> Tested for K {
    ghost tests = { λ k. record {
      vertex_face = ⟦<K as Meets<1, 3>>⟧.meet_of k;
      face_vertex = ⟦<K as Meets<3, 1>>⟧.meet_of k;
      edge_face = ⟦<K as Crosses<2, 3>>⟧.crossing_of k;
      face_edge = ⟦<K as Crosses<3, 2>>⟧.crossing_of k;
    } };
}
