// A loop of vertices.
ghost use Rattle.std.specs.Prelude.{◌≡◌};

use std::marker::Model;

/// A loop: the numbers of its vertices in order, each of which is joined to the next one, and the last to the first.
#[derive(Debug, Drop)]
pub struct Loop {
    vertices: Vec<u32>,
}

impl Model for Loop {
    ghost use Rattle.std.specs.Prelude.{ℕ, List};

    ghost Value = { List ℕ };

    ghost view = { λ l. l.vertices.items };
}

impl Loop {
    /// The loop of these vertices.
    pub fn of(vertices: Vec<u32>) -> Loop
        ensures { result ≡ vertices.items }
    {
        Loop { vertices }
    }

    /// The vertices in order.
    pub fn vertices(&self) -> &[u32]
        ensures { result.now ≡ self.now }
    {
        &self.vertices
    }
}
