// What a surface keeps.
ghost use Rattle.std.specs.Prelude.{◌≡◌};
ghost use Rattle.mesh_tidy.specs.TidySurface.{IsSurface};

use crate::surface::TidySurface;

impl TidySurface {
    /// How many vertices there are, those counted that no triangle has any more.
    pub fn vertices(&self) -> usize
        ensures value { result ≡ self.now.vertices }
        ensures surface { IsSurface self.now }
    {
        self.stars.len()
    }
}
