// Places of the grid.
ghost use Rattle.mesh_terms.specs.Points.{IsOnGrid};

/// A place: three whole coordinates in grid steps, from -2^30 to 2^30.
#[derive(Clone, Copy, Drop)]
pub struct Place {
    pub x: i64,
    pub y: i64,
    pub z: i64,
    ghost x_on_grid: { IsOnGrid x },
    ghost y_on_grid: { IsOnGrid y },
    ghost z_on_grid: { IsOnGrid z },
}
