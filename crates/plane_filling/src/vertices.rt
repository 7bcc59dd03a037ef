// Places of a walk by their indices, counted round it.
ghost use Rattle.std.specs.Prelude.{◌≡◌, ◌≤◌, length};
ghost use Rattle.face_plane.specs.Rings.{vertex_at, vertex_before, vertex_after};

/// The vertex at a place, 0 where the ring has no place.
pub fn vertex_at(ring: &[u32], place: usize) -> u32
    ensures { result ≡ vertex_at ring.now place }
{
    if ring.is_empty() {
        return 0;
    }
    ring[place % ring.len()]
}

/// The vertex at the place before one of the ring's.
pub fn vertex_before(ring: &[u32], place: usize) -> u32
    requires { place ≤ length ring.now }
    ensures { result ≡ vertex_before ring.now place }
{
    vertex_at(ring, place + ring.len().saturating_sub(1))
}

/// The vertex at the place after one of the ring's.
pub fn vertex_after(ring: &[u32], place: usize) -> u32
    requires { place ≤ length ring.now }
    ensures { result ≡ vertex_after ring.now place }
{
    vertex_at(ring, place + 1)
}
