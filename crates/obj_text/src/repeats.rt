// Whether a face names a vertex twice.
ghost use Rattle.std.specs.Prelude.{◌≡◌, ◌==◌, IfOk};
ghost use Rattle.std.specs.List.{list_any};
ghost use Rattle.std.specs.List.Sorted.{IsNonDecreasing};
ghost use Rattle.format_terms.specs.ObjFaces.{has_repeat};

use std::alloc::AllocError;

// Up to so many vertices each is compared with each; more are sorted.
const FEW: usize = 12;

/// Whether two of the vertices are one. Many of them are sorted in `sorted`, whose former content goes.
/// The time is n log n.
pub fn has_repeat(vertices: &[u32], sorted: &mut Vec<u32>) -> Result<bool, AllocError>
    ensures { IfOk result (λ found. found ≡ has_repeat vertices.now) }
{
    if vertices.len() <= FEW {
        return Ok(has_repeat_of_few(vertices));
    }
    sorted.clear();
    sorted.extend_from_slice(vertices)?;
    sorted.sort_unstable();
    Ok(has_repeat_of_ascending(sorted))
}

// The same by comparing each with each.
fn has_repeat_of_few(vertices: &[u32]) -> bool
    ensures { result ≡ has_repeat vertices.now }
{
    let mut rest = vertices;
    while let Some((vertex, later)) = rest.split_first() {
        if is_among(*vertex, later) {
            return true;
        }
        rest = later;
    }
    false
}

// Whether a vertex is one of others.
fn is_among(vertex: u32, others: &[u32]) -> bool
    ensures { result ≡ list_any (λ other. other == vertex) others.now }
{
    others.iter().any(|other| *other == vertex)
}

// The same where the vertices ascend, so that equal ones stand next to each other.
fn has_repeat_of_ascending(vertices: &[u32]) -> bool
    requires { IsNonDecreasing vertices.now }
    ensures { result ≡ has_repeat vertices.now }
{
    for place in 1..vertices.len() {
        if vertices[place - 1] == vertices[place] {
            return true;
        }
    }
    false
}
