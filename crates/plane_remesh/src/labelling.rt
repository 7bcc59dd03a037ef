// Labels of new triangles.
ghost use Rattle.std.specs.Prelude.{◌≡◌, ◌<◌, [], IfOk, get_or, length, map};
ghost use Rattle.std.specs.List.{All};
ghost use Rattle.mesh_terms.specs.Labels.{label_at, no_labels};

use mb_base::{Labels, NoMemory};
use mesh_check::Mesh;
use std::alloc::Global;

/// A mesh with empty labels, with those of these triangles of another, one for each of its own.
pub fn with_labels_of(
    alloc: Global,
    made: Mesh,
    mesh: &Mesh,
    sources: &[u32],
) -> Result<Mesh, NoMemory>
    requires each { length sources.now ≡ length made.triples }
    requires sources { All (λ t. t < length mesh.now.triples) sources.now }
    requires empty { made.labels ≡ no_labels made.triples }
    ensures { IfOk result (λ m. m ≡ record made { labels = map (label_at mesh.now.labels) sources.now }) }
{
    let none = Labels::start(alloc);
    match mesh.labels() {
        Some(labels) => Ok(made.with_labels(labels_of(alloc, mesh, labels, &none, sources)?)),
        None => Ok(made),
    }
}

// The labels of these triangles of a mesh, all of which are in the first list.
fn labels_of(
    alloc: Global,
    mesh: &Mesh,
    labels: &Labels,
    none: &Labels,
    sources: &[u32],
) -> Result<Labels, NoMemory>
    requires none { none.now ≡ [] }
    requires sources { All (λ t. t < length mesh.now.triples) sources.now }
    ensures { IfOk result (λ of. of ≡ map (label_at labels.now) sources.now) }
{
    let count = mesh.triples().len() as u32;
    Labels::of_faces(alloc, labels, none, count, sources)
}

/// The numbers in the mesh of triangles over places.
pub fn sources_of(alloc: Global, sources: &[u32], faces: &[u32]) -> Result<Vec<u32>, NoMemory>
    requires { All (λ t. t < length sources.now) faces.now }
    ensures { IfOk result (λ of. of.items ≡ map (λ t. get_or sources.now t 0) faces.now) }
{
    let mut of = Vec::with_capacity(alloc, faces.len())?;
    for face in faces {
        of.push(sources[*face as usize])?;
    }
    Ok(of)
}
