// The labels of source faces, and of the mesh that is made of these.
//
// An operation on meshes with labels writes four bytes for each triangle, by its source face, and the bytes of a run
// once; it compares no labels. Where neither mesh has any, nothing is done for them. Else `boolean` reduces each of
// the two that is not plainly reduced once more, for its labels: that is the time and the memory of one more
// reduction.
ghost use Rattle.std.specs.Prelude.{◌≡◌, ◌↔◌, ℕ, IfOk, IsTrue, length, map};
ghost use Rattle.mesh_boolean.specs.Labels.{any_face_label, face_label, with_labels};
ghost use Rattle.mesh_boolean.specs.Operation.{face_labels, reduced_mesh};
ghost use Rattle.mesh_boolean.specs.Results.{IsLabelled};
ghost use Rattle.mesh_terms.specs.Labels.{label_at, no_labels};

use crate::outcome::Outcome;
use mb_base::{Labels, NoMemory};
use mesh_check::{Mesh, is_plainly_reduced, reduce};
use std::alloc::Global;

/// The labels of source faces: of so many of the first reduced mesh, then of those of the second.
#[derive(Drop)]
pub struct FaceLabels {
    first: Labels,
    second: Labels,
    faces: u32,
}

impl FaceLabels {
    // The label of a source face.
    fn get(&self, face: u32) -> &[u8]
        ensures { result.now ≡ face_label self.now face }
    {
        if face < self.faces {
            self.first.get(face)
        } else {
            self.second.get(face - self.faces)
        }
    }
}

/// The labels of the source faces of an operation on two meshes. None where neither mesh has a list of labels, which takes
/// no time. They are shared with a mesh from which reduction removes nothing.
pub fn face_labels(alloc: Global, p: &Mesh, q: &Mesh) -> Result<Option<FaceLabels>, NoMemory>
    ensures { IfOk result (λ labels. (x : ℕ) → any_face_label labels x ≡ label_at (face_labels p.now q.now) x) }
{
    if has_none(p) && has_none(q) {
        return Ok(None);
    }
    let (first, faces) = reduced_labels(alloc, p)?;
    let (second, _) = reduced_labels(alloc, q)?;
    Ok(Some(FaceLabels {
        first,
        second,
        faces,
    }))
}

/// The outcome with the label of its source face for each triangle.
pub fn labelled(
    alloc: Global,
    outcome: Outcome,
    labels: Option<FaceLabels>,
) -> Result<Outcome, NoMemory>
    requires count { length outcome.source.items ≡ length outcome.mesh.triples }
    requires empty { outcome.mesh.labels ≡ no_labels outcome.mesh.triples }
    ensures { IfOk result (λ r. r ≡ with_labels outcome (map (any_face_label labels) outcome.source.items)) }
{
    let Some(labels) = labels else {
        return Ok(outcome);
    };
    let labels = Labels::of_faces(
        alloc,
        &labels.first,
        &labels.second,
        labels.faces,
        &outcome.source,
    )?;
    Ok(Outcome {
        mesh: outcome.mesh.with_labels(labels),
        prescribed: outcome.prescribed,
        from: outcome.from,
        source: outcome.source,
        forced: outcome.forced,
    })
}

/// Whether each triangle of an outcome's mesh has the label of its source face in an operation on two meshes. It takes no
/// time where none of the three meshes has a list of labels.
pub fn is_labelled(alloc: Global, p: &Mesh, q: &Mesh, outcome: &Outcome) -> Result<bool, NoMemory>
    requires { length outcome.now.source.items ≡ length outcome.now.mesh.triples }
    ensures { IfOk result (λ yes. IsTrue yes ↔ IsLabelled p.now q.now outcome.now) }
{
    let faces = face_labels(alloc, p, q)?;
    Ok(have_labels(&outcome.mesh, &outcome.source, &faces))
}

// Whether each triangle of a mesh has the label of its source face.
fn have_labels(mesh: &Mesh, source: &[u32], faces: &Option<FaceLabels>) -> bool
    requires { length source.now ≡ length mesh.now.triples }
    ensures { IsTrue result ↔ mesh.now.labels ≡ map (any_face_label faces.now) source.now }
{
    if faces.is_none() && has_none(mesh) {
        return true;
    }
    // Read so that what a mesh keeps is known here: so few triangles, and a label for each.
    let _ = mesh.triples();
    let _ = mesh.labels();
    for (triangle, face) in source.iter().enumerate() {
        if mesh.label(triangle as u32) != label_of(faces, *face) {
            return false;
        }
    }
    true
}

// The label of a source face, which is empty where there are none.
fn label_of(faces: &Option<FaceLabels>, face: u32) -> &[u8]
    ensures { result.now ≡ any_face_label faces.now face }
{
    match faces {
        Some(labels) => labels.get(face),
        None => &[],
    }
}

// Whether a mesh has no list of labels.
fn has_none(mesh: &Mesh) -> bool
    ensures { IsTrue result → mesh.now.labels ≡ no_labels mesh.now.triples }
{
    mesh.labels().is_none()
}

// The labels of a mesh after reduction, and how many triangles it then has.
fn reduced_labels(alloc: Global, mesh: &Mesh) -> Result<(Labels, u32), NoMemory>
    ensures labels { IfOk result (λ r. (t : ℕ) → label_at r.0 t ≡ label_at (reduced_mesh mesh.now).labels t) }
    ensures count { IfOk result (λ r. r.1 ≡ length (reduced_mesh mesh.now).labels) }
{
    if is_plainly_reduced(mesh) {
        return shared_labels(alloc, mesh);
    }
    let mesh = reduce(alloc, mesh)?;
    shared_labels(alloc, &mesh)
}

// The labels of a mesh, and how many triangles it has.
fn shared_labels(alloc: Global, mesh: &Mesh) -> Result<(Labels, u32), NoMemory>
    ensures labels { IfOk result (λ r. (t : ℕ) → label_at r.0 t ≡ label_at mesh.now.labels t) }
    ensures count { IfOk result (λ r. r.1 ≡ length mesh.now.labels) }
{
    let count = mesh.triples().len() as u32;
    match mesh.labels() {
        Some(labels) => Ok((labels.copy(alloc)?, count)),
        None => Ok((Labels::start(alloc), count)),
    }
}
