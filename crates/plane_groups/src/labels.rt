// Labels by numbers.
ghost use Rattle.std.specs.Prelude.{◌≡◌, ◌↔◌, ◌<◌, ◌≤◌, ℕ, IfOk, get_or, length};
ghost use Rattle.mesh_terms.specs.Labels.{label_at};
ghost use Rattle.mesh_terms.specs.Limits.{most_triangles};

use indexmap::IndexSet;
use mb_base::{Labels, NoMemory};
use mesh_check::Mesh;
use std::alloc::Global;

/// A number for each of these triangles of a mesh, the same one where two have the same label.
pub fn label_numbers(alloc: Global, mesh: &Mesh, sources: &[u32]) -> Result<Vec<u32>, NoMemory>
    requires few { length sources.now ≤ most_triangles }
    ensures full { IfOk result (λ numbers. length numbers.items ≡ length sources.now) }
    ensures same { IfOk result (λ numbers. (i j : ℕ) → i < length sources.now → j < length sources.now →
        (get_or numbers.items i 0 ≡ get_or numbers.items j 0) ↔ (label_at mesh.now.labels (get_or sources.now i 0) ≡ label_at mesh.now.labels (get_or sources.now j 0))) }
{
    match mesh.labels() {
        Some(labels) => {
            let numbers = numbered(alloc, labels, sources)?;
            Ok(numbers)
        }
        None => Ok(vec![in alloc; 0; sources.len()]?),
    }
}

// The numbers of the labels of triangles, in the order in which they come first.
fn numbered(alloc: Global, labels: &Labels, sources: &[u32]) -> Result<Vec<u32>, NoMemory>
    requires few { length sources.now ≤ most_triangles }
    ensures full { IfOk result (λ numbers. length numbers.items ≡ length sources.now) }
    ensures same { IfOk result (λ numbers. (i j : ℕ) → i < length sources.now → j < length sources.now →
        (get_or numbers.items i 0 ≡ get_or numbers.items j 0) ↔ (label_at labels.now (get_or sources.now i 0) ≡ label_at labels.now (get_or sources.now j 0))) }
{
    let mut seen = IndexSet::new(alloc);
    let mut numbers = Vec::with_capacity(alloc, sources.len())?;
    for source in sources {
        let (number, _) = seen.insert_full(labels.get(*source))?;
        numbers.push(number as u32)?;
    }
    Ok(numbers)
}
