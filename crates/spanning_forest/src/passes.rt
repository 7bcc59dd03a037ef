// Passes over the triangles in their order.
//
// The order in which that walk goes comes from a spanning forest (`spanning_forest`), which knows only triples. First
// the triangles are read in their order, there and back, at most four times, and the vertices of each that has one
// which was entered are entered along its edges. So memory is read in order, and as a rule all of a first component
// is entered before any half-edges are gathered; a pass that finds few for many triangles ends. What is left is
// entered breadth first: the entrances that the forest lists are its queue, so it needs no other. Triangles that meet
// only at a vertex are joined, so it goes along the half-edges that start at a vertex, gathered by it, and not round
// fans. The roots of such a forest are the components that `mesh_make` counts.
ghost use Rattle.std.specs.Prelude.{◌≡◌, ◌<◌, ◌≤◌, ◌-◌, ◌∷◌, ◌++◌, [], OnOk, cond, get_or, length, set, true};
ghost use Rattle.std.specs.List.{All};
ghost use Rattle.chain_terms.specs.Chains.{all_edges};
ghost use Rattle.mesh_terms.specs.Limits.{most_triangles};
ghost use Rattle.mesh_terms.specs.Meshes.{triple_of, triples_of, IsBelow};
ghost use Rattle.spanning_forest.specs.Walks.{leads, AreBegun, AreEntered, AreMore, IsFaceEntered};
ghost use Rattle.spanning_forest.specs.declared.entrance.Entrance.TheVariants.{Along};

use crate::entrance::Entrance;
use mb_base::NoMemory;

// How many passes there are at most.
const PASSES: usize = 4;

// How many triangles a pass reads at most for each vertex that was entered by then, and that many more.
const FACES: usize = 32;

/// Enters the first vertex as a root, and along triangles that are read in order, there and back, what is joined to it,
/// until all vertices are entered, a pass enters none, or the passes are done. Not all that is joined to it is then
/// entered, but as a rule it is.
pub fn enter_first(
    triples: &[[u32; 3]],
    seen: &mut [bool],
    entrances: &mut Vec<Entrance>,
) -> Result<(), NoMemory>
    requires below { All (IsBelow (length seen.old)) (triples_of triples.now) }
    requires few { length triples.now ≤ most_triangles }
    requires some { 0 < length seen.old }
    requires entered { AreEntered (all_edges (triples_of triples.now)) seen.old entrances.old.items }
    requires none { entrances.old.items ≡ [] }
    ensures { OnOk result (AreBegun (all_edges (triples_of triples.now)) (length seen.old) seen.new entrances.new.items) }
{
    seen[0] = true;
    entrances.push(Entrance::Root(0))?;
    for pass in 0..PASSES {
        let before = entrances.len();
        enter_along(triples, seen, entrances, pass % 2 == 1)?;
        if entrances.len() == before || entrances.len() == seen.len() {
            return Ok(());
        }
    }
    Ok(())
}

// Reads the triangles in order, or backwards, and enters the vertices of each that has one which was entered. It stops
// where few are entered for many triangles.
fn enter_along(
    triples: &[[u32; 3]],
    seen: &mut [bool],
    entrances: &mut Vec<Entrance>,
    backwards: bool,
) -> Result<(), NoMemory>
    requires below { All (IsBelow (length seen.old)) (triples_of triples.now) }
    requires few { length triples.now ≤ most_triangles }
    requires entered { AreEntered (all_edges (triples_of triples.now)) seen.old entrances.old.items }
    ensures { OnOk result (AreMore (all_edges (triples_of triples.now)) seen.old entrances.old.items seen.new entrances.new.items) }
{
    for place in 0..triples.len() as u32 {
        if place as usize / FACES > entrances.len() {
            return Ok(());
        }
        enter_face(triples, face_at(triples, place, backwards), seen, entrances)?;
    }
    Ok(())
}

// The number of the triangle that is read at a place: it, or the one as far from the last.
fn face_at(triples: &[[u32; 3]], place: u32, backwards: bool) -> u32
    requires place { place < length triples.now }
    requires few { length triples.now ≤ most_triangles }
    ensures value { result ≡ cond backwards (length triples.now - 1 - place) place }
    ensures below { result < length triples.now }
{
    if backwards {
        return triples.len() as u32 - 1 - place;
    }
    place
}

// Enters the vertices of a triangle where one of them was entered.
fn enter_face(
    triples: &[[u32; 3]],
    face: u32,
    seen: &mut [bool],
    entrances: &mut Vec<Entrance>,
) -> Result<(), NoMemory>
    requires face { face < length triples.now }
    requires below { All (IsBelow (length seen.old)) (triples_of triples.now) }
    requires few { length triples.now ≤ most_triangles }
    requires entered { AreEntered (all_edges (triples_of triples.now)) seen.old entrances.old.items }
    ensures { OnOk result (IsFaceEntered (all_edges (triples_of triples.now)) (triple_of (get_or triples.now face [])) seen.old entrances.old.items seen.new entrances.new.items) }
{
    let [a, b, c] = triples[face as usize];
    enter_end(a, b, 3 * face, seen, entrances)?;
    enter_end(b, c, 3 * face + 1, seen, entrances)?;
    enter_end(c, a, 3 * face + 2, seen, entrances)?;
    // Where only the last one was entered, the first is entered by now.
    enter_end(a, b, 3 * face, seen, entrances)?;
    Ok(())
}

// Enters the end of a half-edge whose start was entered, where the end was not.
fn enter_end(
    from: u32,
    to: u32,
    half: u32,
    seen: &mut [bool],
    entrances: &mut Vec<Entrance>,
) -> Result<(), NoMemory>
    requires from { from < length seen.old }
    requires to { to < length seen.old }
    ensures marks { OnOk result (seen.new ≡ cond (leads seen.old from to) (set seen.old to true) seen.old) }
    ensures entrances { OnOk result (entrances.new.items ≡ cond (leads seen.old from to) (entrances.old.items ++ Along half ∷ []) entrances.old.items) }
    ensures full { OnOk result (length seen.new ≡ length seen.old) }
{
    if !seen[from as usize] || seen[to as usize] {
        return Ok(());
    }
    seen[to as usize] = true;
    entrances.push(Entrance::Along(half))?;
    Ok(())
}
