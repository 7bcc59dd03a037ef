//! The laws, each as the contract of a function that does nothing.

ghost use Rattle.operation_laws.specs.Laws.{OperationsAreAccepted, OperationsAreReadable};
ghost use Rattle.operation_laws.specs.Results.{CutsAreCounted, OperationsAreResults, ScriptsGiveResults, ScriptsRemesh};

use sheet_laws::laws::{planes_are_kept, planes_do_not_fold, regions_turn_left, remeshed_is_given};
use source_face_laws::of_fillings::{faces_are_filled, fillings_close};

/// Under the kernels of the grid and under exact ones an operation on two accepted meshes makes an accepted mesh, within lawful
/// limits where its half-edges are, and what a script makes so is read of its text.
pub fn operations_are_readable()
    ensures accepted { OperationsAreAccepted }
    ensures readable { OperationsAreReadable }
{
    // The laws of fillings, and of remeshing.
    fillings_close();
    remeshed_is_given();
}

/// Under the kernels of the grid and under exact ones what an operation gives of two accepted meshes is a result of them, where its half-edges are at most
/// `most_halfedges`, which no lawful limit passes: along each half-edge of both, reduced, the winding number in the other changes by its signed
/// crossings; the vertices, before pinched ones are split, are the prescribed ones, each as often; the triangles of each source face are bounded
/// by its segments and have its label; and the mesh is closed, its half-edges are paired, and each vertex has one fan. The meshes of the names of a script are such
/// meshes, whatever lines of it were done; and remeshing keeps of the mesh of a name what `remesh` says. The number of cuts that an inspection says of a mesh is
/// that of the pairs of its triangles that cut one another.
pub fn operations_are_results()
    ensures results { OperationsAreResults }
    ensures scripts { ScriptsGiveResults }
    ensures remeshed { ScriptsRemesh }
    ensures inspected { CutsAreCounted }
{
    // The laws of fillings, and of remeshing.
    faces_are_filled();
    fillings_close();
    planes_are_kept();
    regions_turn_left();
    planes_do_not_fold();
    remeshed_is_given();
}
