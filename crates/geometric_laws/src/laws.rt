//! The law, as the contract of a function that does nothing.

ghost use Rattle.geometric_laws.specs.Laws.{OperationsAreGeometric, ScriptsAreGeometric};

use sheet_laws::laws::remeshed_is_given;
use source_face_laws::of_fillings::fillings_close;

/// Under exact kernels, with whatever rounding, an operation on two accepted meshes prescribes each vertex of one, reduced, that lies in no
/// closed triangle of the other as often as the operation on the geometric winding number says: the number of tetrahedra, from an apex to
/// the triangles of the other, that contain the vertex, positive ones less negative ones. That is the same from every apex of which the
/// vertex is clear, and there is one. So it is in a script, of the meshes of two names, after a line that chooses exact kernels.
pub fn operations_are_geometric()
    ensures meshes { OperationsAreGeometric }
    ensures scripts { ScriptsAreGeometric }
{
    // The laws of fillings, and of remeshing.
    fillings_close();
    remeshed_is_given();
}
