// What a play writes is read again.
ghost use Rattle.std.specs.Prelude.{All};
ghost use Rattle.play_terms.specs.ReadingBack.{CopiesReadable, WritesReadable, digits_in};
ghost use Rattle.play_terms.specs.Words.{command};
ghost use Rattle.play_terms.specs.Program.{play};
ghost use Rattle.operation_laws.specs.Results.{CutsAreCounted};
ghost use Rattle.run_terms.specs.Files.{Files};
ghost use Rattle.program_runs.specs.Playing.{meanings};
ghost use Rattle.program_runs.specs.Promises.{IsSoundPlay};
ghost use Rattle.program_runs.specs.Results.{CommandGivesResults, CommandIsGeometric, CommandKeepsMeshes, CommandReadsStl, CommandRemeshes};

use geometric_laws::laws::operations_are_geometric;
use mb_base::{ArgList, Limits};
use operation_laws::laws::{operations_are_readable, operations_are_results};

/// Whatever the words and the files, each file that their play writes holds the text of a mesh, which is read of its OBJ text, and so is the mesh that a copy
/// reads. Of a script this mesh is the one that its name has then, and each such mesh is read of its OBJ text. Each mesh of a script, and each that a copy
/// reads, is read of its STL text too, welded and closed again, wherever that stands and is not too long. The contract is this law, and the call does nothing.
pub fn plays_are_readable(limits: &Limits, words: &ArgList)
    ensures mesh_back { CopiesReadable limits.now (command words.now) }
    ensures held { CommandKeepsMeshes limits.now (command words.now) }
    ensures stl { CommandReadsStl limits.now (command words.now) }
    ensures back { (files : Files) → All (WritesReadable (digits_in (command words.now)) limits.now) (play meanings limits.now words.now files).actions }
{
    // The limits are lawful, and the law of what operations give.
    let _ = limits.file_bytes();
    operations_are_readable();
}

/// Whatever lines of the script that the words ask for were done, over whatever files, an operation on the meshes of two names is a result of these, which
/// under exact kernels keeps their vertices by their geometric winding numbers, and remeshing keeps of the mesh of a name what it says. The number of cuts that
/// an inspection says of a mesh is that of the pairs of its triangles that cut one another. The contract is this law, and the call does nothing.
pub fn plays_give_results(limits: &Limits, words: &ArgList)
    ensures results { CommandGivesResults limits.now (command words.now) }
    ensures geometric { CommandIsGeometric limits.now (command words.now) }
    ensures remeshed { CommandRemeshes limits.now (command words.now) }
    ensures inspected { CutsAreCounted }
{
    // The limits are lawful, and the laws of operations in scripts.
    let _ = limits.file_bytes();
    operations_are_results();
    operations_are_geometric();
}

/// All of it. The contract is this law, and the call does nothing.
pub fn plays_are_sound(limits: &Limits, words: &ArgList)
    ensures { IsSoundPlay limits.now words.now }
{
    plays_are_readable(limits, words);
    plays_give_results(limits, words);
}
