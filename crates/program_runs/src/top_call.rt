// The top call.
ghost use Rattle.std.specs.Prelude.{◌<◌, ◌^◌, ◌-◌};
ghost use Rattle.program_runs.specs.Promises.{IsSoundRun};

use crate::back::plays_are_sound;
use crate::{Sought, Status, concluded, copy, inside};
use command_words::{Command, read_command};
use mb_base::{ArgList, Limits, NoMemory, Steps};
use mb_outside::{Shelf, Sink};
use mesh_files::Stop;
use report_lines::tell_stop;
use script_runs::{Settings, run_script};
use std::alloc::Global;
use std::sync::ledger::Ledger;

/// Runs the program on the words after its name.
///
/// The words are `copy IN OUT`, `inside FILE X Y Z` or `run SCRIPT`, with digits or without, as `read_command` has them; any other are `Usage`, want of
/// memory aside, and nothing is done but the usage line on `err`. A unit of the files has 10^K steps of the grid, where K are the digits. `copy` reads and
/// checks the mesh of IN, saves it to OUT and reports that on `out` in one line. `inside` reads and checks the mesh of FILE and reports the winding number
/// of the point in it, and counts one sum; a run that ends before the number is found counts none. `run` reads the whole script of SCRIPT, whose lines
/// load meshes or make solids and give them names, move, tidy and remesh them, unite, intersect and subtract them, measure, inspect and save them, make
/// outlines, combine these and make solids of them, or choose exact kernels; a faulty line is `BadScript`, and then no line is done. Operations before the first
/// line that chooses exact kernels are taken under the kernels of the grid, and those after it under exact ones, all with rounding to the nearest. It then
/// does its lines in order, and reports each that loads, combines, tidies, remeshes, extrudes, measures, inspects or saves on `out` in one line. A solid without a
/// volume or a height, and a solid or a moved mesh that would leave the grid, is `BadMesh`. What was saved before a stop stays. Of a script only
/// operations count sums; where the shelf tells its files these are at most one for each connected component of their meshes, reduced. Whatever goes
/// wrong first ends the run with its status and one line on `err`, and a fault of `err` changes no status. A run that ends well leaves `err` as it was.
///
/// The run meets its play, which is the task of its words under the limits; where the shelf tells its files, that says what was done, and of `out` it says
/// the bytes where `out` tells them. With status 0 to 5 every action of the play was done whole, and the status and the line are those of the play's
/// result; with 6 a file could not be read, with 7 a file or a line was written in part or not at all, and with 8 memory ran out between two actions. So
/// where the files are told, a run whose play gives no refusal, and in which no fault came, ends with 0, or for want of memory. Whatever the files and
/// however the run ended, each file that the play writes holds the text of a mesh in the format of its name, and the mesh is read of its OBJ text under the
/// same digits and limits; for a copy this mesh is the one that was read of IN, in either format, without its unused points. Whatever lines of a script
/// were done, the mesh of each name is read of its OBJ text, with its labels; and of its STL text, wherever this stands and is not too long, welded: no two
/// points at one place, the triangles that have three different places, in order, closed again, and without labels; so is a mesh that is copied. A line
/// that saves a name writes the text of this mesh. The outline of each name has points of the grid, each in one loop, and loops of three points
/// or more. This holds of lines whose rings have 3 to 64 places on the grid and whose heights are on the grid; that the lines of each script that is read
/// are such, under the digits of the run, is promised beside it. Whatever lines of a script were done, what the play has of an operation on the meshes of
/// two names is a result of these, under the kernels chosen by then: along each half-edge of both, reduced, the winding number in the other changes by its
/// signed crossings; the vertices, before pinched ones are split, are those that these numbers prescribe, each as often; the triangles made in each face of
/// either are bounded by the segments prescribed there and have the label of that face; and half-edges pair, none with itself, with one fan at each vertex.
/// Under exact kernels each vertex of one of the two, reduced, that lies in no closed triangle of the other is prescribed as often as the operation says
/// for its geometric winding number. What it has of an operation on the outlines of two names is an outline of the prescribed vertices, whose edges are
/// the segments that pair these along its operands' edges, and along these edges the winding number in the other outline changes by their crossings; and a
/// solid of the outline of a name is accepted, and its volume is the height times the outline's area. And what it has of remeshing the mesh of a name is
/// what `remesh` of `plane_remesh` says: accepted, with the same volume, labels of that mesh, one fan at each vertex and each directed edge at most once;
/// in each plane the boundary, once edges are cut where places lie on them, the area, and how often each point is covered, those triangles that face one
/// side less those that face the other; no new triangle of a region is flat, and where all new ones of a plane face the side of its first old one, each point
/// off their edges lies in just as many. Where the filling isn't taken, it is that mesh. The number of cuts that it says in inspecting a mesh is that of the pairs of
/// triangles, neither of them flat, that lie on the same three places, or of which an edge of one has a point in the other, with rational coordinates,
/// that is not in the hull of the places that are corners of both.
///
/// The read faults of the shelf rise with status 6 alone, its write faults and the faults of `out` with 7 alone, and one of the two does. With
/// 6 the read faults rose, or the shelf tells no files and a read into some space gave nothing below the size that was stated. The shelf
/// counts such reads apart, and this count rises then, but where it stands at 2^64 - 1, its last value, it stays.
pub fn run<S: Shelf, O: Sink, E: Sink, L: Ledger>(
    alloc: Global,
    words: &ArgList,
    limits: &Limits,
    shelf: &mut S,
    out: &mut O,
    err: &mut E,
    steps: &mut Steps<L>,
) -> Status
    requires reads { S.read_faults shelf.old < 2 ^ 64 - 1 }
    requires writes { S.write_faults shelf.old < 2 ^ 64 - 1 }
    requires outs { O.faults out.old < 2 ^ 64 - 1 }
    requires errs { E.faults err.old < 2 ^ 64 - 1 }
    ensures { IsSoundRun S.Shelf O.Sink E.Sink limits.now words.now
        (shelf.old, out.old, err.old) (shelf.new, out.new, err.new) steps.old steps.new result }
{
    // What the play of the words is, whatever the files.
    plays_are_sound(limits, words);
    let command = match read_command(alloc, words) {
        Ok(Some(command)) => command,
        Ok(None) => {
            tell_stop("", &Stop::Usage, err);
            return Status::Usage;
        }
        Err(NoMemory) => {
            tell_stop("", &Stop::NoMemory, err);
            return Status::NoMemory;
        }
    };
    match command {
        Command::CopyFile { digits, from, to } => {
            let settings = Settings {
                alloc,
                digits,
                limits,
            };
            copy(&settings, from, to, shelf, out, err)
        }
        Command::InsideFile {
            digits,
            file,
            point,
        } => {
            let settings = Settings {
                alloc,
                digits,
                limits,
            };
            inside(&settings, &Sought { file, point }, shelf, out, err, steps)
        }
        Command::RunScript { digits, script } => {
            let settings = Settings {
                alloc,
                digits,
                limits,
            };
            let mut bytes = Vec::new(alloc);
            let ended = run_script(&settings, script, &mut bytes, shelf, out, steps);
            concluded(ended, err)
        }
    }
}
