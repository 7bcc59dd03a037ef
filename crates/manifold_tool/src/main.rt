//! `manifold_tool`: makes, moves, unites, intersects, subtracts and measures closed triangle meshes by the lines of a script, copies one from file to file, and
//! says how often one winds round a point. A result is closed for any input that is accepted.
//!
//! `run` is the top call, and its contract is the program's promise. `main` only hands on the real words and streams.
#![tactic(auto)]

use mb_outside::StdSink;
pub use mesh_files::{Read, Stop, read_mesh, save_mesh};
pub use program_runs::{Status, run};
use program_runs::{given_words, start_here};
use std::marker::Brand;
use std::process::ExitCode;
use std::sync::ledger::Blank;

fn main(rt: HostRuntime) -> ExitCode {
    let mut out = StdSink::over(rt.stdout());
    let mut err = StdSink::over(rt.stderr());
    let words = given_words(&rt, rt.alloc());
    let status = start_here::<_, _, _, Brand>(
        &rt,
        rt.alloc(),
        words,
        &mut out,
        &mut err,
        Blank::new(1),
    );
    ExitCode::from(status.number())
}
