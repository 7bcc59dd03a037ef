//! The lines that the program says on its output and on standard error, among them what stops a run, with the names of faults: each
//! goes out whole, or in part where the output fails.
#![tactic(auto)]

mod fault_names;
mod inspection_tail;
mod report;
mod script_report;
mod script_tail;
mod tail;

pub use report::{say_copied, say_winding, tell_halt, tell_stop};
pub use script_report::{
    OperationCounts, OutlineCounts, say_combined, say_combined2, say_extruded, say_inspected,
    say_loaded, say_measured, say_remeshed, say_saved, say_tidied,
};
