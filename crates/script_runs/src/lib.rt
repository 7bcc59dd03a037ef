//! Runs the scripts of the program: the whole script is read, and then its lines load, make, move, combine, tidy, remesh, measure, inspect and save meshes, and
//! make, combine and extrude outlines, one after the other.
//!
//! Each call meets its task, whatever the shelf and the output. A name may be defined again: it then has what the later line makes, and what it had is freed.
#![tactic(auto)]

mod combining;
mod doing;
mod inspecting;
mod loading;
mod making;
mod measuring;
mod moving;
mod names;
mod outlining;
mod remeshing;
mod running;
mod saving;
mod settings;
mod tidying;

pub use running::run_script;
pub use settings::Settings;
