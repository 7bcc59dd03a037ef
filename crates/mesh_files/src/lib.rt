//! Meshes in the files of a shelf: a file is read whole, in pieces; a mesh is read from it and checked; and a mesh is saved.
//!
//! Each call meets its task, whatever the shelf: `read_file` that of asking for a file, `read_mesh` that of reading a mesh, and
//! `save_mesh` that of writing one. What is read is what the file holds, what is saved is the mesh's text or a first part of it,
//! and a fault comes only where the shelf had one. `Stop` says why one of them, or another part of a run, stopped. `read_named_file`,
//! `read_named_mesh` and `save_named_mesh` call them for the files of a command, and a `Halt` of theirs carries the file's name beside the stop.
#![tactic(auto)]

mod files;
mod halt;
mod named;
mod reading;
mod saving;
mod size;
mod stop;

pub use files::read_file;
pub use halt::Halt;
pub use named::{read_named_file, read_named_mesh, save_named_mesh};
pub use reading::{Read, read_mesh};
pub use saving::save_mesh;
pub use stop::Stop;
