//! The world outside as two traits: a shelf of files by name, and a sink that takes bytes.
//!
//! Code above is proved once for every shelf and every sink. It learns what the files hold where the
//! shelf tells them, and that a refusal comes only where a count of faults rose. `MemoryShelf`, `SureShelf`
//! and `MemorySink` tell all they hold and say exactly when they fail; `ShortShelf` says so too, and tells
//! nothing, for tests of files that end early; `FolderShelf` and `StdSink` are the edge to the system, and
//! tell nothing.
#![tactic(auto)]

mod calls;
mod copying;
mod folder_shelf;
mod memory_shelf;
mod memory_sink;
mod shelf;
mod short_shelf;
mod sink;
mod std_sink;
mod stored_file;
mod stored_files;
mod sure_shelf;
mod writing;

pub use folder_shelf::FolderShelf;
pub use memory_shelf::MemoryShelf;
pub use memory_sink::MemorySink;
pub use shelf::{Failed, Shelf};
pub use short_shelf::ShortShelf;
pub use sink::Sink;
pub use std_sink::StdSink;
pub use sure_shelf::SureShelf;
pub use writing::write_all;
