//! A mesh as text into a sink, and one file of a shelf as a sink.
#![tactic(auto)]

mod lines;
mod obj;
mod page;
mod page_sink;
mod stl;

pub use obj::write_obj;
pub use page_sink::PageSink;
pub use stl::write_stl;
