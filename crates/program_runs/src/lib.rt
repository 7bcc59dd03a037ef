//! Runs of the program. `run` is its top call, over any shelf and any outputs, and its contract is the program's promise. `start` hands it the program's limits, and
//! `start_here` the current folder too; `given_words` reads the words after the program's name.
#![tactic(auto)]

mod back;
mod copying;
mod ending;
mod here;
mod locating;
mod starting;
mod status;
mod top_call;
mod words;

pub use copying::copy;
pub use ending::concluded;
pub use here::start_here;
pub use locating::{Sought, inside};
pub use starting::start;
pub use status::{Status, status_at};
pub use top_call::run;
pub use words::given_words;
