//! Event lines as text, and their reader.
#![tactic(auto)]

mod line;
mod parts;
mod reader;
mod speed;
mod words;

pub use line::EventLine;
pub use reader::read_event;
