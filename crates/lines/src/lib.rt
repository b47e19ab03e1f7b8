//! What is written down: the strip line, written and read.
#![tactic(auto)]

mod puts;
mod strip;

pub use puts::LONGEST;
pub use strip::{read_strip, write_strip};
pub use text::TextFault;
