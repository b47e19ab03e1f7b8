//! A program's dialogue: lines come from standard input, and each is answered by a line on standard output.
#![tactic(auto)]

mod dialogue;
mod serving;

pub use dialogue::Answerer;
pub use serving::serve;
