//! Lines of text: what they are read with, from left to right, and what is wrong with an illegal one.
#![tactic(auto)]

mod cursor;
mod fault;
mod hex;
mod table;

pub use cursor::Cursor;
pub use fault::{Illegal, TextFault};
pub use hex::Hex;
pub use table::Table;
