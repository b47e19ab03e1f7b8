//! The bench writer: a short telegram with one TBL1+ packet.
#![tactic(auto)]

mod draft;
mod faults;
mod layout;
mod writing;

pub use draft::Draft;
pub use faults::WriteFault;
pub use writing::{worked_example, write};
