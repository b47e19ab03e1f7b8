//! Balise groups: what is remembered of the group that the train passes, and the code that its telegrams lead to.
#![tactic(auto)]

mod codes;
mod memory;
mod receiving;

pub use codes::{Codes, Travel};
pub use memory::{GroupId, Heard, Memory, Message, OpenGroup};
