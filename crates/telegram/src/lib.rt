//! A balise telegram read from the caller's bytes: refused with its fault, or given as its header and TBL1+ packets.
#![tactic(auto)]

mod bits;
mod form;
mod frame;
mod header;
mod list;
mod packet;
mod reading;

pub use frame::{Accepted, Frame};
pub use list::PacketList;
pub use reading::{Telegram, read};
