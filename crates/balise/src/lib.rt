//! The words of a balise telegram: its header and codes, and what can be wrong with it.
#![tactic(auto)]

mod code;
mod faults;
mod header;
mod packet;
mod reception;

pub use code::{Code, Digit, NotADigit};
pub use faults::{FrameFault, HeaderFault, PacketFault};
pub use header::Header;
pub use packet::{Direction, END, NoDirection, TBL1, TBL1_BITS, Tbl1Packet, USER_PACKET};
pub use reception::{KeptReception, LONG, Reception, SHORT};
