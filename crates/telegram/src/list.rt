// The TBL1+ packets of one telegram.
use balise::{Code, Digit, Direction, Tbl1Packet};
use few::Few;

/// The TBL1+ packets of a telegram in their order. The 780 bits behind the header of a long telegram have room for 16.
pub type PacketList = Few<Tbl1Packet, 16>;

/// What stands in the place of a packet that has not been read.
pub const BLANK: Tbl1Packet = Tbl1Packet {
    direction: Direction::Reverse,
    code: Code {
        first: Digit::Zero,
        second: Digit::Zero,
    },
};
