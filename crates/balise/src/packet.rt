// What a TBL1+ packet says, and for which direction.
ghost use Rattle.std.specs.Prelude.{Some};
ghost use Rattle.balise.specs.Directions.{DirectionOf, direction_text, packet_text};

use crate::code::Code;
use std::fmt;

// numbers and no enums: of 256 identities of packets two mean something here, of 512 of users one
/// NID_PACKET of the packet that ends a telegram.
pub const END: u16 = 255;
/// NID_PACKET of the packet that belongs to a user.
pub const USER_PACKET: u16 = 44;
/// NID_XUSER of TBL1+.
pub const TBL1: u16 = 13;
/// The bits of a TBL1+ packet: the fixed part, NID_XUSER and two digits.
pub const TBL1_BITS: usize = 48;

/// For which direction of travel a packet holds: Q_DIR.
#[derive(Clone, Copy, PartialEq, Eq, Debug)]
pub enum Direction {
    Reverse,
    Nominal,
    Both,
}

/// A TBL1+ packet: packet 44 of user 13.
#[derive(Clone, Copy, PartialEq, Eq, Debug)]
pub struct Tbl1Packet {
    pub direction: Direction,
    pub code: Code,
}

/// A Q_DIR that names no direction: it is 3 or above.
#[derive(Clone, Copy, PartialEq, Eq, Debug)]
pub struct NoDirection(pub u16);

impl TryFrom<u16> for Direction {
    type Error = NoDirection;

    ghost try_from_gives = { DirectionOf };

    fn try_from(value: u16) -> Result<Direction, NoDirection> {
        match value {
            0 => Ok(Direction::Reverse),
            1 => Ok(Direction::Nominal),
            2 => Ok(Direction::Both),
            _ => Err(NoDirection(value)),
        }
    }
}

/// The letter of a direction.
impl fmt::Display for Direction {
    ghost output = { λ direction. Some (direction_text direction) };

    fn fmt<W: fmt::Write>(&self, f: &mut fmt::Formatter<W>) -> fmt::Result {
        f.write_str(match self {
            Direction::Nominal => "N",
            Direction::Reverse => "R",
            Direction::Both => "B",
        })
    }
}

/// The letter of its direction, and its code.
impl fmt::Display for Tbl1Packet {
    ghost output = { λ packet. Some (packet_text packet) };

    fn fmt<W: fmt::Write>(&self, f: &mut fmt::Formatter<W>) -> fmt::Result {
        let Tbl1Packet { direction, code } = *self;
        write!(f, "{direction}{code}")
    }
}
