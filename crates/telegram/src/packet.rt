// One packet of a telegram.
ghost use Rattle.std.specs.Prelude.{◌≡◌, ◌+◌, ◌<◌, ◌≤◌};
ghost use Rattle.telegram.specs.Packets.{packet_in, user_packet_in, Lasts, Within};

use crate::bits::BitReader;
use balise::{Code, Digit, Direction, END, PacketFault, TBL1, TBL1_BITS, Tbl1Packet, USER_PACKET};

/// What stands at a place where a packet begins.
#[derive(Clone, Copy, PartialEq, Eq, Debug)]
pub enum Found {
    /// The packet 255 that ends the telegram.
    End,
    /// A packet of so many bits that is passed over.
    Other { length: usize },
    Tbl1 { packet: Tbl1Packet },
}

/// NID_PACKET, Q_DIR and L_PACKET.
const FIXED_BITS: usize = 23;
/// The fixed part and NID_XUSER.
const USER_BITS: usize = 32;

/// The packet that begins where `reader` stands, which holds the telegram from the packet's first byte on. In the telegram, whose bits end at `end`, the packet begins at the bit `at`.
// bounds alone, as in `take`: that the reader's place and `at` are one place of the telegram, its caller knows
pub fn read_packet(mut reader: BitReader<'_>, at: usize, end: usize) -> Result<Found, PacketFault>
    requires { (reader.place < 8) × (at ≤ 830) }
    ensures value { result ≡ packet_in reader.entry.bytes.now reader.entry.place at end }
    ensures within { Within result at end }
{
    let id = reader.take(8);
    if id == END {
        return Ok(Found::End);
    }
    if at + FIXED_BITS > end {
        return Err(PacketFault::PastEnd { at });
    }
    let direction = reader.take(2);
    let length = usize::from(reader.take(13));
    if length < FIXED_BITS {
        return Err(PacketFault::TooShort { at });
    }
    if at + length > end {
        return Err(PacketFault::PastEnd { at });
    }
    if id != USER_PACKET {
        return Ok(Found::Other { length });
    }
    read_user_packet(reader, direction, length, at)
}

/// Packet 44, whose fixed part has been read.
// and so is this one
fn read_user_packet(
    mut reader: BitReader<'_>,
    direction: u16,
    length: usize,
    at: usize,
) -> Result<Found, PacketFault>
    requires { reader.place ≤ 100 }
    ensures value { result ≡ user_packet_in reader.entry.bytes.now reader.entry.place direction length at }
    ensures length { Lasts result length }
{
    if length < USER_BITS {
        return Err(PacketFault::NoUser { at });
    }
    let direction = Direction::try_from(direction).map_err(|_| PacketFault::Direction { at })?;
    if reader.take(9) != TBL1 {
        return Ok(Found::Other { length });
    }
    if length != TBL1_BITS {
        return Err(PacketFault::CodeLength { at });
    }
    let first = Digit::try_from(reader.take(8)).map_err(|_| PacketFault::Digit { at })?;
    let second = Digit::try_from(reader.take(8)).map_err(|_| PacketFault::Digit { at })?;
    let code = Code { first, second };
    Ok(Found::Tbl1 {
        packet: Tbl1Packet { direction, code },
    })
}
