// The states of a telegram. Each is a type of its own: only a telegram whose header was accepted has packets to read.
ghost use Rattle.std.specs.Prelude.{◌≡◌, ◌<◌, ◌≤◌, length, Some};
ghost use Rattle.telegram.specs.Bits.{field};
ghost use Rattle.telegram.specs.Forms.{form_of};
ghost use Rattle.telegram.specs.Headers.{header_in};

use crate::bits::BitReader;
use crate::form::{Form, telegram_bits};
use crate::header::{ask_header, read_header};
use crate::list::{BLANK, PacketList};
use crate::packet::{Found, read_packet};
use balise::{FrameFault, Header, HeaderFault, PacketFault, Reception, TBL1_BITS};

/// A telegram whose length, closing bits and CRC are right.
#[derive(Clone, Copy, PartialEq, Eq, Debug)]
pub struct Frame<'a> {
    bytes: &'a [u8],
    form: Form,
    ghost formed: { form_of (length bytes.now) ≡ Some form },
    ghost closed: { field bytes.now form.bits form.closing ≡ 0 },
}

/// A telegram whose header was accepted too.
#[derive(Clone, Copy, PartialEq, Eq, Debug)]
pub struct Accepted<'a> {
    frame: Frame<'a>,
    header: Header,
    ghost in_frame: { header ≡ header_in frame.bytes.now },
    ghost from_balise: { (header.updown ≡ 1) × (header.media ≡ 0) },
    ghost in_group: { (0 < header.total) × (header.position ≤ header.total) },
}

/// The first bit of the first packet.
const PACKETS: usize = 50;
/// More packets than a telegram has room for: each has 23 bits at least, and 780 bits lie behind the header of a long one.
const MOST_PACKETS: usize = 34;

impl<'a> Frame<'a> {
    ghost use Rattle.telegram.specs.Telegrams.{frame_of, framed, accepted_of, accepted};

    /// A telegram as the antenna hands it over, with its word on the CRC.
    pub fn receive(reception: Reception<'a>) -> Result<Frame<'a>, FrameFault>
        ensures { framed result ≡ frame_of reception.entry.bytes.now reception.entry.crc_good }
    {
        let bytes = reception.bytes;
        let form = Form::of(bytes.len()).ok_or(FrameFault::Length)?;
        if BitReader::new(bytes, form.bits).take(form.closing) != 0 {
            return Err(FrameFault::Closing);
        }
        if !reception.crc_good {
            return Err(FrameFault::Crc);
        }
        Ok(Frame { bytes, form })
    }

    /// The telegram for the reading of its packets, where its header is accepted under the plug value.
    pub fn accept(self, plug: u8) -> Result<Accepted<'a>, HeaderFault>
        ensures { accepted result ≡ accepted_of self.entry.bytes.now plug }
    {
        let header = ask_header(read_header(self.bytes), plug)?;
        Ok(Accepted {
            frame: self,
            header,
        })
    }
}

impl Accepted<'_> {
    ghost use Rattle.telegram.specs.Telegrams.{packets_in, EveryPacketRead, listed};

    /// The header.
    pub fn header(&self) -> Header
        ensures value { result ≡ self.now.header }
        ensures in_frame { result ≡ header_in self.now.frame.bytes.now }
    {
        self.header
    }

    /// The TBL1+ packets in their order, up to the packet 255. The count of turns leaves none out.
    #[tactic(auto, using(crate::proofs::Turns::turn_steps))]
    pub fn packets(&self) -> Result<PacketList, PacketFault>
        ensures value { listed result ≡ packets_in self.now.frame.bytes.now }
        ensures every { EveryPacketRead self.now.frame.bytes.now }
    {
        let bytes = self.frame.bytes;
        let end = telegram_bits(bytes.len());
        let mut list = PacketList::none(BLANK);
        let mut at = PACKETS;
        for _ in 0..MOST_PACKETS {
            if at + 8 > end {
                return Err(PacketFault::NoEnd { at });
            }
            // the telegram from the packet's first byte on, and the packet's first bit in it
            let reader = BitReader::new(&bytes[at / 8..], at % 8);
            match read_packet(reader, at, end)? {
                Found::End => return Ok(list),
                Found::Other { length } => at += length,
                Found::Tbl1 { packet } => {
                    list.push(packet).unwrap();
                    at += TBL1_BITS;
                }
            }
        }
        Err(PacketFault::NoEnd { at })
    }
}
