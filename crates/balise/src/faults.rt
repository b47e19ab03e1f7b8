// What can be wrong with a telegram, a layer inside the other: what a packet's reading finds comes up through header and frame unchanged.
ghost use Rattle.std.specs.Prelude.{◌≡◌};
ghost use Rattle.balise.specs.Faults.{packet_refusal, header_refusal, frame_refusal};
ghost use Rattle.balise.specs.declared.faults.FrameFault.TheVariants.{Header};
ghost use Rattle.balise.specs.declared.faults.HeaderFault.TheVariants.{Packet};

use refusal::{Layer, Reason, Refusal};

/// What is wrong with a packet, which begins at the bit `at` of its telegram.
// `at` in each case, and no struct around them: the definitions of a packet's reading name the cases so
#[derive(Clone, Copy, PartialEq, Eq, Debug)]
pub enum PacketFault {
    /// Fewer than 8 bits are left where a packet should begin: no packet 255 ended the telegram.
    NoEnd { at: usize },
    /// The packet runs past the end of the telegram.
    PastEnd { at: usize },
    /// L_PACKET is less than the 23 bits that every packet has.
    TooShort { at: usize },
    /// Packet 44 is too short to name its user.
    NoUser { at: usize },
    /// Q_DIR of packet 44 is 3.
    Direction { at: usize },
    /// A TBL1+ packet has not 48 bits.
    CodeLength { at: usize },
    /// A digit of a TBL1+ packet is above 10.
    Digit { at: usize },
}

/// What is wrong with a header, or with what stands behind it.
#[derive(Clone, Copy, PartialEq, Eq, Debug)]
pub enum HeaderFault {
    /// Q_UPDOWN is not 1.
    Updown,
    /// M_VERSION is above the plug value.
    Version,
    /// Q_MEDIA is not 0.
    Media,
    /// N_TOTAL is 0.
    NoTotal,
    /// N_PIG is above N_TOTAL.
    Position,
    /// N_TOTAL is not that of the open group that is remembered.
    OtherTotal,
    Packet(PacketFault),
}

/// What is wrong with a telegram as the antenna hands it over, or with what stands in it.
#[derive(Clone, Copy, PartialEq, Eq, Debug)]
pub enum FrameFault {
    /// It has neither 27 nor 104 bytes.
    Length,
    /// A closing bit is not zero.
    Closing,
    /// The antenna found the CRC bad.
    Crc,
    Header(HeaderFault),
}

impl From<PacketFault> for HeaderFault {
    ghost from_gives = { λ fault r. r ≡ Packet fault };

    fn from(fault: PacketFault) -> HeaderFault {
        HeaderFault::Packet(fault)
    }
}

impl From<HeaderFault> for FrameFault {
    ghost from_gives = { λ fault r. r ≡ Header fault };

    fn from(fault: HeaderFault) -> FrameFault {
        FrameFault::Header(fault)
    }
}

/// Reason, place and layer.
impl From<PacketFault> for Refusal {
    ghost from_gives = { λ fault r. r ≡ packet_refusal fault };

    fn from(fault: PacketFault) -> Refusal {
        let (reason, place) = match fault {
            PacketFault::NoEnd { at }
            | PacketFault::PastEnd { at }
            | PacketFault::TooShort { at } => (Reason::Bounds, at),
            PacketFault::NoUser { at }
            | PacketFault::Direction { at }
            | PacketFault::CodeLength { at }
            | PacketFault::Digit { at } => (Reason::Packet, at),
        };
        Refusal {
            reason,
            place,
            layer: Layer::Packet,
        }
    }
}

/// Reason, place and layer.
impl From<HeaderFault> for Refusal {
    ghost from_gives = { λ fault r. r ≡ header_refusal fault };

    fn from(fault: HeaderFault) -> Refusal {
        let (reason, place) = match fault {
            HeaderFault::Updown => (Reason::Header, 0),
            HeaderFault::Version => (Reason::Header, 1),
            HeaderFault::Media => (Reason::Header, 8),
            HeaderFault::NoTotal => (Reason::Position, 12),
            HeaderFault::Position => (Reason::Position, 9),
            HeaderFault::OtherTotal => (Reason::OtherTotal, 12),
            HeaderFault::Packet(packet) => return packet.into(),
        };
        Refusal {
            reason,
            place,
            layer: Layer::Header,
        }
    }
}

/// Reason, place and layer.
impl From<FrameFault> for Refusal {
    ghost from_gives = { λ fault r. r ≡ frame_refusal fault };

    fn from(fault: FrameFault) -> Refusal {
        let reason = match fault {
            FrameFault::Length | FrameFault::Closing => Reason::Frame,
            FrameFault::Crc => Reason::Crc,
            FrameFault::Header(header) => return header.into(),
        };
        Refusal {
            reason,
            place: 0,
            layer: Layer::Frame,
        }
    }
}
