// Why a call is refused.
ghost use Rattle.std.specs.Prelude.{◌≡◌};
ghost use Rattle.refusal.specs.Refusals.{number_of};

/// Why a call is refused. Each reason has the number under which it is refused.
// no explicit discriminants: one reason holds its number
#[derive(Clone, Copy, PartialEq, Eq, Debug)]
pub enum Reason {
    /// A time is out of range, or before that of the last accepted call.
    Time,
    /// A setting is out of range.
    Setting,
    /// A speed is above the highest.
    Speed,
    /// The lever moved by two steps, or a button is already so.
    Control,
    /// A telegram has a wrong length, or a closing bit that is not zero.
    Frame,
    /// The antenna found the CRC bad.
    Crc,
    /// A header's direction, version or media is wrong.
    Header,
    /// N_TOTAL or N_PIG is wrong.
    Position,
    /// N_TOTAL is not that of the open group that is remembered.
    OtherTotal,
    /// No packet 255 ends the telegram, or a packet is too short or does not fit.
    Bounds,
    /// A packet 44 or a TBL1+ packet is wrong.
    Packet,
    /// No place is free.
    Full,
    /// No element stands at the place that was named.
    Absent,
    /// A line is not legal.
    Line,
    /// A buffer is too short.
    Short,
    /// The writer was given a wrong value.
    Value,
    /// Another reason, of the host's own, under its number.
    Other(u8),
}

impl Reason {
    /// The number under which a call is refused for this reason.
    pub fn number(self) -> u8
        ensures { result ≡ number_of self }
    {
        match self {
            Reason::Time => 1,
            Reason::Setting => 2,
            Reason::Speed => 3,
            Reason::Control => 4,
            Reason::Frame => 5,
            Reason::Crc => 6,
            Reason::Header => 7,
            Reason::Position => 8,
            Reason::OtherTotal => 9,
            Reason::Bounds => 10,
            Reason::Packet => 11,
            Reason::Full => 12,
            Reason::Absent => 13,
            Reason::Line => 14,
            Reason::Short => 15,
            Reason::Value => 16,
            Reason::Other(number) => number,
        }
    }
}
