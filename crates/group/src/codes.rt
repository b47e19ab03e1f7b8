// The direction in which a group is passed, and the codes stored for each direction.
ghost use Rattle.std.specs.Prelude.{◌≡◌, Some};
ghost use Rattle.group.specs.Groups.{settled, closes, code_for, replaced, stored};
ghost use Rattle.group.specs.Printed.{travel_text};

use balise::{Code, Direction, Header, Tbl1Packet};
use std::cmp::Ordering;
use std::fmt;

/// The direction in which the train passes a group.
#[derive(Clone, Copy, PartialEq, Eq, Debug)]
pub enum Travel {
    /// N_PIG rises.
    Nominal,
    /// N_PIG falls.
    Reverse,
}

/// The code stored for each direction of travel, if any.
#[derive(Clone, Copy, PartialEq, Eq, Debug, Default)]
pub struct Codes {
    pub nominal: Option<Code>,
    pub reverse: Option<Code>,
}

impl Travel {
    /// The direction once a telegram at `position` was heard of a group whose first telegram was at `first`. A direction that is known stays.
    pub(crate) fn settled(known: Option<Travel>, first: u16, position: u16) -> Option<Travel>
        ensures { result ≡ settled known first position }
    {
        known.or(match first.cmp(&position) {
            Ordering::Less => Some(Travel::Nominal),
            Ordering::Greater => Some(Travel::Reverse),
            Ordering::Equal => None,
        })
    }

    /// Whether a group passed in this direction closes with this telegram.
    pub(crate) fn closes(self, header: Header) -> bool
        ensures { result ≡ closes self header }
    {
        match self {
            Travel::Nominal => header.position == header.total,
            Travel::Reverse => header.position == 0,
        }
    }
}

impl Codes {
    /// The code stored for this direction.
    pub(crate) fn of(self, travel: Travel) -> Option<Code>
        ensures { result ≡ code_for travel self }
    {
        match travel {
            Travel::Nominal => self.nominal,
            Travel::Reverse => self.reverse,
        }
    }

    /// A packet's code in the place of the earlier one, for each direction that its Q_DIR names.
    fn replace(mut self, packet: Tbl1Packet) -> Codes
        ensures { result ≡ replaced self packet }
    {
        let code = Some(packet.code);
        match packet.direction {
            Direction::Nominal => self.nominal = code,
            Direction::Reverse => self.reverse = code,
            Direction::Both => {
                self.nominal = code;
                self.reverse = code;
            }
        }
        self
    }

    /// The codes once these packets have stored theirs, in their order.
    pub fn store(self, packets: &[Tbl1Packet]) -> Codes
        ensures { result ≡ stored self packets.now }
    {
        packets
            .iter()
            .fold(self, |codes, packet| codes.replace(*packet))
    }
}

/// The letter of a direction of travel.
impl fmt::Display for Travel {
    ghost output = { λ travel. Some (travel_text travel) };

    fn fmt<W: fmt::Write>(&self, f: &mut fmt::Formatter<W>) -> fmt::Result {
        f.write_str(match self {
            Travel::Nominal => "N",
            Travel::Reverse => "R",
        })
    }
}
