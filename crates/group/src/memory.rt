// The memory of one balise group.
ghost use Rattle.std.specs.Prelude.{◌≡◌, [], Some};
ghost use Rattle.group.specs.GroupLaws.{Happening, telegram_of, memory_after, RunGoesOn, GivesTheLastStored, TellsTheVisit, ActsOnce, StaysClosed, DirectionStays, RefusesOtherTotals};
ghost use Rattle.group.specs.Groups.{group_of, asked, begun, gathered, gone_on, heard};
ghost use Rattle.group.specs.Printed.{group_text};

use crate::codes::{Codes, Travel};
use balise::{Code, Header, HeaderFault, Tbl1Packet};
use std::fmt;

/// What a balise group is known by.
#[derive(Clone, Copy, PartialEq, Eq, Debug)]
pub struct GroupId {
    /// NID_C
    pub country: u16,
    /// NID_BG
    pub group: u16,
}

/// A group whose telegrams are being gathered.
#[derive(Clone, Copy, PartialEq, Eq, Debug)]
pub struct OpenGroup {
    pub id: GroupId,
    /// N_TOTAL of its first telegram.
    pub total: u16,
    /// N_PIG of its first telegram.
    pub first: u16,
    /// Not known before a telegram with another N_PIG than the first.
    pub travel: Option<Travel>,
    pub codes: Codes,
}

/// What is remembered of balise groups: one at a time.
#[derive(Clone, Copy, PartialEq, Eq, Debug)]
pub enum Memory {
    Empty,
    Open(OpenGroup),
    /// The group has closed: its further telegrams are passed over.
    Closed(GroupId),
}

/// What a telegram says to a group: its header, and its TBL1+ packets in their order.
#[derive(Clone, Copy, PartialEq, Eq, Debug)]
pub struct Message<'a> {
    pub header: Header,
    pub packets: &'a [Tbl1Packet],
}

/// What hearing a telegram leaves.
#[derive(Clone, Copy, PartialEq, Eq, Debug)]
pub struct Heard {
    pub memory: Memory,
    /// The code of the group that closed with this telegram: it is acted on in this call.
    pub code: Option<Code>,
}

/// The group of a telegram.
impl From<Header> for GroupId {
    ghost from_gives = { λ header id. id ≡ group_of header };

    fn from(header: Header) -> GroupId {
        GroupId {
            country: header.country,
            group: header.group,
        }
    }
}

/// A group's country and number, parted by a comma.
impl fmt::Display for GroupId {
    ghost output = { λ id. Some (group_text id) };

    fn fmt<W: fmt::Write>(&self, f: &mut fmt::Formatter<W>) -> fmt::Result {
        let GroupId { country, group } = *self;
        write!(f, "{country},{group}")
    }
}

impl OpenGroup {
    /// The group of its first telegram.
    fn begin(message: Message<'_>) -> OpenGroup
        ensures { result ≡ begun message.entry.header message.entry.packets.now }
    {
        let Message { header, packets } = message;
        OpenGroup {
            id: GroupId::from(header),
            total: header.total,
            first: header.position,
            travel: None,
            codes: Codes::default().store(packets),
        }
    }

    /// The group with a further telegram of it: its direction settled, the codes of the packets stored.
    fn gather(self, message: Message<'_>) -> OpenGroup
        ensures { result ≡ gathered self message.entry.header message.entry.packets.now }
    {
        OpenGroup {
            travel: Travel::settled(self.travel, self.first, message.header.position),
            codes: self.codes.store(message.packets),
            ..self
        }
    }

    /// A further telegram of the group: it closes the group where the direction says so, with the code stored for that direction.
    fn go_on(self, message: Message<'_>) -> Heard
        ensures { result ≡ gone_on self message.entry.header message.entry.packets.now }
    {
        let group = self.gather(message);
        match group.travel {
            Some(travel) if travel.closes(message.header) => Heard {
                memory: Memory::Closed(group.id),
                code: group.codes.of(travel),
            },
            _ => Heard {
                memory: Memory::Open(group),
                code: None,
            },
        }
    }
}

impl Memory {
    /// No group is remembered.
    // Not Default: what an empty memory is after a run is promised here.
    pub fn empty() -> Memory
        ensures value { result ≡ Memory.Empty }
        ensures run_begins { result ≡ memory_after [] }
    {
        Memory::Empty
    }

    /// The memory once its group is forgotten.
    pub fn forget(self) -> Memory
        ensures value { result ≡ Memory.Empty }
        ensures run_goes_on { RunGoesOn self Happening.forgotten result }
    {
        Memory::empty()
    }

    /// The group question: the header, unless its N_TOTAL is not that of the open group.
    pub fn asked(self, header: Header) -> Result<Header, HeaderFault>
        ensures value { result ≡ asked self header }
        ensures refuses_other_totals { RefusesOtherTotals self header result }
    {
        if let Memory::Open(group) = self
            && group.id == GroupId::from(header)
            && group.total != header.total
        {
            return Err(HeaderFault::OtherTotal);
        }
        Ok(header)
    }

    /// What a telegram leaves that no question refused: the memory, and the code that is acted on.
    pub fn heard(self, message: Message<'_>) -> Heard
        ensures value { result ≡ heard self message.entry.header message.entry.packets.now }
        ensures run_goes_on { RunGoesOn self (Happening.telegram (telegram_of message.entry.header message.entry.packets.now)) result.memory }
        ensures gives_the_last_stored { GivesTheLastStored self (telegram_of message.entry.header message.entry.packets.now) result }
        ensures tells_the_visit { TellsTheVisit self (telegram_of message.entry.header message.entry.packets.now) result }
        ensures acts_once { ActsOnce self (telegram_of message.entry.header message.entry.packets.now) result }
        ensures stays_closed { StaysClosed self (telegram_of message.entry.header message.entry.packets.now) result }
        ensures direction_stays { DirectionStays self (telegram_of message.entry.header message.entry.packets.now) result }
    {
        let passed = GroupId::from(message.header);
        match self {
            Memory::Closed(id) if id == passed => Heard {
                memory: self,
                code: None,
            },
            Memory::Open(group) if group.id == passed => group.go_on(message),
            _ => Heard {
                memory: Memory::Open(OpenGroup::begin(message)),
                code: None,
            },
        }
    }
}
