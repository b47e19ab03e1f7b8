// The parts of what is printed.
ghost use Rattle.std.specs.Prelude.{Some};
ghost use Rattle.bench.specs.Printed.{or_mark_text, packets_text, reading_text, gathered_text};

use balise::Tbl1Packet;
use group::OpenGroup;
use std::fmt;
use std::fmt::Formatter;
use telegram::Telegram;

/// A value as it is printed, or the mark that stands where there is none.
#[derive(Clone, Copy, PartialEq, Eq, Debug)]
pub struct OrMark<T>(pub Option<T>, pub &'static str);

/// What a telegram reads as.
// neither `PartialEq` nor `Debug`, as `Telegram`
#[derive(Clone, Copy)]
pub struct Reading(pub Telegram);

/// A comma in front of each packet.
#[derive(Clone, Copy, PartialEq, Eq, Debug)]
struct Packets<'a>(&'a [Tbl1Packet]);

/// An open group.
#[derive(Clone, Copy, PartialEq, Eq, Debug)]
pub struct Gathered(pub OpenGroup);

impl<T: fmt::Display> fmt::Display for OrMark<T> {
    ghost output = { λ it. or_mark_text T.output it.0 it.1.now };

    fn fmt<W: fmt::Write>(&self, f: &mut Formatter<W>) -> fmt::Result {
        match &self.0 {
            Some(value) => write!(f, "{value}"),
            None => f.write_str(self.1),
        }
    }
}

impl fmt::Display for Packets<'_> {
    ghost output = { λ packets. Some (packets_text packets.0.now) };

    fn fmt<W: fmt::Write>(&self, f: &mut Formatter<W>) -> fmt::Result {
        for packet in self.0 {
            write!(f, ",{packet}")?;
        }
        Ok(())
    }
}

/// Its header and its packets.
impl fmt::Display for Reading {
    ghost output = { λ reading. Some (reading_text reading.0) };

    fn fmt<W: fmt::Write>(&self, f: &mut Formatter<W>) -> fmt::Result {
        let header = self.0.header;
        let packets = Packets(self.0.packets.as_slice());
        write!(f, "H,{header}{packets}")
    }
}

/// Its name, what its first telegram said, the direction if it is known, and the codes.
impl fmt::Display for Gathered {
    ghost output = { λ group. Some (gathered_text group.0) };

    fn fmt<W: fmt::Write>(&self, f: &mut Formatter<W>) -> fmt::Result {
        let OpenGroup {
            id,
            total,
            first,
            travel,
            codes,
        } = self.0;
        let travel = OrMark(travel, "-");
        let nominal = OrMark(codes.nominal, "--");
        let reverse = OrMark(codes.reverse, "--");
        write!(f, "O,{id},{total},{first},")?;
        write!(f, "{travel},{nominal},{reverse}")
    }
}
