// What is printed of a line.
ghost use Rattle.std.specs.Prelude.{Some};
ghost use Rattle.cab.specs.Records.{entry_of};
ghost use Rattle.events.specs.Heard.{happened};
ghost use Rattle.lines.specs.Strips.{strip_text};
ghost use Rattle.linebench.specs.Words.{happening_text, shown_text};

use balise::Reception;
use cab::{Event, Record};
use events::EventLine;
use lines::{LONGEST, write_strip};
use std::fmt;
use std::fmt::Formatter;
use text::Hex;

/// The answer to a line that is not refused.
// neither `PartialEq` nor `Debug`, as `EventLine`, which is lent, since it is large
#[derive(Clone, Copy)]
pub enum Shown<'a> {
    /// The record that a strip line reads as.
    Strip(Record),
    /// What an event line says.
    Event(&'a EventLine),
    /// The line is of neither kind.
    Unknown,
}

/// The strip line of a record, without its byte 10.
#[derive(Clone, Copy, PartialEq, Eq, Debug)]
struct Strip(Record);

/// An event in words.
#[derive(Clone, Copy, PartialEq, Eq, Debug)]
struct Happening<'a>(Event<Reception<'a>>);

/// A strip line as it is written; an event line's time and what happened then.
impl fmt::Display for Shown<'_> {
    ghost output = { λ shown. Some (shown_text shown) };

    fn fmt<W: fmt::Write>(&self, f: &mut Formatter<W>) -> fmt::Result {
        match self {
            Shown::Strip(record) => {
                let line = Strip(*record);
                write!(f, "{line}")
            }
            Shown::Event(line) => {
                let time = line.time();
                let happening = Happening(line.event());
                write!(f, "{time},{happening}")
            }
            Shown::Unknown => f.write_str("?"),
        }
    }
}

impl fmt::Display for Strip {
    ghost output = { λ strip. Some (strip_text (entry_of strip.0)) };

    fn fmt<W: fmt::Write>(&self, f: &mut Formatter<W>) -> fmt::Result {
        // a buffer, since the writer of strip lines is lent one; there is room: no line is longer
        let mut text = [0; LONGEST];
        let size = write_strip(self.0, &mut text).unwrap();
        // it is text: each byte is an ASCII character
        f.write_str(str::from_utf8(&text[..size - 1]).unwrap())
    }
}

impl fmt::Display for Happening<'_> {
    ghost output = { λ happening. Some (happening_text (happened happening.0)) };

    fn fmt<W: fmt::Write>(&self, f: &mut Formatter<W>) -> fmt::Result {
        match self.0 {
            Event::Tick => f.write_str("tick"),
            Event::Speed(None) => f.write_str("speed,lost"),
            Event::Speed(Some(kmh)) => write!(f, "speed,{kmh}"),
            Event::Pulse(pulse) => write!(f, "pulse,{pulse}"),
            Event::Lever(lever) => write!(f, "lever,{lever}"),
            Event::Press(button) => write!(f, "press,{button}"),
            Event::Release(button) => write!(f, "release,{button}"),
            Event::Telegram(reception) => {
                let crc = if reception.crc_good { "good" } else { "bad" };
                let bytes = Hex(reception.bytes);
                write!(f, "telegram,{crc},{bytes}")
            }
        }
    }
}
