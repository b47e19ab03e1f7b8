// The parts of an event line: its time, and what happened.
ghost use Rattle.cab.specs.declared.event.Kind.TheVariants.{Button, Telegram};
ghost use Rattle.text.specs.Cursors.{Reads, result_as};
ghost use Rattle.events.specs.Heard.{meant, line_meant, what_heard, line_result};
ghost use Rattle.events.specs.Reads.{rest_at, event_at};
ghost use Rattle.events.specs.Steps.{meaning};

use crate::line::EventLine;
use crate::speed::speed;
use crate::words::{Buttons, CrcWords, Kinds, Levers, Presses, Pulses};
use balise::{KeptReception, LONG};
use cab::{Event, Kind};
use text::{Cursor, Illegal};

/// The latest time that ten digits write.
const LATEST: u64 = 9_999_999_999;

/// A line up to the end of what happened.
pub(crate) fn event(cursor: &mut Cursor<'_>) -> Result<EventLine, Illegal>
    ensures { Reads (meaning line_meant event_at) cursor.old cursor.new (line_result result) }
{
    let time = cursor.number(LATEST)?;
    let kind = cursor.word::<Kinds>()?;
    let what = rest(kind, cursor)?;
    Ok(EventLine { time, what })
}

/// What happened, of this kind.
fn rest(kind: Kind, cursor: &mut Cursor<'_>) -> Result<Event<KeptReception>, Illegal>
    ensures { Reads (meaning meant (rest_at kind)) cursor.old cursor.new (result_as what_heard result) }
{
    match kind {
        Kind::Tick => Ok(Event::Tick),
        Kind::Speed => Ok(Event::Speed(speed(cursor)?)),
        Kind::Pulse => Ok(Event::Pulse(cursor.word::<Pulses>()?)),
        Kind::Lever => Ok(Event::Lever(cursor.word::<Levers>()?)),
        Kind::Button => pressed(cursor),
        Kind::Telegram => telegram(cursor),
    }
}

/// A button, and whether it is pressed or released.
fn pressed(cursor: &mut Cursor<'_>) -> Result<Event<KeptReception>, Illegal>
    ensures { Reads (meaning meant (rest_at Button)) cursor.old cursor.new (result_as what_heard result) }
{
    let button = cursor.word::<Buttons>()?;
    let pressed = cursor.word::<Presses>()?;
    Ok(if pressed {
        Event::Press(button)
    } else {
        Event::Release(button)
    })
}

/// A telegram with the antenna's word on its CRC.
fn telegram(cursor: &mut Cursor<'_>) -> Result<Event<KeptReception>, Illegal>
    ensures { Reads (meaning meant (rest_at Telegram)) cursor.old cursor.new (result_as what_heard result) }
{
    let crc_good = cursor.word::<CrcWords>()?;
    let bytes = cursor.hex_pairs::<LONG>()?;
    Ok(Event::Telegram(KeptReception { bytes, crc_good }))
}
