// The reader of event lines.
ghost use Rattle.std.specs.Prelude.{◌≡◌};
ghost use Rattle.text.specs.Faults.{illegal_at};
ghost use Rattle.events.specs.Heard.{line_result, result_meant};
ghost use Rattle.events.specs.Law.{Lawful, ReadsBack};
ghost use Rattle.events.specs.Reads.{event_read};

use crate::line::EventLine;
use crate::parts::event;
use text::{Cursor, TextFault};

/// What an event line says. The line comes without its byte 10.
pub fn read_event(line: &[u8]) -> Result<EventLine, TextFault>
    ensures reads { line_result result ≡ illegal_at (result_meant (event_read line.now)) }
    ensures law { Lawful line.now result }
    ensures back { ReadsBack }
{
    let mut cursor = Cursor::new(line);
    let said = event(&mut cursor)?;
    cursor.end()?;
    Ok(said)
}
