// What a command line asks.
ghost use Rattle.std.specs.Prelude.{◌≡◌, ◌≤◌, IfOk, slice_index};
ghost use Rattle.bench.specs.Commands.{letter_of};
ghost use Rattle.bench.specs.Lines.{InLine, Keeps};

use crate::handed::Handed;
use balise::{KeptReception, LONG};
use text::{Cursor, Illegal};
use writer::Draft;

/// The highest plug value.
const MOST_PLUG: u16 = 127;

// neither `PartialEq` nor `Debug`, as `Few`, which it holds
#[derive(Clone, Copy)]
pub enum Command {
    /// W: write a telegram.
    Write(Draft),
    /// R: read a telegram.
    Read(Handed),
    /// G: hear a telegram for the balise group memory.
    Hear(Handed),
    /// F: forget the balise group.
    Forget,
}

impl Command {
    /// The command of a line.
    pub fn parse(line: &[u8]) -> Result<Command, Illegal>
        ensures letter { IfOk result (λ command. slice_index line.now 0 ≡ letter_of command) }
        ensures place { InLine line.now result }
    {
        let mut cursor = Cursor::new(line);
        let command = match cursor.byte()? {
            b'W' => Command::Write(draft(&mut cursor)?),
            b'R' => Command::Read(handed(&mut cursor)?),
            b'G' => Command::Hear(handed(&mut cursor)?),
            b'F' => Command::Forget,
            _ => return Err(Illegal { place: 0 }),
        };
        cursor.end()?;
        Ok(command)
    }
}

/// A comma and a number behind it.
#[tactic(auto, using(text::proofs::Within::decimal_stays))]
fn field(cursor: &mut Cursor<'_>, limit: u16) -> Result<u16, Illegal>
    ensures keeps { Keeps cursor.old cursor.new result }
    ensures limit { IfOk result (λ n. n ≤ limit) }
{
    cursor.expect(b',')?;
    let number = cursor.decimal(u64::from(limit))?;
    Ok(number as u16)
}

/// What stands behind `W`: eleven numbers.
fn draft(cursor: &mut Cursor<'_>) -> Result<Draft, Illegal>
    ensures { Keeps cursor.old cursor.new result }
{
    Ok(Draft {
        version: field(cursor, u16::MAX)?,
        position: field(cursor, u16::MAX)?,
        total: field(cursor, u16::MAX)?,
        duplicate: field(cursor, u16::MAX)?,
        counter: field(cursor, u16::MAX)?,
        country: field(cursor, u16::MAX)?,
        group: field(cursor, u16::MAX)?,
        link: field(cursor, u16::MAX)?,
        direction: field(cursor, u16::MAX)?,
        first: field(cursor, u16::MAX)?,
        second: field(cursor, u16::MAX)?,
    })
}

/// What stands behind `R` and `G`. More bytes than those of a long telegram are illegal.
#[tactic(auto, using(text::proofs::Within::pairs_stays))]
fn handed(cursor: &mut Cursor<'_>) -> Result<Handed, Illegal>
    ensures { Keeps cursor.old cursor.new result }
{
    let plug = field(cursor, MOST_PLUG)?;
    let crc = field(cursor, 1)?;
    cursor.expect(b',')?;
    let bytes = cursor.hex_pairs::<LONG>()?;
    Ok(Handed {
        plug: plug as u8,
        kept: KeptReception {
            bytes,
            // by `field`, as a number of at most 1, which is the byte 0 or 1: a table for this one place would be longer
            crc_good: crc == 1,
        },
    })
}
