// The speed, which stands at the end of an event line.
ghost use Rattle.std.specs.Prelude.{◌<◌, IfSome, Ok};
ghost use Rattle.text.specs.Cursors.{Reads};
ghost use Rattle.events.specs.Heard.{speed_of};
ghost use Rattle.events.specs.Reads.{speed_at};
ghost use Rattle.events.specs.Steps.{meaning, digit_at};

use text::{Cursor, Illegal};

/// The value of the next byte, which is passed, if it is a decimal digit.
fn digit(cursor: &mut Cursor<'_>) -> Option<u16>
    ensures reads { Reads digit_at cursor.old cursor.new (Ok result) }
    ensures small { IfSome result (λ d. d < 10) }
{
    // by hand, as text reads its numbers: a function for one subtraction would say no more
    if !cursor.peek()?.is_ascii_digit() {
        return None;
    }
    let byte = cursor.byte().ok()?;
    Some(u16::from(byte - b'0'))
}

/// A speed: L where it is lost, or up to three digits.
#[tactic(auto, using(crate::proofs::Going::speed_is))]
pub(crate) fn speed(cursor: &mut Cursor<'_>) -> Result<Option<u16>, Illegal>
    ensures { Reads (meaning speed_of speed_at) cursor.old cursor.new result }
{
    if cursor.expect(b'L').is_ok() {
        return Ok(None);
    }
    // digit by digit: a loop would need an invariant that bounds the value, and says no more
    let first = digit(cursor).ok_or(cursor.illegal())?;
    let Some(second) = digit(cursor) else {
        return Ok(Some(first));
    };
    let Some(third) = digit(cursor) else {
        return Ok(Some(first * 10 + second));
    };
    Ok(Some((first * 10 + second) * 10 + third))
}
