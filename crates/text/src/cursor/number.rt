// Decimal numbers that stand in a line.
ghost use Rattle.std.specs.Prelude.{◌≡◌, ◌≤◌, IfSome, IfOk, slice_get};
ghost use Rattle.text.specs.Cursors.{Reads};
ghost use Rattle.text.specs.Parts.{opened, opened_by, pushed, pushed_by, decimal_at, number_at};

use super::Cursor;
use crate::fault::Illegal;

/// The number that begins with this byte, unless it is no digit or above the limit.
fn opened(byte: u8, limit: u64) -> Option<u64>
    ensures value { result ≡ opened limit byte }
    ensures within { IfSome result (λ n. n ≤ limit) }
{
    // a digit's value by hand, here and below: a function for one subtraction would say no more
    if !byte.is_ascii_digit() || u64::from(byte - b'0') > limit {
        return None;
    }
    Some(u64::from(byte - b'0'))
}

/// The number with one digit more, unless the byte is no digit, would go on a 0 or leads past the limit.
fn pushed(value: u64, byte: u8, limit: u64) -> Option<u64>
    ensures value { result ≡ pushed limit value byte }
    ensures within { IfSome result (λ n. n ≤ limit) }
{
    if !byte.is_ascii_digit() || value == 0 {
        return None;
    }
    let more = value.checked_mul(10)?.checked_add(u64::from(byte - b'0'))?;
    if more > limit { None } else { Some(more) }
}

impl Cursor<'_> {
    /// The number that begins here, if one does.
    fn begun(&self, limit: u64) -> Option<u64>
        ensures value { result ≡ opened_by limit (slice_get self.now.line.now self.now.place) }
        ensures within { IfSome result (λ n. n ≤ limit) }
    {
        self.peek().and_then(|byte| opened(byte, limit))
    }

    /// This number with the digit that stands here more, if one may go on so.
    fn gone_on(&self, value: u64, limit: u64) -> Option<u64>
        ensures value { result ≡ pushed_by limit value (slice_get self.now.line.now self.now.place) }
        ensures within { IfSome result (λ n. n ≤ limit) }
    {
        self.peek().and_then(|byte| pushed(value, byte, limit))
    }

    /// A decimal number of at most this limit, with no 0 in front of other digits. It ends where no further digit may follow.
    #[tactic(auto, using(crate::proofs::Loops::decimal_steps))]
    pub fn decimal(&mut self, limit: u64) -> Result<u64, Illegal>
        ensures reads { Reads (decimal_at limit) self.old self.new result }
        ensures within { IfOk result (λ n. n ≤ limit) }
    {
        let mut value = self.begun(limit).ok_or(self.illegal())?;
        self.place += 1;
        while let Some(more) = self.gone_on(value, limit) {
            value = more;
            self.place += 1;
        }
        Ok(value)
    }

    /// Such a number, and the comma behind it.
    #[tactic(auto, unfolding(crate::specs::Parts::number_at))]
    pub fn number(&mut self, limit: u64) -> Result<u64, Illegal>
        ensures { Reads (number_at limit) self.old self.new result }
    {
        let value = self.decimal(limit)?;
        self.expect(b',')?;
        Ok(value)
    }
}
