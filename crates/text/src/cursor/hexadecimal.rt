// Hexadecimal digits that stand in a line.
ghost use Rattle.std.specs.Prelude.{◌≡◌, ◌<◌, IfSome, IfOk};
ghost use Rattle.few.specs.Items.{items};
ghost use Rattle.text.specs.Cursors.{Reads, result_as};
ghost use Rattle.text.specs.Pairs.{pairs_at};
ghost use Rattle.text.specs.Parts.{hex_value, hex_digit_at, hex_pair_at};

use super::Cursor;
use crate::fault::Illegal;
use few::Few;

// a digit's value by hand, as in the decimal numbers
/// The value of a hexadecimal digit, capitals only.
fn hex_value(byte: u8) -> Option<u8>
    ensures value { result ≡ hex_value byte }
    ensures small { IfSome result (λ v. v < 16) }
{
    match byte {
        b'0'..=b'9' => Some(byte - b'0'),
        b'A'..=b'F' => Some(byte - b'A' + 10),
        _ => None,
    }
}

impl Cursor<'_> {
    /// The value of the next byte, which is a hexadecimal digit.
    fn hex_digit(&mut self) -> Result<u8, Illegal>
        ensures reads { Reads hex_digit_at self.old self.new result }
        ensures small { IfOk result (λ v. v < 16) }
    {
        let value = self.peek().and_then(hex_value).ok_or(self.illegal())?;
        self.place += 1;
        Ok(value)
    }

    /// The byte that the next two bytes, which are hexadecimal digits, make.
    pub fn hex_pair(&mut self) -> Result<u8, Illegal>
        ensures { Reads hex_pair_at self.old self.new result }
    {
        let high = self.hex_digit()?;
        let low = self.hex_digit()?;
        Ok(16 * high + low)
    }

    /// The bytes that pairs of hexadecimal digits make up to the end of the line. More than `N` of them are illegal.
    #[tactic(auto, using(crate::proofs::Pairs::pair_steps))]
    pub fn hex_pairs<const N: usize>(&mut self) -> Result<Few<u8, N>, Illegal>
        ensures { Reads (pairs_at N) self.old self.new (result_as items result) }
    {
        let mut bytes = Few::none(0);
        while !self.at_end() {
            if bytes.is_full() {
                return Err(self.illegal());
            }
            let byte = self.hex_pair()?;
            bytes.push(byte).unwrap();
        }
        Ok(bytes)
    }
}
