// Bytes as they are written in a line.
ghost use Rattle.std.specs.Prelude.{◌≡◌, ◌<◌, [], ◌∷◌, Some};
ghost use Rattle.text.specs.Hexes.{hex_byte, hex_digit, hex_text};

use std::fmt;

/// The digit of a value below 16.
fn digit(value: u8) -> &'static str
    requires { value < 16 }
    ensures { result.now ≡ hex_digit value ∷ [] }
{
    match value {
        0 => "0",
        1 => "1",
        2 => "2",
        3 => "3",
        4 => "4",
        5 => "5",
        6 => "6",
        7 => "7",
        8 => "8",
        9 => "9",
        10 => "A",
        11 => "B",
        12 => "C",
        13 => "D",
        14 => "E",
        _ => "F",
    }
}

/// A byte as it is written in a line.
// a type of its own, so that its text is stated once, and the loop's invariant stays short
#[derive(Clone, Copy, PartialEq, Eq, Debug)]
struct HexByte(u8);

impl fmt::Display for HexByte {
    ghost output = { λ byte. Some (hex_byte byte.0) };

    fn fmt<W: fmt::Write>(&self, f: &mut fmt::Formatter<W>) -> fmt::Result {
        let byte = self.0;
        // digit by digit: `{byte:02X}` takes several times as long
        f.write_str(digit(byte / 16))?;
        f.write_str(digit(byte % 16))
    }
}

/// Bytes as they are written in a line: two hexadecimal digits for each, capitals.
#[derive(Clone, Copy, PartialEq, Eq, Debug)]
pub struct Hex<'a>(pub &'a [u8]);

impl fmt::Display for Hex<'_> {
    ghost output = { λ hex. Some (hex_text hex.0.now) };

    fn fmt<W: fmt::Write>(&self, f: &mut fmt::Formatter<W>) -> fmt::Result {
        for byte in self.0 {
            let digits = HexByte(*byte);
            write!(f, "{digits}")?;
        }
        Ok(())
    }
}
