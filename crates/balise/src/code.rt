// The code of a TBL1+ packet: two digits, each 0 to 10.
ghost use Rattle.std.specs.Prelude.{◌≡◌, Some};
ghost use Rattle.balise.specs.Codes.{DigitOf, value_of, digit_text, code_text};

use std::fmt;

/// A digit of a code. Ten is written A.
#[derive(Clone, Copy, PartialEq, Eq, Debug)]
pub enum Digit {
    Zero,
    One,
    Two,
    Three,
    Four,
    Five,
    Six,
    Seven,
    Eight,
    Nine,
    Ten,
}

/// What a TBL1+ packet says.
#[derive(Clone, Copy, PartialEq, Eq, Debug)]
pub struct Code {
    pub first: Digit,
    pub second: Digit,
}

/// A number that is no digit of a code: it is above ten.
#[derive(Clone, Copy, PartialEq, Eq, Debug)]
pub struct NotADigit(pub u16);

impl Digit {
    /// The digits, each at the place of its value.
    pub const ALL: [Digit; 11] = [
        Digit::Zero,
        Digit::One,
        Digit::Two,
        Digit::Three,
        Digit::Four,
        Digit::Five,
        Digit::Six,
        Digit::Seven,
        Digit::Eight,
        Digit::Nine,
        Digit::Ten,
    ];

    /// The digit as it is written.
    pub fn as_str(self) -> &'static str
        ensures { result.now ≡ digit_text self }
    {
        match self {
            Digit::Zero => "0",
            Digit::One => "1",
            Digit::Two => "2",
            Digit::Three => "3",
            Digit::Four => "4",
            Digit::Five => "5",
            Digit::Six => "6",
            Digit::Seven => "7",
            Digit::Eight => "8",
            Digit::Nine => "9",
            Digit::Ten => "A",
        }
    }
}

impl TryFrom<u16> for Digit {
    type Error = NotADigit;

    ghost try_from_gives = { DigitOf };

    fn try_from(value: u16) -> Result<Digit, NotADigit> {
        Digit::ALL
            .get(usize::from(value))
            .copied()
            .ok_or(NotADigit(value))
    }
}

impl From<Digit> for u16 {
    ghost from_gives = { λ digit value. value ≡ value_of digit };

    fn from(digit: Digit) -> u16 {
        digit as u16
    }
}

impl fmt::Display for Digit {
    ghost output = { λ digit. Some (digit_text digit) };

    fn fmt<W: fmt::Write>(&self, f: &mut fmt::Formatter<W>) -> fmt::Result {
        f.write_str(self.as_str())
    }
}

/// The two digits of a code.
impl fmt::Display for Code {
    ghost output = { λ code. Some (code_text code) };

    fn fmt<W: fmt::Write>(&self, f: &mut fmt::Formatter<W>) -> fmt::Result {
        let Code { first, second } = *self;
        write!(f, "{first}{second}")
    }
}
