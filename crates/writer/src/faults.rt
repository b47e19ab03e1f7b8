// Why the writer writes nothing.
ghost use Rattle.std.specs.Prelude.{◌≡◌};
ghost use Rattle.writer.specs.Drafts.{write_refusal};

use refusal::{Layer, Reason, Refusal};

#[derive(Clone, Copy, PartialEq, Eq, Debug)]
pub enum WriteFault {
    /// The buffer has fewer than 27 bytes.
    Short,
    /// A value is too wide for its field.
    TooWide,
    /// The total is 0.
    NoTotal,
    /// The position is above the total.
    Position,
    /// The direction is 3.
    Direction,
    /// A digit is above 10.
    Digit,
}

/// Reason, place and layer.
impl From<WriteFault> for Refusal {
    ghost from_gives = { λ fault r. r ≡ write_refusal fault };

    fn from(fault: WriteFault) -> Refusal {
        let (reason, layer) = match fault {
            WriteFault::Short => (Reason::Short, Layer::Text),
            _ => (Reason::Value, Layer::Header),
        };
        Refusal {
            reason,
            place: 0,
            layer,
        }
    }
}
