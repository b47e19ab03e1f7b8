// What can be wrong with a text.
ghost use Rattle.std.specs.Prelude.{◌≡◌};
ghost use Rattle.text.specs.Faults.{illegal_fault, text_refusal};

use refusal::{Layer, Reason, Refusal};

/// A line is no legal line, which shows at this place: the first byte such that the line up to and including it begins no legal line, or the line's length where there is none.
#[derive(Clone, Copy, PartialEq, Eq, Debug)]
pub struct Illegal {
    pub place: usize,
}

#[derive(Clone, Copy, PartialEq, Eq, Debug)]
pub enum TextFault {
    /// The line is no legal line.
    // its place, and no `Illegal`: the laws of lines speak of this case
    Illegal {
        /// The first byte such that the line up to and including it begins no legal line, or the line's length where there is none.
        place: usize,
    },
    /// The buffer is too short for the line.
    Short,
}

impl From<Illegal> for TextFault {
    ghost from_gives = { λ illegal fault. fault ≡ illegal_fault illegal };

    fn from(illegal: Illegal) -> TextFault {
        TextFault::Illegal {
            place: illegal.place,
        }
    }
}

/// Reason, place and layer.
impl From<TextFault> for Refusal {
    ghost from_gives = { λ fault r. r ≡ text_refusal fault };

    fn from(fault: TextFault) -> Refusal {
        let (reason, place) = match fault {
            TextFault::Illegal { place } => (Reason::Line, place),
            TextFault::Short => (Reason::Short, 0),
        };
        Refusal {
            reason,
            place,
            layer: Layer::Text,
        }
    }
}

/// Reason, place and layer.
impl From<Illegal> for Refusal {
    ghost from_gives = { λ illegal r. r ≡ text_refusal (illegal_fault illegal) };

    fn from(illegal: Illegal) -> Refusal {
        TextFault::from(illegal).into()
    }
}
