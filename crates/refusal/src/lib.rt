//! What a refused call gives back, whatever refused it.
#![tactic(auto)]

mod layer;
mod reason;

ghost use Rattle.std.specs.Prelude.{◌≡◌, Some};
ghost use Rattle.refusal.specs.Refusals.{number_of, refusal_text};

pub use layer::Layer;
pub use reason::Reason;
use std::fmt;

/// A refused call: why, at which place (a bit, a byte or an element, 0 where there is none), and in which layer.
#[derive(Clone, Copy, PartialEq, Eq, Debug)]
pub struct Refusal {
    pub reason: Reason,
    pub place: usize,
    pub layer: Layer,
}

impl Refusal {
    /// The number under which the call is refused.
    pub fn number(self) -> u8
        ensures { result ≡ number_of self.reason }
    {
        self.reason.number()
    }
}

/// `E`, then number, place and layer, each behind a comma.
impl fmt::Display for Refusal {
    ghost output = { λ refusal. Some (refusal_text refusal) };

    fn fmt<W: fmt::Write>(&self, f: &mut fmt::Formatter<W>) -> fmt::Result {
        let number = self.number();
        let place = self.place;
        let layer = self.layer;
        write!(f, "E,{number},{place},{layer}")
    }
}
