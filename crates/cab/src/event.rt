// What happens to the unit.
ghost use Rattle.std.specs.Prelude.{◌≡◌, Some};
ghost use Rattle.cab.specs.Events.{kind_of, pulse_text, lever_text, button_text};

use std::fmt;

/// What the crocodile's brush feels.
#[derive(Clone, Copy, PartialEq, Eq, Debug)]
pub enum Pulse {
    Restrictive,
    Clear,
}

/// The direction lever.
#[derive(Clone, Copy, PartialEq, Eq, Debug)]
pub enum Lever {
    Forward,
    Neutral,
    Reverse,
}

/// The driver's buttons.
#[derive(Clone, Copy, PartialEq, Eq, Debug)]
pub enum Button {
    /// Acknowledges.
    Bac,
    /// Sets NCV.
    Bncv,
    /// Sets CVR.
    Bcvr,
    /// Puts the unit out.
    Bfc,
    /// Puts out a steady yellow.
    Blj,
    /// Puts out a steady red.
    Blr,
}

/// What happens, with a telegram as it is held: lent by the caller, or kept.
#[derive(Clone, Copy, PartialEq, Eq, Debug)]
pub enum Event<T> {
    /// Time goes on.
    Tick,
    /// The speed in whole km/h, `None` where it is lost.
    Speed(Option<u16>),
    Pulse(Pulse),
    Lever(Lever),
    Press(Button),
    Release(Button),
    Telegram(T),
}

/// Of what kind an event is.
#[derive(Clone, Copy, PartialEq, Eq, Debug)]
pub enum Kind {
    Tick,
    Speed,
    Pulse,
    Lever,
    Button,
    Telegram,
}

impl Kind {
    /// The kinds in the order in which lines have them.
    pub const ALL: [Kind; 6] = [
        Kind::Tick,
        Kind::Speed,
        Kind::Pulse,
        Kind::Lever,
        Kind::Button,
        Kind::Telegram,
    ];
}

impl<T> Event<T> {
    /// The event's kind.
    pub fn kind(&self) -> Kind
        ensures { result ≡ kind_of self.now }
    {
        match self {
            Event::Tick => Kind::Tick,
            Event::Speed(_) => Kind::Speed,
            Event::Pulse(_) => Kind::Pulse,
            Event::Lever(_) => Kind::Lever,
            Event::Press(_) | Event::Release(_) => Kind::Button,
            Event::Telegram(_) => Kind::Telegram,
        }
    }
}

/// What the brush felt, in a word.
impl fmt::Display for Pulse {
    ghost output = { λ pulse. Some (pulse_text pulse) };

    fn fmt<W: fmt::Write>(&self, f: &mut fmt::Formatter<W>) -> fmt::Result {
        f.write_str(match self {
            Pulse::Restrictive => "restrictive",
            Pulse::Clear => "clear",
        })
    }
}

/// The lever's position in a word.
impl fmt::Display for Lever {
    ghost output = { λ lever. Some (lever_text lever) };

    fn fmt<W: fmt::Write>(&self, f: &mut fmt::Formatter<W>) -> fmt::Result {
        f.write_str(match self {
            Lever::Forward => "forward",
            Lever::Neutral => "neutral",
            Lever::Reverse => "reverse",
        })
    }
}

/// The button's name in capitals.
impl fmt::Display for Button {
    ghost output = { λ button. Some (button_text button) };

    fn fmt<W: fmt::Write>(&self, f: &mut fmt::Formatter<W>) -> fmt::Result {
        f.write_str(match self {
            Button::Bac => "BAC",
            Button::Bncv => "BNCV",
            Button::Bcvr => "BCVR",
            Button::Bfc => "BFC",
            Button::Blj => "BLJ",
            Button::Blr => "BLR",
        })
    }
}
