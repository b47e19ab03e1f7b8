// The tables of words of an event line.
ghost use Rattle.events.specs.Reads.{kinds, pulses, levers, buttons, flags};
ghost use Rattle.events.specs.Texts.{kind_text, pulse_text, lever_text, button_text, press_text, crc_text};

use cab::{Button, Kind, Lever, Pulse};
use text::Table;

/// The letter of a kind of event, and its comma where more follows.
pub(crate) struct Kinds;

impl Table for Kinds {
    type Value = Kind;

    ghost word = { kind_text };

    ghost values = { kinds };

    fn text(kind: Kind) -> &'static [u8] {
        match kind {
            Kind::Tick => b"K",
            Kind::Speed => b"S,",
            Kind::Pulse => b"P,",
            Kind::Lever => b"L,",
            Kind::Button => b"B,",
            Kind::Telegram => b"T,",
        }
    }

    fn all() -> &'static [Kind] {
        &Kind::ALL
    }
}

/// What the brush felt.
pub(crate) struct Pulses;

impl Table for Pulses {
    type Value = Pulse;

    ghost word = { pulse_text };

    ghost values = { pulses };

    fn text(pulse: Pulse) -> &'static [u8] {
        match pulse {
            Pulse::Restrictive => b"R",
            Pulse::Clear => b"C",
        }
    }

    fn all() -> &'static [Pulse] {
        &[Pulse::Restrictive, Pulse::Clear]
    }
}

/// Where the lever is put.
pub(crate) struct Levers;

impl Table for Levers {
    type Value = Lever;

    ghost word = { lever_text };

    ghost values = { levers };

    fn text(lever: Lever) -> &'static [u8] {
        match lever {
            Lever::Forward => b"F",
            Lever::Neutral => b"N",
            Lever::Reverse => b"R",
        }
    }

    fn all() -> &'static [Lever] {
        &[Lever::Forward, Lever::Neutral, Lever::Reverse]
    }
}

/// A button's name and its comma.
pub(crate) struct Buttons;

impl Table for Buttons {
    type Value = Button;

    ghost word = { button_text };

    ghost values = { buttons };

    fn text(button: Button) -> &'static [u8] {
        match button {
            Button::Bac => b"BAC,",
            Button::Bncv => b"BNCV,",
            Button::Bcvr => b"BCVR,",
            Button::Bfc => b"BFC,",
            Button::Blj => b"BLJ,",
            Button::Blr => b"BLR,",
        }
    }

    fn all() -> &'static [Button] {
        &[
            Button::Bac,
            Button::Bncv,
            Button::Bcvr,
            Button::Bfc,
            Button::Blj,
            Button::Blr,
        ]
    }
}

/// Pressed or released.
// not the strip line's table of flags, which has these words: each line's definitions fix the order of their own values
pub(crate) struct Presses;

impl Table for Presses {
    type Value = bool;

    ghost word = { press_text };

    ghost values = { flags };

    fn text(pressed: bool) -> &'static [u8] {
        if pressed { b"1" } else { b"0" }
    }

    fn all() -> &'static [bool] {
        &[true, false]
    }
}

/// The antenna's word on the CRC, and its comma.
pub(crate) struct CrcWords;

impl Table for CrcWords {
    type Value = bool;

    ghost word = { crc_text };

    ghost values = { flags };

    fn text(good: bool) -> &'static [u8] {
        if good { b"1," } else { b"0," }
    }

    fn all() -> &'static [bool] {
        &[true, false]
    }
}
