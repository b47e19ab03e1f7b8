//! The words of the cab: what happens to the unit, what its panel shows and what is recorded.
#![tactic(auto)]

mod event;
mod panel;
mod record;
mod time;

pub use event::{Button, Event, Kind, Lever, Pulse};
pub use panel::{Cause, Lamp, Mode, Panel};
pub use record::Record;
pub use time::{Late, Time};
