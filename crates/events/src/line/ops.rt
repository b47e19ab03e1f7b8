ghost use Rattle.std.specs.Prelude.{◌≡◌};
ghost use Rattle.events.specs.Heard.{happened, heard};

use super::EventLine;
use balise::Reception;
use cab::Event;

impl EventLine {
    /// When it happened, in milliseconds.
    pub fn time(&self) -> u64
        ensures { result ≡ self.now.time }
    {
        self.time
    }

    /// What happened. A telegram's bytes are lent by the line.
    pub fn event(&self) -> Event<Reception<'_>>
        ensures { happened result ≡ heard self.now }
    {
        // by hand, and no `Event::map`: it would take a closure, with a `requires` of its own
        match &self.what {
            Event::Tick => Event::Tick,
            Event::Speed(speed) => Event::Speed(*speed),
            Event::Pulse(pulse) => Event::Pulse(*pulse),
            Event::Lever(lever) => Event::Lever(*lever),
            Event::Press(button) => Event::Press(*button),
            Event::Release(button) => Event::Release(*button),
            Event::Telegram(kept) => Event::Telegram(kept.lend()),
        }
    }
}
