ghost use Rattle.std.specs.Prelude.{◌≡◌};
ghost use Rattle.cab.specs.Times.{TimeOf};

use super::{Late, Time};

impl Time {
    /// The latest time that a unit can hold, in milliseconds.
    pub const LATEST: u64 = 2_000_000_000;

    /// The moment of power-up.
    pub fn zero() -> Time
        ensures { result.ms ≡ 0 }
    {
        Time { ms: 0 }
    }
}

/// The time of so many milliseconds, unless it is out of range.
impl TryFrom<u64> for Time {
    type Error = Late;

    ghost try_from_gives = { TimeOf };

    fn try_from(ms: u64) -> Result<Time, Late> {
        if ms > Time::LATEST {
            return Err(Late(ms));
        }
        Ok(Time { ms: ms as u32 })
    }
}

/// The time in milliseconds.
impl From<Time> for u32 {
    ghost from_gives = { λ time ms. ms ≡ time.ms };

    fn from(time: Time) -> u32 {
        time.ms
    }
}
