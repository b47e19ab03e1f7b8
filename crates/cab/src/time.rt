// Times that the unit can hold.
ghost use Rattle.std.specs.Prelude.{◌≤◌};

mod ops;

/// A time in whole milliseconds since power-up, at most 2,000,000,000.
#[derive(Clone, Copy, PartialEq, Eq, PartialOrd, Ord, Debug)]
pub struct Time {
    ms: u32,
    ghost within: { ms ≤ 2000000000 },
}

/// So many milliseconds are out of range: no unit can hold them.
#[derive(Clone, Copy, PartialEq, Eq, Debug)]
pub struct Late(pub u64);
