// What the panel shows.
ghost use Rattle.std.specs.Prelude.{◌≡◌};
ghost use Rattle.cab.specs.Panels.{fed_by};

/// Why the brake is demanded.
#[derive(Clone, Copy, PartialEq, Eq, Debug)]
pub enum Cause {
    /// A warning was not acknowledged in time.
    Overdue,
    Overspeed,
    /// A signal at stop was passed.
    Stop,
}

/// The mode of the unit.
#[derive(Clone, Copy, PartialEq, Eq, Debug)]
pub enum Mode {
    /// No speed control.
    Ncv,
    /// Speed control.
    Cvr,
    /// Put out by BFC.
    Out,
    /// Abroad.
    Memor,
}

#[derive(Clone, Copy, PartialEq, Eq, Debug)]
pub enum Lamp {
    Dark,
    Steady,
    Blinking,
}

/// What the driver sees, and in `gong` what he hears in this call.
#[derive(Clone, Copy, PartialEq, Eq, Debug)]
pub struct Panel {
    /// The cause of the demand that stands, with the valve cut; `None` while the valve is fed.
    pub brake: Option<Cause>,
    pub mode: Mode,
    /// Whether the crocodile is on.
    pub crocodile: bool,
    /// The lamp LGLJM.
    pub yellow: Lamp,
    /// The lamp LRLM.
    pub red: Lamp,
    pub gong: bool,
}

impl Panel {
    /// Whether the valve is fed.
    pub fn is_fed(&self) -> bool
        ensures { result ≡ fed_by self.now.brake }
    {
        self.brake.is_none()
    }
}
