// The emergency brake valve.
ghost use Rattle.std.specs.Prelude.{◌≡◌, Bool, true, false};

pub(crate) mod contacts;
pub(crate) mod word;

/// The emergency brake valve. Fed, it holds the brake off; cut, the emergency brake goes on.
pub trait Valve {
    /// Whether the valve is fed.
    ghost fed: { Self → Bool };

    /// Cuts the valve: the emergency brake goes on.
    fn cut(&mut self)
        ensures { fed self.new ≡ false };

    /// Feeds the valve: the brake is held off.
    fn feed(&mut self)
        ensures { fed self.new ≡ true };

    /// Tells whether the valve is fed, and changes nothing.
    fn is_fed(&self) -> bool
        ensures { result ≡ fed self.now };
}
