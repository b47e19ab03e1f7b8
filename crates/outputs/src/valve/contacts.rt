// The valve behind two contacts in series.
ghost use Rattle.std.specs.Prelude.{◌≡◌, false, ◌&&◌};

use super::Valve;

/// The valve behind two contacts in series: it is fed while both are closed.
#[derive(PartialEq, Eq, Debug, Drop)]
pub struct ContactPair {
    // flags: an enum of open and closed would be a `bool` by another name
    /// Whether the first contact is closed.
    first: bool,
    /// Whether the second contact is closed.
    second: bool,
}

impl ContactPair {
    // no `Default`: a name and a contract say that a valve begins cut
    /// Both contacts open: the valve is cut.
    pub fn new() -> Self
        ensures { (result.first ≡ false) × (result.second ≡ false) }
    {
        ContactPair {
            first: false,
            second: false,
        }
    }

    /// The contacts as the host finds them: whether the first is closed, and whether the second is.
    // no `From`: of a pair `(bool, bool)` it would not say which contact is which
    pub fn from_contacts(first: bool, second: bool) -> Self
        ensures { (result.first ≡ first) × (result.second ≡ second) }
    {
        ContactPair { first, second }
    }

    // no `From`, as above
    /// The contacts for the host to set: whether the first is closed, and whether the second is.
    pub fn contacts(&self) -> (bool, bool)
        ensures { (result.0 ≡ self.now.first) × (result.1 ≡ self.now.second) }
    {
        (self.first, self.second)
    }
}

impl Valve for ContactPair {
    ghost fed = { λ pair. pair.first && pair.second };

    // the trait's promise, and that both contacts open where one would do
    fn cut(&mut self)
        ensures cut { self.new.first && self.new.second ≡ false }
        ensures both_open { (self.new.first ≡ false) × (self.new.second ≡ false) }
    {
        self.first = false;
        self.second = false;
    }

    fn feed(&mut self) {
        self.first = true;
        self.second = true;
    }

    fn is_fed(&self) -> bool {
        self.first && self.second
    }
}
