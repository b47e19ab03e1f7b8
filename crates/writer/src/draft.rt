// What the writer is given.
ghost use Rattle.std.specs.Prelude.{◌≡◌};
ghost use Rattle.writer.specs.Drafts.{asked};

use crate::faults::WriteFault;
use crate::layout::all_fit;

/// The values of a telegram to be written.
// Numbers as they come, not Digit and Direction: what is wrong with them is the writer's to find.
#[derive(Clone, Copy, PartialEq, Eq, Debug)]
pub struct Draft {
    /// M_VERSION
    pub version: u16,
    /// N_PIG
    pub position: u16,
    /// N_TOTAL
    pub total: u16,
    /// M_DUP
    pub duplicate: u16,
    /// M_MCOUNT
    pub counter: u16,
    /// NID_C
    pub country: u16,
    /// NID_BG
    pub group: u16,
    /// Q_LINK
    pub link: u16,
    /// Q_DIR
    pub direction: u16,
    /// The first digit of the code.
    pub first: u16,
    /// The second digit of the code.
    pub second: u16,
}

impl Draft {
    /// Whether a question concerns one of the values.
    #[tactic(auto, unfolding(crate::specs::Drafts::asked))]
    pub(crate) fn asked(self) -> Result<(), WriteFault>
        ensures { result ≡ asked self }
    {
        if !all_fit(&self.layout()) {
            return Err(WriteFault::TooWide);
        }
        if self.total == 0 {
            return Err(WriteFault::NoTotal);
        }
        if self.position > self.total {
            return Err(WriteFault::Position);
        }
        // by numbers: `try_from` was tried in place of these two, and the clause was not proved
        if self.direction == 3 {
            return Err(WriteFault::Direction);
        }
        if self.first > 10 || self.second > 10 {
            return Err(WriteFault::Digit);
        }
        Ok(())
    }
}
