// The valve behind one output word.
ghost use Rattle.std.specs.Prelude.{◌≡◌, false};
ghost use Rattle.outputs.specs.Valves.{feeds};

use super::Valve;

/// The one word that feeds the valve. Half of its bits are ones, so that it is far from a word of zeros and from a word of ones.
const FED: u32 = 0xA5C3_5A3C;

/// The word that is put out to cut the valve.
const CUT: u32 = 0;

/// The valve behind one output word. One word feeds it; every other word cuts it, so that a damaged word brakes.
#[derive(PartialEq, Eq, Debug, Drop)]
// a number: the host puts it out as it is, and a damaged one is a value too
pub struct OutputWord(u32);

impl OutputWord {
    // no `Default`, as for the contacts
    /// The output word with the valve cut.
    pub fn new() -> Self
        ensures word { result.0 ≡ 0 }
        ensures cut { feeds result.0 ≡ false }
    {
        OutputWord(CUT)
    }

    /// The word for the host to put out.
    // no `From`: by value it would use up the valve, which is no `Copy`, so that no second one goes on fed; by reference `u32::from(&valve)` says less than `word`
    pub fn word(&self) -> u32
        ensures { result ≡ self.now.0 }
    {
        self.0
    }
}

/// The output word as the host finds it.
impl From<u32> for OutputWord {
    ghost from_gives = { λ word output. output.0 ≡ word };

    fn from(word: u32) -> OutputWord {
        OutputWord(word)
    }
}

impl Valve for OutputWord {
    ghost fed = { λ output. feeds output.0 };

    // the trait's promise, and the word
    fn cut(&mut self)
        ensures cut { feeds self.new.0 ≡ false }
        ensures word { self.new.0 ≡ 0 }
    {
        *self = OutputWord::new();
    }

    fn feed(&mut self) {
        *self = OutputWord::from(FED);
    }

    fn is_fed(&self) -> bool {
        self.word() == FED
    }
}
