// The line that is being read, and who answers it.
ghost use Rattle.std.specs.Prelude.{◌≡◌, [], ◌∷◌, ◌++◌, take, if◌then◌else◌, nat_eq};
ghost use Rattle.few.specs.Items.{items};

use few::Few;
use std::fmt;
use std::fmt::Write;

/// The byte that ends a line.
const LINE_END: u8 = 10;

/// What answers lines.
// no closure in its place: who calls one has to ask in a `requires` that it may be called
pub trait Answerer {
    /// Writes the answer to a line behind the others, without a byte 10. Of a line of more than 256 bytes it is handed the first 256.
    fn answer(&mut self, line: &[u8], answers: &mut String) -> fmt::Result;
}

/// A dialogue: the line that has come so far, and who answers it.
#[derive(Drop)]
pub struct Dialogue<A: Drop> {
    /// Only the first bytes of a line are kept, so that a line of any length needs no more memory.
    line: Few<u8, 256>,
    answerer: A,
}

impl<A: Answerer + Drop> Dialogue<A> {
    /// No byte has come.
    pub fn new(answerer: A) -> Dialogue<A>
        ensures { (items result.line ≡ []) × (result.answerer ≡ answerer) }
    {
        Dialogue {
            line: Few::none(0),
            answerer,
        }
    }

    /// Takes a byte of the input; where it ends a line, the answer goes behind the others.
    pub fn take(&mut self, byte: u8, answers: &mut String) -> fmt::Result
        ensures { items self.new.line ≡ (if nat_eq byte 10 then [] else take 256 (items self.old.line ++ byte ∷ [])) }
    {
        if byte != LINE_END {
            // A byte for which there is no room is thrown away.
            let _ = self.line.push(byte);
            return Ok(());
        }
        let answered = self.answerer.answer(self.line.as_slice(), answers);
        self.line.clear();
        answered?;
        answers.write_char('\n')
    }

    /// The input has ended, perhaps within a line. No line is begun any more.
    pub fn end(&mut self, answers: &mut String) -> fmt::Result
        ensures { items self.new.line ≡ [] }
    {
        if !self.line.is_empty() {
            self.take(LINE_END, answers)?;
        }
        Ok(())
    }
}
