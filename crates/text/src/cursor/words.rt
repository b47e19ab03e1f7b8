// Words that stand in a line.
ghost use Rattle.std.specs.Prelude.{◌≡◌, ◌≤◌, ◌==◌, length, zip, MatchResult};
ghost use Rattle.std.specs.List.{take_while};
ghost use Rattle.text.specs.Cursors.{Reads};
ghost use Rattle.text.specs.Parts.{picked_or_reach, word_at, field_at};

use super::Cursor;
use crate::fault::Illegal;
use crate::table::Table;

/// How many bytes two texts begin with alike.
fn alike(text: &[u8], word: &[u8]) -> usize
    ensures { result ≡ length (take_while (λ p. p.0 == p.1) (zip text.now word.now)) }
{
    text.iter().zip(word).take_while(|(a, b)| a == b).count()
}

/// The first of these values whose word the text begins with, or how many bytes it begins with alike with one of their words at most.
#[tactic(auto, using(crate::proofs::Loops::pick_steps))]
fn pick<T: Table>(values: &[T::Value], text: &[u8]) -> Result<T::Value, usize>
    ensures value { result ≡ picked_or_reach T.word values.now text.now }
    ensures within { MatchResult result (λ a. length (T.word a) ≤ length text.now) (λ far. far ≤ length text.now) }
{
    let mut far = 0;
    for value in values {
        let word = T::text(*value);
        let count = alike(text, word);
        if count == word.len() {
            return Ok(*value);
        }
        far = far.max(count);
    }
    Err(far)
}

impl Cursor<'_> {
    /// One word of a table.
    #[tactic(auto, using(crate::proofs::Loops::word_steps))]
    pub fn word<T: Table>(&mut self) -> Result<T::Value, Illegal>
        ensures { Reads (word_at T.word T.values) self.old self.new result }
    {
        match pick::<T>(T::all(), &self.line[self.place..]) {
            Ok(value) => {
                self.place += T::text(value).len();
                Ok(value)
            }
            Err(far) => {
                self.place += far;
                Err(self.illegal())
            }
        }
    }

    /// A comma and one word of a table.
    #[tactic(auto, unfolding(crate::specs::Parts::field_at))]
    pub fn field<T: Table>(&mut self) -> Result<T::Value, Illegal>
        ensures { Reads (field_at T.word T.values) self.old self.new result }
    {
        self.expect(b',')?;
        self.word::<T>()
    }
}
