// The ends of a line, and its bytes one by one.
ghost use Rattle.std.specs.Prelude.{◌≡◌, ◌==◌, length, slice_get};
ghost use Rattle.text.specs.Cursors.{Reads};
ghost use Rattle.text.specs.Parts.{byte_at, this_at, end_at};

use super::Cursor;
use crate::fault::Illegal;

impl<'a> Cursor<'a> {
    /// At the beginning of a line.
    pub fn new(line: &'a [u8]) -> Cursor<'a>
        ensures line { result.line.now ≡ line.now }
        ensures place { result.place ≡ 0 }
    {
        Cursor { line, place: 0 }
    }

    /// Whether the line ends here.
    pub fn at_end(&self) -> bool
        ensures { result ≡ (self.now.place == length self.now.line.now) }
    {
        self.place == self.line.len()
    }

    /// The byte that stands here, if the line goes on.
    pub fn peek(&self) -> Option<u8>
        ensures { result ≡ slice_get self.now.line.now self.now.place }
    {
        self.line.get(self.place).copied()
    }

    /// No legal line goes on as this one does here.
    pub fn illegal(&self) -> Illegal
        ensures { result.place ≡ self.now.place }
    {
        Illegal { place: self.place }
    }

    /// The next byte, which is any.
    pub fn byte(&mut self) -> Result<u8, Illegal>
        ensures { Reads byte_at self.old self.new result }
    {
        let byte = self.peek().ok_or(self.illegal())?;
        self.place += 1;
        Ok(byte)
    }

    /// The next byte, which is this one.
    pub fn expect(&mut self, wanted: u8) -> Result<(), Illegal>
        ensures { Reads (this_at wanted) self.old self.new result }
    {
        if self.peek() != Some(wanted) {
            return Err(self.illegal());
        }
        self.place += 1;
        Ok(())
    }

    /// The line ends here.
    pub fn end(&self) -> Result<(), Illegal>
        ensures { Reads end_at self.now self.now result }
    {
        if self.at_end() {
            Ok(())
        } else {
            Err(self.illegal())
        }
    }
}
