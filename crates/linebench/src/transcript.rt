// What each line is answered by.
ghost use Rattle.std.specs.Prelude.{◌≡◌, ◌++◌, OnOk, string_bytes};
ghost use Rattle.linebench.specs.Words.{shown_text};

use crate::shown::Shown;
use console::Answerer;
use events::read_event;
use lines::read_strip;
use refusal::Refusal;
use std::fmt;
use std::fmt::Write;

/// Lines are answered one by one, and nothing is remembered.
#[derive(Clone, Copy, PartialEq, Eq, Debug)]
pub struct Transcript;

impl Answerer for Transcript {
    // not inlined, so that a byte that ends no line doesn't pay for what an answer needs
    #[inline(never)]
    fn answer(&mut self, line: &[u8], answers: &mut String) -> fmt::Result {
        match reply(line, answers) {
            Ok(written) => written,
            Err(refusal) => Ok(write!(answers, "{refusal}")?),
        }
    }
}

/// Writes what a line reads as, if it is not refused.
// each kind of line writes its own: a value for all of them would be as large as an event line with its telegram, and built at each line
fn reply(line: &[u8], answers: &mut String) -> Result<fmt::Result, Refusal> {
    match line {
        [b'S', rest @ ..] => Ok(show(Shown::Strip(read_strip(rest)?), answers)),
        [b'E', rest @ ..] => Ok(show(Shown::Event(&read_event(rest)?), answers)),
        _ => Ok(show(Shown::Unknown, answers)),
    }
}

/// Writes the answer to a line that is not refused.
fn show(shown: Shown<'_>, answers: &mut String) -> fmt::Result
    ensures { OnOk result (string_bytes answers.new ≡ string_bytes answers.old ++ shown_text shown.entry) }
{
    match shown {
        // what `{}` writes of it too, with no formatter made
        Shown::Unknown => answers.write_str("?"),
        _ => Ok(write!(answers, "{shown}")?),
    }
}
