// The bench at work: the balise group memory, and what each line does.
ghost use Rattle.std.specs.Prelude.{◌≡◌, Some};
ghost use Rattle.few.specs.Items.{items};
ghost use Rattle.telegram.specs.Telegrams.{reading_of};
ghost use Rattle.bench.specs.Answers.{memory_left, read_by, answer_of, written_answer};

use crate::answer::Answer;
use crate::command::Command;
use crate::handed::Handed;
use balise::SHORT;
use console::Answerer;
use group::Memory;
use refusal::Refusal;
use std::fmt;
use std::fmt::Write;
use writer::Draft;

/// The bench at work.
#[derive(Drop)]
pub struct Session {
    memory: Memory,
}

impl Answerer for Session {
    // as in `linebench`: one body for both would want two types of answers beside the trait's method
    fn answer(&mut self, line: &[u8], answers: &mut String) -> fmt::Result {
        match self.reply(line) {
            Ok(answer) => write!(answers, "{answer}")?,
            Err(refusal) => write!(answers, "{refusal}")?,
        }
        Ok(())
    }
}

impl Session {
    /// No group is remembered.
    pub fn new() -> Session
        ensures { result.memory ≡ Memory.Empty }
    {
        Session {
            memory: Memory::Empty,
        }
    }

    // three contracts say `memory_left`, each of its own answer: it is no fact of the session alone
    /// The answer to a line.
    fn reply(&mut self, line: &[u8]) -> Result<Answer, Refusal>
        ensures { self.new.memory ≡ memory_left result self.old.memory }
    {
        let command = Command::parse(line)?;
        self.obey(command)
    }

    /// Does what a command asks.
    fn obey(&mut self, command: Command) -> Result<Answer, Refusal>
        ensures { self.new.memory ≡ memory_left result self.old.memory }
    {
        match command {
            Command::Write(draft) => written(draft),
            Command::Read(handed) => read(&handed),
            Command::Hear(handed) => self.hear(&handed),
            Command::Forget => {
                self.memory = Memory::Empty;
                Ok(Answer::NoGroup)
            }
        }
    }

    /// Hears a telegram for the balise group memory, which a refused one leaves as it was.
    fn hear(&mut self, handed: &Handed) -> Result<Answer, Refusal>
        ensures { self.new.memory ≡ memory_left result self.old.memory }
    {
        let before = self.memory;
        let heard = before.receive(handed.kept.lend(), handed.plug)?;
        self.memory = heard.memory;
        Ok(Answer::heard(before, heard))
    }
}

/// The answer to `W`.
fn written(draft: Draft) -> Result<Answer, Refusal>
    ensures { result ≡ written_answer draft }
{
    let mut telegram = [0; SHORT];
    writer::write(draft, &mut telegram)?;
    Ok(Answer::Written(telegram))
}

/// The answer to `R`.
fn read(handed: &Handed) -> Result<Answer, Refusal>
    ensures { read_by result ≡ Some (answer_of (reading_of (items handed.now.kept.bytes) handed.now.kept.crc_good handed.now.plug)) }
{
    let telegram = telegram::read(handed.kept.lend(), handed.plug)?;
    Ok(Answer::Reading(telegram))
}
