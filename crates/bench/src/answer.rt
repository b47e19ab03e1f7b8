// What is printed.
ghost use Rattle.std.specs.Prelude.{◌≡◌, Some};
ghost use Rattle.bench.specs.Answers.{heard_answer, memory_after};
ghost use Rattle.bench.specs.Printed.{answer_text};

use crate::printed::{Gathered, OrMark, Reading};
use balise::{Code, SHORT};
use group::{GroupId, Heard, Memory, OpenGroup};
use std::fmt;
use std::fmt::Formatter;
use telegram::Telegram;
use text::Hex;

/// The answer to a line that is not refused.
// neither `PartialEq` nor `Debug`, as `Few`, which it holds
#[derive(Clone, Copy)]
pub enum Answer {
    /// The telegram that was written.
    Written([u8; SHORT]),
    /// What a telegram reads as.
    Reading(Telegram),
    /// The group is open.
    Open(OpenGroup),
    /// The group closed, with the code that is acted on.
    Closed { id: GroupId, code: Option<Code> },
    /// The group was closed before.
    PassedOver(GroupId),
    /// No group is remembered.
    NoGroup,
}

impl Answer {
    /// What a telegram did that was heard for the group memory.
    pub fn heard(before: Memory, heard: Heard) -> Answer
        ensures value { result ≡ heard_answer before heard.memory heard.code }
        ensures memory { heard.memory ≡ memory_after result before }
    {
        match (before, heard.memory) {
            (_, Memory::Empty) => Answer::NoGroup,
            (_, Memory::Open(group)) => Answer::Open(group),
            (Memory::Closed(_), Memory::Closed(id)) => Answer::PassedOver(id),
            (_, Memory::Closed(id)) => Answer::Closed {
                id,
                code: heard.code,
            },
        }
    }
}

/// What is printed for each answer.
impl fmt::Display for Answer {
    ghost output = { λ answer. Some (answer_text answer) };

    fn fmt<W: fmt::Write>(&self, f: &mut Formatter<W>) -> fmt::Result {
        match *self {
            Answer::Written(ref telegram) => {
                let telegram = Hex(telegram);
                write!(f, "{telegram}")
            }
            Answer::Reading(telegram) => {
                let reading = Reading(telegram);
                write!(f, "{reading}")
            }
            Answer::Open(group) => {
                let group = Gathered(group);
                write!(f, "{group}")
            }
            Answer::Closed { id, code } => {
                let code = OrMark(code, "--");
                write!(f, "C,{id},{code}")
            }
            Answer::PassedOver(id) => write!(f, "P,{id}"),
            Answer::NoGroup => f.write_str("F"),
        }
    }
}
