// Standard input and standard output, block by block.
use crate::dialogue::{Answerer, Dialogue};
use std::io::{ErrorKind, Read, Write};

/// How many bytes are asked for at a time.
const BLOCK: usize = 65536;
/// Answers are printed once they have this many bytes.
const FULL: usize = 32768;

/// Prints the answers that are ready.
fn print(rt: &HostRuntime, answers: &mut String) -> anyhow::Result<()> {
    rt.stdout().write_all(answers.as_bytes())?;
    answers.clear();
    Ok(())
}

/// Takes what input is there and prints the answers to the lines that it ends; false where the input has ended.
fn turn<A: Answerer + Drop>(
    rt: &HostRuntime,
    dialogue: &mut Dialogue<A>,
    answers: &mut String,
    block: &mut [u8],
) -> anyhow::Result<bool> {
    let count = match rt.stdin().read(block) {
        Ok(count) => count,
        // A signal broke the reading off: it is begun again.
        Err(error) if error.kind() == ErrorKind::Interrupted => return Ok(true),
        Err(error) => return Err(error.into()),
    };
    for byte in &block[0..count] {
        dialogue.take(*byte, answers)?;
        if answers.len() >= FULL {
            print(rt, answers)?;
        }
    }
    if count == 0 {
        dialogue.end(answers)?;
    }
    print(rt, answers)?;
    Ok(count > 0)
}

/// Answers every line of standard input, in order, until it ends. The answers to what has come are out before more input is waited for.
pub fn serve<A: Answerer + Drop>(rt: &HostRuntime, answerer: A) -> anyhow::Result<()> {
    let mut dialogue = Dialogue::new(answerer);
    let mut answers = String::new(rt.alloc());
    let mut block = [0u8; BLOCK];
    // counted, since nothing says that an input ends
    for _ in 0..u64::MAX {
        if !turn(rt, &mut dialogue, &mut answers, &mut block)? {
            break;
        }
    }
    Ok(())
}
