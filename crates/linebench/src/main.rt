//! The bench of text lines: shows what strip lines and event lines read as.
#![tactic(auto)]

mod shown;
mod transcript;

use transcript::Transcript;

fn main(rt: HostRuntime) -> anyhow::Result<()> {
    console::serve(&rt, Transcript)
}
