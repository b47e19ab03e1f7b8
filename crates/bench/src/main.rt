//! The bench program: reads command lines, prints one answer line for each.
#![tactic(auto)]

mod answer;
mod command;
mod handed;
mod printed;
mod session;

use session::Session;

fn main(rt: HostRuntime) -> anyhow::Result<()> {
    console::serve(&rt, Session::new())
}
