//! What the unit works: the emergency brake valve and the recorder, each behind a trait with several ends, and the maintenance store.
#![tactic(auto)]

mod braking;
mod maintenance;
mod recorder;
mod valve;

pub use braking::cut_and_record;
pub use maintenance::{FaultEntry, store_fault};
pub use recorder::Recorder;
pub use valve::Valve;
pub use valve::contacts::ContactPair;
pub use valve::word::OutputWord;

#[cfg(test)]
mod tests;
