// A line that was read.

use balise::KeptReception;
use cab::Event;

mod ops;

/// An event line: its time and what happened then.
// neither `PartialEq` nor `Debug`, as `Few`, which keeps the telegram's bytes and says why
#[derive(Clone, Copy)]
pub struct EventLine {
    pub(crate) time: u64,
    pub(crate) what: Event<KeptReception>,
}
