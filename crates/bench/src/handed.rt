// A telegram as a command line has it.
use balise::KeptReception;

/// A telegram as the antenna would hand it over, and the plug value under which it is read.
// neither `PartialEq` nor `Debug`, as `Few`, which it holds
#[derive(Clone, Copy)]
pub struct Handed {
    pub plug: u8,
    pub kept: KeptReception,
}
