// A telegram heard from its bytes on.
ghost use Rattle.std.specs.Prelude.{◌≡◌};
ghost use Rattle.telegram.specs.Telegrams.{accepted_of};
ghost use Rattle.group.specs.Receiving.{heard_opened, received};

use crate::memory::{Heard, Memory, Message};
use balise::{FrameFault, HeaderFault, Reception};
use telegram::Frame;

/// A frame is heard: its header accepted, the group asked, its packets read.
fn hear_frame(memory: Memory, frame: Frame<'_>, plug: u8) -> Result<Heard, HeaderFault>
    ensures { result ≡ heard_opened memory (accepted_of frame.entry.bytes.now plug) }
{
    let telegram = frame.accept(plug)?;
    let header = memory.asked(telegram.header())?;
    let packets = telegram.packets()?;
    Ok(memory.heard(Message {
        header,
        packets: packets.as_slice(),
    }))
}

impl Memory {
    /// What a telegram leaves as the antenna hands it over, under the plug value. Where it is refused the caller keeps the memory that it has.
    pub fn receive(self, reception: Reception<'_>, plug: u8) -> Result<Heard, FrameFault>
        ensures { result ≡ received self reception.entry.bytes.now reception.entry.crc_good plug }
    {
        let frame = Frame::receive(reception)?;
        Ok(hear_frame(self, frame, plug)?)
    }
}
