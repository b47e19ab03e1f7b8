// A telegram from the antenna's bytes to its reading.
ghost use Rattle.std.specs.Prelude.{◌≡◌};
ghost use Rattle.telegram.specs.Telegrams.{accepted_of, reading_of, told, packets_read};

use crate::frame::Frame;
use crate::list::PacketList;
use balise::{FrameFault, Header, HeaderFault, Reception};

/// What a telegram reads as.
// neither `PartialEq` nor `Debug`, as `Few`, which it holds
#[derive(Clone, Copy)]
pub struct Telegram {
    pub header: Header,
    pub packets: PacketList,
}

/// Header and packets of a frame.
fn read_frame(frame: Frame<'_>, plug: u8) -> Result<Telegram, HeaderFault>
    ensures { told result ≡ packets_read (accepted_of frame.entry.bytes.now plug) }
{
    let telegram = frame.accept(plug)?;
    let packets = telegram.packets()?;
    Ok(Telegram {
        header: telegram.header(),
        packets,
    })
}

/// A telegram as the antenna hands it over, read under the plug value.
pub fn read(reception: Reception<'_>, plug: u8) -> Result<Telegram, FrameFault>
    ensures { told result ≡ reading_of reception.entry.bytes.now reception.entry.crc_good plug }
{
    let frame = Frame::receive(reception)?;
    Ok(read_frame(frame, plug)?)
}
