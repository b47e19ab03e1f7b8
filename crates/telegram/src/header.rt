// The header read from a telegram, and the questions asked of it.
ghost use Rattle.std.specs.Prelude.{◌≡◌};
ghost use Rattle.telegram.specs.Headers.{header_in, header_asked};

use crate::bits::BitReader;
use balise::{Header, HeaderFault};

/// The fields as they stand in the telegram.
pub fn read_header(telegram: &[u8]) -> Header
    ensures { result ≡ header_in telegram.now }
{
    let mut reader = BitReader::new(telegram, 0);
    Header {
        updown: reader.take(1),
        version: reader.take(7),
        media: reader.take(1),
        position: reader.take(3),
        total: reader.take(3),
        duplicate: reader.take(2),
        counter: reader.take(8),
        country: reader.take(10),
        group: reader.take(14),
        link: reader.take(1),
    }
}

/// The header, unless a question concerns it: direction, version and media first, then the position in the group.
pub fn ask_header(header: Header, plug: u8) -> Result<Header, HeaderFault>
    ensures { result ≡ header_asked plug header }
{
    if header.updown != 1 {
        return Err(HeaderFault::Updown);
    }
    if header.version > u16::from(plug) {
        return Err(HeaderFault::Version);
    }
    if header.media != 0 {
        return Err(HeaderFault::Media);
    }
    if header.total == 0 {
        return Err(HeaderFault::NoTotal);
    }
    if header.position > header.total {
        return Err(HeaderFault::Position);
    }
    Ok(header)
}
