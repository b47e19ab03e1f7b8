// The header: the first 50 bits of a telegram.
ghost use Rattle.std.specs.Prelude.{Some};
ghost use Rattle.balise.specs.Headers.{header_text};

use std::fmt;

/// The ten fields of a header, in their order.
// numbers as they stand, and no enums: each wrong one is a value that is refused, and all ten are printed
#[derive(Clone, Copy, PartialEq, Eq, Debug)]
pub struct Header {
    /// Q_UPDOWN: 1 from balise to train.
    pub updown: u16,
    /// M_VERSION
    pub version: u16,
    /// Q_MEDIA: 0 for a balise.
    pub media: u16,
    /// N_PIG: the balise's position in its group, from 0.
    pub position: u16,
    /// N_TOTAL: the position of the group's last balise.
    pub total: u16,
    /// M_DUP
    pub duplicate: u16,
    /// M_MCOUNT
    pub counter: u16,
    /// NID_C
    pub country: u16,
    /// NID_BG
    pub group: u16,
    /// Q_LINK
    pub link: u16,
}

/// The ten fields in their order, parted by commas.
impl fmt::Display for Header {
    ghost output = { λ header. Some (header_text header) };

    fn fmt<W: fmt::Write>(&self, f: &mut fmt::Formatter<W>) -> fmt::Result {
        let Header {
            updown,
            version,
            media,
            position,
            total,
            duplicate,
            counter,
            country,
            group,
            link,
        } = *self;
        write!(f, "{updown},{version},{media},{position},{total},")?;
        write!(f, "{duplicate},{counter},{country},{group},{link}")
    }
}
