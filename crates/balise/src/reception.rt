// A telegram as it comes.
ghost use Rattle.std.specs.Prelude.{◌≡◌};
ghost use Rattle.few.specs.Items.{items};

use few::Few;

/// The bytes of a short telegram.
pub const SHORT: usize = 27;
/// The bytes of a long telegram.
pub const LONG: usize = 104;

/// A telegram as the antenna hands it over: its bytes, which stay the caller's, and the antenna's word on its CRC.
#[derive(Clone, Copy, PartialEq, Eq, Debug)]
pub struct Reception<'a> {
    pub bytes: &'a [u8],
    // a flag, and no `Option` of the bytes: length and closing bits are asked first, whatever the CRC
    pub crc_good: bool,
}

/// A telegram that is kept: its bytes, at most those of a long one, and the antenna's word on its CRC.
// no `==`, as `Few`: it is lent as a `Reception`, which has it
#[derive(Clone, Copy)]
pub struct KeptReception {
    pub bytes: Few<u8, LONG>,
    pub crc_good: bool,
}

impl KeptReception {
    /// The telegram as the antenna handed it over.
    pub fn lend(&self) -> Reception<'_>
        ensures bytes { result.bytes.now ≡ items self.now.bytes }
        ensures crc { result.crc_good ≡ self.now.crc_good }
    {
        Reception {
            bytes: self.bytes.as_slice(),
            crc_good: self.crc_good,
        }
    }
}
