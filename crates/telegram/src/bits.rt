// Bits and fields of a telegram, read where they lie.
ghost use Rattle.std.specs.Prelude.{◌≡◌, ℕ, ◌+◌, ◌<◌, ◌≤◌};
ghost use Rattle.telegram.specs.Bits.{bit, field};

/// A telegram, or its part from some byte on, and the place of the next bit to be read.
#[derive(Drop)]
pub struct BitReader<'a> {
    bytes: &'a [u8],
    place: usize,
}

/// The bit at `place`, each byte's highest bit first; 0 behind the last byte.
fn bit(bytes: &[u8], place: usize) -> u8
    ensures { result ≡ bit bytes.now place }
{
    bytes
        .get(place / 8)
        .map_or(0, |byte| byte >> (7 - place % 8) & 1)
}

impl<'a> BitReader<'a> {
    /// A reader of `bytes` that begins at the bit `place`.
    pub fn new(bytes: &'a [u8], place: usize) -> Self
        ensures bytes { result.bytes.now ≡ bytes.now }
        ensures place { result.place ≡ place }
    {
        BitReader { bytes, place }
    }

    // a bound and no invariant: who reads on knows his own bound, and none holds after every read
    /// The next field of `width` bits, the first bit the highest.
    #[tactic(auto, using(crate::proofs::Fields::field_steps))]
    pub fn take(&mut self, width: usize) -> u16
        requires { (width ≤ 16) × (self.old.place ≤ 8192) }
        ensures bytes { self.new.bytes.now ≡ self.old.bytes.now }
        ensures place { self.new.place ≡ self.old.place + width }
        ensures value { result ≡ field self.old.bytes.now self.old.place width }
    {
        // no fold: it was tried, and the proof of its value did not close
        let mut value = 0u16;
        for k in 0..width {
            value = value * 2 + u16::from(bit(self.bytes, self.place + k));
        }
        self.place += width;
        value
    }
}
