// How the values of a telegram lie in its bits.
ghost use Rattle.std.specs.Prelude.{◌≡◌, ◌+◌, ◌*◌, ◌/◌, ◌%◌, ◌^◌, ◌≤◌};
ghost use Rattle.telegram.specs.Bits.{number};
ghost use Rattle.writer.specs.Layouts.{in_bits, layout, fits, all_fit, laid_bit};

use crate::draft::Draft;
use balise::{END, TBL1, TBL1_BITS, USER_PACKET};

/// A value, and the bits that it takes.
#[derive(Clone, Copy, PartialEq, Eq, Debug)]
pub struct Field {
    pub value: u16,
    pub width: usize,
}

/// A value in so many bits.
fn in_bits(value: u16, width: usize) -> Field
    ensures { result ≡ in_bits value width }
{
    Field { value, width }
}

impl Draft {
    /// The fields of the telegram in their order, up to the packet 255.
    #[tactic(auto, unfolding(crate::specs::Layouts::layout))]
    pub(crate) fn layout(self) -> [Field; 17]
        ensures { result ≡ layout self }
    {
        [
            in_bits(1, 1),
            in_bits(self.version, 7),
            in_bits(0, 1),
            in_bits(self.position, 3),
            in_bits(self.total, 3),
            in_bits(self.duplicate, 2),
            in_bits(self.counter, 8),
            in_bits(self.country, 10),
            in_bits(self.group, 14),
            in_bits(self.link, 1),
            in_bits(USER_PACKET, 8),
            in_bits(self.direction, 2),
            in_bits(TBL1_BITS as u16, 13),
            in_bits(TBL1, 9),
            in_bits(self.first, 8),
            in_bits(self.second, 8),
            in_bits(END, 8),
        ]
    }
}

impl Field {
    /// Whether the value fits the bits that it takes.
    #[tactic(auto, using(crate::proofs::Laying::wide_enough, crate::proofs::Laying::nothing_above))]
    fn fits(self) -> bool
        ensures { result ≡ fits self }
    {
        self.width >= 16 || self.value >> self.width == 0
    }
}

/// Whether each value fits its field.
pub(crate) fn all_fit(fields: &[Field]) -> bool
    ensures { result ≡ all_fit fields.now }
{
    fields.iter().all(|field| field.fits())
}

/// The bit of `value` that has so many bits below it.
#[tactic(auto, using(crate::proofs::Laying::none_above))]
fn bit_above(value: u16, below: usize) -> u8
    ensures { result ≡ value / 2 ^ below % 2 }
{
    if below < 16 {
        (value >> below & 1) as u8
    } else {
        0
    }
}

/// The bit at `place` of fields that lie end to end. Behind them come 104 ones, and then zeros.
#[tactic(auto, using(crate::proofs::Laying::laid_here, crate::proofs::Laying::laid_later, crate::proofs::Laying::laid_behind))]
fn laid_bit(fields: &[Field], place: usize) -> u8
    ensures { result ≡ laid_bit fields.now place }
{
    let mut left = place;
    for field in fields {
        if left < field.width {
            return bit_above(field.value, field.width - 1 - left);
        }
        left -= field.width;
    }
    u8::from(left < 104)
}

/// The eight bits from `place` on.
#[tactic(auto, using(crate::proofs::Laying::laid_below, crate::proofs::Laying::laid_room))]
pub(crate) fn laid_byte(fields: &[Field], place: usize) -> u8
    requires { place ≤ 8192 }
    ensures { result ≡ number (laid_bit fields.now) place 8 }
{
    // no fold, as in the reader's `take`; and not one function with it: what gives the bits would be a closure, with a `requires` of its own
    let mut byte = 0u16;
    for k in 0..8 {
        byte = byte * 2 + u16::from(laid_bit(fields, place + k));
    }
    byte as u8
}
