// The two lengths that a telegram can have.
ghost use Rattle.std.specs.Prelude.{◌≡◌, ◌*◌, ◌≤◌};
ghost use Rattle.telegram.specs.Forms.{form_of};
ghost use Rattle.telegram.specs.Telegrams.{telegram_bits};

use balise::{LONG, SHORT};

/// How many bits of a telegram carry what it says, and how many close its last byte.
#[derive(Clone, Copy, PartialEq, Eq, Debug)]
pub struct Form {
    pub bits: usize,
    pub closing: usize,
}

impl Form {
    /// The form of a telegram of so many bytes.
    pub fn of(bytes: usize) -> Option<Form>
        ensures { result ≡ form_of bytes }
    {
        match bytes {
            SHORT => Some(Form {
                bits: 210,
                closing: 6,
            }),
            LONG => Some(Form {
                bits: 830,
                closing: 2,
            }),
            _ => None,
        }
    }
}

/// How many bits of a telegram of so many bytes are not closing bits; 0 where a telegram has no such length.
pub fn telegram_bits(bytes: usize) -> usize
    ensures value { result ≡ telegram_bits bytes }
    ensures within { (result ≤ 8 * bytes) × (result ≤ 830) }
{
    Form::of(bytes).map_or(0, |form| form.bits)
}
