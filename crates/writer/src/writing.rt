// A telegram written into the caller's buffer.
ghost use Rattle.std.specs.Prelude.{◌≡◌, ◌≤◌, ◌++◌, length, drop};
ghost use Rattle.writer.specs.Layouts.{laid_bytes};
ghost use Rattle.writer.specs.RoundTrip.{ReadsBack, WritesBack, worked_bytes};
ghost use Rattle.writer.specs.Writing.{written, write_answer, buffer_after};

use crate::draft::Draft;
use crate::faults::WriteFault;
use crate::layout::{Field, laid_byte};
use balise::SHORT;
use std::array;

/// The telegram of these fields.
fn laid(fields: &[Field]) -> [u8; SHORT]
    ensures { result ≡ laid_bytes fields.now }
{
    array::from_fn(|k| laid_byte(fields, 8 * k))
}

/// Writes the telegram of these values into the first 27 bytes of `out` and leaves the others; where it refuses, it leaves all.
pub fn write(draft: Draft, out: &mut [u8]) -> Result<(), WriteFault>
    ensures value { result ≡ write_answer draft (length out.old) }
    ensures buffer { out.new ≡ buffer_after result draft out.old }
    ensures reads_back { ReadsBack result draft out.new }
    ensures writes_back { WritesBack }
{
    if out.len() < SHORT {
        return Err(WriteFault::Short);
    }
    draft.asked()?;
    out[..SHORT].copy_from_slice(&laid(&draft.layout()));
    Ok(())
}

/// The draft of the telegram that docs/TELEGRAMS.md works out by hand.
#[tactic(auto, unfolding(crate::specs::Layouts::layout, crate::specs::Layouts::laid_bytes))]
pub fn worked_example() -> Draft
    ensures { written result ≡ worked_bytes }
{
    Draft {
        version: 16,
        position: 0,
        total: 1,
        duplicate: 0,
        counter: 255,
        country: 1,
        group: 5,
        link: 0,
        direction: 1,
        first: 2,
        second: 2,
    }
}
