// A log over slots that its maker keeps.
ghost use Rattle.std.specs.Prelude.{◌≡◌, length, if◌then◌else◌, nat_eq, slice_set};

use crate::fault::LogFault;
use crate::slots::Log;
use refusal::Refusal;
use std::test::Fail;

/// Appends one item to an empty log in `slots`: the lender finds it in the first slot, and the other slots as they were.
fn first_item(slots: &mut [u8], item: u8)
    ensures { slots.new ≡ (if nat_eq (length slots.old) 0 then slots.old else slice_set slots.old 0 item) }
{
    let mut log = Log::new(slots);
    let _ = log.append(item);
}

#[test]
fn the_lender_finds_the_item(rt: HostRuntime) {
    let mut slots = [1, 2];
    first_item(&mut slots, 7);
    assert!(rt; slots[0] == 7 && slots[1] == 2);
}

#[test]
fn a_full_log_refuses(rt: HostRuntime) -> Result<(), Fail> {
    let mut slots = [1];
    let mut log = Log::new(&mut slots);
    log.append(7)?;
    assert!(rt; log.free() == 0 && log.len() == 1);
    let Err(fault) = log.append(8) else {
        return Err(Fail::new("it took a second item"));
    };
    assert_eq!(rt; Refusal::from(fault).number(), 12);
    assert_eq!(rt; log.read(0), Ok(7));
    assert_eq!(rt; log.read(1), Err(LogFault::Absent));
    Ok(())
}
