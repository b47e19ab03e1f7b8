// The ends at work.
use crate::braking::cut_and_record;
use crate::maintenance::{FaultEntry, store_fault};
use crate::valve::Valve;
use crate::valve::contacts::ContactPair;
use crate::valve::word::OutputWord;
use cab::{Kind, Lamp, Mode, Panel, Record, Time};
use refusal::{Layer, Reason, Refusal};
use slot_log::{Log, LogFault};
use std::test::Fail;

fn tick() -> Record {
    Record {
        time: Time::zero(),
        kind: Kind::Tick,
        code: None,
        panel: Panel {
            brake: None,
            mode: Mode::Ncv,
            crocodile: false,
            yellow: Lamp::Dark,
            red: Lamp::Dark,
            gong: false,
        },
    }
}

#[test]
fn a_full_recorder_does_not_keep_the_valve_fed(rt: HostRuntime) {
    let mut slots = [tick(); 1];
    let mut strip = Log::new(&mut slots);
    let mut pair = ContactPair::from_contacts(true, true);
    assert!(rt; cut_and_record(&mut pair, &mut strip, tick()) && !pair.is_fed());
    let mut word = OutputWord::from(0xA5C3_5A3C);
    assert!(rt; word.is_fed());
    assert!(rt; !cut_and_record(&mut word, &mut strip, tick()) && !word.is_fed());
    assert!(rt; strip.len() == 1);
}

#[test]
fn a_damaged_word_does_not_feed(rt: HostRuntime) {
    assert!(rt; !OutputWord::from(0xA5C3_5A3D).is_fed());
}

#[test]
fn the_maintenance_store_is_a_log(rt: HostRuntime) -> Result<(), Fail> {
    let blank = FaultEntry {
        time: Time::zero(),
        refusal: LogFault::Absent.into(),
    };
    let mut slots = [blank; 1];
    let mut store = Log::new(&mut slots);
    store_fault(&mut store, Time::zero(), LogFault::Full.into())?;
    assert!(rt; store_fault(&mut store, Time::zero(), LogFault::Absent.into()).is_err());
    assert_eq!(rt; store.read(0)?.refusal.number(), 12);
    Ok(())
}

#[test]
fn the_maintenance_store_takes_a_number_of_the_hosts_own(rt: HostRuntime) -> Result<(), Fail> {
    let own = Refusal {
        reason: Reason::Other(77),
        place: 3,
        layer: Layer::Unit,
    };
    let mut slots = [FaultEntry {
        time: Time::zero(),
        refusal: LogFault::Absent.into(),
    }; 1];
    let mut store = Log::new(&mut slots);
    store_fault(&mut store, Time::zero(), own)?;
    assert_eq!(rt; store.read(0)?.refusal.number(), 77);
    Ok(())
}
