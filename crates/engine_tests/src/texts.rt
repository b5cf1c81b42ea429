//! Refusals and faults as text and as errors, and answers compared and shown.
use engine::{Answer, Call, Engine};
use newest_store::Newest;
use snapshot::{BookFault, EngineFault, Fault, Layer, NOT_NAMED, Refusal};
use std::process::Abort;
use std::test::Fail;

// Every refusal with its number.
const REFUSALS: [(u8, Refusal); 21] = [
    (1, Refusal::OutOfRange),
    (2, Refusal::PlaceOccupied),
    (3, Refusal::NotOpen),
    (4, Refusal::SameLeg),
    (5, Refusal::TooManyLegs),
    (6, Refusal::IntervalsApart),
    (7, Refusal::WriteSetFull),
    (8, Refusal::ReadingsFull),
    (9, Refusal::AnotherLegOpen),
    (10, Refusal::TooShort),
    (11, Refusal::UnfitWrites),
    (12, Refusal::ClockTooHigh),
    (13, Refusal::NoTimeLeft),
    (14, Refusal::CapacityExceeded),
    (15, Refusal::VersionGone),
    (16, Refusal::NoSuchNotice),
    (17, Refusal::UnfitMemory),
    (18, Refusal::AccountCut),
    (19, Refusal::WrongMark),
    (20, Refusal::WrongLastByte),
    (21, Refusal::Unlawful),
];

#[test]
fn refusal_is_a_sentence_with_its_number(rt: HostRuntime) -> Result<(), Fail> {
    for (number, refusal) in REFUSALS {
        let text = format!(in rt.alloc(); "{refusal}")?;
        let begins = format!(in rt.alloc(); "refused with {number}: ")?;
        assert!(rt; text.as_str().starts_with(begins.as_str()), "{refusal:?}");
        assert!(rt; text.len() > begins.len(), "{refusal:?}");
    }
    Ok(())
}

#[test]
fn fault_names_layer_place_leg_and_key(rt: HostRuntime) -> Result<(), Fail> {
    let apart = Fault {
        refusal: Refusal::IntervalsApart,
        layer: Layer::Chain,
        place: 1,
        leg: 3,
        key: NOT_NAMED,
    };
    let text =
        "refused with 6: the readings of the two legs were never true together (chain, place 1, leg 3)";
    assert_eq!(rt; format!(in rt.alloc(); "{apart}")?.as_str(), text);
    let own = EngineFault::own(apart);
    assert_eq!(rt; format!(in rt.alloc(); "{own}")?.as_str(), text);
    let gone = EngineFault::around(
        Fault::at_key(Refusal::VersionGone, Layer::Store, 9),
        0,
        2,
        9,
    );
    let text =
        "refused with 15: the store has dropped the version that is asked for (store, place 0, leg 2, key 9)";
    assert_eq!(rt; format!(in rt.alloc(); "{gone}")?.as_str(), text);
    let cut = BookFault::new(Refusal::AccountCut, 65_404);
    let text = "refused with 18: the account is cut short (book), account at byte 65404";
    assert_eq!(rt; format!(in rt.alloc(); "{cut}")?.as_str(), text);
    Ok(())
}

fn abandon_nothing() -> anyhow::Result<()> {
    Engine::new(Newest::new()).abandon(3)?;
    Ok(())
}

#[test]
fn fault_is_an_error_of_a_program(rt: HostRuntime) -> Result<(), Fail> {
    let Err(error) = abandon_nothing() else {
        assert!(rt; false, "there is no chain");
        return Ok(());
    };
    let text =
        "refused with 3: no chain is open at this place, or this leg of it is not open (chain, place 3)";
    assert_eq!(rt; format!(in rt.alloc(); "{error}")?.as_str(), text);
    Ok(())
}

// The answer to a commit of one read and one write with this value.
fn account(rt: &(impl Abort + AllocGlobal), value: u32) -> Result<Answer, Fail> {
    let mut engine = Engine::new(Newest::new());
    let calls = [
        Call::Begin {
            place: 0,
            worker: 5,
        },
        Call::Read {
            place: 0,
            leg: 0,
            key: 7,
        },
        Call::Write {
            place: 0,
            leg: 0,
            key: 7,
            value,
        },
    ];
    for call in calls {
        let _ = engine.perform(call);
    }
    let commit = Call::Commit {
        place: 0,
        leg: 0,
        clock: 9,
        readings_room: 1,
        writes_room: 1,
    };
    match engine.perform(commit) {
        Ok(answer) => Ok(answer),
        Err(fault) => {
            assert!(rt; false, "{fault}");
            Ok(Answer::Done)
        }
    }
}

#[test]
fn answers_are_compared_and_shown(rt: HostRuntime) -> Result<(), Fail> {
    assert_eq!(rt; Answer::Leg(2), Answer::Leg(2));
    assert_ne!(rt; Answer::Leg(2), Answer::Value(2));
    assert_eq!(rt; account(&rt, 4)?, account(&rt, 4)?);
    assert_ne!(rt; account(&rt, 4)?, account(&rt, 5)?);
    let shown = format!(in rt.alloc(); "{:?}", account(&rt, 4)?)?;
    let text =
        "Account(CommittedAccount { head: AccountHead { interval: Interval { low: 0, high: 0 }, timestamp: 9, readings: 1, writes: 1 }, readings: [ChainReading { worker: 5, key: 7, reading: Reading { value: 0, timestamp: 0, promise: 0 } }], writes: [Write { key: 7, value: 4 }] })";
    assert_eq!(rt; shown.as_str(), text);
    Ok(())
}
