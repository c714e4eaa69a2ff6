//! Tests of what reads lines of data.
use crate::calls::{Answer, Call, TakeStep};
use crate::fields::{find, mode_of, octets_of};
use crate::row::row_of;
use crate::tally::{Tally, differ_in};
use bcder::{Mode, Tag};
use std::test::Fail;

#[test]
fn a_row_is_read(rt: HostRuntime) -> Result<(), Fail> {
    let line = "cer,der\t30030201c8\ttake_u8==200 walk=absent\tenter:SEQUENCE:leave=own\t7";
    let row = row_of::<TakeStep>(rt.alloc(), line)?;
    assert!(rt; row.modes.as_slice() == [Mode::Cer, Mode::Der].as_slice());
    assert!(rt; row.octets.as_slice() == [0x30u8, 3, 2, 1, 200].as_slice());
    assert_eq!(rt; row.inside.len(), 2);
    assert!(rt; row.inside[0].call == Call::U8);
    assert!(rt; row.inside[0].answer == Answer::Number(200));
    assert!(rt; row.inside[1].call == Call::Walk);
    assert!(rt; row.inside[1].answer == Answer::Absent);
    assert_eq!(rt; row.outside.len(), 1);
    assert!(rt; row.outside[0].call == Call::Enter);
    assert!(rt; row.outside[0].tag == Tag::SEQUENCE);
    assert!(rt; row.outside[0].answer == Answer::Own);
    assert!(rt; row.left == Ok(7));
    Ok(())
}

#[test]
fn a_row_without_a_field_is_malformed(rt: HostRuntime) -> Result<(), Fail> {
    for line in [
        "",
        "ber",
        "ber\t05",
        "ber\t05\t-",
        "ber\t05\t-\t-",
        "ber\t05\t-\t-\tmany",
        "per\t05\t-\t-\t0",
        "ber\t5\t-\t-\t0",
        "ber\t05\ttake_u9=taken\t-\t0",
        "ber\t05\ttake_u8=given\t-\t0",
        "ber\t05\ttake_u8\t-\t0",
    ] {
        assert!(rt; row_of::<TakeStep>(rt.alloc(), line).is_err());
    }
    Ok(())
}

#[test]
fn words_are_found_in_their_table(rt: HostRuntime) -> Result<(), Fail> {
    assert!(rt; mode_of("ber").is_ok_and(|mode| mode == Mode::Ber));
    assert!(rt; mode_of("").is_err());
    assert!(rt; find(&[("one", 1u8), ("two", 2)], "two").is_ok_and(|number| number == 2));
    assert!(rt; octets_of(rt.alloc(), "-").is_ok_and(|octets| octets.is_empty()));
    Ok(())
}

#[test]
fn what_differs_is_counted(rt: HostRuntime) -> Result<(), Fail> {
    let mut tally = Tally::default();
    tally.count(true);
    tally.count(false);
    let mut other = Tally::default();
    other.count(false);
    assert_eq!(rt; differ_in(&[tally, other]), 2);
    tally.join(other);
    assert_eq!(rt; tally.compared, 3);
    assert_eq!(rt; tally.differ, 2);
    Ok(())
}
