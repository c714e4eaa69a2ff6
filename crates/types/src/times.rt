//! UTCTime (X.680, 47; X.690, 11.8) and GeneralizedTime (X.680, 46; X.690, 11.7).

use crate::rows::{Again, Read, come_back, reads_and_come_back};
use asn1::{Choice2, DateTime, GeneralizedTime, UtcTime};
use bcder::Mode::{Ber, Cer, Der};
use std::alloc::Global;
use std::process::Abort;

/// UTCTimes.
const UTC: [Read<'static>; 35] = [
    (Der, b"\x17\x0D991231235958Z", "1999-12-31T23:59:58Z"),
    (Cer, b"\x17\x0D991231235958Z", "1999-12-31T23:59:58Z"),
    (Ber, b"\x17\x0D991231235958Z", "1999-12-31T23:59:58Z"),
    // The year is one of 1950 to 2049 (RFC 5280, section 4.1.2.5.1).
    (Der, b"\x17\x0D500101000000Z", "1950-01-01T00:00:00Z"),
    (Der, b"\x17\x0D491231235959Z", "2049-12-31T23:59:59Z"),
    (Der, b"\x17\x0D000229120000Z", "2000-02-29T12:00:00Z"),
    (Der, b"\x17\x0D240229120000Z", "2024-02-29T12:00:00Z"),
    // Midnight is 000000, and not 240000 (X.690, 11.8.3).
    (Der, b"\x17\x0D991231240000Z", "refused"),
    (Ber, b"\x17\x0D991231240000Z", "refused"),
    // No day of the calendar.
    (Der, b"\x17\x0D991331000000Z", "refused"),
    (Der, b"\x17\x0D990031000000Z", "refused"),
    (Der, b"\x17\x0D990100000000Z", "refused"),
    (Der, b"\x17\x0D990132000000Z", "refused"),
    (Der, b"\x17\x0D990431000000Z", "refused"),
    (Der, b"\x17\x0D230229000000Z", "refused"),
    (Ber, b"\x17\x0D230229000000Z", "refused"),
    // No minute or second.
    (Der, b"\x17\x0D991231006000Z", "refused"),
    (Der, b"\x17\x0D991231235960Z", "refused"),
    // Without seconds (X.690, 11.8.2), and with a difference (11.8.1).
    (Der, b"\x17\x0B9912312359Z", "refused"),
    (Cer, b"\x17\x0B9912312359Z", "refused"),
    (Der, b"\x17\x11991231235958+0000", "refused"),
    (Cer, b"\x17\x11991231235958+0000", "refused"),
    (Ber, b"\x17\x0C991231235958", "refused"),
    // Other characters.
    (Der, b"\x17\x0D99123123595aZ", "refused"),
    (Der, b"\x17\x0D9912312359 8Z", "refused"),
    (Der, b"\x17\x0D99123123595:Z", "refused"),
    (Der, b"\x17\x0D/91231235958Z", "refused"),
    (Der, b"\x17\x0D991231235958z", "refused"),
    (Ber, b"\x17\x0D991231235958z", "refused"),
    (Der, b"\x17\x0E9912312359580Z", "refused"),
    (Der, b"\x17\x0D9912312359580", "refused"),
    (Der, b"\x17\x00", "refused"),
    (Ber, b"\x17\x00", "refused"),
    // In segments, and with another tag.
    (Ber, b"\x37\x0F\x04\x0D991231235958Z", "refused"),
    (Der, b"\x16\x0D991231235958Z", "refused"),
];

/// GeneralizedTimes.
const GENERALIZED: [Read<'static>; 37] = [
    (Der, b"\x18\x0F20261129102349Z", "2026-11-29T10:23:49Z"),
    (Cer, b"\x18\x0F20261129102349Z", "2026-11-29T10:23:49Z"),
    (Ber, b"\x18\x0F20261129102349Z", "2026-11-29T10:23:49Z"),
    (Der, b"\x18\x0F00000229000000Z", "0000-02-29T00:00:00Z"),
    (Der, b"\x18\x0F99991231235959Z", "9999-12-31T23:59:59Z"),
    (Der, b"\x18\x0F20000229000000Z", "2000-02-29T00:00:00Z"),
    (Der, b"\x18\x0F19000229000000Z", "refused"),
    (Ber, b"\x18\x0F19000229000000Z", "refused"),
    (Der, b"\x18\x0F20230229000000Z", "refused"),
    (Der, b"\x18\x0F21000229000000Z", "refused"),
    // A leap second (ISO 8601), and no second.
    (Der, b"\x18\x0F20161231235960Z", "2016-12-31T23:59:60Z"),
    (Der, b"\x18\x0F20161231235961Z", "refused"),
    // The examples of X.690, 11.7.5.
    (Der, b"\x18\x0F19920521000000Z", "1992-05-21T00:00:00Z"),
    (Der, b"\x18\x0F19920622123421Z", "1992-06-22T12:34:21Z"),
    (Der, b"\x18\x1119920722132100.3Z", "1992-07-22T13:21:00.3Z"),
    (Der, b"\x18\x0F19920520240000Z", "refused"),
    (Ber, b"\x18\x0F19920520240000Z", "refused"),
    (Der, b"\x18\x1119920622123421.0Z", "refused"),
    (Der, b"\x18\x1219920722132100.30Z", "refused"),
    (Cer, b"\x18\x1219920722132100.30Z", "refused"),
    // Fractions (X.690, 11.7.2, 11.7.3).
    (
        Der,
        b"\x18\x1920261129102349.123456789Z",
        "2026-11-29T10:23:49.123456789Z",
    ),
    (
        Der,
        b"\x18\x1920261129102349.000000001Z",
        "2026-11-29T10:23:49.000000001Z",
    ),
    (Der, b"\x18\x1A20261129102349.1234567891Z", "refused"),
    (
        Der,
        b"\x18\x1220261129102349.05Z",
        "2026-11-29T10:23:49.05Z",
    ),
    (Der, b"\x18\x1020261129102349.Z", "refused"),
    (Der, b"\x18\x1120261129102349,5Z", "refused"),
    (Der, b"\x18\x1120261129102349.aZ", "refused"),
    (Der, b"\x18\x1220261129102349.5.Z", "refused"),
    // Without seconds (11.7.1), in local time, and with a difference.
    (Der, b"\x18\x0D202611291023Z", "refused"),
    (Der, b"\x18\x0B2026112910Z", "refused"),
    (Der, b"\x18\x0E20261129102349", "refused"),
    (Ber, b"\x18\x0E20261129102349", "refused"),
    (Der, b"\x18\x1320261129102349+0000", "refused"),
    (Der, b"\x18\x1320261129102349-0130", "refused"),
    (Der, b"\x18\x00", "refused"),
    (Ber, b"\x38\x11\x04\x0F20261129102349Z", "refused"),
    (Der, b"\x17\x0F20261129102349Z", "refused"),
];

/// UTCTimes, written in each mode.
const UTC_AGAIN: [Again<'static>; 3] = [
    (Der, b"\x17\x0D991231235958Z", Ber, b"\x17\x0D991231235958Z"),
    (Ber, b"\x17\x0D500101000000Z", Cer, b"\x17\x0D500101000000Z"),
    (Cer, b"\x17\x0D491231235959Z", Der, b"\x17\x0D491231235959Z"),
];

/// GeneralizedTimes, written in each mode.
const GENERALIZED_AGAIN: [Again<'static>; 4] = [
    (
        Der,
        b"\x18\x0F00000229000000Z",
        Ber,
        b"\x18\x0F00000229000000Z",
    ),
    (
        Ber,
        b"\x18\x1119920722132100.3Z",
        Cer,
        b"\x18\x1119920722132100.3Z",
    ),
    (
        Cer,
        b"\x18\x1920261129102349.000000001Z",
        Der,
        b"\x18\x1920261129102349.000000001Z",
    ),
    (
        Der,
        b"\x18\x0F20161231235960Z",
        Der,
        b"\x18\x0F20161231235960Z",
    ),
];

/// `Time ::= CHOICE { utcTime UTCTime, generalTime GeneralizedTime }` (RFC 5280, section 4.1).
type Time = Choice2<UtcTime, GeneralizedTime>;

/// Times of certificates.
const TIMES: [Again<'static>; 2] = [
    (Der, b"\x17\x0D491231235959Z", Der, b"\x17\x0D491231235959Z"),
    (
        Der,
        b"\x18\x0F20500101000000Z",
        Der,
        b"\x18\x0F20500101000000Z",
    ),
];

/// Times, and the seconds since 1970 that Python's `datetime` counts.
const SECONDS: [(&str, i64); 24] = [
    ("1970-01-01T00:00:00", 0),
    ("1969-12-31T23:59:59", -1),
    ("2000-02-29T12:00:00", 951825600),
    ("1900-02-28T23:59:59", -2203891201),
    ("1900-03-01T00:00:00", -2203891200),
    ("2000-03-01T00:00:00", 951868800),
    ("0001-01-01T00:00:00", -62135596800),
    ("9999-12-31T23:59:59", 253402300799),
    ("2026-11-29T10:23:49", 1795947829),
    ("2038-01-19T03:14:08", 2147483648),
    ("1950-01-01T00:00:00", -631152000),
    ("2049-12-31T23:59:59", 2524607999),
    ("2100-02-28T00:00:00", 4107456000),
    ("2100-03-01T00:00:00", 4107542400),
    ("2024-12-31T00:00:00", 1735603200),
    ("1600-02-29T00:00:00", -11670998400),
    ("5306-03-13T20:03:04", 105280200184),
    ("8780-02-12T18:03:58", 214906500238),
    ("8314-04-02T02:27:26", 200205138446),
    ("1145-04-03T17:27:03", -26026468377),
    ("9265-02-08T20:40:37", 230211405637),
    ("1014-10-19T12:03:14", -30143275006),
    ("0764-09-28T04:18:26", -38034301294),
    ("2364-09-04T18:19:35", 12454798775),
];

/// Seconds since 1970 at which there is no time in the years 0 to 9999.
const NO_TIMES: [i64; 4] = [253_402_300_800, -62_167_219_201, i64::MAX, i64::MIN];

/// Asserts that a time at which so many seconds have passed is shown so, and that as many have.
fn is_after(rt: &impl Abort, alloc: Global, number: i64, wanted: &str) {
    let time = DateTime::from_unix_seconds(number).expect(rt, "no time");
    assert_eq!(rt; time.unix_seconds(), number);
    let shown = format!(in alloc; "{time}").expect(rt, "refused");
    assert_eq!(rt; shown.as_str(), wanted);
}

#[test]
fn utc_times(rt: HostRuntime) {
    reads_and_come_back::<UtcTime>(&rt, rt.alloc(), &UTC, &[], &UTC_AGAIN);
}

#[test]
fn generalized_times(rt: HostRuntime) {
    reads_and_come_back::<GeneralizedTime>(&rt, rt.alloc(), &GENERALIZED, &[], &GENERALIZED_AGAIN);
}

#[test]
fn times_of_certificates(rt: HostRuntime) {
    come_back::<Time>(&rt, rt.alloc(), &TIMES);
}

#[test]
fn seconds(rt: HostRuntime) {
    for (wanted, number) in &SECONDS {
        is_after(&rt, rt.alloc(), *number, wanted);
    }
    for number in &NO_TIMES {
        assert!(rt; DateTime::from_unix_seconds(*number).is_none());
    }
}
