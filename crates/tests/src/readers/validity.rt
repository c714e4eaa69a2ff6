//! Tests of the validity of a certificate that openssl made. The expected times are those that
//! openssl shows.

use super::structures::CERTIFICATE;
use std::test::Fail;
use user::validity::{Kind, Validity};

#[test]
fn both_times_are_read(rt: HostRuntime) -> Result<(), Fail> {
    let octets = hex::decode(rt.alloc(), CERTIFICATE)?;
    let validity = Validity::of_certificate(rt.alloc(), &octets)?;
    assert_eq!(rt; validity.from.kind, Kind::Utc);
    assert_eq!(rt; validity.from.text.as_slice(), b"261122093151Z".as_slice());
    assert_eq!(rt; validity.until.kind, Kind::Utc);
    assert_eq!(rt; validity.until.text.as_slice(), b"261125093151Z".as_slice());
    Ok(())
}

#[test]
fn what_is_cut_or_longer_is_refused(rt: HostRuntime) -> Result<(), Fail> {
    // the certificate has 843 octets
    let mut octets = hex::decode(rt.alloc(), CERTIFICATE)?;
    octets.push(0)?;
    for end in [0, 1, 100, 842, 844] {
        let cut = octets.get(..end).ok_or("no such front")?;
        assert!(rt;
            Validity::of_certificate(rt.alloc(), cut).is_err(),
            "at {end}"
        );
    }
    Ok(())
}

#[test]
fn what_is_no_time_is_refused(rt: HostRuntime) -> Result<(), Fail> {
    // the tag of the first time, its first digit, and its Z
    for (place, was, turned) in [(105, 0x17, 0x18), (107, b'2', b'x'), (119, b'Z', b'z')] {
        let mut octets = hex::decode(rt.alloc(), CERTIFICATE)?;
        let octet = octets.get_mut(place).ok_or("no such octet")?;
        assert_eq!(rt; *octet, was, "at {place}");
        *octet = turned;
        assert!(rt;
            Validity::of_certificate(rt.alloc(), &octets).is_err(),
            "at {place}"
        );
    }
    Ok(())
}
