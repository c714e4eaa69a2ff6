//! A list of revoked certificates that openssl made. What is expected is what `openssl crl` and
//! `openssl asn1parse` show of it.
use crate::asserts::{done, holds, same};
use bcder::Oid;
use user::{Crl, Time};

/// The list: number 42, of two certificates.
const LIST: &str = "\
308201243081cc020101300a06082a8648ce3d040302302f310b3009060355040613024e4c310d300b060355040a0c04\
546573743111300f06035504030c0863726c2e74657374170d3236313132373131343132345a170d3236313232373131\
343132345a303b302102021000170d3236313132303130313131325a300c300a0603551d1504030a0101301602050dea\
dbeef1170d3236313132313131313231335aa02f302d301f0603551d23041830168014b8020266dcfde290339d56a2dc\
a109a1bf7a0727300a0603551d14040302012a300a06082a8648ce3d0403020347003044022064eb2ce0bb16134f6599\
75e02b2d01986d9279e6cea5aeeed8d38bac1e1e8f84022022518da5c24f8985519203ddc6aab1ce6cfa2591f37749dd\
450297b02b4af434";

#[test]
fn a_list_is_read(rt: HostRuntime) {
    let octets = done(&rt, hex::decode(rt.alloc(), LIST));
    let crl = done(&rt, Crl::decode(rt.alloc(), &octets));
    let common = crl.issuer.text_of(&Oid(&[0x55, 0x04, 0x03]));
    let common = common.expect(&rt, "a common name");
    let shown = done(&rt, common.to_string(rt.alloc()));
    same(&rt, shown.as_str(), "crl.test");
    holds(&rt, matches!(crl.this_update, Time::Utc(13)));
    holds(&rt, matches!(crl.next_update, Some(Time::Utc(13))));
}

#[test]
fn what_was_revoked_is_kept(rt: HostRuntime) {
    let octets = done(&rt, hex::decode(rt.alloc(), LIST));
    let crl = done(&rt, Crl::decode(rt.alloc(), &octets));
    same(&rt, crl.revoked.len(), 2);
    let serials = [b"\x10\x00".as_slice(), b"\x0D\xEA\xDB\xEE\xF1".as_slice()];
    for (entry, serial) in crl.revoked.iter().zip(serials) {
        same(&rt, entry.serial.as_slice(), serial);
    }
    let number = crl.number.expect(&rt, "a number");
    same(&rt, done(&rt, u8::try_from(&number)), 42);
}

/// A place in the list, its octet, another in its place, and how the list is refused then.
///
/// In the first row the identifier `55 1D 14` becomes `55 80 14`, whose second subidentifier has an
/// octet too many. The position is that of the contents octets of its extension. In the second the
/// INTEGER of the number becomes a BOOLEAN: it is told by its position in the OCTET STRING.
const TURNED: [(usize, u8, u8, &str); 2] = [
    (
        204,
        0x1D,
        0x80,
        "subidentifier not in the fewest octets (at position 201)",
    ),
    (208, 0x02, 0x01, "expected tag INTEGER (at position 0)"),
];

#[test]
fn lists_with_another_octet_are_refused(rt: HostRuntime) {
    for (place, was, turned, text) in TURNED {
        let mut octets = done(&rt, hex::decode(rt.alloc(), LIST));
        let octet = octets.get_mut(place).expect(&rt, "an octet");
        same(&rt, *octet, was);
        *octet = turned;
        let refused = Crl::decode(rt.alloc(), &octets).err();
        let error = refused.expect(&rt, "a refusal");
        let shown = done(&rt, error.to_string(rt.alloc()));
        same(&rt, shown.as_str(), text);
    }
}
