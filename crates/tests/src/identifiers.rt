//! Object identifiers: those in the fewest octets, and those that a user keeps and copies. How they
//! are read, shown and compared is in `vectors`.
use crate::asserts::{done, holds, same, shows};
use bcder::{ConstOid, Mode, Oid};
use std::alloc::Global;
use std::process::Abort;

/// The octets of X.690, 8.19.5, and others none of whose subidentifiers begins with 80.
const MINIMAL: [&[u8]; 7] = [
    &[],
    &[0x00],
    &[0x81, 0x34, 0x03],
    &[0x2A, 0x86, 0x48, 0x86, 0xF7, 0x0D],
    &[0x2A, 0x81, 0x80, 0x00],
    &[0x2A, 0x90, 0x80, 0x80, 0x80, 0x00],
    &[0x55, 0x1D, 0x14],
];

/// Octets one of whose subidentifiers begins with 80: the first, one inside, the last.
const SPARE: [&[u8]; 7] = [
    &[0x80, 0x01],
    &[0x80, 0x80, 0x01],
    &[0x2A, 0x80, 0x00],
    &[0x2A, 0x80, 0x01],
    &[0x2A, 0x80, 0x81, 0x01],
    &[0x2A, 0x80, 0x01, 0x03],
    &[0x81, 0x34, 0x03, 0x80, 0x7F],
];

#[test]
fn in_the_fewest_octets(rt: HostRuntime) {
    for octets in MINIMAL {
        holds(&rt, Oid(octets).is_minimal());
    }
}

#[test]
fn with_a_spare_octet(rt: HostRuntime) {
    for octets in SPARE {
        holds(&rt, !Oid(octets).is_minimal());
    }
}

/// Reads an identifier.
#[tactic(auto, using(bcder::specs::laws::Moved::untouched_is_moved))]
fn read(rt: &impl Abort, alloc: Global, octets: &[u8]) -> Oid {
    done(
        rt,
        Mode::Der.decode(octets, |cons| Oid::take_from(alloc, cons)),
    )
}

/// With a spare octet it is read, shown as the other, and is not the other.
#[test]
fn read_with_a_spare_octet(rt: HostRuntime) {
    let spare = read(&rt, rt.alloc(), &[0x06, 0x03, 0x2A, 0x80, 0x01]);
    let other = read(&rt, rt.alloc(), &[0x06, 0x02, 0x2A, 0x01]);
    shows(&rt, rt.alloc(), &spare, "1.2.1");
    shows(&rt, rt.alloc(), &other, "1.2.1");
    holds(&rt, !spare.same_as(&other));
    holds(&rt, other.is_minimal() && !spare.is_minimal());
}

#[test]
fn read_from_a_text(rt: HostRuntime) {
    let oid = done(&rt, Oid::from_str(rt.alloc(), "2.100.3.128.16384"));
    holds(&rt, oid.is_minimal());
    same(
        &rt,
        oid.0.as_slice(),
        &[0x81, 0x34, 0x03, 0x81, 0x00, 0x81, 0x80, 0x00],
    );
}

/// A number of one's own, in both of two lists.
const OWN: ConstOid = Oid(&[0x2A, 0x03]);

#[test]
fn constants_are_copied(rt: HostRuntime) {
    let first = OWN;
    let second = first;
    holds(&rt, first == second && first.same_as(&second));
}
