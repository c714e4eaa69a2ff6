//! Tests of octet strings by their octets, whether they were cut or not.
use crate::asserts::Case;
use bcder::decode::SliceSource;
use bcder::{Mode, OctetString};
use bytes::Bytes;
use std::cmp::Ordering;
use std::convert::TryFrom;
use std::hash::{DefaultHasher, FoldHasher, Hash, Hasher};
use std::process::Abort;

/// Returns a string in one piece.
pub(crate) fn whole(case: &Case<'_, impl Abort>, octets: &[u8]) -> OctetString {
    OctetString::new(case.done(Bytes::copy_from_slice(case.alloc, octets)))
}

/// Returns the results of two hashers, one of which says how it got the octets.
fn hashes_of(string: &OctetString) -> (u64, u64) {
    let mut one = DefaultHasher::new();
    string.hash(&mut one);
    let mut other = FoldHasher::default();
    string.hash(&mut other);
    (one.finish(), other.finish())
}

// ---- what a string gives

/// Checks the octets of a string, in every way to get them.
fn check_octets(case: &Case<'_, impl Abort>, string: OctetString, wanted: &[u8]) {
    let mut octets = Vec::new(case.alloc);
    for octet in string.octets() {
        case.done(octets.push(octet));
    }
    case.same(octets.as_slice(), wanted);
    case.same(string.len(), wanted.len());
    case.same(string.is_empty(), wanted.is_empty());
    case.same(case.done(string.to_bytes(case.alloc)).as_slice(), wanted);
    case.same(case.done(string.into_bytes(case.alloc)).as_slice(), wanted);
}

/// Checks the parts of a string.
fn check_parts(case: &Case<'_, impl Abort>, string: &OctetString, wanted: &[&[u8]]) {
    let mut parts = string.iter();
    for part in wanted {
        case.same(parts.next(), Some(*part));
    }
    case.same(parts.next(), None);
}

#[test]
fn a_string_in_one_piece(rt: HostRuntime) {
    let case = Case::new(&rt, rt.alloc(), 0);
    let string = whole(&case, b"abcdef");
    check_parts(&case, &string, &[b"abcdef".as_slice()]);
    case.same(string.as_slice(), Some(b"abcdef".as_slice()));
    let copy = case.done(string.clone());
    check_octets(&case, string, b"abcdef");
    check_octets(&case, copy, b"abcdef");
}

/// Its octets are lent in one piece, also once some were given. Iterators over it are cloned
/// without memory, so they may be run over again and again.
#[test]
fn octets_in_a_cycle(rt: HostRuntime) {
    let case = Case::new(&rt, rt.alloc(), 0);
    let string = OctetString::new(Bytes::from_static(b"abc"));
    let mut left = string.octets();
    case.same(left.next(), Some(b'a'));
    case.same(left.as_slice(), Some(b"bc".as_slice()));
    let mut cycle = string.octets().cycle();
    let found = [cycle.next(), cycle.next(), cycle.next(), cycle.next()];
    case.same(found, [Some(b'a'), Some(b'b'), Some(b'c'), Some(b'a')]);
    let mut parts = string.iter().cycle();
    case.same(parts.next(), Some(b"abc".as_slice()));
    case.same(parts.next(), Some(b"abc".as_slice()));
}

#[test]
fn an_empty_string_has_no_part(rt: HostRuntime) {
    let case = Case::new(&rt, rt.alloc(), 0);
    let string = whole(&case, &[]);
    check_parts(&case, &string, &[]);
    case.same(string.as_slice(), Some([].as_slice()));
    check_octets(&case, string, &[]);
}

// ---- order

/// Strings, each less than the next.
const ORDERED: [&[u8]; 9] = [
    &[],
    &[0x00],
    b"a",
    b"abcde",
    b"abcdef",
    b"abcdefa",
    b"abcdeg",
    b"b",
    &[0xFF],
];

/// Checks how two strings compare, and that equal ones alone have one hash.
fn check_strings(
    case: &Case<'_, impl Abort>,
    one: &OctetString,
    other: &OctetString,
    order: Ordering,
) {
    let equal = order == Ordering::Equal;
    case.same(one.cmp(other), order);
    case.same(other.cmp(one), order.reverse());
    case.same(*one == *other, equal);
    case.same(hashes_of(one) == hashes_of(other), equal);
}

/// Checks how a string compares with octets, and with a string of them in one piece.
fn check_order(case: &Case<'_, impl Abort>, string: &OctetString, octets: &[u8], order: Ordering) {
    check_strings(case, string, &whole(case, octets), order);
    case.same(string.cmp_octets(octets), order);
    case.same(string.eq_octets(octets), order == Ordering::Equal);
}

#[test]
fn strings_in_their_order(rt: HostRuntime) {
    for one in ORDERED.iter().enumerate() {
        let case = Case::new(&rt, rt.alloc(), one.0);
        for other in ORDERED.iter().enumerate() {
            let order = one.0.cmp(&other.0);
            check_order(&case, &whole(&case, *one.1), *other.1, order);
        }
    }
}

// ---- hashing

/// A hasher that counts how often it gets octets, and how many it gets last.
#[derive(Drop)]
struct Counter {
    calls: u64,
    last: usize,
}

impl Hasher for Counter {
    ghost use Rattle.std.specs.Prelude.{ℕ, ◌+◌, ◌%◌, ◌^◌, List, length};

    ghost write = { λ c octets. record { calls = (c.calls + 1) % 2 ^ 64; last = length octets } };

    ghost finish = { λ c. c.calls };

    fn finish(&self) -> u64 {
        self.calls
    }

    fn write(&mut self, octets: &[u8]) {
        self.calls = self.calls.wrapping_add(1);
        self.last = octets.len();
    }
}

/// Checks that a hasher gets the octets in blocks.
#[test]
fn no_hasher_is_called_for_each_octet(rt: HostRuntime) {
    for (len, calls, last) in [(0, 1, 8), (1, 2, 1), (64, 2, 64), (65, 3, 1), (200, 5, 8)] {
        let case = Case::new(&rt, rt.alloc(), len);
        let octets = case.done(Vec::from_elem(rt.alloc(), 0x61, len));
        let string = OctetString::new(case.done(Bytes::from_vec(octets)));
        let mut counter = Counter { calls: 0, last: 0 };
        string.hash(&mut counter);
        case.same((counter.calls, counter.last), (calls, last));
    }
}

// ---- strings that were cut

/// Reads a string in a mode.
#[tactic(auto, using(bcder::specs::laws::Moved::steps))]
pub(crate) fn read_in(case: &Case<'_, impl Abort>, mode: Mode, encoding: &[u8]) -> OctetString {
    let mut source = SliceSource::new(encoding);
    let alloc = case.alloc;
    case.done(mode.decode_lent(&mut source, |cons| OctetString::take_from(alloc, cons)))
}

/// Reads a string in BER.
pub(crate) fn read(case: &Case<'_, impl Abort>, encoding: &[u8]) -> OctetString {
    read_in(case, Mode::Ber, encoding)
}

/// Appends a segment.
fn push_segment(case: &Case<'_, impl Abort>, content: &mut Vec<u8>, octets: &[u8]) {
    let len = case.done(u8::try_from(octets.len()));
    case.done(content.extend_from_slice(&[0x04, len]));
    case.done(content.extend_from_slice(octets));
}

/// Returns the segments of octets that are cut after each whose bit is set, with an empty segment
/// before the one with the number `empty`.
fn segments(case: &Case<'_, impl Abort>, octets: &[u8], ends: u8, empty: usize) -> Vec<u8> {
    let mut content = Vec::new(case.alloc);
    let mut segment = Vec::new(case.alloc);
    let mut count = 0usize;
    let mut ends = ends;
    for octet in octets {
        if segment.is_empty() && count == empty {
            push_segment(case, &mut content, &[]);
        }
        case.done(segment.push(*octet));
        if ends % 2 == 1 {
            push_segment(case, &mut content, segment.as_slice());
            segment.clear();
            count = count.saturating_add(1);
        }
        ends /= 2;
    }
    if count == empty {
        push_segment(case, &mut content, &[]);
    }
    content
}

/// Returns the string of segments.
fn of_segments(case: &Case<'_, impl Abort>, segments: &[u8]) -> OctetString {
    let mut encoding = Vec::new(case.alloc);
    case.done(encoding.extend_from_slice(&[0x24, 0x80]));
    case.done(encoding.extend_from_slice(segments));
    case.done(encoding.extend_from_slice(&[0x00, 0x00]));
    read(case, encoding.as_slice())
}

/// Returns a string that is cut in this way.
pub(crate) fn cut(
    case: &Case<'_, impl Abort>,
    octets: &[u8],
    ends: u8,
    empty: usize,
) -> OctetString {
    let content = segments(case, octets, ends, empty);
    of_segments(case, content.as_slice())
}

/// Checks `abcdef`, cut in one way.
fn check_cut(case: &Case<'_, impl Abort>, ends: u8, empty: usize) {
    let string = cut(case, b"abcdef", ends, empty);
    check_order(case, &string, b"abcde", Ordering::Greater);
    check_order(case, &string, b"abcdef", Ordering::Equal);
    check_order(case, &string, b"abcdeg", Ordering::Less);
    check_octets(case, string, b"abcdef");
}

/// Checks all 32 ways, each with an empty segment at each place, or with none.
#[test]
fn cut_in_every_way(rt: HostRuntime) {
    for ends in 32..64u8 {
        let case = Case::new(&rt, rt.alloc(), usize::from(ends));
        for empty in 0..8 {
            check_cut(&case, ends, empty);
        }
    }
}

/// Checks two strings that are cut in different ways.
fn check_cuts(case: &Case<'_, impl Abort>, one: u8, other: u8) {
    let string = cut(case, b"abcdef", one, 1);
    let equal = cut(case, b"abcdef", other, 0);
    check_strings(case, &string, &equal, Ordering::Equal);
    let greater = cut(case, b"abcdeg", other, 2);
    check_strings(case, &string, &greater, Ordering::Less);
}

#[test]
fn cut_in_two_ways(rt: HostRuntime) {
    for one in 32..64u8 {
        let case = Case::new(&rt, rt.alloc(), usize::from(one));
        for other in 32..64 {
            check_cuts(&case, one, other);
        }
    }
}

/// How `ab` in two segments compares with these octets.
const COMPARED: [(&[u8], Ordering); 7] = [
    (b"abc", Ordering::Less),
    (b"ab", Ordering::Equal),
    (b"a", Ordering::Greater),
    (b"aa", Ordering::Greater),
    (b"ac", Ordering::Less),
    (b"", Ordering::Greater),
    (b"b", Ordering::Less),
];

#[test]
fn compared_with_octets(rt: HostRuntime) {
    for (row, (octets, order)) in COMPARED.iter().enumerate() {
        let case = Case::new(&rt, rt.alloc(), row);
        let string = read(&case, &[0x24, 0x06, 0x04, 0x01, 0x61, 0x04, 0x01, 0x62]);
        check_order(&case, &string, *octets, *order);
    }
}

/// Strings as they are read, with their parts and their octets.
const CUT: [(&[u8], &[&[u8]], &[u8]); 5] = [
    (
        &[0x24, 0x07, 0x04, 0x00, 0x04, 0x00, 0x04, 0x01, 0x61],
        &[&[], &[], b"a"],
        b"a",
    ),
    (
        &[
            0x24, 0x0A, 0x04, 0x01, 0x61, 0x24, 0x80, 0x04, 0x01, 0x62, 0x00, 0x00,
        ],
        &[b"a", b"b"],
        b"ab",
    ),
    (
        &[0x24, 0x80, 0x04, 0x02, 0x61, 0x62, 0x00, 0x00],
        &[b"ab"],
        b"ab",
    ),
    (&[0x24, 0x00], &[], b""),
    (&[0x24, 0x02, 0x04, 0x00], &[&[]], b""),
];

/// Checks a string that was cut.
fn check_read(case: &Case<'_, impl Abort>, string: OctetString, parts: &[&[u8]], octets: &[u8]) {
    check_parts(case, &string, parts);
    case.holds(string.as_slice().is_none());
    case.same(hashes_of(&string), hashes_of(&whole(case, octets)));
    let copy = case.done(string.clone());
    check_parts(case, &copy, parts);
    check_octets(case, copy, octets);
}

#[test]
fn parts_and_octets(rt: HostRuntime) {
    for (row, (encoding, parts, octets)) in CUT.iter().enumerate() {
        let case = Case::new(&rt, rt.alloc(), row);
        check_read(&case, read(&case, *encoding), *parts, *octets);
    }
}

/// Checks that 120 octets in segments of a size are hashed as they are in one piece. Blocks begin
/// and end within segments.
fn check_hash(case: &Case<'_, impl Abort>, size: usize) {
    let mut octets = Vec::new(case.alloc);
    for place in 0..120u8 {
        case.done(octets.push(place));
    }
    let mut content = Vec::new(case.alloc);
    for segment in octets.as_slice().chunks(size.max(1)) {
        push_segment(case, &mut content, segment);
    }
    let string = of_segments(case, content.as_slice());
    let mut counter = Counter { calls: 0, last: 0 };
    string.hash(&mut counter);
    case.same((counter.calls, counter.last), (3, 56));
    let other = whole(case, octets.as_slice());
    case.same(hashes_of(&string), hashes_of(&other));
}

#[test]
fn hashed_in_blocks(rt: HostRuntime) {
    for size in [1, 7, 63, 64, 65, 100] {
        check_hash(&Case::new(&rt, rt.alloc(), size), size);
    }
}
