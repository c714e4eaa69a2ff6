//! Tests that build a search filter of filters, as `writers` does, and read it, as `user` does. The
//! octets are pyasn1's encoding of the same filter.
use crate::asserts::{done, holds};
use bcder::{Captured, Mode};
use std::alloc::Global;
use std::process::Abort;
use user::{Filter as Found, decode_filter};
use writers::Filter;

/// The octets of `(&(|(cn=Babs)(objectClass=*))(!(cn=Tim)))`.
const FILTER: &str = "\
a028a119a30a0402636e040442616273870b6f626a656374436c617373a20ba3090402636e040354696d";

/// Creates the filter for the attribute `cn` with this value.
fn named(rt: &impl Abort, alloc: Global, value: &[u8]) -> Filter {
    Filter::Equal {
        name: done(rt, String::from_str(alloc, "cn")),
        value: done(rt, value.to_vec(alloc)),
    }
}

/// Puts two filters into a vector.
fn two(rt: &impl Abort, alloc: Global, first: Filter, second: Filter) -> Vec<Filter> {
    let mut filters = Vec::new(alloc);
    done(rt, filters.push(first));
    done(rt, filters.push(second));
    filters
}

/// Creates the filter of these octets.
fn filter(rt: &impl Abort, alloc: Global) -> Filter {
    let present = Filter::Present(done(rt, String::from_str(alloc, "objectClass")));
    let either = Filter::Or(two(rt, alloc, named(rt, alloc, b"Babs"), present));
    let other = Filter::Not(done(rt, Box::new(alloc, named(rt, alloc, b"Tim"))));
    Filter::And(two(rt, alloc, either, other))
}

#[test]
fn a_filter_of_filters(rt: HostRuntime) {
    let wanted = done(&rt, hex::decode(rt.alloc(), FILTER));
    let mut target = Captured::builder(rt.alloc(), Mode::Ber);
    let outcome = filter(&rt, rt.alloc()).gather(rt.alloc(), &mut target);
    holds(&rt, outcome.is_ok());
    let found = done(&rt, target.freeze());
    holds(&rt, found.as_slice() == wanted.as_slice());
}

/// Returns whether a filter asks for the attribute `cn` with this value.
fn is_named(found: &Found, value: &[u8]) -> bool {
    match found {
        Found::Equal { name, value: own } => name.as_slice() == b"cn".as_slice()
            && own.as_slice() == value,
        _ => false,
    }
}

/// Returns whether a filter is `(|(cn=Babs)(objectClass=*))`.
fn is_either(found: &Found) -> bool {
    match found {
        Found::Or(filters) if filters.len() == 2 => {
            let present = match &filters[1] {
                Found::Present(name) => name.as_slice() == b"objectClass".as_slice(),
                _ => false,
            };
            present && is_named(&filters[0], b"Babs")
        }
        _ => false,
    }
}

/// Returns whether a filter is `(!(cn=Tim))`.
fn is_other(found: &Found) -> bool {
    match found {
        Found::Not(filter) => is_named(filter, b"Tim"),
        _ => false,
    }
}

/// Returns whether a filter is the one of these octets.
fn is_filter(found: &Found) -> bool {
    match found {
        Found::And(filters) if filters.len() == 2 => {
            is_either(&filters[0]) && is_other(&filters[1])
        }
        _ => false,
    }
}

#[test]
fn a_filter_of_filters_is_read(rt: HostRuntime) {
    let octets = done(&rt, hex::decode(rt.alloc(), FILTER));
    let found = done(&rt, decode_filter(rt.alloc(), 2, &octets));
    holds(&rt, is_filter(&found));
}

/// Asserts that the octets are refused at this depth, with this text.
fn is_refused(rt: &impl Abort, alloc: Global, depth: u8, octets: &[u8], text: &str) {
    let error = decode_filter(alloc, depth, octets)
        .err()
        .expect(rt, "a refusal");
    let found = error.content_error().expect(rt, "a refusal of content");
    holds(rt, done(rt, found.to_string(alloc)).as_str() == text);
}

#[test]
fn a_filter_of_deeper_filters_is_refused(rt: HostRuntime) {
    let octets = done(&rt, hex::decode(rt.alloc(), FILTER));
    is_refused(&rt, rt.alloc(), 1, &octets, "filters nested too deep");
}

/// Tries `not` of no filter and of two, filters of another kind, and no value.
#[test]
fn what_is_no_filter_is_refused(rt: HostRuntime) {
    let alloc = rt.alloc();
    is_refused(&rt, alloc, 1, &[0xA2, 0x00], "expected one filter");
    let two: &[u8] = &[0xA2, 0x06, 0x87, 0x01, 0x6E, 0x87, 0x01, 0x6F];
    is_refused(&rt, alloc, 1, two, "expected one filter");
    is_refused(&rt, alloc, 1, &[0xA4, 0x00], "unknown filter");
    is_refused(&rt, alloc, 1, &[0x88, 0x00], "unknown filter");
    is_refused(&rt, alloc, 1, &[], "expected a filter");
}
