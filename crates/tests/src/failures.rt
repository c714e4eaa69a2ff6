//! Tests of sources that fail: each request in turn, in each call on content that reads, alone and
//! in calls around it.
#![tactic(auto, using(bcder::specs::laws::Moved::steps))]

mod trial;

use crate::asserts::done;
use bcder::Mode;
use std::alloc::Global;
use std::process::Abort;
use support::calls::{
    Answer, CAPTURES, CONTENTS, Call, KEPT, Line, OCTETS, PASSES, STRINGS, TAKES, TYPED, Take, Text,
};
use trial::{Place, Trial};

/// The places where each call is tried.
const PLACES: [Place; 15] = [
    Place::Dropped,
    Place::Answered,
    Place::Captured,
    Place::Inside(Take::Value),
    Place::Inside(Take::OptValue),
    Place::Inside(Take::ValueIf),
    Place::Inside(Take::OptValueIf),
    Place::Inside(Take::Constructed),
    Place::Inside(Take::OptConstructed),
    Place::Inside(Take::ConstructedIf),
    Place::Inside(Take::OptConstructedIf),
    Place::Inside(Take::Sequence),
    Place::Inside(Take::OptSequence),
    Place::Inside(Take::Set),
    Place::Inside(Take::OptSet),
];

/// Tries a call in each place, over a source that gives no more than is requested, and over one
/// that gives all it has.
fn run(rt: &impl Abort, alloc: Global, trial: Trial<'_>) {
    for place in PLACES {
        trial.run(rt, alloc, place, false);
        trial.run(rt, alloc, place, true);
    }
}

/// Tries the calls of some lines in each place, over both sources.
fn run_lines(rt: &impl Abort, alloc: Global, lines: &[Line]) {
    for (mode, octets, calls, wanted, left) in lines {
        for call in *calls {
            let trial = Trial {
                mode: *mode,
                octets: *octets,
                call: *call,
                wanted: *wanted,
                left: *left,
            };
            run(rt, alloc, trial);
        }
    }
}

#[test]
fn takes_by_a_closure(rt: HostRuntime) {
    run_lines(&rt, rt.alloc(), &TAKES);
}

#[test]
fn booleans_nulls_and_integers(rt: HostRuntime) {
    run_lines(&rt, rt.alloc(), &TYPED);
}

#[test]
fn values_that_are_passed_over(rt: HostRuntime) {
    run_lines(&rt, rt.alloc(), &PASSES);
}

#[test]
fn values_that_are_captured(rt: HostRuntime) {
    run_lines(&rt, rt.alloc(), &CAPTURES);
}

#[test]
fn octets_of_primitive_values(rt: HostRuntime) {
    run_lines(&rt, rt.alloc(), &OCTETS);
}

#[test]
fn content_of_either_form(rt: HostRuntime) {
    run_lines(&rt, rt.alloc(), &CONTENTS);
}

#[test]
fn integers_and_identifiers(rt: HostRuntime) {
    run_lines(&rt, rt.alloc(), &KEPT);
}

#[test]
fn strings(rt: HostRuntime) {
    run_lines(&rt, rt.alloc(), &STRINGS);
}

/// Returns a string of 1001 octets, in CER (X.690, 9.2).
fn long_string(rt: &impl Abort, alloc: Global) -> Vec<u8> {
    let mut list = Vec::new(alloc);
    done(
        rt,
        list.extend_from_slice(&[0x24, 0x80, 0x04, 0x82, 0x03, 0xE8]),
    );
    done(rt, list.extend_from_slice(&[0x61; 1000]));
    done(rt, list.extend_from_slice(&[0x04, 0x01, 0x62, 0x00, 0x00]));
    list
}

#[test]
fn a_string_in_segments(rt: HostRuntime) {
    let alloc = rt.alloc();
    let list = long_string(&rt, alloc);
    for text in [Text::Octets, Text::OptOctets, Text::OctetsOfContent] {
        let trial = Trial {
            mode: Mode::Cer,
            octets: list.as_slice(),
            call: Call::Text(text),
            wanted: Answer::Number(1001),
            left: 0,
        };
        run(&rt, alloc, trial);
    }
}
