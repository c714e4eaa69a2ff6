//! Tests of what is said of octets that are refused, and where: a row for each rule of X.690 that
//! they break, and files in each mode that were cut.
#![tactic(auto, using(bcder::specs::laws::Moved::untouched_is_moved))]

use crate::asserts::Case;
use crate::over::check_over;
use crate::reading::{Line, Look, Wanted};
use bcder::decode::{Constructed, DecodeError, SliceSource, Source, Violation, walk};
use bcder::{Mode, Tag};
use std::alloc::Global;

/// Skips all values, or walks them.
#[derive(Clone, Copy)]
enum Way {
    Skip,
    Walk,
}

impl Look for Way {
    fn look<S: Source>(
        &mut self,
        alloc: Global,
        cons: &mut Constructed<'_, S>,
    ) -> Result<bool, DecodeError<S::Error>> {
        match self {
            Way::Skip => cons.skip_all(alloc)?,
            Way::Walk => cons.while_some(|cons| walk(cons))?,
        }
        Ok(true)
    }
}

const HEADER: &str = "the octets end inside a header";

const END: &str = "unexpected end of data";

const TAG: &str = "tag number not in the fewest octets";

const LENGTH: &str = "length not in the fewest octets";

const LONG: &str = "value longer than the value around it";

const STRAY: &str = "end-of-contents octets where none belong";

/// A mode in which octets are refused, the octets, the text of the error, and the position.
/// There is a row for each rule of X.690, and files that were cut.
const LINES: [(Mode, &[u8], &str, &str); 35] = [
    // 8.1.2.4.2 a: bit 8 is set in the last octet
    (Mode::Ber, &[0x1F], HEADER, "0"),
    (Mode::Cer, &[0x05, 0x00, 0x5F, 0x81], HEADER, "2"),
    (Mode::Der, &[0xBF, 0x81, 0x80], HEADER, "0"),
    // 8.1.2.2: a number up to 30 is in the leading octet
    (Mode::Ber, &[0x1F, 0x1E, 0x00], TAG, "0"),
    // 8.1.2.4.2 c: bits 7 to 1 of the first octet of the number are zero
    (
        Mode::Der,
        &[0x05, 0x00, 0x9F, 0x80, 0x81, 0x00, 0x00],
        TAG,
        "2",
    ),
    // 2097152
    (
        Mode::Ber,
        &[0x1F, 0x81, 0x80, 0x80, 0x00, 0x00],
        "tag number over 2097151",
        "0",
    ),
    // 8.1.5
    (
        Mode::Ber,
        &[0x00, 0x01, 0x00],
        "tag of end-of-contents octets on a value",
        "0",
    ),
    (
        Mode::Der,
        &[0x20, 0x00],
        "tag of end-of-contents octets on a value",
        "0",
    ),
    (
        Mode::Cer,
        &[0x30, 0x80, 0x00, 0x80],
        "tag of end-of-contents octets on a value",
        "2",
    ),
    // 8.1.3.5
    (Mode::Ber, &[0x30], HEADER, "0"),
    (Mode::Der, &[0x04, 0x82, 0x01], HEADER, "0"),
    // 8.1.3.5 c
    (
        Mode::Ber,
        &[0x04, 0xFF, 0x00],
        "reserved length octet FF",
        "0",
    ),
    (
        Mode::Ber,
        &[0x04, 0x85, 0x00, 0x00, 0x00, 0x00, 0x01, 0x61],
        "length of more than four octets",
        "0",
    ),
    // 9.1, 10.1
    (Mode::Cer, &[0x04, 0x81, 0x01, 0x61], LENGTH, "0"),
    (
        Mode::Der,
        &[0x30, 0x04, 0x04, 0x82, 0x00, 0x80],
        LENGTH,
        "2",
    ),
    // 8.1.3.2
    (
        Mode::Ber,
        &[0x04, 0x80, 0x00, 0x00],
        "indefinite length of a primitive value",
        "0",
    ),
    (
        Mode::Der,
        &[0x04, 0x80, 0x00, 0x00],
        "indefinite length of a primitive value",
        "0",
    ),
    // 10.1
    (
        Mode::Der,
        &[0x30, 0x02, 0x30, 0x80, 0x00, 0x00],
        "indefinite length in DER",
        "2",
    ),
    // 9.1
    (
        Mode::Cer,
        &[0x30, 0x00],
        "definite length of a constructed value in CER",
        "0",
    ),
    (
        Mode::Cer,
        &[0x30, 0x80, 0x31, 0x81, 0x80],
        "definite length of a constructed value in CER",
        "2",
    ),
    // the position is that after the header
    (Mode::Ber, &[0x30, 0x03, 0x04, 0x02, 0x61], LONG, "4"),
    (Mode::Der, &[0x30, 0x04, 0x31, 0x03, 0x05, 0x00], LONG, "4"),
    // 8.1.5
    (Mode::Ber, &[0x00, 0x00], STRAY, "2"),
    (Mode::Der, &[0x30, 0x02, 0x00, 0x00], STRAY, "4"),
    (Mode::Cer, &[0x30, 0x80, 0x00, 0x00, 0x00, 0x00], STRAY, "6"),
    // the value around ends before the end-of-contents octets do
    (Mode::Ber, &[0x30, 0x04, 0x30, 0x80, 0x05, 0x00], END, "6"),
    // a SEQUENCE of an INTEGER and an OCTET STRING of 200 octets, cut
    (
        Mode::Ber,
        &[0x30, 0x80, 0x02, 0x01, 0x05, 0x04],
        HEADER,
        "5",
    ),
    (Mode::Ber, &[0x30, 0x80, 0x02, 0x01], END, "4"),
    (Mode::Ber, &[0x30, 0x80, 0x02, 0x01, 0x05], END, "5"),
    (
        Mode::Cer,
        &[0x30, 0x80, 0x02, 0x01, 0x05, 0x04, 0x81],
        HEADER,
        "5",
    ),
    (
        Mode::Cer,
        &[0x30, 0x80, 0x02, 0x01, 0x05, 0x04, 0x81, 0xC8, 0x61],
        END,
        "8",
    ),
    (Mode::Cer, &[0x30, 0x80], END, "2"),
    (Mode::Der, &[0x30, 0x81], HEADER, "0"),
    (
        Mode::Der,
        &[0x30, 0x81, 0xCE, 0x02, 0x01, 0x05, 0x04, 0x81],
        HEADER,
        "6",
    ),
    (
        Mode::Der,
        &[0x30, 0x81, 0xCE, 0x02, 0x01, 0x05, 0x04, 0x81, 0xC8],
        END,
        "9",
    ),
];

/// What stands at position 0 is told of the octets alone.
#[test]
fn octets_that_are_refused(rt: HostRuntime) {
    for (row, (mode, octets, text, at)) in LINES.iter().enumerate() {
        let case = Case::new(&rt, rt.alloc(), row);
        let said = case.done(format!(in rt.alloc(); "{text} (at position {at})"));
        for way in [Way::Skip, Way::Walk] {
            let line = Line(*mode, *octets, way, Wanted::Says(said.as_str()));
            check_over(&rt, rt.alloc(), row, &line);
        }
        if *at == "0" {
            match Violation::at(*mode, *octets) {
                Some(violation) => case.shows(&violation, *text),
                None => case.holds(false),
            }
        }
    }
}

// Headers whose contents aren't here, end-of-contents octets, and none.
const WHOLE: [(Mode, &[u8]); 5] = [
    (Mode::Ber, &[0x30, 0x80]),
    (Mode::Cer, &[0x5F, 0x81, 0x00, 0x03]),
    (Mode::Der, &[0x04, 0x82, 0x01, 0x00]),
    (Mode::Der, &[0x00, 0x00]),
    (Mode::Ber, &[]),
];

#[test]
fn headers_that_violate_nothing(rt: HostRuntime) {
    for (number, (mode, octets)) in WHOLE.iter().enumerate() {
        let case = Case::new(&rt, rt.alloc(), number);
        case.same(Violation::at(*mode, *octets), None);
    }
}

// Identifier octets, and none.
const IDENTIFIERS: [(&[u8], &str); 4] = [
    (
        &[0x1F, 0x81],
        "the octets end inside a header (at position 0)",
    ),
    (
        &[0x1F, 0x1E],
        "tag number not in the fewest octets (at position 0)",
    ),
    (
        &[0x1F, 0xFF, 0xFF, 0xFF, 0x7F],
        "tag number over 2097151 (at position 0)",
    ),
    (&[], "unexpected end of data (at position 0)"),
];

#[test]
fn identifier_octets_that_are_refused(rt: HostRuntime) {
    for (number, (octets, said)) in IDENTIFIERS.iter().enumerate() {
        let case = Case::new(&rt, rt.alloc(), number);
        match Tag::take_from(&mut SliceSource::new(*octets)) {
            Ok(_) => case.holds(false),
            Err(error) => case.shows(&error, *said),
        }
    }
}
