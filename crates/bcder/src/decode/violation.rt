//! The rules of headers that octets can violate (X.690, 8.1.2, 8.1.3, 8.1.5, 9.1, 10.1).
ghost use Rattle.std.specs.Prelude.{◌≡◌, ◌⊎◌, ◌≤◌, length, Some, IsSome, IsNone, IfSome};
ghost use Rattle.bcder.specs.calls.Violations.{BeginsHeader, BeginsEnd};
ghost use Rattle.bcder.specs.calls.Violations.{violation_text, ViolatesFront};

use crate::decode::header::{Peeked, Wanted, look};
use crate::mode::Mode;
use std::fmt;

/// The reason that octets begin neither with the header of a value nor with the end of the content.
#[derive(Clone, Copy, Debug, PartialEq, Eq)]
pub enum Violation {
    /// The octets end inside identifier octets or length octets, or between them.
    TruncatedHeader,

    /// The octets end before the content does.
    TruncatedContents,

    /// The number of a tag isn't encoded in the fewest octets (8.1.2.2, 8.1.2.4.2 c).
    TagNotFewest,

    /// The number of a tag is larger than 2097151. This is a limit of the crate. X.690 has none.
    TagTooLarge,

    /// The tag of end-of-contents octets is followed by octets other than theirs (8.1.5).
    ReservedTag,

    /// The first length octet is FF (8.1.3.5 c).
    ReservedLength,

    /// More than four octets follow the first length octet. X.690 allows 126, this crate four.
    LengthTooLarge,

    /// In CER or DER, the length isn't encoded in the fewest octets (9.1, 10.1).
    LengthNotFewest,

    /// A primitive value has the indefinite form (8.1.3.2).
    PrimitiveIndefinite,

    /// In DER, a value has the indefinite form (10.1).
    IndefiniteInDer,

    /// In CER, a constructed value has the definite form (9.1).
    DefiniteInCer,

    /// A value has more octets than are left of the value around it (8.1.3.3).
    ValueTooLong,

    /// End-of-contents octets come in content that doesn't end with any (8.1.5).
    StrayEnd,
}

impl Violation {
    /// Returns the text of the error.
    #[cold]
    #[inline(never)]
    pub fn text(self) -> &'static str
        ensures { result.now ≡ violation_text self }
    {
        match self {
            Violation::TruncatedHeader => "the octets end inside a header",
            Violation::TruncatedContents => "unexpected end of data",
            Violation::TagNotFewest => "tag number not in the fewest octets",
            Violation::TagTooLarge => "tag number over 2097151",
            Violation::ReservedTag => "tag of end-of-contents octets on a value",
            Violation::ReservedLength => "reserved length octet FF",
            Violation::LengthTooLarge => "length of more than four octets",
            Violation::LengthNotFewest => "length not in the fewest octets",
            Violation::PrimitiveIndefinite => "indefinite length of a primitive value",
            Violation::IndefiniteInDer => "indefinite length in DER",
            Violation::DefiniteInCer => "definite length of a constructed value in CER",
            Violation::ValueTooLong => "value longer than the value around it",
            Violation::StrayEnd => "end-of-contents octets where none belong",
        }
    }

    /// Returns what octets violate in a mode if they begin neither with the header of a value nor
    /// with end-of-contents octets (X.690, 8.1.2, 8.1.3, 8.1.5). Returns `None` if they do, and for
    /// no octets.
    ///
    /// The octets behind a header are not looked at.
    pub fn at(mode: Mode, octets: &[u8]) -> Option<Violation>
        ensures violates { IfSome result (ViolatesFront mode octets.now) }
        ensures refused { IsSome result
            → BeginsHeader mode octets.now ⊎ BeginsEnd mode octets.now → ⊥ }
        ensures none { IsNone result → 1 ≤ length octets.now
            → BeginsHeader mode octets.now ⊎ BeginsEnd mode octets.now }
    {
        let Some(peeked) = look(mode, &Wanted::Any, octets) else {
            if octets.is_empty() {
                return None;
            }
            return Some(Violation::TruncatedHeader);
        };
        match peeked {
            Peeked::Refused(violation) => Some(violation),
            _ => None,
        }
    }
}

/// Writes the text of the error.
impl fmt::Display for Violation {
    ghost output = { λ v. Some (violation_text v) };

    fn fmt<W: fmt::Write>(&self, f: &mut fmt::Formatter<W>) -> fmt::Result {
        f.write_str(self.text())
    }
}
