//! The header of a value and the end-of-contents octets, at the front of octets.
ghost use Rattle.std.specs.Prelude.{◌≡◌, ℕ, MatchOption};
ghost use Rattle.encodings.specs.Headings.{BeginsWith, BeginsWithEnd, IsTold, Tells, class_number};
ghost use Rattle.encodings.specs.declared.heading.Heading.{Heading as HeadingTold};

use bcder::plain::{end_at, front_at};
use bcder::{Mode, Tag};

/// The header of a value: its identifier octets and length octets.
#[repr(C)]
#[derive(Clone, Copy)]
pub struct Heading {
    /// The number of these octets. The contents octets follow them.
    pub size: usize,

    /// The number of contents octets, or 0 if the length is indefinite.
    pub len: usize,

    /// The number of the tag.
    pub number: u32,

    /// The class of the tag: 0 universal, 1 application, 2 context-specific, 3 private.
    pub class: u8,

    /// Whether the encoding is constructed.
    pub constructed: bool,

    /// Whether end-of-contents octets end the contents.
    pub indefinite: bool,
}

/// Returns the class of a tag as a number.
pub(crate) fn class_of(tag: Tag) -> u8
    ensures { result ≡ class_number tag.class }
{
    if tag.is_universal() {
        0
    } else if tag.is_application() {
        1
    } else if tag.is_context_specific() {
        2
    } else {
        3
    }
}

/// Returns the number of contents octets, and whether there is none to tell.
fn length_told(len: Option<usize>) -> (usize, bool)
    ensures { IsTold len result.0 result.1 }
{
    match len {
        Some(len) => (len, false),
        None => (0, true),
    }
}

/// Tells a header of so many octets.
pub(crate) fn heading_of(tag: Tag, constructed: bool, len: Option<usize>, size: usize) -> Heading
    ensures { Tells tag constructed len size result }
{
    let (len, indefinite) = length_told(len);
    Heading {
        size,
        len,
        number: tag.number(),
        class: class_of(tag),
        constructed,
        indefinite,
    }
}

/// Returns the header of the value at the front of the octets (X.690, 8.1.2, 8.1.3), if there is
/// one.
///
/// ```text
/// heading_at(Mode::Der, &[0x30, 0x03, 0x02, 0x01])   // size 2, len 3, number 16, constructed
/// ```
pub fn heading_at(mode: Mode, octets: &[u8]) -> Option<Heading>
    ensures { MatchOption result
        ((heading : HeadingTold) → BeginsWith mode octets.now heading → ⊥)
        (λ heading. BeginsWith mode octets.now heading) }
{
    let Some(front) = front_at(mode, octets) else {
        return None;
    };
    let size = octets.len() - front.rest.len();
    Some(heading_of(front.tag, front.constructed, front.len, size))
}

/// Returns the number of the end-of-contents octets at the front of the octets (X.690, 8.1.5), if
/// there are any.
pub fn end_of_contents_at(mode: Mode, octets: &[u8]) -> Option<usize>
    ensures { MatchOption result
        ((size : ℕ) → BeginsWithEnd mode octets.now size → ⊥)
        (λ size. BeginsWithEnd mode octets.now size) }
{
    match end_at(mode, octets) {
        Some(rest) => Some(octets.len() - rest.len()),
        None => None,
    }
}
