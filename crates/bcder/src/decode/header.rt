//! Reading identifier octets and length octets (X.690, 8.1.2, 8.1.3) from octets and from a source.
ghost use Rattle.std.specs.Prelude.{◌≡◌, ℕ, ◌+◌, ◌%◌, ◌<◌, ◌≤◌, List, ◌++◌, length, false, true};
ghost use Rattle.std.specs.Prelude.{IsTrue, Some, None, IfSome, MatchOption, IfOk, OnOk, OnErr};
ghost use Rattle.bcder.specs.calls.Sources.{SameFaults, MoreFaults, SameRest, SamePosition};
ghost use Rattle.bcder.specs.calls.Sources.{SameKept};
ghost use Rattle.bcder.specs.calls.Content.{IsAsked};
ghost use Rattle.bcder.specs.calls.Violations.{ViolatesFront};
ghost use Rattle.bcder.specs.declared.mode.Mode.{Mode as ModeValue};
ghost use Rattle.bcder.specs.steps.Peek.{asked, header_of, octets_header, is_constructed, len_of};
ghost use Rattle.bcder.specs.steps.Peek.{Fronts, Peeks, Sees, Shows};
ghost use Rattle.bcder.specs.steps.Peek.{HasHeaderOctets, IsFront, IsFrontOf};
ghost use Rattle.bcder.specs.steps.Reading.{read_header, class_of, is_marked};
ghost use Rattle.bcder.specs.x690.Encoding.{may_have};
ghost use Rattle.bcder.specs.x690.Identifier.{is_value_tag};
ghost use Rattle.bcder.specs.x690.Length.{IsEndOfContents};

use crate::decode::source::Source;
use crate::decode::violation::Violation;
use crate::length::{Length, after_end, length_at, length_violation};
use crate::mode::Mode;
use crate::tag::take::identifier_violation;
use crate::tag::{Tag, identifier_at, mark_of_leading, tag_of_leading};

/// The form of an encoding (X.690, 8.1.2.5), and the meaning of its length octets.
#[derive(Clone, Copy)]
pub(crate) enum Form {
    /// Primitive, with this number of contents octets. A primitive encoding never has the
    /// indefinite form (8.1.3.2).
    Primitive(usize),

    /// Constructed.
    Constructed(Length),
}

/// The header of a value: its identifier octets and length octets.
#[derive(Clone, Copy)]
pub(crate) struct Header {
    pub tag: Tag,
    pub form: Form,
}

/// Which headers to look for.
#[derive(Clone, Copy)]
pub(crate) enum Wanted {
    /// Headers with any tag.
    Any,

    /// Headers with this tag.
    Tagged(Tag),
}

/// What comes next in a source, if a header is looked for.
#[derive(Drop)]
pub(crate) enum Peeked {
    /// The source is at its end.
    Nothing,

    /// Identifier octets with a tag other than the wanted one.
    Other,

    /// End-of-contents octets (8.1.5), and their number.
    End { size: usize },

    /// The header of a value, and the number of its octets.
    Front { header: Header, size: usize },

    /// Octets that are none of these in the mode and don't begin any, and what they violate.
    Refused(Violation),
}

impl Form {
    /// Returns whether this is the constructed form.
    #[inline(always)]
    pub(crate) fn is_constructed(self) -> bool
        ensures { result ≡ is_constructed self }
    {
        match self {
            Form::Primitive(_) => false,
            Form::Constructed(_) => true,
        }
    }
}

/// Returns the form that a constructed bit and a length mean, if the mode (9.1, 10.1) and the form
/// (8.1.3.2) allow the length.
#[tactic(auto, using(std::proofs::lemmas::Bool::Decides::nat_tests))]
#[inline(always)]
fn form_of(mode: Mode, constructed: bool, len: Length) -> Option<Form>
    ensures { MatchOption result
        (may_have mode constructed len ≡ false)
        (λ f. (may_have mode constructed len ≡ true)
        × (is_constructed f ≡ constructed) × (len_of f ≡ len)) }
{
    match len {
        Length::Definite(count) => {
            if !constructed {
                return Some(Form::Primitive(count));
            }
            if mode == Mode::Cer {
                return None;
            }
            Some(Form::Constructed(Length::Definite(count)))
        }
        Length::Indefinite => {
            if !constructed || mode == Mode::Der {
                return None;
            }
            Some(Form::Constructed(Length::Indefinite))
        }
    }
}

/// Reads the header of a value, and returns it with the octets that follow.
#[tactic(auto, unfolding(crate::specs::steps::Reading::read_header))]
#[inline(always)]
pub(crate) fn header_at(mode: Mode, octets: &[u8]) -> Option<(Header, &[u8])>
    ensures less { IfSome result (λ r. length r.1.now + 2 ≤ length octets.now) }
    ensures read { MatchOption result
        (read_header mode octets.now ≡ None)
        (λ r. read_header mode octets.now ≡ Some (header_of r.0, r.1.now)) }
{
    let Some((tag, constructed, rest)) = identifier_at(octets) else {
        return None;
    };
    if !tag.is_value() {
        return None;
    }
    let (len, rest) = length_at(mode, rest)?;
    match form_of(mode, constructed, len) {
        Some(form) => Some((Header { tag, form }, rest)),
        None => None,
    }
}

/// Returns what a tag, a constructed bit and a length violate, if they don't form a header.
fn form_violation(mode: Mode, tag: Tag, constructed: bool, len: Length) -> Violation
    requires { is_value_tag tag ≡ true → may_have mode constructed len ≡ false }
    ensures { (w : List ℕ) → HasHeaderOctets mode tag constructed len w
        → ((end after : List ℕ) → IsEndOfContents mode end → w ≡ end ++ after → ⊥)
        → ViolatesFront mode w result }
{
    if !tag.is_value() {
        return Violation::ReservedTag;
    }
    match len {
        Length::Definite(_) => Violation::DefiniteInCer,
        Length::Indefinite => {
            if constructed {
                Violation::IndefiniteInDer
            } else {
                Violation::PrimitiveIndefinite
            }
        }
    }
}

/// Returns whether headers with a tag are looked for.
#[inline(always)]
fn is_wanted(wanted: &Wanted, tag: Tag) -> bool
    ensures yes { IsTrue result → IsAsked (asked wanted.now) tag }
    ensures no { result ≡ false → IsAsked (asked wanted.now) tag → ⊥ }
{
    match wanted {
        Wanted::Tagged(wanted) => tag == *wanted,
        Wanted::Any => true,
    }
}

/// Returns what the octets at hand say about the header at their start, whatever follows them.
/// Returns `None` if it depends on what follows.
pub(crate) fn look(mode: Mode, wanted: &Wanted, octets: &[u8]) -> Option<Peeked>
    ensures { Sees mode (asked wanted.now) result octets.now }
{
    if let Some((header, rest)) = header_at(mode, octets) {
        if !is_wanted(wanted, header.tag) {
            return Some(Peeked::Other);
        }
        return Some(Peeked::Front {
            header,
            size: octets.len() - rest.len(),
        });
    }
    let Some(found) = identifier_at(octets) else {
        return match identifier_violation(octets) {
            Some(violation) => Some(Peeked::Refused(violation)),
            None => None,
        };
    };
    if !is_wanted(wanted, found.0) {
        return Some(Peeked::Other);
    }
    if let Some(rest) = after_end(mode, octets) {
        return Some(Peeked::End {
            size: octets.len() - rest.len(),
        });
    }
    match length_at(mode, found.2) {
        Some(length) => {
            let violation = form_violation(mode, found.0, found.1, length.0);
            Some(Peeked::Refused(violation))
        }
        None => match length_violation(mode, found.2) {
            Some(violation) => Some(Peeked::Refused(violation)),
            None => None,
        },
    }
}

/// Returns what comes next, given a leading octet that holds the whole tag, and a length. The
/// header has `size` octets.
///
/// The tag in the header is the wanted one. So it is a constant if that is.
#[inline(always)]
fn short_front(mode: Mode, wanted: &Wanted, leading: u8, len: Length, size: usize) -> Option<Peeked>
    requires { leading % 32 < 31 }
    ensures { IfSome result (IsFrontOf mode (asked wanted.now) size (record {
      tag = record { class = class_of leading; number = leading % 32 };
      form = is_marked leading;
      len = len;
    })) }
{
    let tag = match wanted {
        Wanted::Tagged(wanted) => {
            if tag_of_leading(leading) != *wanted {
                return Some(Peeked::Other);
            }
            *wanted
        }
        Wanted::Any => tag_of_leading(leading),
    };
    if !tag.is_value() {
        return None;
    }
    match form_of(mode, mark_of_leading(leading), len) {
        Some(form) => Some(Peeked::Front {
            header: Header { tag, form },
            size,
        }),
        None => None,
    }
}

/// Returns what four octets say, if they are a header: a leading octet that holds the whole tag,
/// and a length that needs three octets.
#[inline(always)]
fn look_long(mode: Mode, wanted: &Wanted, octets: &[u8]) -> Option<Peeked>
    ensures { IfSome result (λ p. Shows mode (asked wanted.now) p octets.now) }
{
    match octets {
        [leading, count, high, low, ..] if *leading % 32 < 31 && *count == 0x82 && *high != 0 => {
            let len = usize::from(*high) * 0x100 + usize::from(*low);
            short_front(mode, wanted, *leading, Length::Definite(len), 4)
        }
        _ => None,
    }
}

/// Returns what comes next in a source, if a header is looked for.
///
/// It requests no more octets than the header has, or than the identifier octets of another tag
/// are, but at least two. It takes none. An error is the source's own.
///
/// Headers of two octets are tried first: a leading octet that holds the whole tag, and a definite
/// length below 128. If headers with any tag are looked for, the length may be indefinite too. Then
/// end-of-contents octets are tried even before, so that their result is a constant.
#[inline(always)]
pub(crate) fn peek<S: Source>(
    source: &mut S,
    mode: Mode,
    wanted: &Wanted,
) -> Result<Peeked, S::Error>
    ensures peeked { IfOk result (λ p. Peeks mode (asked wanted.now) p (S.stream source.new)) }
    ensures no_fault { OnOk result (SameFaults S.stream source) }
    ensures fault { OnErr result (MoreFaults S.stream source) }
    ensures rest { SameRest S.stream source }
    ensures position { SamePosition S.stream source }
    ensures kept { SameKept S.stream source }
{
    let any = matches!(wanted, Wanted::Any);
    let found = source.request(2)?;
    match &source.slice()[..found] {
        [leading, len, ..] if any && *len == 0 && *leading == 0 => {
            return Ok(Peeked::End { size: 2 });
        }
        [leading, len, ..] if *leading % 32 < 31 && *len < 0x80 => {
            let len = Length::Definite(usize::from(*len));
            if let Some(seen) = short_front(mode, wanted, *leading, len, 2) {
                return Ok(seen);
            }
        }
        [leading, len, ..] if any && *leading % 32 < 31 && *len == 0x80 => {
            if let Some(seen) = short_front(mode, wanted, *leading, Length::Indefinite, 2) {
                return Ok(seen);
            }
        }
        _ => {}
    }
    peek_on(source, mode, *wanted)
}

/// Returns what comes next in a source, whatever size the header has.
///
/// A header of four octets is tried first, since most headers that aren't short have four.
#[cold]
#[inline(never)]
fn peek_long<S: Source>(source: &mut S, mode: Mode, wanted: Wanted) -> Result<Peeked, S::Error>
    ensures peeked { IfOk result (λ p. Peeks mode (asked wanted) p (S.stream source.new)) }
    ensures no_fault { OnOk result (SameFaults S.stream source) }
    ensures fault { OnErr result (MoreFaults S.stream source) }
    ensures rest { SameRest S.stream source }
    ensures position { SamePosition S.stream source }
    ensures kept { SameKept S.stream source }
{
    let mut count = 2;
    loop {
        let found = source.request(count)?;
        let octets = &source.slice()[..found];
        if let Some(seen) = look_long(mode, &wanted, octets) {
            return Ok(seen);
        }
        if let Some(seen) = look(mode, &wanted, octets) {
            return Ok(seen);
        }
        if found == 0 {
            return Ok(Peeked::Nothing);
        }
        if found < count {
            return Ok(Peeked::Refused(Violation::TruncatedHeader));
        }
        count = found + 1;
    }
}

/// Calls `peek_long`, with the stack space of the result cleared here and not before the first
/// look.
#[inline(always)]
fn peek_on<S: Source>(source: &mut S, mode: Mode, wanted: Wanted) -> Result<Peeked, S::Error>
    ensures peeked { IfOk result (λ p. Peeks mode (asked wanted) p (S.stream source.new)) }
    ensures no_fault { OnOk result (SameFaults S.stream source) }
    ensures fault { OnErr result (MoreFaults S.stream source) }
    ensures rest { SameRest S.stream source }
    ensures position { SamePosition S.stream source }
    ensures kept { SameKept S.stream source }
{
    let peeked = peek_long(source, mode, wanted);
    peeked
}
