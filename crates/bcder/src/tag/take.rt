//! Reading identifier octets from a source (X.690, 8.1.2).
ghost use Rattle.std.specs.Prelude.{◌≡◌, ◌⊎◌, ℕ, ◌<◌, ◌≤◌, List, [], ◌++◌, length};
ghost use Rattle.std.specs.Prelude.{None, IsNone, IsSome, IfSome, MatchOption};
ghost use Rattle.std.specs.Prelude.{IfOk, IfErr, OnOk, OnErr};
ghost use Rattle.bcder.specs.declared.mode.Mode.{Mode as ModeValue};
ghost use Rattle.bcder.specs.x690.Broken.{EndsInTag};
ghost use Rattle.bcder.specs.x690.Identifier.{IsTag, identifier};
ghost use Rattle.bcder.specs.calls.Violations.{violation_text, ViolatesFront};
ghost use Rattle.bcder.specs.calls.Violations.{NamesFront};
ghost use Rattle.bcder.specs.calls.Violations.{BeginsOther, BeginsNoIdentifier, HasNoIdentifier};
ghost use Rattle.bcder.specs.calls.Sources.{SameFaults, MoreFaults, SameRest, SamePosition};
ghost use Rattle.bcder.specs.calls.Sources.{SameKept};
ghost use Rattle.bcder.specs.calls.Sources.{RefusedWhere};
ghost use Rattle.bcder.specs.calls.Cause.{cause_of, of_content};
ghost use Rattle.bcder.specs.steps.Reading.{read_identifier};
ghost use Rattle.bcder.specs.steps.PeekTag.{PeeksTag, SeesTag};

use super::{Tag, identifier_at};
use crate::decode::{ContentError, DecodeError, Source, Violation};

/// The identifier octets that come next in a source.
enum PeekedTag {
    /// The source is at its end.
    Nothing,

    /// A tag, its constructed bit, and the number of these octets.
    Front {
        tag: Tag,
        constructed: bool,
        size: usize,
    },

    /// Octets that don't begin identifier octets, and what they violate.
    Refused(Violation),
}

/// Returns what octets violate that don't begin with identifier octets, or `None` if they may be
/// the beginning of some.
#[tactic(auto, using(crate::proofs::Violations::identifier_violated))]
pub(crate) fn identifier_violation(octets: &[u8]) -> Option<Violation>
    requires { read_identifier octets.now ≡ None }
    ensures short { IsNone result → length octets.now < 4 }
    ensures ends { IsNone result → 1 ≤ length octets.now → EndsInTag octets.now }
    ensures some { IsSome result → 1 ≤ length octets.now }
    ensures refused { IsSome result
        → (x : List ℕ) → read_identifier (octets.now ++ x) ≡ None }
    ensures violates { IfSome result
        (λ v. (mode : ModeValue) (x : List ℕ) → ViolatesFront mode (octets.now ++ x) v) }
{
    match octets {
        [] | [_] => None,
        [_, digit, digits @ ..] => {
            if *digit <= 0x80 {
                Some(Violation::TagNotFewest)
            } else if digits.len() < 2 {
                None
            } else {
                Some(Violation::TagTooLarge)
            }
        }
    }
}

/// Returns what the octets at hand say about the identifier octets at their start, whatever follows
/// them. Returns `None` if it depends on what follows.
fn look(octets: &[u8]) -> Option<PeekedTag>
    ensures { SeesTag result octets.now }
{
    match identifier_at(octets) {
        Some(front) => Some(PeekedTag::Front {
            tag: front.0,
            constructed: front.1,
            size: octets.len() - front.2.len(),
        }),
        None => match identifier_violation(octets) {
            Some(violation) => Some(PeekedTag::Refused(violation)),
            None => None,
        },
    }
}

/// Returns which identifier octets come next in a source.
///
/// It requests no more octets than these are, and takes none. An error is the source's own.
fn peek<S: Source>(source: &mut S) -> Result<PeekedTag, S::Error>
    ensures peeked { IfOk result (λ p. PeeksTag p (S.stream source.new)) }
    ensures no_fault { OnOk result (SameFaults S.stream source) }
    ensures fault { OnErr result (MoreFaults S.stream source) }
    ensures rest { SameRest S.stream source }
    ensures position { SamePosition S.stream source }
    ensures kept { SameKept S.stream source }
{
    let mut wanted = 1;
    loop {
        let found = source.request(wanted)?;
        if let Some(seen) = look(&source.slice()[..found]) {
            return Ok(seen);
        }
        if found == 0 {
            return Ok(PeekedTag::Nothing);
        }
        if found < wanted {
            return Ok(PeekedTag::Refused(Violation::TruncatedHeader));
        }
        wanted = found + 1;
    }
}

/// Returns an error that refuses octets which don't begin identifier octets.
#[cold]
fn invalid<S: Source>(source: &S, violation: Violation) -> DecodeError<S::Error>
    ensures { cause_of result ≡ of_content (ContentError.Static (violation_text violation)) }
{
    source.content_err(ContentError::from_static(violation.text()))
}

impl Tag {
    /// Takes identifier octets (X.690, 8.1.2), and returns the tag and whether the encoding is
    /// constructed.
    ///
    /// Returns `None` if the source is at its end.
    ///
    /// # Errors
    ///
    /// Returns an error if the next octets aren't identifier octets, or if the source fails.
    /// Nothing is then taken.
    pub fn take_opt_from<S: Source>(
        source: &mut S,
    ) -> Result<Option<(Tag, bool)>, DecodeError<S::Error>>
        ensures ok { IfOk result (λ o. MatchOption o
            (((S.stream source.old).rest ≡ []) × ((S.stream source.new).rest ≡ []))
            (λ r. IsTag r.0
            × ((S.stream source.old).rest ≡ identifier r.0 r.1 ++ (S.stream source.new).rest))) }
        ensures none_position { IfOk result (λ o. IsNone o → SamePosition S.stream source) }
        ensures no_fault { OnOk result (SameFaults S.stream source) }
        ensures cause { IfErr result
            (RefusedWhere S.stream source (HasNoIdentifier (S.stream source.old).rest)) }
        ensures named { IfErr result (NamesFront (S.stream source.old).rest) }
        ensures err { OnErr result (SameRest S.stream source) }
        ensures err_position { OnErr result (SamePosition S.stream source) }
        ensures kept { SameKept S.stream source }
    {
        match peek(source)? {
            PeekedTag::Nothing => Ok(None),
            PeekedTag::Front {
                tag,
                constructed,
                size,
            } => {
                source.advance(size);
                Ok(Some((tag, constructed)))
            }
            PeekedTag::Refused(violation) => Err(invalid(source, violation)),
        }
    }

    /// Takes identifier octets (X.690, 8.1.2), and returns the tag and whether the encoding is
    /// constructed.
    ///
    /// # Errors
    ///
    /// Returns an error if the next octets aren't identifier octets, if there are none, or if the
    /// source fails. Nothing is then taken.
    #[tactic(auto, using(crate::proofs::Beginnings::end_begins_no_identifier))]
    pub fn take_from<S: Source>(source: &mut S) -> Result<(Tag, bool), DecodeError<S::Error>>
        ensures ok { IfOk result (λ r. IsTag r.0
            × ((S.stream source.old).rest ≡ identifier r.0 r.1 ++ (S.stream source.new).rest)) }
        ensures no_fault { OnOk result (SameFaults S.stream source) }
        ensures cause { IfErr result
            (RefusedWhere S.stream source (BeginsNoIdentifier (S.stream source.old).rest)) }
        ensures named { IfErr result (λ e. 1 ≤ length (S.stream source.old).rest
            → NamesFront (S.stream source.old).rest e) }
        ensures err { OnErr result (SameRest S.stream source) }
        ensures err_position { OnErr result (SamePosition S.stream source) }
        ensures kept { SameKept S.stream source }
    {
        match peek(source)? {
            PeekedTag::Nothing => {
                return Err(source.content_err(ContentError::from_static("unexpected end of data")));
            }
            PeekedTag::Front {
                tag,
                constructed,
                size,
            } => {
                source.advance(size);
                Ok((tag, constructed))
            }
            PeekedTag::Refused(violation) => Err(invalid(source, violation)),
        }
    }

    /// Takes the identifier octets (X.690, 8.1.2) of this tag, and returns whether the encoding is
    /// constructed.
    ///
    /// Returns `None`, and takes nothing, if another tag comes next or the source is at its end.
    ///
    /// # Errors
    ///
    /// Returns an error if the next octets aren't identifier octets, or if the source fails.
    /// Nothing is then taken.
    pub fn take_from_if<S: Source>(
        self,
        source: &mut S,
    ) -> Result<Option<bool>, DecodeError<S::Error>>
        ensures some { IfOk result (λ o. IfSome o
            (λ f. (S.stream source.old).rest ≡ identifier self f ++ (S.stream source.new).rest)) }
        ensures none { IfOk result (λ o. IsNone o
            → ((S.stream source.old).rest ≡ []) ⊎ BeginsOther self (S.stream source.old).rest) }
        ensures none_rest { IfOk result (λ o. IsNone o → SameRest S.stream source) }
        ensures none_position { IfOk result (λ o. IsNone o → SamePosition S.stream source) }
        ensures no_fault { OnOk result (SameFaults S.stream source) }
        ensures cause { IfErr result
            (RefusedWhere S.stream source (HasNoIdentifier (S.stream source.old).rest)) }
        ensures named { IfErr result (NamesFront (S.stream source.old).rest) }
        ensures err { OnErr result (SameRest S.stream source) }
        ensures err_position { OnErr result (SamePosition S.stream source) }
        ensures kept { SameKept S.stream source }
    {
        match peek(source)? {
            PeekedTag::Nothing => Ok(None),
            PeekedTag::Front {
                tag,
                constructed,
                size,
            } => {
                if tag != self {
                    return Ok(None);
                }
                source.advance(size);
                Ok(Some(constructed))
            }
            PeekedTag::Refused(violation) => Err(invalid(source, violation)),
        }
    }
}
