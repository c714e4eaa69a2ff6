//! Finds encodings that strings hold.
#![tactic(auto, using(bcder::specs::laws::Moved::steps))]

ghost use Rattle.std.specs.Prelude.{◌≡◌, ◌∷◌, ◌++◌, ℕ, List, true, false};
ghost use Rattle.std.specs.Prelude.{Some, None, IfOk, IfSome, IfNone};
ghost use Rattle.bcder.specs.contracts.decode.source.slice.SliceSourceSource.TheImpl.{ghosts};
ghost use Rattle.bcder.specs.calls.Cause.{cause_of};
ghost use Rattle.bcder.specs.calls.Walking.{AllBy, RefusesSkipAll};
ghost use Rattle.bcder.specs.calls.Views.{of_constructed, Moved};
ghost use Rattle.berdump.specs.Listing.{IsFront, IsList, IsNoList, Holds, HoldsNone};

use bcder::decode::SliceSource;
use bcder::{Mode, NoMemory, Tag};
use std::alloc::Global;

/// Returns whether octets are the encodings of values in the mode.
pub(crate) fn is_list(alloc: Global, mode: Mode, octets: &[u8]) -> Result<bool, NoMemory>
    ensures yes { IfOk result (λ answer. answer ≡ true → IsList mode octets.now) }
    ensures no { IfOk result (λ answer. answer ≡ false → IsNoList mode octets.now) }
{
    let passed = mode.decode(
        SliceSource::new(octets),
        |cons|
            ensures moves { Moved ghosts.stream cons }
            ensures skipped { AllBy (RefusesSkipAll cause_of)
                (of_constructed ghosts.stream cons.old) result
                (of_constructed ghosts.stream cons.new) }
        { cons.skip_all(alloc) },
    );
    match passed {
        Ok(()) => Ok(true),
        Err(error) => {
            error.into_content()?;
            Ok(false)
        }
    }
}

/// Returns the octets of a bit string without unused bits, from its contents octets (X.690,
/// 8.6.2.2).
fn bits_in(contents: &[u8]) -> Option<&[u8]>
    ensures some { IfSome result (λ r. contents.now ≡ 0 ∷ r.now) }
    ensures none { IfNone result ((r : List ℕ) → contents.now ≡ 0 ∷ r → ⊥) }
{
    match contents {
        [0, rest @ ..] => Some(rest),
        _ => None,
    }
}

/// Returns the octets of a string, from its contents octets: all of an OCTET STRING, all but the
/// first of a BIT STRING without unused bits.
fn string_in(tag: Tag, contents: &[u8]) -> Option<&[u8]>
    ensures some { IfSome result (λ r. (front : List ℕ) × IsFront tag front
        × (contents.now ≡ front ++ r.now)) }
    ensures none { IfNone result ((front r : List ℕ) → IsFront tag front
        → contents.now ≡ front ++ r → ⊥) }
{
    if tag == Tag::OCTET_STRING {
        Some(contents)
    } else if tag == Tag::BIT_STRING {
        bits_in(contents)
    } else {
        None
    }
}

/// Returns the octets of a string if they are the encodings of one or more values.
pub(crate) fn held_in(
    alloc: Global,
    mode: Mode,
    tag: Tag,
    contents: &[u8],
) -> Result<Option<&[u8]>, NoMemory>
    ensures some { IfOk result (λ o. IfSome o (λ r. Holds mode tag contents.now r.now)) }
    ensures none { IfOk result (λ o. IfNone o (HoldsNone mode tag contents.now)) }
{
    let Some(octets) = string_in(tag, contents) else {
        return Ok(None);
    };
    if octets.is_empty() {
        return Ok(None);
    }
    match is_list(alloc, mode, octets) {
        Ok(true) => Ok(Some(octets)),
        Ok(false) => Ok(None),
        Err(NoMemory) => Err(NoMemory),
    }
}

/// Returns the octets whose values are listed too: those that a string holds, if `inside`.
pub(crate) fn gone_into(inside: bool, held: Option<&[u8]>) -> Option<&[u8]>
    ensures some { IfSome result (λ r. held.entry ≡ Some r) }
    ensures inside { IfSome result (λ _. inside ≡ true) }
    ensures none { IfNone result (inside ≡ true → held.entry ≡ None) }
{
    if inside { held } else { None }
}
