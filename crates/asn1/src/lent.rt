//! Octets that are lent.
ghost use Rattle.bcder.specs.x690.OctetString.{octet_string_tag};
ghost use Rattle.std.specs.Prelude.{◌≡◌, ℕ, List, Err, false, not, refl};
ghost use Rattle.bcder.specs.calls.Readers.{ReadOctets};
ghost use Rattle.bcder.specs.calls.StringMeaning.{is_cut};
ghost use Rattle.bcder.specs.calls.Views.{octets_before, Moved, MovedOctets};
ghost use Rattle.asn1.specs.Lent.{IsLent};
ghost use Rattle.asn1.specs.Types.{IsLeaf, Only, TookNextTyped};
ghost use Rattle.asn1.specs.Tags.{octet_string_tagged, only_tagged};

mod characters;

use crate::{Decode, Part, Trace, Type};
use bcder::decode::{Constructed, ContentError, DecodeError, LendingSource, Primitive};
use bcder::{Mode, Tag};
pub use characters::{
    Ia5StringRef, NumericStringRef, PrintableStringRef, RestrictedStringRef, Utf8StringRef,
};
use std::alloc::Global;
use std::convert::AsSlice;
use std::marker::Model;

/// An OCTET STRING in one piece, whose octets the source lends.
///
/// Over a [`SliceSource<'a>`](bcder::decode::SliceSource) it is an `OctetStringRef<&'a [u8]>`.
#[derive(Clone, Copy, Debug, Drop)]
pub struct OctetStringRef<L>(pub L);

/// In clauses it is what is lent.
impl<L> Model for OctetStringRef<L> {
    ghost Value = { L };

    ghost view = { λ x. x.0 };

    ghost inverse = { λ v. record { 0 = v } };
}

impl<L: AsSlice<u8> + Copy + Drop> Type for OctetStringRef<L> {
    ghost TAG = { octet_string_tag };

    #[inline(always)]
    fn tag() -> Tag {
        Tag::OCTET_STRING
    }

    fn expect<P: Trace>(path: &mut P) {
        path.note(Part::Expected(Self::tag()));
    }

    ghost tags = { Only };

    ghost Key = { List ℕ };

    ghost key = { λ x. L.items x };

    ghost means = { λ mode t x. IsLeaf (IsLent L.items mode) t x };

    fn values_are_one() {}

    ghost tagged = { refl };

    ghost value_tags = { only_tagged octet_string_tagged };
}

/// Returns whether a string of this many octets is in one piece in a mode: in CER it has 1000 at
/// most (X.690, 9.2).
#[inline(always)]
pub(crate) fn is_piece(mode: Mode, len: usize) -> bool
    ensures { result ≡ not (is_cut mode len) }
{
    match mode {
        Mode::Ber => true,
        Mode::Cer => len <= 1000,
        Mode::Der => true,
    }
}

/// Returns why octets that should have been cut are refused. All of them have to come, and none is
/// taken.
#[cold]
#[inline(never)]
fn refuse_piece<S: LendingSource>(octets: &mut Primitive<'_, S>) -> DecodeError<S::Error>
    ensures moves { MovedOctets S.stream octets }
    ensures read { ReadOctets S.stream octets (λ _ (_ : S.Lent). ⊥) (Err result) }
{
    match octets.slice_all(|_| ()) {
        Ok(()) => octets.content_err(ContentError::from_static("a string that is to be cut")),
        Err(error) => error,
    }
}

/// Takes all contents octets, lent, as those of a string in one piece.
#[inline(always)]
fn lend_piece<S: LendingSource>(
    octets: &mut Primitive<'_, S>,
) -> Result<S::Lent, DecodeError<S::Error>>
    ensures moves { MovedOctets S.stream octets }
    ensures read { ReadOctets S.stream octets
        (IsLent S.Lent.items (octets_before S.stream octets).mode) result }
{
    if is_piece(octets.mode(), octets.remaining()) {
        octets.take_lent()
    } else {
        Err(refuse_piece(octets))
    }
}

/// Takes the next value if it has this tag. It then has to be primitive, and its contents octets
/// are lent.
#[inline(always)]
fn take_lent_if<S: LendingSource>(
    cons: &mut Constructed<'_, S>,
    tag: Tag,
) -> Result<Option<S::Lent>, DecodeError<S::Error>>
    ensures moves { Moved S.stream cons }
    ensures took { TookNextTyped S.stream cons (Only tag)
        (λ mode. IsLeaf (IsLent S.Lent.items mode)) false result }
{
    cons.take_opt_primitive_if(tag, |octets| lend_piece(octets))
}

impl<S: LendingSource> Decode<S> for OctetStringRef<S::Lent> {
    #[inline(always)]
    fn trace_opt_if<P: Trace>(
        _alloc: Global,
        cons: &mut Constructed<'_, S>,
        tag: Tag,
        _path: &mut P,
    ) -> Result<Option<OctetStringRef<S::Lent>>, DecodeError<S::Error>> {
        match take_lent_if(cons, tag) {
            Ok(Some(octets)) => Ok(Some(OctetStringRef(octets))),
            Ok(None) => Ok(None),
            Err(error) => Err(error),
        }
    }
}
