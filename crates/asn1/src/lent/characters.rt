//! Character strings that are lent (X.680, 41; X.690, 8.23).
ghost use Rattle.std.specs.Prelude.{◌≡◌, ◌↔◌, IsTrue, MatchResult, List, ℕ, false, refl};
ghost use Rattle.bcder.specs.calls.Readers.{ReadOctets};
ghost use Rattle.bcder.specs.calls.Views.{octets_before, Moved, MovedOctets};
ghost use Rattle.std.specs.Str.{chars};
ghost use Rattle.bcder.specs.x690.CharSet.{IsOfSet, Spells};
ghost use Rattle.asn1.specs.Lent.{IsPiece, IsLentOfSet};
ghost use Rattle.asn1.specs.Types.{IsLeaf, Only, TookNextTyped};
ghost use Rattle.asn1.specs.Tags.{only_tagged};

use super::is_piece;
use crate::{Decode, Part, TaggedCharSet, Trace, Type};
use bcder::decode::{Constructed, ContentError, DecodeError, LendingSource, Primitive};
use bcder::string::{
    CharSetError, Ia5CharSet, NumericCharSet, OctetStringOctets, PrintableCharSet, TextCharSet,
    Utf8CharSet,
};
use bcder::{Mode, Tag};
use std::alloc::Global;
use std::convert::AsSlice;
use std::marker::{Model, PhantomData};
use std::str;

/// A string of characters of a set, in one piece, whose octets the source lends.
#[derive(Debug, Drop)]
pub struct RestrictedStringRef<C: TaggedCharSet, L: AsSlice<u8> + Copy + Drop> {
    octets: L,
    set: PhantomData<C>,
}

/// In clauses it is what is lent.
impl<C: TaggedCharSet, L: AsSlice<u8> + Copy + Drop> Model for RestrictedStringRef<C, L> {
    ghost use Rattle.bcder.specs.x690.CharSet.{IsOfSet};

    ghost Value = { L };

    ghost view = { λ s. s.octets };

    ghost invariant = { λ s. IsOfSet C.step (L.items s.octets) };
}

/// A UTF8String that is lent. Over a [`SliceSource<'a>`](bcder::decode::SliceSource) it is a
/// `Utf8StringRef<&'a [u8]>`, and so are the following.
pub type Utf8StringRef<L> = RestrictedStringRef<Utf8CharSet, L>;

/// A NumericString that is lent.
pub type NumericStringRef<L> = RestrictedStringRef<NumericCharSet, L>;

/// A PrintableString that is lent.
pub type PrintableStringRef<L> = RestrictedStringRef<PrintableCharSet, L>;

/// An IA5String that is lent.
pub type Ia5StringRef<L> = RestrictedStringRef<Ia5CharSet, L>;

impl<C: TaggedCharSet, L: AsSlice<u8> + Copy + Drop> RestrictedStringRef<C, L> {
    /// Creates a string of the set with these octets.
    ///
    /// # Errors
    ///
    /// Returns an error if the octets spell no characters of the set.
    pub fn new(octets: L) -> Result<Self, CharSetError>
        ensures { MatchResult result
            (λ s. (s ≡ octets) × IsOfSet C.step (L.items octets))
            (λ _. IsOfSet C.step (L.items octets) → ⊥) }
    {
        C::check(OctetStringOctets::new(octets.as_slice()))?;
        Ok(RestrictedStringRef {
            octets,
            set: PhantomData,
        })
    }

    /// Returns the octets, which spell characters of the set.
    pub fn octets(&self) -> L
        ensures octets { result ≡ self.now }
        ensures accepted { IsOfSet C.step (L.items result) }
    {
        self.octets
    }
}

impl<'a, C: TaggedCharSet + TextCharSet> RestrictedStringRef<C, &'a [u8]> {
    /// Returns the characters as a text. The text is the octets, which are neither copied nor
    /// checked again.
    pub fn as_str(&self) -> &'a str
        ensures octets { result.now ≡ self.now.now }
        ensures characters { Spells C.step result.now (chars result.now) }
    {
        unsafe { str::from_utf8_unchecked(self.octets) }
    }
}

impl<C: TaggedCharSet, L: AsSlice<u8> + Copy + Drop> Type for RestrictedStringRef<C, L> {
    ghost TAG = { C.TAG };

    #[inline(always)]
    fn tag() -> Tag {
        C::TAG
    }

    fn expect<P: Trace>(path: &mut P) {
        path.note(Part::Expected(Self::tag()));
    }

    ghost tags = { Only };

    ghost Key = { List ℕ };

    ghost key = { λ x. L.items x };

    ghost means = { λ mode t x. IsLeaf (IsLentOfSet L.items C.step mode) t x };

    fn values_are_one() {}

    ghost tagged = { refl };

    ghost value_tags = { only_tagged C.tagged };
}

/// Returns whether octets are a string of the set, in one piece in a mode.
#[inline(always)]
fn is_of_set<C: TaggedCharSet>(mode: Mode, octets: &[u8]) -> bool
    ensures { IsTrue result ↔ (IsPiece mode octets.now × IsOfSet C.step octets.now) }
{
    is_piece(mode, octets.len()) && C::check(OctetStringOctets::new(octets)).is_ok()
}

/// Takes all contents octets, lent, as those of a string of the set in one piece.
#[inline(always)]
fn lend_characters<S: LendingSource, C: TaggedCharSet>(
    octets: &mut Primitive<'_, S>,
) -> Result<RestrictedStringRef<C, S::Lent>, DecodeError<S::Error>>
    ensures moves { MovedOctets S.stream octets }
    ensures read { ReadOctets S.stream octets
        (IsLentOfSet S.Lent.items C.step (octets_before S.stream octets).mode) result }
{
    let mode = octets.mode();
    match octets.slice_all(|octets| is_of_set::<C>(mode, octets)) {
        Ok(true) => match octets.take_lent() {
            Ok(octets) => Ok(RestrictedStringRef {
                octets,
                set: PhantomData,
            }),
            Err(error) => Err(error),
        },
        Ok(false) => Err(octets.content_err(ContentError::from_static("invalid character"))),
        Err(error) => Err(error),
    }
}

/// Takes the next value if it has this tag. It then has to be primitive, and its contents octets
/// are lent as a string of the set.
#[inline(always)]
fn take_characters_if<S: LendingSource, C: TaggedCharSet>(
    cons: &mut Constructed<'_, S>,
    tag: Tag,
) -> Result<Option<RestrictedStringRef<C, S::Lent>>, DecodeError<S::Error>>
    ensures moves { Moved S.stream cons }
    ensures took { TookNextTyped S.stream cons (Only tag)
        (λ mode. IsLeaf (IsLentOfSet S.Lent.items C.step mode)) false result }
{
    cons.take_opt_primitive_if(tag, |octets| lend_characters::<S, C>(octets))
}

impl<S: LendingSource, C: TaggedCharSet> Decode<S> for RestrictedStringRef<C, S::Lent> {
    #[inline(always)]
    fn trace_opt_if<P: Trace>(
        _alloc: Global,
        cons: &mut Constructed<'_, S>,
        tag: Tag,
        _path: &mut P,
    ) -> Result<Option<RestrictedStringRef<C, S::Lent>>, DecodeError<S::Error>> {
        take_characters_if(cons, tag)
    }
}
