//! Restricted character strings (X.680, 41; X.690, 8.23).
ghost use Rattle.std.specs.Prelude.{ℕ, List, refl, true};
ghost use Rattle.bcder.specs.calls.RestrictedString.{MeansRestricted};
ghost use Rattle.bcder.specs.calls.StringOctets.{octets_of};
ghost use Rattle.bcder.specs.x690.Identifier.{IsValueTag};
ghost use Rattle.bcder.specs.calls.Views.{Moved};
ghost use Rattle.asn1.specs.Types.{Only, TookNextTyped};
ghost use Rattle.asn1.specs.Tags.{utf8_string_tagged, numeric_string_tagged, only_tagged};
ghost use Rattle.asn1.specs.Tags.{printable_string_tagged, ia5_string_tagged};

use crate::{Decode, Part, Trace, Type};
use bcder::Tag;
use bcder::decode::{Constructed, DecodeError, Source};
use bcder::string::{
    CharSet, Ia5CharSet, NumericCharSet, PrintableCharSet, RestrictedString, Utf8CharSet,
};
use std::alloc::Global;

/// A character set whose tag values can have. That is any tag but the one of end-of-contents octets
/// (X.690, 8.1.5).
pub trait TaggedCharSet: CharSet {
    ghost tagged: { IsValueTag Self.TAG };
}

impl TaggedCharSet for Utf8CharSet {
    ghost tagged = { utf8_string_tagged };
}

impl TaggedCharSet for NumericCharSet {
    ghost tagged = { numeric_string_tagged };
}

impl TaggedCharSet for PrintableCharSet {
    ghost tagged = { printable_string_tagged };
}

impl TaggedCharSet for Ia5CharSet {
    ghost tagged = { ia5_string_tagged };
}

/// A string of characters of a set, as UTF8String, NumericString, PrintableString and IA5String. It
/// is read like an OCTET STRING (X.690, 8.23.3). Two are the same if their octets are.
impl<L: TaggedCharSet> Type for RestrictedString<L> {
    ghost TAG = { L.TAG };

    #[inline(always)]
    fn tag() -> Tag {
        L::TAG
    }

    fn expect<P: Trace>(path: &mut P) {
        path.note(Part::Expected(Self::tag()));
    }

    ghost tags = { Only };

    ghost Key = { List ℕ };

    ghost key = { octets_of };

    ghost means = { MeansRestricted L.step };

    fn values_are_one() {}

    ghost tagged = { refl };

    ghost value_tags = { only_tagged L.tagged };
}

/// Takes the next value as a string, if it has the set's own tag.
#[inline(always)]
fn take_own<S: Source, L: TaggedCharSet>(
    alloc: Global,
    cons: &mut Constructed<'_, S>,
) -> Result<Option<RestrictedString<L>>, DecodeError<S::Error>>
    ensures moves { Moved S.stream cons }
    ensures took { TookNextTyped S.stream cons (Only L.TAG) (MeansRestricted L.step) true result }
{
    RestrictedString::<L>::take_opt_from(alloc, cons)
}

/// Takes the next value as a string, if it has this tag, which is not the set's own.
#[inline]
fn take_tagged<S: Source, L: TaggedCharSet>(
    alloc: Global,
    cons: &mut Constructed<'_, S>,
    tag: Tag,
) -> Result<Option<RestrictedString<L>>, DecodeError<S::Error>>
    ensures moves { Moved S.stream cons }
    ensures took { TookNextTyped S.stream cons (Only tag) (MeansRestricted L.step) true result }
{
    cons.take_opt_value_if(
        tag,
        |content| RestrictedString::<L>::from_content(alloc, content),
    )
}

impl<S: Source, L: TaggedCharSet> Decode<S> for RestrictedString<L> {
    ghost may_lack = { true };

    #[inline(always)]
    fn trace_opt_if<P: Trace>(
        alloc: Global,
        cons: &mut Constructed<'_, S>,
        tag: Tag,
        _path: &mut P,
    ) -> Result<Option<RestrictedString<L>>, DecodeError<S::Error>> {
        if tag == L::TAG {
            take_own(alloc, cons)
        } else {
            take_tagged(alloc, cons, tag)
        }
    }
}
