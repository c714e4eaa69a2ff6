//! Text in names.
ghost use Rattle.std.proofs.Common.{inl};
ghost use Rattle.std.specs.Prelude.{⊤, refl};
ghost use Rattle.asn1.specs.CharacterLaws.{bmp_string_tagged, teletex_string_tagged};
ghost use Rattle.asn1.specs.CharacterLaws.{universal_string_tagged};
ghost use Rattle.asn1.specs.Choices.{either_tagged};
ghost use Rattle.asn1.specs.Tags.{only_tagged, printable_string_tagged, utf8_string_tagged};
ghost use Rattle.asn1.specs.declared.choice.Choice2.TheVariants.{One, Two};

use crate::{BmpText, PrintableText, UniversalText, Utf8Text};
use asn1::{
    Choice2, Decode, DecodeParts, Encode, EncodeParts, Parts, TeletexString, Trace, Type, UseParts,
};
use bcder::decode::{Constructed, DecodeError, Source};
use bcder::{Mode, Tag};
use std::alloc::Global;

/// Text in a name (RFC 5280, section 4.1.2.4).
///
///     DirectoryString ::= CHOICE {
///         teletexString    TeletexString (SIZE (1..MAX)),
///         printableString  PrintableString (SIZE (1..MAX)),
///         universalString  UniversalString (SIZE (1..MAX)),
///         utf8String       UTF8String (SIZE (1..MAX)),
///         bmpString        BMPString (SIZE (1..MAX)) }
///
/// An empty string is read too.
#[derive(Debug, Drop)]
pub enum DirectoryString {
    /// Octets of T.61.
    TeletexString(TeletexString),
    /// Letters, digits and some signs.
    PrintableString(PrintableText),
    /// Characters of four octets.
    UniversalString(UniversalText),
    /// Characters in UTF-8.
    Utf8String(Utf8Text),
    /// Characters of two octets.
    BmpString(BmpText),
}

ghost use Rattle.general_names.specs.declared.directory_string.DirectoryString.TheVariants as string;

/// What defines [`DirectoryString`].
type DirectoryStringParts = Choice2<
    TeletexString,
    Choice2<PrintableText, Choice2<UniversalText, Choice2<Utf8Text, BmpText>>>,
>;

impl Parts for DirectoryString {
    type As = DirectoryStringParts;

    type Tags = DirectoryStringTags;

    const NAME: &'static str = "DirectoryString";

    const PARTS: &'static [&'static str] = &[
        "teletex_string",
        "printable_string",
        "universal_string",
        "utf8_string",
        "bmp_string",
    ];

    ghost parts = { elim [
      | string.TeletexString x ↦ One x
      | string.PrintableString x ↦ Two (One x)
      | string.UniversalString x ↦ Two (Two (One x))
      | string.Utf8String x ↦ Two (Two (Two (One x)))
      | string.BmpString x ↦ Two (Two (Two (Two x)))
    ] };

    ghost typed = { ⟦<DirectoryStringParts as Type>⟧ };

    fn from_parts(value: DirectoryStringParts) -> DirectoryString {
        match value {
            Choice2::One(value) => DirectoryString::TeletexString(value),
            Choice2::Two(Choice2::One(value)) => DirectoryString::PrintableString(value),
            Choice2::Two(Choice2::Two(Choice2::One(value))) => DirectoryString::UniversalString(
                value,
            ),
            Choice2::Two(Choice2::Two(Choice2::Two(Choice2::One(value)))) =>
                DirectoryString::Utf8String(value),
            Choice2::Two(Choice2::Two(Choice2::Two(Choice2::Two(value)))) =>
                DirectoryString::BmpString(value),
        }
    }

    fn parts_are_one() {
        <DirectoryStringParts>::values_are_one();
    }
}

impl<S: Source> DecodeParts<S> for DirectoryString {
    fn trace_parts<P: Trace>(
        alloc: Global,
        cons: &mut Constructed<'_, S>,
        tag: Tag,
        path: &mut P,
    ) -> Result<Option<DirectoryStringParts>, DecodeError<S::Error>> {
        <DirectoryStringParts>::trace_opt_if(alloc, cons, tag, path)
    }
}

impl EncodeParts for DirectoryString {
    ghost written = { ⟦<DirectoryStringParts as Encode>⟧ };

    fn give_parts<T, U: UseParts<T>>(&self, _tag: Tag, to: U, target: &mut T) -> U::Out {
        match self {
            DirectoryString::TeletexString(value) => to.use_alternative(value, target),
            DirectoryString::PrintableString(value) => to.use_alternative(value, target),
            DirectoryString::UniversalString(value) => to.use_alternative(value, target),
            DirectoryString::Utf8String(value) => to.use_alternative(value, target),
            DirectoryString::BmpString(value) => to.use_alternative(value, target),
        }
    }

    fn are_read_back(tag: Tag, mode: Mode) {
        <DirectoryStringParts>::is_read_back(tag, mode);
    }

    ghost made = { elim [
      | One x ↦ (string.TeletexString x, refl)
      | Two (One x) ↦ (string.PrintableString x, refl)
      | Two (Two (One x)) ↦ (string.UniversalString x, refl)
      | Two (Two (Two (One x))) ↦ (string.Utf8String x, refl)
      | Two (Two (Two (Two x))) ↦ (string.BmpString x, refl)
    ] };
}

/// The tags of a [`DirectoryString`], as a type without values.
///
/// With it, a proof about a type that holds such a string doesn't unfold the types of its
/// alternatives.
#[derive(Clone, Copy, Debug, Drop)]
pub struct DirectoryStringTags;

impl Type for DirectoryStringTags {
    ghost TAG = { ⟦<DirectoryStringParts as Type>⟧.TAG };

    #[inline(always)]
    fn tag() -> Tag {
        <DirectoryStringParts>::tag()
    }

    ghost expects = { ⟦<DirectoryStringParts as Type>⟧.expects };

    fn expect<P: Trace>(path: &mut P) {
        <DirectoryStringParts>::expect(path);
    }

    ghost tags = { ⟦<DirectoryStringParts as Type>⟧.tags };

    ghost Key = { ⊤ };

    ghost key = { λ _. tt };

    ghost means = { λ _ _ _. ⊥ };

    fn values_are_one() {}

    ghost tagged = { inl refl };

    ghost value_tags = { either_tagged (only_tagged teletex_string_tagged)
        (either_tagged (only_tagged printable_string_tagged)
        (either_tagged (only_tagged universal_string_tagged)
        (either_tagged (only_tagged utf8_string_tagged) (only_tagged bmp_string_tagged)))) };
}
