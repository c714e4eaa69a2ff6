//! What is said about policies.
ghost use Rattle.std.proofs.Common.{inl};
ghost use Rattle.std.specs.Prelude.{⊤, refl};
ghost use Rattle.asn1.specs.CharacterLaws.{bmp_string_tagged, visible_string_tagged};
ghost use Rattle.asn1.specs.Choices.{either_tagged};
ghost use Rattle.asn1.specs.Tags.{ia5_string_tagged, only_tagged, utf8_string_tagged};
ghost use Rattle.asn1.specs.declared.choice.Choice2.TheVariants.{One, Two};

use asn1::{
    ByRef, Choice2, Decode, DecodeParts, Encode, EncodeParts, Parts, Sequence, SequenceOf,
    SequenceTag, Trace, Type, UseParts,
};
use bcder::decode::{Constructed, DecodeError, Source};
use bcder::{Integer, Mode, Tag};
use general_names::{BmpText, Ia5Text, Utf8Text, VisibleText};
use std::alloc::Global;

/// Where a statement of practice is (RFC 5280, section 4.2.1.4).
///
///     CPSuri ::= IA5String
pub type CpsUri = Ia5Text;

/// A notice for users (RFC 5280, section 4.2.1.4).
///
///     UserNotice ::= SEQUENCE {
///         noticeRef     NoticeReference OPTIONAL,
///         explicitText  DisplayText OPTIONAL }
#[derive(Debug, Drop)]
pub struct UserNotice {
    /// Notices of an organization, by their numbers.
    pub notice_ref: Option<NoticeReference>,

    /// The text of the notice.
    pub explicit_text: Option<DisplayText>,
}

/// What defines [`UserNotice`].
type UserNoticeParts = Sequence<(Option<NoticeReference>, Option<DisplayText>)>;

impl Parts for UserNotice {
    type As = UserNoticeParts;

    type Tags = SequenceTag;

    const NAME: &'static str = "UserNotice";

    const PARTS: &'static [&'static str] = &["notice_ref", "explicit_text"];

    ghost parts = { λ x. (x.notice_ref, x.explicit_text) };

    ghost typed = { ⟦<UserNoticeParts as Type>⟧ };

    fn from_parts(value: UserNoticeParts) -> UserNotice {
        let Sequence((notice_ref, explicit_text)) = value;
        UserNotice {
            notice_ref,
            explicit_text,
        }
    }

    fn parts_are_one() {
        <UserNoticeParts>::values_are_one();
    }
}

impl<S: Source> DecodeParts<S> for UserNotice {
    fn trace_parts<P: Trace>(
        alloc: Global,
        cons: &mut Constructed<'_, S>,
        tag: Tag,
        path: &mut P,
    ) -> Result<Option<UserNoticeParts>, DecodeError<S::Error>> {
        <UserNoticeParts>::trace_opt_if(alloc, cons, tag, path)
    }
}

impl EncodeParts for UserNotice {
    ghost written = { ⟦<UserNoticeParts as Encode>⟧ };

    fn give_parts<T, U: UseParts<T>>(&self, tag: Tag, to: U, target: &mut T) -> U::Out {
        to.use_parts(
            &Sequence((ByRef(&self.notice_ref), ByRef(&self.explicit_text))),
            tag,
            target,
        )
    }

    fn are_read_back(tag: Tag, mode: Mode) {
        <UserNoticeParts>::is_read_back(tag, mode);
    }

    ghost made = { λ v. (record { notice_ref = v.0; explicit_text = v.1 }, refl) };
}

/// Notices of an organization, by their numbers (RFC 5280, section 4.2.1.4).
///
///     NoticeReference ::= SEQUENCE {
///         organization   DisplayText,
///         noticeNumbers  SEQUENCE OF INTEGER }
#[derive(Debug, Drop)]
pub struct NoticeReference {
    /// Who wrote them.
    pub organization: DisplayText,

    /// Their numbers.
    pub notice_numbers: SequenceOf<Integer>,
}

/// What defines [`NoticeReference`].
type NoticeReferenceParts = Sequence<(DisplayText, SequenceOf<Integer>)>;

impl Parts for NoticeReference {
    type As = NoticeReferenceParts;

    type Tags = SequenceTag;

    const NAME: &'static str = "NoticeReference";

    const PARTS: &'static [&'static str] = &["organization", "notice_numbers"];

    ghost parts = { λ x. (x.organization, x.notice_numbers) };

    ghost typed = { ⟦<NoticeReferenceParts as Type>⟧ };

    fn from_parts(value: NoticeReferenceParts) -> NoticeReference {
        let Sequence((organization, notice_numbers)) = value;
        NoticeReference {
            organization,
            notice_numbers,
        }
    }

    fn parts_are_one() {
        <NoticeReferenceParts>::values_are_one();
    }
}

impl<S: Source> DecodeParts<S> for NoticeReference {
    fn trace_parts<P: Trace>(
        alloc: Global,
        cons: &mut Constructed<'_, S>,
        tag: Tag,
        path: &mut P,
    ) -> Result<Option<NoticeReferenceParts>, DecodeError<S::Error>> {
        <NoticeReferenceParts>::trace_opt_if(alloc, cons, tag, path)
    }
}

impl EncodeParts for NoticeReference {
    ghost written = { ⟦<NoticeReferenceParts as Encode>⟧ };

    fn give_parts<T, U: UseParts<T>>(&self, tag: Tag, to: U, target: &mut T) -> U::Out {
        to.use_parts(
            &Sequence((ByRef(&self.organization), ByRef(&self.notice_numbers))),
            tag,
            target,
        )
    }

    fn are_read_back(tag: Tag, mode: Mode) {
        <NoticeReferenceParts>::is_read_back(tag, mode);
    }

    ghost made = { λ v. (record { organization = v.0; notice_numbers = v.1 }, refl) };
}

/// Text that is shown (RFC 5280, section 4.2.1.4).
///
///     DisplayText ::= CHOICE {
///         ia5String      IA5String      (SIZE (1..200)),
///         visibleString  VisibleString  (SIZE (1..200)),
///         bmpString      BMPString      (SIZE (1..200)),
///         utf8String     UTF8String     (SIZE (1..200)) }
///
/// A text of any length is read.
#[derive(Debug, Drop)]
pub enum DisplayText {
    /// ASCII.
    Ia5String(Ia5Text),
    /// Characters of ASCII that print.
    VisibleString(VisibleText),
    /// Characters of two octets.
    BmpString(BmpText),
    /// Characters in UTF-8.
    Utf8String(Utf8Text),
}

ghost use Rattle.extensions.specs.declared.notices.DisplayText.TheVariants as string;

/// What defines [`DisplayText`].
type DisplayTextParts = Choice2<Ia5Text, Choice2<VisibleText, Choice2<BmpText, Utf8Text>>>;

impl Parts for DisplayText {
    type As = DisplayTextParts;

    type Tags = DisplayTextTags;

    const NAME: &'static str = "DisplayText";

    const PARTS: &'static [&'static str] = &[
        "ia5_string",
        "visible_string",
        "bmp_string",
        "utf8_string",
    ];

    ghost parts = { elim [
      | string.Ia5String x ↦ One x
      | string.VisibleString x ↦ Two (One x)
      | string.BmpString x ↦ Two (Two (One x))
      | string.Utf8String x ↦ Two (Two (Two x))
    ] };

    ghost typed = { ⟦<DisplayTextParts as Type>⟧ };

    fn from_parts(value: DisplayTextParts) -> DisplayText {
        match value {
            Choice2::One(value) => DisplayText::Ia5String(value),
            Choice2::Two(Choice2::One(value)) => DisplayText::VisibleString(value),
            Choice2::Two(Choice2::Two(Choice2::One(value))) => DisplayText::BmpString(value),
            Choice2::Two(Choice2::Two(Choice2::Two(value))) => DisplayText::Utf8String(value),
        }
    }

    fn parts_are_one() {
        <DisplayTextParts>::values_are_one();
    }
}

impl<S: Source> DecodeParts<S> for DisplayText {
    fn trace_parts<P: Trace>(
        alloc: Global,
        cons: &mut Constructed<'_, S>,
        tag: Tag,
        path: &mut P,
    ) -> Result<Option<DisplayTextParts>, DecodeError<S::Error>> {
        <DisplayTextParts>::trace_opt_if(alloc, cons, tag, path)
    }
}

impl EncodeParts for DisplayText {
    ghost written = { ⟦<DisplayTextParts as Encode>⟧ };

    fn give_parts<T, U: UseParts<T>>(&self, _tag: Tag, to: U, target: &mut T) -> U::Out {
        match self {
            DisplayText::Ia5String(value) => to.use_alternative(value, target),
            DisplayText::VisibleString(value) => to.use_alternative(value, target),
            DisplayText::BmpString(value) => to.use_alternative(value, target),
            DisplayText::Utf8String(value) => to.use_alternative(value, target),
        }
    }

    fn are_read_back(tag: Tag, mode: Mode) {
        <DisplayTextParts>::is_read_back(tag, mode);
    }

    ghost made = { elim [
      | One x ↦ (string.Ia5String x, refl)
      | Two (One x) ↦ (string.VisibleString x, refl)
      | Two (Two (One x)) ↦ (string.BmpString x, refl)
      | Two (Two (Two x)) ↦ (string.Utf8String x, refl)
    ] };
}

/// The tags of a [`DisplayText`], as a type without values.
///
/// With it, a proof about a type that holds one doesn't unfold the types of its alternatives.
#[derive(Clone, Copy, Debug, Drop)]
pub struct DisplayTextTags;

impl Type for DisplayTextTags {
    ghost TAG = { ⟦<DisplayTextParts as Type>⟧.TAG };

    #[inline(always)]
    fn tag() -> Tag {
        <DisplayTextParts>::tag()
    }

    ghost expects = { ⟦<DisplayTextParts as Type>⟧.expects };

    fn expect<P: Trace>(path: &mut P) {
        <DisplayTextParts>::expect(path);
    }

    ghost tags = { ⟦<DisplayTextParts as Type>⟧.tags };

    ghost Key = { ⊤ };

    ghost key = { λ _. tt };

    ghost means = { λ _ _ _. ⊥ };

    fn values_are_one() {}

    ghost tagged = { inl refl };

    ghost value_tags = { either_tagged (only_tagged ia5_string_tagged) (either_tagged (only_tagged visible_string_tagged) (either_tagged (only_tagged bmp_string_tagged) (only_tagged utf8_string_tagged))) };
}
