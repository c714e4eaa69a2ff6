//! Strings of characters of a set, as types of their own.
//!
//! Each is read and written as the string that it holds. They are types of their own, since the
//! checker can't state types defined by others that are defined by such a string.
ghost use Rattle.std.specs.Prelude.{List, refl, true, ℕ};
ghost use Rattle.bcder.specs.calls.RestrictedString.{MeansRestricted};
ghost use Rattle.bcder.specs.calls.StringMeaning.{StringMeans};
ghost use Rattle.bcder.specs.calls.StringOctets.{octets_of};
ghost use Rattle.bcder.specs.laws.StringMeanings.{StringMeans_lawful};
ghost use Rattle.bcder.specs.x690.CharSet.{IsOfSet};
ghost use Rattle.asn1.specs.Markers.{only_fixed};
ghost use Rattle.asn1.specs.Strings.{IsWrittenAsString};
ghost use Rattle.asn1.specs.CharacterLaws.{bmp_string_tagged, universal_string_tagged};
ghost use Rattle.asn1.specs.CharacterLaws.{visible_string_tagged};
ghost use Rattle.asn1.specs.Tags.{ia5_string_tagged, only_tagged, printable_string_tagged};
ghost use Rattle.asn1.specs.Tags.{utf8_string_tagged};
ghost use Rattle.asn1.specs.Types.{Only};

use asn1::{
    BmpCharSet, Decode, Encode, FixedTag, Part, Trace, Type, UniversalCharSet, VisibleCharSet,
};
use bcder::decode::{Constructed, DecodeError, Source};
use bcder::encode::{EncodeError, WriteError};
use bcder::string::{CharSet, Ia5CharSet, PrintableCharSet, RestrictedString, Utf8CharSet};
use bcder::{Mode, Tag};
use std::alloc::Global;
use std::io;
use std::marker::Model;

/// An IA5String (X.680, 41; X.690, 8.23).
#[derive(Debug, Drop)]
pub struct Ia5Text(pub RestrictedString<Ia5CharSet>);

/// In clauses it is the string.
impl Model for Ia5Text {
    ghost use Rattle.bcder.specs.calls.StringOctets.{StringOctets};

    ghost Value = { StringOctets };

    ghost view = { λ x. x.0 };

    ghost inverse = { λ v. record { 0 = v } };
}

impl Type for Ia5Text {
    ghost TAG = { ⟦<Ia5CharSet as CharSet>⟧.TAG };

    #[inline(always)]
    fn tag() -> Tag {
        <Ia5CharSet as CharSet>::TAG
    }

    fn expect<P: Trace>(path: &mut P) {
        path.note(Part::Expected(Self::tag()));
    }

    ghost tags = { Only };

    ghost Key = { List ℕ };

    ghost key = { octets_of };

    ghost means = { MeansRestricted ⟦<Ia5CharSet as CharSet>⟧.step };

    fn values_are_one() {
        <RestrictedString<Ia5CharSet>>::values_are_one();
    }

    ghost tagged = { refl };

    ghost value_tags = { only_tagged ia5_string_tagged };
}

impl FixedTag for Ia5Text {
    ghost fixed = { only_fixed };
}

impl<S: Source> Decode<S> for Ia5Text {
    ghost may_lack = { true };

    #[inline(always)]
    fn trace_opt_if<P: Trace>(
        alloc: Global,
        cons: &mut Constructed<'_, S>,
        tag: Tag,
        path: &mut P,
    ) -> Result<Option<Ia5Text>, DecodeError<S::Error>> {
        match <RestrictedString<Ia5CharSet>>::trace_opt_if(alloc, cons, tag, path) {
            Ok(Some(string)) => Ok(Some(Ia5Text(string))),
            Ok(None) => Ok(None),
            Err(error) => Err(error),
        }
    }
}

/// It is written as the string that it holds.
impl Encode for Ia5Text {
    ghost writes = { λ tag x mode. StringMeans tag x mode };

    ghost is_clear = { λ x mode.
        IsWrittenAsString mode x × IsOfSet ⟦<Ia5CharSet as CharSet>⟧.step (octets_of x) };

    fn encoded_len_as(&self, tag: Tag, mode: Mode) -> Result<usize, EncodeError> {
        self.0.encoded_len_as(tag, mode)
    }

    fn write_encoded_as<W: io::Write>(
        &self,
        tag: Tag,
        mode: Mode,
        target: &mut W,
    ) -> Result<(), WriteError> {
        self.0.write_encoded_as(tag, mode, target)
    }

    fn is_read_back(tag: Tag, mode: Mode) {
        <RestrictedString<Ia5CharSet>>::is_read_back(tag, mode);
    }

    ghost lawful = { λ tag x mode. StringMeans_lawful tag x mode };
}

/// A PrintableString (X.680, 41; X.690, 8.23).
#[derive(Debug, Drop)]
pub struct PrintableText(pub RestrictedString<PrintableCharSet>);

/// In clauses it is the string.
impl Model for PrintableText {
    ghost use Rattle.bcder.specs.calls.StringOctets.{StringOctets};

    ghost Value = { StringOctets };

    ghost view = { λ x. x.0 };

    ghost inverse = { λ v. record { 0 = v } };
}

impl Type for PrintableText {
    ghost TAG = { ⟦<PrintableCharSet as CharSet>⟧.TAG };

    #[inline(always)]
    fn tag() -> Tag {
        <PrintableCharSet as CharSet>::TAG
    }

    fn expect<P: Trace>(path: &mut P) {
        path.note(Part::Expected(Self::tag()));
    }

    ghost tags = { Only };

    ghost Key = { List ℕ };

    ghost key = { octets_of };

    ghost means = { MeansRestricted ⟦<PrintableCharSet as CharSet>⟧.step };

    fn values_are_one() {
        <RestrictedString<PrintableCharSet>>::values_are_one();
    }

    ghost tagged = { refl };

    ghost value_tags = { only_tagged printable_string_tagged };
}

impl FixedTag for PrintableText {
    ghost fixed = { only_fixed };
}

impl<S: Source> Decode<S> for PrintableText {
    ghost may_lack = { true };

    #[inline(always)]
    fn trace_opt_if<P: Trace>(
        alloc: Global,
        cons: &mut Constructed<'_, S>,
        tag: Tag,
        path: &mut P,
    ) -> Result<Option<PrintableText>, DecodeError<S::Error>> {
        match <RestrictedString<PrintableCharSet>>::trace_opt_if(alloc, cons, tag, path) {
            Ok(Some(string)) => Ok(Some(PrintableText(string))),
            Ok(None) => Ok(None),
            Err(error) => Err(error),
        }
    }
}

/// It is written as the string that it holds.
impl Encode for PrintableText {
    ghost writes = { λ tag x mode. StringMeans tag x mode };

    ghost is_clear = { λ x mode.
        IsWrittenAsString mode x × IsOfSet ⟦<PrintableCharSet as CharSet>⟧.step (octets_of x) };

    fn encoded_len_as(&self, tag: Tag, mode: Mode) -> Result<usize, EncodeError> {
        self.0.encoded_len_as(tag, mode)
    }

    fn write_encoded_as<W: io::Write>(
        &self,
        tag: Tag,
        mode: Mode,
        target: &mut W,
    ) -> Result<(), WriteError> {
        self.0.write_encoded_as(tag, mode, target)
    }

    fn is_read_back(tag: Tag, mode: Mode) {
        <RestrictedString<PrintableCharSet>>::is_read_back(tag, mode);
    }

    ghost lawful = { λ tag x mode. StringMeans_lawful tag x mode };
}

/// A UTF8String (X.680, 41; X.690, 8.23).
#[derive(Debug, Drop)]
pub struct Utf8Text(pub RestrictedString<Utf8CharSet>);

/// In clauses it is the string.
impl Model for Utf8Text {
    ghost use Rattle.bcder.specs.calls.StringOctets.{StringOctets};

    ghost Value = { StringOctets };

    ghost view = { λ x. x.0 };

    ghost inverse = { λ v. record { 0 = v } };
}

impl Type for Utf8Text {
    ghost TAG = { ⟦<Utf8CharSet as CharSet>⟧.TAG };

    #[inline(always)]
    fn tag() -> Tag {
        <Utf8CharSet as CharSet>::TAG
    }

    fn expect<P: Trace>(path: &mut P) {
        path.note(Part::Expected(Self::tag()));
    }

    ghost tags = { Only };

    ghost Key = { List ℕ };

    ghost key = { octets_of };

    ghost means = { MeansRestricted ⟦<Utf8CharSet as CharSet>⟧.step };

    fn values_are_one() {
        <RestrictedString<Utf8CharSet>>::values_are_one();
    }

    ghost tagged = { refl };

    ghost value_tags = { only_tagged utf8_string_tagged };
}

impl FixedTag for Utf8Text {
    ghost fixed = { only_fixed };
}

impl<S: Source> Decode<S> for Utf8Text {
    ghost may_lack = { true };

    #[inline(always)]
    fn trace_opt_if<P: Trace>(
        alloc: Global,
        cons: &mut Constructed<'_, S>,
        tag: Tag,
        path: &mut P,
    ) -> Result<Option<Utf8Text>, DecodeError<S::Error>> {
        match <RestrictedString<Utf8CharSet>>::trace_opt_if(alloc, cons, tag, path) {
            Ok(Some(string)) => Ok(Some(Utf8Text(string))),
            Ok(None) => Ok(None),
            Err(error) => Err(error),
        }
    }
}

/// It is written as the string that it holds.
impl Encode for Utf8Text {
    ghost writes = { λ tag x mode. StringMeans tag x mode };

    ghost is_clear = { λ x mode.
        IsWrittenAsString mode x × IsOfSet ⟦<Utf8CharSet as CharSet>⟧.step (octets_of x) };

    fn encoded_len_as(&self, tag: Tag, mode: Mode) -> Result<usize, EncodeError> {
        self.0.encoded_len_as(tag, mode)
    }

    fn write_encoded_as<W: io::Write>(
        &self,
        tag: Tag,
        mode: Mode,
        target: &mut W,
    ) -> Result<(), WriteError> {
        self.0.write_encoded_as(tag, mode, target)
    }

    fn is_read_back(tag: Tag, mode: Mode) {
        <RestrictedString<Utf8CharSet>>::is_read_back(tag, mode);
    }

    ghost lawful = { λ tag x mode. StringMeans_lawful tag x mode };
}

/// A VisibleString (X.680, 41; X.690, 8.23).
#[derive(Debug, Drop)]
pub struct VisibleText(pub RestrictedString<VisibleCharSet>);

/// In clauses it is the string.
impl Model for VisibleText {
    ghost use Rattle.bcder.specs.calls.StringOctets.{StringOctets};

    ghost Value = { StringOctets };

    ghost view = { λ x. x.0 };

    ghost inverse = { λ v. record { 0 = v } };
}

impl Type for VisibleText {
    ghost TAG = { ⟦<VisibleCharSet as CharSet>⟧.TAG };

    #[inline(always)]
    fn tag() -> Tag {
        <VisibleCharSet as CharSet>::TAG
    }

    fn expect<P: Trace>(path: &mut P) {
        path.note(Part::Expected(Self::tag()));
    }

    ghost tags = { Only };

    ghost Key = { List ℕ };

    ghost key = { octets_of };

    ghost means = { MeansRestricted ⟦<VisibleCharSet as CharSet>⟧.step };

    fn values_are_one() {
        <RestrictedString<VisibleCharSet>>::values_are_one();
    }

    ghost tagged = { refl };

    ghost value_tags = { only_tagged visible_string_tagged };
}

impl FixedTag for VisibleText {
    ghost fixed = { only_fixed };
}

impl<S: Source> Decode<S> for VisibleText {
    ghost may_lack = { true };

    #[inline(always)]
    fn trace_opt_if<P: Trace>(
        alloc: Global,
        cons: &mut Constructed<'_, S>,
        tag: Tag,
        path: &mut P,
    ) -> Result<Option<VisibleText>, DecodeError<S::Error>> {
        match <RestrictedString<VisibleCharSet>>::trace_opt_if(alloc, cons, tag, path) {
            Ok(Some(string)) => Ok(Some(VisibleText(string))),
            Ok(None) => Ok(None),
            Err(error) => Err(error),
        }
    }
}

/// It is written as the string that it holds.
impl Encode for VisibleText {
    ghost writes = { λ tag x mode. StringMeans tag x mode };

    ghost is_clear = { λ x mode.
        IsWrittenAsString mode x × IsOfSet ⟦<VisibleCharSet as CharSet>⟧.step (octets_of x) };

    fn encoded_len_as(&self, tag: Tag, mode: Mode) -> Result<usize, EncodeError> {
        self.0.encoded_len_as(tag, mode)
    }

    fn write_encoded_as<W: io::Write>(
        &self,
        tag: Tag,
        mode: Mode,
        target: &mut W,
    ) -> Result<(), WriteError> {
        self.0.write_encoded_as(tag, mode, target)
    }

    fn is_read_back(tag: Tag, mode: Mode) {
        <RestrictedString<VisibleCharSet>>::is_read_back(tag, mode);
    }

    ghost lawful = { λ tag x mode. StringMeans_lawful tag x mode };
}

/// A BMPString (X.680, 41; X.690, 8.23).
#[derive(Debug, Drop)]
pub struct BmpText(pub RestrictedString<BmpCharSet>);

/// In clauses it is the string.
impl Model for BmpText {
    ghost use Rattle.bcder.specs.calls.StringOctets.{StringOctets};

    ghost Value = { StringOctets };

    ghost view = { λ x. x.0 };

    ghost inverse = { λ v. record { 0 = v } };
}

impl Type for BmpText {
    ghost TAG = { ⟦<BmpCharSet as CharSet>⟧.TAG };

    #[inline(always)]
    fn tag() -> Tag {
        <BmpCharSet as CharSet>::TAG
    }

    fn expect<P: Trace>(path: &mut P) {
        path.note(Part::Expected(Self::tag()));
    }

    ghost tags = { Only };

    ghost Key = { List ℕ };

    ghost key = { octets_of };

    ghost means = { MeansRestricted ⟦<BmpCharSet as CharSet>⟧.step };

    fn values_are_one() {
        <RestrictedString<BmpCharSet>>::values_are_one();
    }

    ghost tagged = { refl };

    ghost value_tags = { only_tagged bmp_string_tagged };
}

impl FixedTag for BmpText {
    ghost fixed = { only_fixed };
}

impl<S: Source> Decode<S> for BmpText {
    ghost may_lack = { true };

    #[inline(always)]
    fn trace_opt_if<P: Trace>(
        alloc: Global,
        cons: &mut Constructed<'_, S>,
        tag: Tag,
        path: &mut P,
    ) -> Result<Option<BmpText>, DecodeError<S::Error>> {
        match <RestrictedString<BmpCharSet>>::trace_opt_if(alloc, cons, tag, path) {
            Ok(Some(string)) => Ok(Some(BmpText(string))),
            Ok(None) => Ok(None),
            Err(error) => Err(error),
        }
    }
}

/// It is written as the string that it holds.
impl Encode for BmpText {
    ghost writes = { λ tag x mode. StringMeans tag x mode };

    ghost is_clear = { λ x mode.
        IsWrittenAsString mode x × IsOfSet ⟦<BmpCharSet as CharSet>⟧.step (octets_of x) };

    fn encoded_len_as(&self, tag: Tag, mode: Mode) -> Result<usize, EncodeError> {
        self.0.encoded_len_as(tag, mode)
    }

    fn write_encoded_as<W: io::Write>(
        &self,
        tag: Tag,
        mode: Mode,
        target: &mut W,
    ) -> Result<(), WriteError> {
        self.0.write_encoded_as(tag, mode, target)
    }

    fn is_read_back(tag: Tag, mode: Mode) {
        <RestrictedString<BmpCharSet>>::is_read_back(tag, mode);
    }

    ghost lawful = { λ tag x mode. StringMeans_lawful tag x mode };
}

/// A UniversalString (X.680, 41; X.690, 8.23).
#[derive(Debug, Drop)]
pub struct UniversalText(pub RestrictedString<UniversalCharSet>);

/// In clauses it is the string.
impl Model for UniversalText {
    ghost use Rattle.bcder.specs.calls.StringOctets.{StringOctets};

    ghost Value = { StringOctets };

    ghost view = { λ x. x.0 };

    ghost inverse = { λ v. record { 0 = v } };
}

impl Type for UniversalText {
    ghost TAG = { ⟦<UniversalCharSet as CharSet>⟧.TAG };

    #[inline(always)]
    fn tag() -> Tag {
        <UniversalCharSet as CharSet>::TAG
    }

    fn expect<P: Trace>(path: &mut P) {
        path.note(Part::Expected(Self::tag()));
    }

    ghost tags = { Only };

    ghost Key = { List ℕ };

    ghost key = { octets_of };

    ghost means = { MeansRestricted ⟦<UniversalCharSet as CharSet>⟧.step };

    fn values_are_one() {
        <RestrictedString<UniversalCharSet>>::values_are_one();
    }

    ghost tagged = { refl };

    ghost value_tags = { only_tagged universal_string_tagged };
}

impl FixedTag for UniversalText {
    ghost fixed = { only_fixed };
}

impl<S: Source> Decode<S> for UniversalText {
    ghost may_lack = { true };

    #[inline(always)]
    fn trace_opt_if<P: Trace>(
        alloc: Global,
        cons: &mut Constructed<'_, S>,
        tag: Tag,
        path: &mut P,
    ) -> Result<Option<UniversalText>, DecodeError<S::Error>> {
        match <RestrictedString<UniversalCharSet>>::trace_opt_if(alloc, cons, tag, path) {
            Ok(Some(string)) => Ok(Some(UniversalText(string))),
            Ok(None) => Ok(None),
            Err(error) => Err(error),
        }
    }
}

/// It is written as the string that it holds.
impl Encode for UniversalText {
    ghost writes = { λ tag x mode. StringMeans tag x mode };

    ghost is_clear = { λ x mode.
        IsWrittenAsString mode x × IsOfSet ⟦<UniversalCharSet as CharSet>⟧.step (octets_of x) };

    fn encoded_len_as(&self, tag: Tag, mode: Mode) -> Result<usize, EncodeError> {
        self.0.encoded_len_as(tag, mode)
    }

    fn write_encoded_as<W: io::Write>(
        &self,
        tag: Tag,
        mode: Mode,
        target: &mut W,
    ) -> Result<(), WriteError> {
        self.0.write_encoded_as(tag, mode, target)
    }

    fn is_read_back(tag: Tag, mode: Mode) {
        <RestrictedString<UniversalCharSet>>::is_read_back(tag, mode);
    }

    ghost lawful = { λ tag x mode. StringMeans_lawful tag x mode };
}
