//! Types whose values come back, which the checker finds out by itself: there is no condition that
//! a user proves, and no proof file. Expected values are worked by hand from X.690.
ghost use Rattle.std.specs.Prelude.{◌≡◌, Decides, IfOk, false, refl};
ghost use Rattle.bcder.specs.declared.mode.Mode.TheVariants.{Der};
ghost use Rattle.bcder.specs.x690.BitString.{IsBits, MayHave};
ghost use Rattle.bcder.specs.x690.ObjectIdentifier.{IsComplete};
ghost use Rattle.asn1.specs.Decoded.{IsDecodedBack};
ghost use Rattle.asn1.specs.TagSets.{only_in};

use asn1::laws::{each_value_is_decoded, is_decoded_back, round_trip};
use asn1::{
    Any, ByRef, Choice2, Clear, ClearDefinition, ClearParts, Context, Decode, DecodeDefinition,
    DecodeParts, DefaultValue, Definition, Encode, EncodeDefinition, EncodeParts, Explicit,
    Implicit, ObjectIdentifier, OctetStringRef, OrDefault, Parts, Sequence, SequenceOf,
    SequenceTag, Set, Trace, Type, UseParts, Utf8StringRef,
};
use bcder::decode::{Constructed, DecodeError, Source};
use bcder::encode::EncodeError;
use bcder::{BitString, Mode, NoMemory, OctetString, Tag, Unsigned};
use std::alloc::Global;

/// `BasicConstraints ::= SEQUENCE { cA BOOLEAN DEFAULT FALSE, pathLen INTEGER OPTIONAL }`.
#[derive(Drop)]
struct Constraints {
    ca: OrDefault<bool, NoCa>,
    path_len: Option<u32>,
}

/// `FALSE`.
struct NoCa;

impl DefaultValue<bool> for NoCa {
    ghost default = { false };

    fn is_default(value: &bool) -> bool {
        !*value
    }

    fn make(_alloc: Global) -> Result<bool, NoMemory> {
        Ok(false)
    }
}

impl Definition for Constraints {
    type As = Sequence<(OrDefault<bool, NoCa>, Option<u32>)>;

    ghost parts = { λ x. (x.ca, x.path_len) };

    fn from_parts(value: Sequence<(OrDefault<bool, NoCa>, Option<u32>)>) -> Constraints {
        let Sequence((ca, path_len)) = value;
        Constraints { ca, path_len }
    }
}

impl<S: Source> DecodeDefinition<S> for Constraints {}

impl EncodeDefinition for Constraints {
    fn give_parts<T, U: UseParts<T>>(&self, tag: Tag, to: U, target: &mut T) -> U::Out {
        to.use_parts(
            &Sequence((ByRef(&self.ca), ByRef(&self.path_len))),
            tag,
            target,
        )
    }

    ghost made = { λ v. (record { ca = v.0; path_len = v.1 }, refl) };
}

impl ClearDefinition for Constraints {
    fn parts_are_clear_in(&self, mode: Mode) -> bool {
        Sequence((ByRef(&self.ca), ByRef(&self.path_len))).is_clear_in(mode)
    }
}

/// `Span ::= SEQUENCE { from INTEGER, until INTEGER OPTIONAL }`, a struct inside another.
#[derive(Drop)]
struct Span {
    from: u32,
    until: Option<u32>,
}

/// What defines [`Span`].
type SpanParts = Sequence<(u32, Option<u32>)>;

impl Parts for Span {
    type As = SpanParts;

    type Tags = SequenceTag;

    ghost parts = { λ x. (x.from, x.until) };

    ghost typed = { ⟦<SpanParts as Type>⟧ };

    fn from_parts(value: SpanParts) -> Span {
        let Sequence((from, until)) = value;
        Span { from, until }
    }

    fn parts_are_one() {
        <SpanParts>::values_are_one();
    }
}

impl<S: Source> DecodeParts<S> for Span {
    ghost may_lack = { false };

    fn trace_parts<P: Trace>(
        alloc: Global,
        cons: &mut Constructed<'_, S>,
        tag: Tag,
        path: &mut P,
    ) -> Result<Option<SpanParts>, DecodeError<S::Error>> {
        <SpanParts>::trace_opt_if(alloc, cons, tag, path)
    }
}

impl EncodeParts for Span {
    ghost written = { ⟦<SpanParts as Encode>⟧ };

    fn give_parts<T, U: UseParts<T>>(&self, tag: Tag, to: U, target: &mut T) -> U::Out {
        to.use_parts(
            &Sequence((ByRef(&self.from), ByRef(&self.until))),
            tag,
            target,
        )
    }

    fn are_read_back(tag: Tag, mode: Mode) {
        <SpanParts>::is_read_back(tag, mode);
    }

    ghost made = { λ v. (record { from = v.0; until = v.1 }, refl) };
}

impl ClearParts for Span {
    ghost cleared = { ⟦<SpanParts as Clear>⟧ };

    fn parts_are_clear_in(&self, mode: Mode) -> bool {
        Sequence((ByRef(&self.from), ByRef(&self.until))).is_clear_in(mode)
    }

    ghost in_its_set = { only_in };
}

/// `SEQUENCE { spans SEQUENCE OF Span, last BOOLEAN }`.
type Spans = Sequence<(SequenceOf<Span>, bool)>;

/// `SEQUENCE { many INTEGER OPTIONAL, yes BOOLEAN }`: the tags are distinct.
type Told = Sequence<(Option<u32>, bool)>;

/// Such a value comes back if its first field is left out.
fn left_out_comes_back() {
    each_value_is_decoded(&Sequence((None::<u32>, true)), Mode::Der);
}

/// A SET of a CHOICE of a BOOLEAN and an INTEGER, an OCTET STRING that may be left out, and an
/// INTEGER with the tag `[0]`: the tags are distinct, and ascend.
type Ascending = Set<
    (
        Choice2<bool, u32>,
        Option<OctetString>,
        Implicit<Context<0>, Unsigned>,
    ),
>;

/// Encodes a SET and decodes it.
fn set_again(alloc: Global, mode: Mode, x: &Ascending) -> Result<Ascending, EncodeError>
    ensures { IfOk result (λ y. ⟦<Ascending as Type>⟧.key y ≡ ⟦<Ascending as Type>⟧.key x.now) }
{
    round_trip(alloc, mode, x)
}

/// A SET comes back if its fields are in ascending order of their tags.
fn ascending_fields_come_back() {
    each_value_is_decoded(&Set((true, 7u32)), Mode::Der);
}

/// `SEQUENCE { first [0] EXPLICIT INTEGER, second BOOLEAN }`, the second in memory of its own.
type Boxed = Sequence<(Explicit<Context<0>, u32>, Box<bool>)>;

/// A number, and one value of whatever type.
type Open = Sequence<(u32, Option<Any>)>;

/// Octets and characters that a source lends.
type Lent<'a> = Sequence<(OctetStringRef<&'a [u8]>, Utf8StringRef<&'a [u8]>)>;

/// In DER, what is encoded of lent octets is decoded as them, and as no others.
fn lent_octets_are_decoded(x: &Lent<'_>)
    ensures { IsDecodedBack Der (⟦<Lent<'static> as Type>⟧.tags ⟦<Lent<'static> as Type>⟧.TAG)
        (⟦<Lent<'static> as Type>⟧.means Der) ⟦<Lent<'static> as Type>⟧.key
        (⟦<Lent<'static> as Encode>⟧.writes ⟦<Lent<'static> as Type>⟧.TAG x.now Der) x.now }
{
    each_value_is_decoded(x, Mode::Der);
}

/// In BER a BIT STRING comes back.
fn bits_again(alloc: Global, x: &BitString) -> Result<BitString, EncodeError>
    ensures { IfOk result (λ y. ⟦<BitString as Type>⟧.key y ≡ ⟦<BitString as Type>⟧.key x.now) }
{
    round_trip(alloc, Mode::Ber, x)
}

/// In CER and DER it does if its unused bits are zero.
fn bits_come_back(mode: Mode, x: &BitString) -> bool
    ensures { Decides result (IsBits x.now × MayHave mode x.now) }
{
    is_decoded_back(x, mode)
}

/// An OBJECT IDENTIFIER comes back if its octets end with a subidentifier.
fn identifier_comes_back(mode: Mode, x: &ObjectIdentifier) -> bool
    ensures { Decides result (IsComplete x.now.0) }
{
    is_decoded_back(x, mode)
}

#[cfg(test)]
mod tests {
    use super::{
        Ascending, Boxed, Constraints, Lent, Open, Spans, Told, bits_again, bits_come_back,
        identifier_comes_back, lent_octets_are_decoded,
    };
    use crate::rows::{Again, come_back, value, writes};
    use asn1::laws::{is_decoded_back, round_trip};
    use asn1::{ObjectIdentifier, OctetStringRef, decode};
    use bcder::{BitString, Mode, Oid};
    use bytes::Bytes;
    use std::alloc::Global;
    use std::process::Abort;

    const CONSTRAINTS: [Again; 3] = [
        (
            Mode::Der,
            &[0x30, 0x06, 0x01, 0x01, 0xFF, 0x02, 0x01, 0x03],
            Mode::Ber,
            &[0x30, 0x06, 0x01, 0x01, 0xFF, 0x02, 0x01, 0x03],
        ),
        (
            Mode::Der,
            &[0x30, 0x06, 0x01, 0x01, 0xFF, 0x02, 0x01, 0x03],
            Mode::Cer,
            &[0x30, 0x80, 0x01, 0x01, 0xFF, 0x02, 0x01, 0x03, 0x00, 0x00],
        ),
        (
            Mode::Der,
            &[0x30, 0x06, 0x01, 0x01, 0xFF, 0x02, 0x01, 0x03],
            Mode::Der,
            &[0x30, 0x06, 0x01, 0x01, 0xFF, 0x02, 0x01, 0x03],
        ),
    ];

    /// Two structs, and `TRUE`.
    const SPANS: &[u8] = &[
        0x30, 0x12, 0x30, 0x0D, 0x30, 0x03, 0x02, 0x01, 0x05, 0x30, 0x06, 0x02, 0x01, 0x05, 0x02,
        0x01, 0x07, 0x01, 0x01, 0xFF,
    ];

    #[test]
    fn structs_come_back(rt: HostRuntime) {
        come_back::<Constraints>(&rt, rt.alloc(), &CONSTRAINTS);
        come_back::<Spans>(&rt, rt.alloc(), &[(Mode::Der, SPANS, Mode::Der, SPANS)]);
    }

    const TOLD: [Again; 2] = [
        (
            Mode::Der,
            &[0x30, 0x06, 0x02, 0x01, 0x05, 0x01, 0x01, 0xFF],
            Mode::Der,
            &[0x30, 0x06, 0x02, 0x01, 0x05, 0x01, 0x01, 0xFF],
        ),
        (
            Mode::Der,
            &[0x30, 0x03, 0x01, 0x01, 0xFF],
            Mode::Der,
            &[0x30, 0x03, 0x01, 0x01, 0xFF],
        ),
    ];

    #[test]
    fn fields_come_back(rt: HostRuntime) {
        come_back::<Told>(&rt, rt.alloc(), &TOLD);
    }

    const SETS: [Again; 2] = [
        (
            Mode::Der,
            &[0x31, 0x06, 0x01, 0x01, 0xFF, 0x80, 0x01, 0x05],
            Mode::Der,
            &[0x31, 0x06, 0x01, 0x01, 0xFF, 0x80, 0x01, 0x05],
        ),
        (
            Mode::Der,
            &[
                0x31, 0x09, 0x02, 0x01, 0x07, 0x04, 0x01, 0x08, 0x80, 0x01, 0x05,
            ],
            Mode::Der,
            &[
                0x31, 0x09, 0x02, 0x01, 0x07, 0x04, 0x01, 0x08, 0x80, 0x01, 0x05,
            ],
        ),
    ];

    const BOXED: [Again; 1] = [(
        Mode::Der,
        &[0x30, 0x08, 0xA0, 0x03, 0x02, 0x01, 0x05, 0x01, 0x01, 0xFF],
        Mode::Der,
        &[0x30, 0x08, 0xA0, 0x03, 0x02, 0x01, 0x05, 0x01, 0x01, 0xFF],
    )];

    #[test]
    fn sets_and_boxes_come_back(rt: HostRuntime) {
        come_back::<Ascending>(&rt, rt.alloc(), &SETS);
        come_back::<Boxed>(&rt, rt.alloc(), &BOXED);
    }

    /// A number and a NULL.
    const OPEN: &[u8] = &[0x30, 0x05, 0x02, 0x01, 0x05, 0x05, 0x00];

    #[test]
    fn any_value_comes_back(rt: HostRuntime) {
        come_back::<Open>(&rt, rt.alloc(), &[(Mode::Der, OPEN, Mode::Der, OPEN)]);
        // what is kept in DER is not written in CER
        let open = value::<Open>(&rt, rt.alloc(), Mode::Der, OPEN);
        assert!(rt; round_trip(rt.alloc(), Mode::Cer, &open).is_err());
    }

    #[test]
    fn lent_octets_come_back(rt: HostRuntime) {
        let octets: &[u8] = &[0x30, 0x06, 0x04, 0x01, 0x07, 0x0C, 0x01, 0x41];
        let x = decode::<Lent<'_>, &[u8]>(rt.alloc(), Mode::Der, octets).expect(&rt, "refused");
        lent_octets_are_decoded(&x);
        writes(&rt, rt.alloc(), &x, Mode::Der, octets);
    }

    /// Returns whether lent octets come back.
    fn is_back(octets: &[u8], mode: Mode) -> bool {
        is_decoded_back(&OctetStringRef(octets), mode)
    }

    #[test]
    fn long_octets_do_not_come_back_in_cer(rt: HostRuntime) {
        let zeros = [0u8; 1001];
        assert!(rt; is_back(zeros.as_slice(), Mode::Ber));
        // octets that are cut don't (X.690, 9.2)
        assert!(rt; !is_back(zeros.as_slice(), Mode::Cer));
        assert!(rt; is_back(&zeros[..1000], Mode::Cer));
    }

    /// Octets of a BIT STRING in BER, and whether it comes back in CER and DER.
    const BITS: [(&[u8], bool); 3] = [
        (&[0x03, 0x02, 0x04, 0xB0], true),
        (&[0x03, 0x02, 0x04, 0xB8], false),
        (&[0x03, 0x01, 0x00], true),
    ];

    /// Asserts that bits come back in BER, and whether they do in CER and DER.
    fn bits_are_back(rt: &impl Abort, alloc: Global, bits: &BitString, wanted: bool) {
        for mode in [Mode::Ber, Mode::Cer, Mode::Der] {
            assert_eq!(rt; bits_come_back(mode, bits), wanted || mode.is_ber());
        }
        assert!(rt; bits_again(alloc, bits).expect(rt, "refused") == *bits);
    }

    #[test]
    fn bits_come_back_if_unused_ones_are_zero(rt: HostRuntime) {
        for (octets, wanted) in &BITS {
            let bits = value::<BitString>(&rt, rt.alloc(), Mode::Ber, octets);
            bits_are_back(&rt, rt.alloc(), &bits, *wanted);
        }
    }

    /// Octets of an OBJECT IDENTIFIER, and whether it comes back. The second ends within a
    /// subidentifier, and the third has none (X.690, 8.19.2).
    const IDENTIFIERS: [(&[u8], bool); 3] = [
        (&[0x2A, 0x03], true),
        (&[0x2A, 0x83], false),
        (&[], false),
    ];

    /// Returns the identifier with these octets.
    fn identifier(rt: &impl Abort, alloc: Global, octets: &[u8]) -> ObjectIdentifier {
        ObjectIdentifier(Oid(Bytes::copy_from_slice(alloc, octets).expect(rt, "refused")))
    }

    #[test]
    fn identifiers_come_back_if_they_are_complete(rt: HostRuntime) {
        for (octets, wanted) in &IDENTIFIERS {
            let x = identifier(&rt, rt.alloc(), octets);
            assert_eq!(rt; identifier_comes_back(Mode::Der, &x), *wanted, "{octets:?}");
        }
    }
}
