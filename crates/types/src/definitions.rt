//! Structs and enums that are defined by a type. Expected values are worked by hand from X.690.
ghost use Rattle.std.specs.Prelude.{refl};
ghost use Rattle.asn1.specs.declared.choice.Choice2.TheVariants.{One, Two};

use crate::rows::{Read, lends, takes, writes};
use asn1::{
    ByRef, Choice2, Context, DecodeDefinition, Definition, Encode, EncodeDefinition, Explicit,
    OctetStringRef, Sequence, UseParts,
};
use bcder::decode::{SliceSource, Source};
use bcder::{Mode, Tag};

/// `Validity ::= SEQUENCE { from INTEGER, until INTEGER OPTIONAL }`.
#[derive(Debug, Drop)]
struct Validity {
    from: u32,
    until: Option<u32>,
}

impl Definition for Validity {
    type As = Sequence<(u32, Option<u32>)>;

    ghost parts = { λ x. (x.from, x.until) };

    fn from_parts(value: Sequence<(u32, Option<u32>)>) -> Validity {
        let Sequence((from, until)) = value;
        Validity { from, until }
    }
}

impl<S: Source> DecodeDefinition<S> for Validity {}

impl EncodeDefinition for Validity {
    fn give_parts<T, U: UseParts<T>>(&self, tag: Tag, to: U, target: &mut T) -> U::Out {
        to.use_parts(
            &Sequence((ByRef(&self.from), ByRef(&self.until))),
            tag,
            target,
        )
    }

    ghost made = { λ value. (record { from = value.0; until = value.1 }, refl) };
}

/// `Answer ::= CHOICE { yes BOOLEAN, many INTEGER }`.
#[derive(Debug, Drop)]
enum Answer {
    Yes(bool),
    Many(u32),
}

ghost use Rattle.types.specs.declared.definitions.Answer.TheVariants.{Yes, Many};

impl Definition for Answer {
    type As = Choice2<bool, u32>;

    ghost parts = { elim [ Yes b ↦ One b | Many n ↦ Two n ] };

    fn from_parts(value: Choice2<bool, u32>) -> Answer {
        match value {
            Choice2::One(yes) => Answer::Yes(yes),
            Choice2::Two(many) => Answer::Many(many),
        }
    }
}

impl<S: Source> DecodeDefinition<S> for Answer {}

impl EncodeDefinition for Answer {
    fn give_parts<T, U: UseParts<T>>(&self, _tag: Tag, to: U, target: &mut T) -> U::Out {
        match self {
            Answer::Yes(yes) => to.use_alternative(yes, target),
            Answer::Many(many) => to.use_alternative(many, target),
        }
    }

    ghost made = { elim [ One b ↦ (Yes b, refl) | Two n ↦ (Many n, refl) ] };
}

/// `Wrapped ::= [0] EXPLICIT INTEGER`.
#[derive(Drop)]
struct Wrapped {
    number: u32,
}

impl Definition for Wrapped {
    type As = Explicit<Context<0>, u32>;

    ghost parts = { λ x. x.number };

    fn from_parts(value: Explicit<Context<0>, u32>) -> Wrapped {
        Wrapped {
            number: value.value,
        }
    }
}

impl<S: Source> DecodeDefinition<S> for Wrapped {}

impl EncodeDefinition for Wrapped {
    fn give_parts<T, U: UseParts<T>>(&self, tag: Tag, to: U, target: &mut T) -> U::Out {
        to.use_parts(&Sequence(ByRef(&self.number)), tag, target)
    }

    ghost made = { λ value. (record { number = value }, refl) };
}

/// A number and octets that are lent.
#[derive(Debug, Drop)]
struct Entry<'a> {
    number: u32,
    octets: OctetStringRef<&'a [u8]>,
}

impl<'a> Definition for Entry<'a> {
    type As = Sequence<(u32, OctetStringRef<&'a [u8]>)>;

    ghost parts = { λ x. (x.number, x.octets) };

    fn from_parts(value: Sequence<(u32, OctetStringRef<&'a [u8]>)>) -> Entry<'a> {
        let Sequence((number, octets)) = value;
        Entry { number, octets }
    }
}

impl<'a> DecodeDefinition<SliceSource<'a>> for Entry<'a> {}

const VALIDITY: [Read; 1] = [(
    Mode::Der,
    &[0x30, 0x06, 0x02, 0x01, 0x05, 0x02, 0x01, 0x07],
    "Validity { from: 5, until: Some(7) }",
)];

const ENTRY: [Read; 1] = [(
    Mode::Der,
    &[0x30, 0x07, 0x02, 0x01, 0x05, 0x04, 0x02, 0x07, 0x08],
    "Entry { number: 5, octets: OctetStringRef([7, 8]) }",
)];

#[test]
fn octets_are_lent(rt: HostRuntime) {
    lends::<Entry>(&rt, rt.alloc(), &ENTRY);
}

/// Until when a `Validity` from 5 on is, and as which octets it is written in a mode.
const WRITTEN: [(Option<u32>, Mode, &[u8]); 3] = [
    (
        Some(0x80),
        Mode::Der,
        &[0x30, 0x07, 0x02, 0x01, 0x05, 0x02, 0x02, 0x00, 0x80],
    ),
    (None, Mode::Der, &[0x30, 0x03, 0x02, 0x01, 0x05]),
    (None, Mode::Cer, &[0x30, 0x80, 0x02, 0x01, 0x05, 0x00, 0x00]),
];

#[test]
fn a_struct_is_read_and_written(rt: HostRuntime) {
    takes::<Validity>(&rt, rt.alloc(), &VALIDITY);
    for (until, mode, octets) in &WRITTEN {
        let validity = Validity {
            from: 5,
            until: *until,
        };
        writes(&rt, rt.alloc(), &validity, *mode, octets);
    }
}

#[test]
fn an_enum_is_written(rt: HostRuntime) {
    writes(
        &rt,
        rt.alloc(),
        &Answer::Yes(true),
        Mode::Der,
        &[0x01, 0x01, 0xFF],
    );
    writes(
        &rt,
        rt.alloc(),
        &Answer::Many(7),
        Mode::Der,
        &[0x02, 0x01, 0x07],
    );
    let one: Choice2<bool, u32> = Choice2::One(false);
    writes(&rt, rt.alloc(), &one, Mode::Der, &[0x01, 0x01, 0x00]);
}

#[test]
fn a_tagged_struct_is_written(rt: HostRuntime) {
    let octets: [u8; 5] = [0xA0, 0x03, 0x02, 0x01, 0x05];
    writes(&rt, rt.alloc(), &Wrapped { number: 5 }, Mode::Der, &octets);
}

#[test]
fn a_value_with_the_tag_of_the_end_is_refused(rt: HostRuntime) {
    let mut target = Vec::new(rt.alloc());
    let refused = 5u32.write_encoded_as(Tag::END_OF_VALUE, Mode::Der, &mut target);
    assert!(rt; refused.is_err());
    assert_eq!(rt; target.len(), 0);
}
