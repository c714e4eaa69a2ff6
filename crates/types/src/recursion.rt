//! A type that holds itself: a value inside is an `Any`, and each level is decoded by a call.
//! Expected values are worked by hand from X.690, 8.12 to 8.14.
ghost use Rattle.asn1.specs.declared.choice.Choice2.TheVariants.{One, Two};

use asn1::{
    Any, Choice2, Context, Decode, DecodeParts, Explicit, Implicit, Parts, SetOf, Trace, Type,
    decode,
};
use bcder::decode::{Constructed, DecodeError, Source};
use bcder::{Mode, OctetString, Tag};
use std::alloc::Global;
use std::convert::Infallible;
use std::process::Abort;

/// One level of a filter of LDAP, in part (RFC 4511, section 4.5.1.7).
///
///     Filter ::= CHOICE {
///         and      [0] SET OF Filter,
///         or       [1] SET OF Filter,
///         not      [2] Filter,
///         present  [7] OCTET STRING }
#[derive(Debug, Drop)]
enum Level {
    And(SetOf<Any>),
    Or(SetOf<Any>),
    Not(Any),
    Present(OctetString),
}

ghost use Rattle.types.specs.declared.recursion.Level.TheVariants.{And, Or, Not, Present};

/// What defines [`Level`]. A CHOICE of two CHOICEs has the encodings of one of their four types
/// (X.690, 8.13).
type LevelParts = Choice2<
    Choice2<Implicit<Context<0>, SetOf<Any>>, Implicit<Context<1>, SetOf<Any>>>,
    Choice2<Explicit<Context<2>, Any>, Implicit<Context<7>, OctetString>>,
>;

impl Parts for Level {
    type As = LevelParts;

    type Tags = LevelParts;

    ghost parts = { elim [
      | And xs ↦ One (One xs)
      | Or xs ↦ One (Two xs)
      | Not x ↦ Two (One x)
      | Present x ↦ Two (Two x)
    ] };

    ghost typed = { ⟦<LevelParts as Type>⟧ };

    fn from_parts(value: LevelParts) -> Level {
        match value {
            Choice2::One(Choice2::One(all)) => Level::And(all.value),
            Choice2::One(Choice2::Two(some)) => Level::Or(some.value),
            Choice2::Two(Choice2::One(part)) => Level::Not(part.value),
            Choice2::Two(Choice2::Two(name)) => Level::Present(name.value),
        }
    }

    fn parts_are_one() {
        <LevelParts>::values_are_one();
    }
}

impl<S: Source> DecodeParts<S> for Level {
    fn trace_parts<P: Trace>(
        alloc: Global,
        cons: &mut Constructed<'_, S>,
        tag: Tag,
        path: &mut P,
    ) -> Result<Option<LevelParts>, DecodeError<S::Error>> {
        <LevelParts>::trace_opt_if(alloc, cons, tag, path)
    }
}

/// A filter with all its levels.
#[derive(Debug, Drop)]
enum Filter {
    And(Vec<Filter>),
    Or(Vec<Filter>),
    Not(Box<Filter>),
    Present(OctetString),
}

/// Why there is no filter.
#[derive(Debug, Drop)]
enum NoFilter {
    Octets(DecodeError<Infallible>),
    TooDeep,
    NoMemory,
}

/// Reads one level.
fn level_of(alloc: Global, value: Any) -> Result<Level, DecodeError<Infallible>> {
    value.decode_as::<Level>(alloc)
}

/// Reads a filter of at most this many levels.
#[cycle(filter)]
fn filter_of(alloc: Global, value: Any, levels: u32) -> Result<Filter, NoFilter> {
    if levels == 0 {
        return Err(NoFilter::TooDeep);
    }
    match level_of(alloc, value) {
        Ok(Level::And(parts)) => match filters_of(alloc, parts, levels - 1) {
            Ok(filters) => Ok(Filter::And(filters)),
            Err(error) => Err(error),
        },
        Ok(Level::Or(parts)) => match filters_of(alloc, parts, levels - 1) {
            Ok(filters) => Ok(Filter::Or(filters)),
            Err(error) => Err(error),
        },
        Ok(Level::Not(part)) => match filter_of(alloc, part, levels - 1) {
            Ok(filter) => match Box::new(alloc, filter) {
                Ok(filter) => Ok(Filter::Not(filter)),
                Err(_) => Err(NoFilter::NoMemory),
            },
            Err(error) => Err(error),
        },
        Ok(Level::Present(name)) => Ok(Filter::Present(name)),
        Err(error) => Err(NoFilter::Octets(error)),
    }
}

/// Reads the filters of a SET OF.
#[cycle(filter)]
fn filters_of(alloc: Global, parts: SetOf<Any>, levels: u32) -> Result<Vec<Filter>, NoFilter> {
    let mut filters = Vec::new(alloc);
    for part in parts.0 {
        match filter_of(alloc, part, levels) {
            Ok(filter) => match filters.push(filter) {
                Ok(()) => {}
                Err(_) => return Err(NoFilter::NoMemory),
            },
            Err(error) => return Err(error),
        }
    }
    Ok(filters)
}

/// Octets, and the filter of at most three levels that they are.
const FILTERS: [(&[u8], &str); 8] = [
    (&[0x87, 0x02, 0x63, 0x6E], "Present(\"cn\")"),
    // not of not, and one more
    (
        &[0xA2, 0x06, 0xA2, 0x04, 0x87, 0x02, 0x63, 0x6E],
        "Not(Not(Present(\"cn\")))",
    ),
    (
        &[0xA2, 0x08, 0xA2, 0x06, 0xA2, 0x04, 0x87, 0x02, 0x63, 0x6E],
        "TooDeep",
    ),
    // all of two, and any of none
    (
        &[
            0xA0, 0x0A, 0x87, 0x01, 0x61, 0xA2, 0x03, 0x87, 0x01, 0x62, 0xA1, 0x00,
        ],
        "And([Present(\"a\"), Not(Present(\"b\")), Or([])])",
    ),
    // no filter has the tag [3], nor does one inside
    (&[0x83, 0x00], "refused"),
    (&[0xA1, 0x02, 0x83, 0x00], "refused"),
    // two filters behind one explicit tag, and octets that are cut
    (&[0xA2, 0x04, 0x87, 0x00, 0x87, 0x00], "refused"),
    (&[0xA0, 0x03, 0x87, 0x02, 0x63], "refused"),
];

/// Reads a filter of at most three levels.
fn read(alloc: Global, octets: &[u8]) -> Result<Filter, NoFilter> {
    match decode::<Any, &[u8]>(alloc, Mode::Ber, octets) {
        Ok(value) => filter_of(alloc, value, 3),
        Err(error) => Err(NoFilter::Octets(error)),
    }
}

/// Returns how what was read is shown, with octets alone for a string.
fn shown(rt: &impl Abort, alloc: Global, octets: &[u8]) -> String {
    let text = match read(alloc, octets) {
        Ok(filter) => format!(in alloc; "{filter:?}"),
        Err(NoFilter::Octets(_)) => format!(in alloc; "refused"),
        Err(error) => format!(in alloc; "{error:?}"),
    };
    let text = text.expect(rt, "refused");
    let text = text
        .replace(alloc, "OctetString { octets: Whole(b", "")
        .expect(rt, "refused");
    text.replace(alloc, ") }", "").expect(rt, "refused")
}

#[test]
fn filters_hold_filters(rt: HostRuntime) {
    for (octets, wanted) in &FILTERS {
        let found = shown(&rt, rt.alloc(), octets);
        assert_eq!(rt; found.as_str(), *wanted, "{octets:?}");
    }
}
