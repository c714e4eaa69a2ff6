//! Values that are kept: compared, hashed, shown, iterated over and read.
use anyhow::Error;
use bcder::captured::CapturedBuilder;
use bcder::decode::{IntoSource, LimitedSource, Primitive, SliceSource, Source};
use bcder::encode::PrimitiveContent;
use bcder::string::Utf8String;
use bcder::{BitString, Captured, Integer, Mode, OctetString, Oid, Tag, Unsigned};
use bytes::Bytes;
use std::alloc::Global;
use std::cmp::Ordering;
use std::convert::TryFrom;
use std::hash::{DefaultHasher, Hash, Hasher};

/// A value of each type that keeps octets.
#[derive(Drop)]
pub struct Things {
    pub integer: Integer,
    pub unsigned: Unsigned,
    pub oid: Oid<Bytes>,
    pub bits: BitString,
    pub whole: OctetString,
    pub cut: OctetString,
    pub text: Utf8String,
    pub captured: Captured,
}

/// The octets `abcd`, cut into three segments.
const CUT: &[u8] = &[
    0x24, 0x0A, 0x04, 0x01, 0x61, 0x04, 0x01, 0x62, 0x04, 0x02, 0x63, 0x64,
];

/// Returns this string.
fn cut(alloc: Global) -> Result<OctetString, Error> {
    let mut source = SliceSource::new(CUT);
    let string = Mode::Ber.decode_lent(&mut source, |cons| OctetString::take_from(alloc, cons))?;
    Ok(string)
}

/// Returns the INTEGER 5, captured.
fn five(alloc: Global) -> Result<Captured, Error> {
    let mut builder = CapturedBuilder::new(alloc, Mode::Der);
    builder.extend(5u8.encode())?;
    Ok(builder.freeze()?)
}

/// Returns the integers and the object identifier.
fn numbers(alloc: Global) -> Result<(Integer, Unsigned, Oid<Bytes>), Error> {
    let integer = Integer::from_i64(alloc, -129)?;
    let unsigned = Unsigned::from_u8(alloc, 200)?;
    let oid = Oid(Bytes::copy_from_slice(alloc, &[0x55, 0x1D, 0x13])?);
    Ok((integer, unsigned, oid))
}

/// Returns the strings in one piece.
fn strings(alloc: Global) -> Result<(BitString, OctetString, Utf8String), Error> {
    let bits = BitString::new(4, Bytes::copy_from_slice(alloc, &[0x0A, 0xFF])?);
    let whole = OctetString::new(Bytes::copy_from_slice(alloc, b"abcd")?);
    let text = Utf8String::from_str(alloc, "aé")?;
    Ok((bits, whole, text))
}

impl Things {
    pub fn new(alloc: Global) -> Result<Things, Error> {
        let cut = cut(alloc)?;
        let captured = five(alloc)?;
        let (integer, unsigned, oid) = numbers(alloc)?;
        let (bits, whole, text) = strings(alloc)?;
        Ok(Things {
            integer,
            unsigned,
            oid,
            bits,
            whole,
            cut,
            text,
            captured,
        })
    }
}

/// Returns what a hasher that gets a value ends with.
fn hash<T: Hash>(value: &T) -> u64 {
    let mut hasher = DefaultHasher::new();
    value.hash(&mut hasher);
    hasher.finish()
}

/// Compares integers, and converts them to Rust's types.
fn integers(one: &Things) -> bool {
    one.integer == one.integer
        && one.integer.cmp(&one.integer) == Ordering::Equal
        && hash(&one.integer) == hash(&one.integer)
        && one.integer.is_negative()
        && !one.integer.is_zero()
        && !one.integer.eq_unsigned(&one.unsigned)
        && i64::try_from(&one.integer) == Ok(-129)
        && one.integer.as_slice() == [0xFF, 0x7F].as_slice()
}

/// Compares unsigned integers, and converts them to Rust's types.
fn unsigned_integers(one: &Things) -> bool {
    one.unsigned == one.unsigned
        && one.unsigned.cmp(&one.unsigned) == Ordering::Equal
        && hash(&one.unsigned) == hash(&one.unsigned)
        && !one.unsigned.is_zero()
        && u8::try_from(&one.unsigned) == Ok(200)
        && one.unsigned.as_slice() == [0x00, 0xC8].as_slice()
}

/// Compares object identifiers, and iterates over their components.
fn identifiers(one: &Things) -> bool {
    let mut sum = 0u32;
    for part in one.oid.iter() {
        sum = sum.saturating_add(part.to_u32().unwrap_or(0));
    }
    one.oid == one.oid && one.oid.same_as(&one.oid) && hash(&one.oid) == hash(&one.oid) && sum == 55
}

/// Shows an object identifier as a text, for which there is room.
fn identifier_is_shown(oid: &Oid<Bytes>, text: &mut String) -> bool {
    text.clear();
    write!(text, "{oid}").is_ok() && text.as_str() == "2.5.29.19"
}

/// Shows a tag and a string as a text, for which there is room.
fn text_is_shown(string: &Utf8String, text: &mut String) -> bool {
    text.clear();
    let tag = Tag::OCTET_STRING;
    write!(text, "{tag}, {string}").is_ok() && text.as_str() == "OCTET STRING, aé"
}

/// Compares bit strings, and iterates over them.
fn bit_strings(one: &Things) -> bool {
    one.bits == one.bits
        && one.bits.bit(4)
        && one.bits.bit_len() == 12
        && one.bits.octet_len() == 2
        && one.bits.octet(1) == 0xFF
        && one.bits.octets().count() == 2
        && one.bits.octet_slice() == Some([0x0A, 0xFF].as_slice())
}

/// Compares octet strings, cut or not.
fn octet_strings_compared(one: &Things) -> bool {
    one.whole == one.cut
        && one.cut.cmp(&one.whole) == Ordering::Equal
        && hash(&one.whole) == hash(&one.cut)
        && one.cut.eq_octets(b"abcd")
        && one.cut.cmp_octets(b"abce") == Ordering::Less
}

/// Iterates over octet strings, cut or not.
fn octet_strings_read(one: &Things) -> bool {
    one.cut.len() == 4
        && !one.cut.is_empty()
        && one.cut.iter().count() == 3
        && one.cut.octets().count() == 4
        && one.cut.as_slice().is_none()
        && one.whole.as_slice() == Some(b"abcd".as_slice())
}

/// Returns whether these are the characters of a string.
fn spells(string: &Utf8String) -> bool {
    let mut chars = string.chars();
    matches!(chars.next(), Some('a')) && matches!(chars.next(), Some('é')) && chars.next().is_none()
}

/// Compares strings of characters, and iterates over them.
fn character_strings(one: &Things) -> bool {
    one.text == one.text
        && one.text.cmp(&one.text) == Ordering::Equal
        && hash(&one.text) == hash(&one.text)
        && spells(&one.text)
        && one.text.as_str() == Some("aé")
}

/// Returns what these calls return.
pub fn ends(one: &Things, text: &mut String) -> [(&'static str, bool); 9] {
    [
        ("Integer", integers(one)),
        ("Unsigned", unsigned_integers(one)),
        ("Oid", identifiers(one)),
        ("Display for Oid", identifier_is_shown(&one.oid, text)),
        ("BitString", bit_strings(one)),
        ("OctetString, compared", octet_strings_compared(one)),
        ("OctetString, read", octet_strings_read(one)),
        ("RestrictedString", character_strings(one)),
        (
            "Display for Tag and RestrictedString",
            text_is_shown(&one.text, text),
        ),
    ]
}

/// Returns whether a source gives these octets, one by one, and no others.
fn gives<S: Source>(source: &mut S, wanted: &[u8]) -> bool {
    for octet in wanted {
        match source.take_opt_u8() {
            Ok(Some(found)) if found == *octet => {}
            _ => return false,
        }
    }
    matches!(source.take_opt_u8(), Ok(None))
}

/// Skips the octets within a limit, and returns whether only the one behind it is left.
fn passes_limit() -> bool {
    let mut source = LimitedSource::new(SliceSource::new(b"abcd"));
    source.set_limit(Some(3));
    let skipped = source.skip_all().is_ok() && source.exhausted().is_ok();
    source.set_limit(None);
    skipped && matches!(source.request(2), Ok(1))
}

/// Reads tags.
fn reads_tags() -> bool {
    let mut source = SliceSource::new(&[0x30, 0x9F, 0x81, 0x01, 0x02]);
    let taken = matches!(Tag::take_from(&mut source), Ok((Tag::SEQUENCE, true)));
    let opt = matches!(Tag::take_opt_from(&mut source), Ok(Some((_, false))));
    let of_another = matches!(Tag::NULL.take_from_if(&mut source), Ok(None));
    taken && opt && of_another && source.len() == 1
}

/// Returns a string and captured values, which calls consume.
pub fn given_up(alloc: Global) -> Result<(OctetString, Captured), Error> {
    let cut = cut(alloc)?;
    let kept = five(alloc)?;
    Ok((cut, kept))
}

/// Returns what sources return, and calls that consume what they are called on.
pub fn source_ends(given_up: (OctetString, Captured)) -> [(&'static str, bool); 5] {
    let (cut, kept) = given_up;
    let alone = Primitive::decode_slice(&[0x05], Mode::Der, |octets| octets.to_u8());
    let cut = gives(&mut cut.into_source(), b"abcd");
    let kept = kept.decode(|cons| cons.take_u8());
    [
        ("LimitedSource", passes_limit()),
        ("Tag", reads_tags()),
        ("Primitive::decode_slice", matches!(alone, Ok(5))),
        ("OctetString::into_source", cut),
        ("Captured::decode", matches!(kept, Ok(5))),
    ]
}
