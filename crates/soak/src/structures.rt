//! Makes structures of values, without the library, and the octets that are to be written of them.
use crate::random::Random;
use bcder::{Mode, Tag};
use std::alloc::{AllocError, Global};
use std::convert::TryFrom;

/// The tag of a constructed value.
#[derive(Clone, Copy)]
pub enum Kind {
    Sequence,
    Set,
    Context(u32),
    Private(u32),
}

/// The largest number of a tag that fits three octets after the first.
const LAST: u32 = 0x1F_FFFF;

impl Kind {
    pub fn tag(self) -> Tag {
        match self {
            Kind::Sequence => Tag::SEQUENCE,
            Kind::Set => Tag::SET,
            Kind::Context(number) => Tag::ctx(number.min(LAST)),
            Kind::Private(number) => Tag::private(number.min(LAST)),
        }
    }

    /// Returns the class and form, and the number (X.690, 8.1.2.2).
    fn identifier(self) -> (u8, u32) {
        match self {
            Kind::Sequence => (0x20, 16),
            Kind::Set => (0x20, 17),
            Kind::Context(number) => (0xA0, number),
            Kind::Private(number) => (0xE0, number),
        }
    }
}

/// A part of a structure: a value, or the beginning or the end of a value with others inside.
#[derive(Drop)]
pub enum Part {
    Begin(Kind),
    End,
    Truth(bool),
    Null,
    Number(i128),

    /// A number that isn't negative, by its digits to the base 256, one or more.
    Unsigned(Vec<u8>),

    /// An object identifier, by its contents octets.
    Identifier(Vec<u8>),

    /// Bits, by the number of those that aren't used at the end, and their octets.
    Bits(u8, Vec<u8>),
    Octets(Vec<u8>),

    /// A text of ASCII.
    Text(Vec<u8>),
}

/// Returns random octets, fewer than `most`.
fn octets(alloc: Global, random: &mut Random, most: usize) -> Result<Vec<u8>, AllocError> {
    let mut octets = Vec::new(alloc);
    for _ in 0..random.below(most) {
        octets.push(random.octet())?;
    }
    Ok(octets)
}

/// Returns how many octets a string has at most. One in 64 may be so long that CER cuts it.
fn most(random: &mut Random) -> usize {
    if random.one_of(64) { 3300 } else { 20 }
}

/// Returns a text of printable letters.
fn text(alloc: Global, random: &mut Random) -> Result<Vec<u8>, AllocError> {
    let most = most(random);
    let mut text = octets(alloc, random, most)?;
    for octet in text.as_mut_slice() {
        *octet = (*octet % 95).saturating_add(0x20);
    }
    Ok(text)
}

/// Returns a number of any number of bits.
fn number(random: &mut Random) -> i128 {
    let mut octets = [0u8; 16];
    for octet in &mut octets {
        *octet = random.octet();
    }
    let bits = u32::try_from(random.below(128)).unwrap_or(0);
    i128::from_be_bytes(octets).wrapping_shr(bits)
}

/// Returns the contents octets of an object identifier: one to four subidentifiers, of up to three
/// octets.
fn identifier(alloc: Global, random: &mut Random) -> Result<Vec<u8>, AllocError> {
    let mut octets = Vec::new(alloc);
    for _ in 0..=random.below(4) {
        for place in 0..random.below(3) {
            let digit = random.octet() & 0x7F;
            let digit = if place == 0 { digit.max(1) } else { digit };
            octets.push(digit | 0x80)?;
        }
        octets.push(random.octet() & 0x7F)?;
    }
    Ok(octets)
}

/// Returns a value without values inside.
fn value(alloc: Global, random: &mut Random) -> Result<Part, AllocError> {
    Ok(match random.below(8) {
        0 => Part::Truth(random.one_of(2)),
        1 => Part::Null,
        2 => Part::Number(number(random)),
        3 => {
            let mut digits = octets(alloc, random, 20)?;
            digits.push(random.octet())?;
            Part::Unsigned(digits)
        }
        4 => Part::Identifier(identifier(alloc, random)?),
        5 => {
            let octets = octets(alloc, random, 20)?;
            let unused = if octets.is_empty() {
                0
            } else {
                random.octet() % 8
            };
            Part::Bits(unused, octets)
        }
        6 => {
            let most = most(random);
            Part::Octets(octets(alloc, random, most)?)
        }
        _ => Part::Text(text(alloc, random)?),
    })
}

/// Returns a structure of up to 12 parts and their ends, in order.
pub fn structure(alloc: Global, random: &mut Random) -> Result<Vec<Part>, AllocError> {
    let mut parts = Vec::new(alloc);
    let mut open = 0usize;
    for _ in 0..=random.below(12) {
        match random.below(4) {
            0 => {
                let number = u32::from(random.octet());
                parts.push(Part::Begin(match random.below(4) {
                    0 => Kind::Set,
                    1 => Kind::Context(number),
                    2 => Kind::Private(number.saturating_mul(500)),
                    _ => Kind::Sequence,
                }))?;
                open = open.saturating_add(1);
            }
            1 if open > 0 => {
                parts.push(Part::End)?;
                open = open.saturating_sub(1);
            }
            _ => parts.push(value(alloc, random)?)?,
        }
    }
    for _ in 0..open {
        parts.push(Part::End)?;
    }
    Ok(parts)
}

/// Appends identifier octets (8.1.2).
fn put_identifier(class_and_form: u8, number: u32, octets: &mut Vec<u8>) -> Result<(), AllocError> {
    let [_, high, middle, low] = number.to_be_bytes();
    if number < 31 {
        return Ok(octets.push(class_and_form | low)?);
    }
    octets.push(class_and_form | 0x1F)?;
    let first = (high & 0x1F) << 2 | middle >> 6;
    let second = (middle & 0x3F) << 1 | low >> 7;
    if number >= 1 << 14 {
        octets.push(first | 0x80)?;
    }
    if number >= 1 << 7 {
        octets.push(second | 0x80)?;
    }
    Ok(octets.push(low & 0x7F)?)
}

/// Appends the fewest length octets of the definite form (8.1.3, 10.1).
fn put_length(len: usize, octets: &mut Vec<u8>) -> Result<(), AllocError> {
    let [high, middle, upper, low] = u32::try_from(len).unwrap_or(0).to_be_bytes();
    match len {
        0..=0x7F => Ok(octets.push(low)?),
        0x80..=0xFF => octets.extend_from_slice(&[0x81, low]),
        0x100..=0xFFFF => octets.extend_from_slice(&[0x82, upper, low]),
        _ => octets.extend_from_slice(&[0x84, high, middle, upper, low]),
    }
}

/// Appends a primitive value with a universal tag below 31.
fn put(tag: u8, contents: &[u8], octets: &mut Vec<u8>) -> Result<(), AllocError> {
    octets.push(tag)?;
    put_length(contents.len(), octets)?;
    octets.extend_from_slice(contents)
}

/// Returns the fewest octets of a number in two's complement (8.3.2).
fn fewest(digits: &[u8]) -> &[u8] {
    let mut rest = digits;
    for _ in 0..digits.len() {
        match rest {
            [0x00, second, ..] if *second < 0x80 => {}
            [0xFF, second, ..] if *second >= 0x80 => {}
            _ => break,
        }
        rest = rest.get(1..).unwrap_or(rest);
    }
    rest
}

/// Returns the contents octets of a number that isn't negative.
pub fn unsigned(alloc: Global, digits: &[u8]) -> Result<Vec<u8>, AllocError> {
    let mut octets = Vec::new(alloc);
    octets.push(0x00)?;
    octets.extend_from_slice(digits)?;
    fewest(&octets).to_vec(alloc)
}

/// Returns the octets of bits in a mode. In CER and DER those that aren't used are zero (11.2.1).
pub fn padded(alloc: Global, mode: Mode, unused: u8, octets: &[u8]) -> Result<Vec<u8>, AllocError> {
    let mut padded = octets.to_vec(alloc)?;
    if mode != Mode::Ber {
        if let Some(last) = padded.last_mut() {
            let count = u32::from(unused);
            *last = last.wrapping_shr(count).wrapping_shl(count);
        }
    }
    Ok(padded)
}

/// Appends a string, which in CER is in segments of 1000 octets if it has more (9.2).
fn put_string(mode: Mode, tag: u8, string: &[u8], octets: &mut Vec<u8>) -> Result<(), AllocError> {
    if mode != Mode::Cer || string.len() <= 1000 {
        return put(tag, string, octets);
    }
    octets.extend_from_slice(&[tag | 0x20, 0x80])?;
    for segment in string.chunks(1000) {
        put(0x04, segment, octets)?;
    }
    octets.extend_from_slice(&[0x00, 0x00])
}

/// Appends a value without values inside.
fn put_value(
    alloc: Global,
    mode: Mode,
    part: &Part,
    octets: &mut Vec<u8>,
) -> Result<(), AllocError> {
    match part {
        Part::Truth(truth) => put(0x01, &[if *truth { 0xFF } else { 0x00 }], octets),
        Part::Number(number) => put(0x02, fewest(&number.to_be_bytes()), octets),
        Part::Unsigned(digits) => put(0x02, &unsigned(alloc, digits)?, octets),
        Part::Identifier(contents) => put(0x06, contents, octets),
        Part::Bits(unused, bits) => {
            let mut contents = Vec::new(alloc);
            contents.push(*unused)?;
            contents.extend_from_slice(&padded(alloc, mode, *unused, bits)?)?;
            put(0x03, &contents, octets)
        }
        Part::Octets(string) => put_string(mode, 0x04, string, octets),
        Part::Text(text) => put_string(mode, 0x0C, text, octets),
        _ => put(0x05, &[], octets),
    }
}

/// Returns the octets of a structure in a mode. A BER encoder writes it as a DER encoder does,
/// except for bits that aren't used.
pub fn octets_of(alloc: Global, mode: Mode, parts: &[Part]) -> Result<Vec<u8>, AllocError> {
    let mut octets = Vec::new(alloc);
    let mut outer = Vec::new(alloc);
    for part in parts {
        match part {
            Part::Begin(kind) => {
                outer.push((*kind, octets))?;
                octets = Vec::new(alloc);
            }
            Part::End => {
                let inside = octets;
                let Some((kind, before)) = outer.pop() else {
                    return Ok(inside);
                };
                octets = before;
                let (class_and_form, number) = kind.identifier();
                put_identifier(class_and_form, number, &mut octets)?;
                if mode == Mode::Cer {
                    octets.push(0x80)?;
                    octets.extend_from_slice(&inside)?;
                    octets.extend_from_slice(&[0x00, 0x00])?;
                } else {
                    put_length(inside.len(), &mut octets)?;
                    octets.extend_from_slice(&inside)?;
                }
            }
            value => put_value(alloc, mode, value, &mut octets)?,
        }
    }
    Ok(octets)
}
