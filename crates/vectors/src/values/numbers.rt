//! Compares the number that contents octets are, through every reader of integers.
ghost use Rattle.bcder.specs.calls.Views.{Moved, MovedContent, MovedOctets};

use anyhow::Error;
use bcder::decode::{Constructed, Content, DecodeError, Primitive, SliceSource, Source};
use bcder::{Integer, Mode, Unsigned};
use bytes::Bytes;
use lines::tally::{Differing, Tally, differ_in};
use std::alloc::Global;
use std::convert::TryFrom;
use support::calls::{Answer, Typed, ask_typed};

/// What was compared, by the kind of reader.
#[derive(Clone, Copy, Default)]
pub struct Readers {
    /// `Primitive::to_u8` to `to_u128`, `to_i8` to `to_i128`.
    pub octets: Tally,

    /// `Unsigned::u8_from_primitive` and its kin.
    pub from_octets: Tally,

    /// `Content::to_u8` to `to_u64`, `skip_u8_if`.
    pub content: Tally,

    /// `Constructed::take_u8` to `take_u64`.
    pub taken: Tally,

    /// `Constructed::take_opt_u8` to `take_opt_u64`.
    pub optional: Tally,

    /// `Constructed::skip_u8_if`, `skip_opt_u8_if`.
    pub skipped: Tally,

    /// `Integer::take_from`, `from_primitive`, and those of `Unsigned`.
    pub kept: Tally,

    /// `Unsigned::from_slice`, `from_bytes`.
    pub made: Tally,

    /// `Primitive::to_bool`, `Constructed::take_bool`, `take_opt_bool`.
    pub truths: Tally,
}

impl Differing for Readers {
    fn differ(&self) -> u64 {
        differ_in(&[
            self.octets,
            self.from_octets,
            self.content,
            self.taken,
            self.optional,
            self.skipped,
            self.kept,
            self.made,
            self.truths,
        ])
    }
}

/// One of Rust's types of integers.
#[derive(Clone, Copy)]
enum Width {
    U8,
    U16,
    U32,
    U64,
    U128,
    I8,
    I16,
    I32,
    I64,
    I128,
}

/// The types, in the order of [`Numbers`].
const WIDTHS: [Width; 10] = [
    Width::U8,
    Width::U16,
    Width::U32,
    Width::U64,
    Width::U128,
    Width::I8,
    Width::I16,
    Width::I32,
    Width::I64,
    Width::I128,
];

/// The types that calls on content return.
const CONTENT: [Width; 4] = [Width::U8, Width::U16, Width::U32, Width::U64];

/// A number of one of the types.
#[derive(Clone, Copy, PartialEq, Eq)]
enum Number {
    Unsigned(u128),
    Signed(i128),
}

/// Returns a number of an unsigned type, if there is one.
fn unsigned<T: Drop, E: Drop>(number: Result<T, E>) -> Option<Number>
where
    u128: From<T>,
{
    match number {
        Ok(number) => Some(Number::Unsigned(u128::from(number))),
        Err(_) => None,
    }
}

/// Returns a number of a signed type, if there is one.
fn signed<T: Drop, E: Drop>(number: Result<T, E>) -> Option<Number>
where
    i128: From<T>,
{
    match number {
        Ok(number) => Some(Number::Signed(i128::from(number))),
        Err(_) => None,
    }
}

/// The number that contents octets are, in each of Rust's types. It is `None` if the type can't
/// hold the number, or if the octets aren't those of an integer.
#[derive(Clone, Copy)]
pub struct Numbers {
    /// The number in each of [`WIDTHS`].
    numbers: [Option<Number>; 10],

    /// The number as a `u8`.
    octet: Option<u8>,

    /// Whether the octets are those of an integer.
    is_integer: bool,

    /// Whether they are those of an integer that isn't negative.
    is_unsigned: bool,
}

impl Numbers {
    /// Returns the numbers of octets that aren't those of an integer.
    fn none() -> Numbers {
        Numbers::of_text("-")
    }

    /// Returns the numbers that std reads in a text, if there are any.
    pub fn of_text(text: &str) -> Numbers {
        Numbers {
            numbers: [
                unsigned(text.parse::<u8>()),
                unsigned(text.parse::<u16>()),
                unsigned(text.parse::<u32>()),
                unsigned(text.parse::<u64>()),
                unsigned(text.parse::<u128>()),
                signed(text.parse::<i8>()),
                signed(text.parse::<i16>()),
                signed(text.parse::<i32>()),
                signed(text.parse::<i64>()),
                signed(text.parse::<i128>()),
            ],
            octet: text.parse::<u8>().ok(),
            is_integer: text != "-",
            is_unsigned: !text.starts_with('-'),
        }
    }

    /// Returns a number in each type, as std converts it.
    fn of(number: i128) -> Numbers {
        Numbers {
            numbers: [
                unsigned(u8::try_from(number)),
                unsigned(u16::try_from(number)),
                unsigned(u32::try_from(number)),
                unsigned(u64::try_from(number)),
                unsigned(u128::try_from(number)),
                signed(i8::try_from(number)),
                signed(i16::try_from(number)),
                signed(i32::try_from(number)),
                signed(i64::try_from(number)),
                Some(Number::Signed(number)),
            ],
            octet: u8::try_from(number).ok(),
            is_integer: true,
            is_unsigned: number >= 0,
        }
    }

    /// Returns the number of one octet, as std reads it in two's complement.
    fn of_one(octet: u8) -> Numbers {
        Numbers::of(i128::from(i8::from_be_bytes([octet])))
    }

    /// Returns the number of two octets, whose first nine bits must not be all zero or all one
    /// (X.690, 8.3.2).
    fn of_two(first: u8, last: u8) -> Numbers {
        match (first, last >> 7) {
            (0x00, 0) | (0xFF, 1) => Numbers::none(),
            _ => Numbers::of(i128::from(i16::from_be_bytes([first, last]))),
        }
    }
}

/// Returns what was read, or `None` for any error.
pub fn found<T: Drop, E: Drop>(outcome: Result<T, E>) -> Option<T> {
    match outcome {
        Ok(value) => Some(value),
        Err(_) => None,
    }
}

/// Returns what was read, or `None` for an absent value or any error.
fn present<T: Drop, E: Drop>(outcome: Result<Option<T>, E>) -> Option<T> {
    match outcome {
        Ok(value) => value,
        Err(_) => None,
    }
}

/// Compares what was read.
pub fn count<T: PartialEq + Drop>(tally: &mut Tally, read: Option<T>, wanted: Option<T>) {
    tally.count(read == wanted);
}

/// Reads an unsigned number, by a call of `Primitive`.
fn read_unsigned<S: Source>(
    octets: &mut Primitive<'_, S>,
    width: Width,
) -> Result<u128, DecodeError<S::Error>>
    ensures { MovedOctets S.stream octets }
{
    match width {
        Width::U8 => Ok(u128::from(octets.to_u8()?)),
        Width::U16 => Ok(u128::from(octets.to_u16()?)),
        Width::U32 => Ok(u128::from(octets.to_u32()?)),
        Width::U64 => Ok(u128::from(octets.to_u64()?)),
        _ => octets.to_u128(),
    }
}

/// Reads a signed number, by a call of `Primitive`.
fn read_signed<S: Source>(
    octets: &mut Primitive<'_, S>,
    width: Width,
) -> Result<i128, DecodeError<S::Error>>
    ensures { MovedOctets S.stream octets }
{
    match width {
        Width::I8 => Ok(i128::from(octets.to_i8()?)),
        Width::I16 => Ok(i128::from(octets.to_i16()?)),
        Width::I32 => Ok(i128::from(octets.to_i32()?)),
        Width::I64 => Ok(i128::from(octets.to_i64()?)),
        _ => octets.to_i128(),
    }
}

/// Reads an unsigned number, by a call of `Unsigned`.
fn of_unsigned<S: Source>(
    octets: &mut Primitive<'_, S>,
    width: Width,
) -> Result<u128, DecodeError<S::Error>>
    ensures { MovedOctets S.stream octets }
{
    match width {
        Width::U8 => Ok(u128::from(Unsigned::u8_from_primitive(octets)?)),
        Width::U16 => Ok(u128::from(Unsigned::u16_from_primitive(octets)?)),
        Width::U32 => Ok(u128::from(Unsigned::u32_from_primitive(octets)?)),
        Width::U64 => Ok(u128::from(Unsigned::u64_from_primitive(octets)?)),
        _ => Unsigned::u128_from_primitive(octets),
    }
}

/// Reads a signed number, by a call of `Integer`.
fn of_integer<S: Source>(
    octets: &mut Primitive<'_, S>,
    width: Width,
) -> Result<i128, DecodeError<S::Error>>
    ensures { MovedOctets S.stream octets }
{
    match width {
        Width::I8 => Ok(i128::from(Integer::i8_from_primitive(octets)?)),
        Width::I16 => Ok(i128::from(Integer::i16_from_primitive(octets)?)),
        Width::I32 => Ok(i128::from(Integer::i32_from_primitive(octets)?)),
        Width::I64 => Ok(i128::from(Integer::i64_from_primitive(octets)?)),
        _ => Integer::i128_from_primitive(octets),
    }
}

/// Reads a number of a type, by a call of `Primitive`.
fn of_octets<S: Source>(
    octets: &mut Primitive<'_, S>,
    width: Width,
) -> Result<Number, DecodeError<S::Error>>
    ensures { MovedOctets S.stream octets }
{
    match width {
        Width::U8 | Width::U16 | Width::U32 | Width::U64 | Width::U128 => {
            Ok(Number::Unsigned(read_unsigned(octets, width)?))
        }
        _ => Ok(Number::Signed(read_signed(octets, width)?)),
    }
}

/// Reads a number of a type, by a call of `Unsigned` or `Integer`.
fn of_type<S: Source>(
    octets: &mut Primitive<'_, S>,
    width: Width,
) -> Result<Number, DecodeError<S::Error>>
    ensures { MovedOctets S.stream octets }
{
    match width {
        Width::U8 | Width::U16 | Width::U32 | Width::U64 | Width::U128 => {
            Ok(Number::Unsigned(of_unsigned(octets, width)?))
        }
        _ => Ok(Number::Signed(of_integer(octets, width)?)),
    }
}

/// Compares the calls on octets, for each type.
fn compare_octets(octets: &[u8], mode: Mode, numbers: &Numbers, readers: &mut Readers) {
    for (width, wanted) in WIDTHS.iter().zip(numbers.numbers) {
        let width = *width;
        let read = found(Primitive::decode_slice(octets, mode, |p| of_octets(p, width)));
        count(&mut readers.octets, read, wanted);
        let read = found(Primitive::decode_slice(octets, mode, |p| of_type(p, width)));
        count(&mut readers.from_octets, read, wanted);
    }
}

/// Reads a number, by a call of `Content`.
fn of_content<S: Source>(
    content: &mut Content<'_, S>,
    width: Width,
) -> Result<u128, DecodeError<S::Error>>
    ensures { MovedContent S.stream content }
{
    match width {
        Width::U8 => Ok(u128::from(content.to_u8()?)),
        Width::U16 => Ok(u128::from(content.to_u16()?)),
        Width::U32 => Ok(u128::from(content.to_u32()?)),
        _ => Ok(u128::from(content.to_u64()?)),
    }
}

/// Takes the content of the next value as a number.
fn take_content<S: Source>(
    cons: &mut Constructed<'_, S>,
    width: Width,
) -> Result<u128, DecodeError<S::Error>>
    ensures { Moved S.stream cons }
{
    cons.take_value(|_tag, content| of_content(content, width))
}

/// Returns the call of `Constructed` that takes a number.
fn taking(width: Width) -> Typed {
    match width {
        Width::U8 => Typed::U8,
        Width::U16 => Typed::U16,
        Width::U32 => Typed::U32,
        _ => Typed::U64,
    }
}

/// Returns the call of `Constructed` that takes a number, if there is one.
fn taking_opt(width: Width) -> Typed {
    match width {
        Width::U8 => Typed::OptU8,
        Width::U16 => Typed::OptU16,
        Width::U32 => Typed::OptU32,
        _ => Typed::OptU64,
    }
}

/// Returns the number that was read, or `None` for an absent value or any error.
fn told<E: Drop>(outcome: Result<Answer, E>) -> Option<u128> {
    match outcome {
        Ok(Answer::Number(number)) => Some(number as u128),
        _ => None,
    }
}

/// Compares the calls on content, for each of their types.
fn compare_content(value: &[u8], mode: Mode, numbers: &Numbers, readers: &mut Readers) {
    for (width, wanted) in CONTENT.iter().zip(numbers.numbers) {
        let (width, wanted) = (*width, unsigned_of(wanted));
        let read = mode.decode(SliceSource::new(value), |cons| take_content(cons, width));
        count(&mut readers.content, found(read), wanted);
        let read = mode.decode(
            SliceSource::new(value),
            |cons| ask_typed(cons, taking(width)),
        );
        count(&mut readers.taken, told(read), wanted);
        let read = mode.decode(
            SliceSource::new(value),
            |cons| ask_typed(cons, taking_opt(width)),
        );
        count(&mut readers.optional, told(read), wanted);
    }
}

/// Returns an unsigned number, if there is one.
fn unsigned_of(number: Option<Number>) -> Option<u128> {
    match number {
        Some(Number::Unsigned(number)) => Some(number),
        _ => None,
    }
}

/// Skips the content of the next value, if it is this number.
fn skip_content<S: Source>(
    cons: &mut Constructed<'_, S>,
    number: u8,
) -> Result<(), DecodeError<S::Error>>
    ensures { Moved S.stream cons }
{
    cons.take_value(|_tag, content| content.skip_u8_if(number))
}

/// Returns whether content is skipped if it is this number.
fn is_content_skipped(value: &[u8], mode: Mode, number: u8) -> bool {
    let source = SliceSource::new(value);
    mode.decode(source, |cons| skip_content(cons, number))
        .is_ok()
}

/// Returns whether a call skips a number.
fn is_skipped(value: &[u8], mode: Mode, call: Typed) -> bool {
    let source = SliceSource::new(value);
    mode.decode(source, |cons| ask_typed(cons, call)).is_ok()
}

/// Compares the calls that skip this number.
fn compare_skipped(value: &[u8], mode: Mode, number: u8, numbers: &Numbers, readers: &mut Readers) {
    let same = numbers.octet == Some(number);
    let skipped = is_content_skipped(value, mode, number);
    readers.content.count(skipped == same);
    let skipped = is_skipped(value, mode, Typed::SkipU8If(number));
    readers.skipped.count(skipped == same);
    let skipped = is_skipped(value, mode, Typed::SkipOptU8If(number));
    readers.skipped.count(skipped == same);
}

/// Returns whether these octets are kept if that is wanted, else whether none are.
fn keeps<E: Drop>(kept: Result<Bytes, E>, octets: &[u8], wanted: bool) -> bool {
    match kept {
        Ok(kept) => wanted && kept.as_slice() == octets,
        Err(_) => !wanted,
    }
}

/// Takes the octets of an integer, or of an unsigned one.
#[tactic(auto, using(bcder::specs::laws::Moved::steps))]
fn take_kept<S: Source>(
    cons: &mut Constructed<'_, S>,
    alloc: Global,
    unsigned: bool,
) -> Result<Bytes, DecodeError<S::Error>>
    ensures { Moved S.stream cons }
{
    if unsigned {
        Ok(Unsigned::take_from(alloc, cons)?.into_bytes())
    } else {
        Ok(Integer::take_from(alloc, cons)?.into_bytes())
    }
}

/// Reads the octets of an integer, or of an unsigned one.
fn read_kept<S: Source>(
    octets: &mut Primitive<'_, S>,
    alloc: Global,
    unsigned: bool,
) -> Result<Bytes, DecodeError<S::Error>>
    ensures { MovedOctets S.stream octets }
{
    if unsigned {
        Ok(Unsigned::from_primitive(alloc, octets)?.into_bytes())
    } else {
        Ok(Integer::from_primitive(alloc, octets)?.into_bytes())
    }
}

/// Compares the calls that keep the octets of the number.
fn compare_kept(
    alloc: Global,
    value: &[u8],
    octets: &[u8],
    mode: Mode,
    numbers: &Numbers,
    tally: &mut Tally,
) {
    for (unsigned, wanted) in [(false, numbers.is_integer), (true, numbers.is_unsigned)] {
        let source = SliceSource::new(value);
        let kept = mode.decode(source, |cons| take_kept(cons, alloc, unsigned));
        tally.count(keeps(kept, octets, wanted));
        let kept = Primitive::decode_slice(octets, mode, |p| read_kept(p, alloc, unsigned));
        tally.count(keeps(kept, octets, wanted));
    }
}

/// Returns a value with a tag of X.680, 8.4, and these contents octets, of which there are fewer
/// than 128.
fn value_of(alloc: Global, number: u8, octets: &[u8]) -> Result<Vec<u8>, Error> {
    let mut value = Vec::new(alloc);
    value.push(number)?;
    value.push(u8::try_from(octets.len())?)?;
    value.extend_from_slice(octets)?;
    Ok(value)
}

/// The modes.
const MODES: [Mode; 3] = [Mode::Ber, Mode::Cer, Mode::Der];

/// Compares what each reader makes of contents octets in each mode.
pub fn compare(
    alloc: Global,
    octets: &[u8],
    numbers: &Numbers,
    readers: &mut Readers,
) -> Result<(), Error> {
    let list = value_of(alloc, 0x02, octets)?;
    let value = list.as_slice();
    let last = octets.last().copied().unwrap_or(0x00);
    for mode in MODES {
        compare_octets(octets, mode, numbers, readers);
        compare_content(value, mode, numbers, readers);
        compare_skipped(value, mode, last, numbers, readers);
        compare_skipped(value, mode, last ^ 0x01, numbers, readers);
        compare_kept(alloc, value, octets, mode, numbers, &mut readers.kept);
    }
    Ok(())
}

/// Compares the unsigned integers that are made of octets with the value of `first` and `last`.
/// Their contents octets are the fewest that begin with a zero bit (X.690, 8.3.2).
fn compare_made(
    alloc: Global,
    octets: &[u8],
    first: u8,
    last: u8,
    tally: &mut Tally,
) -> Result<(), Error> {
    let padded = [0x00, first, last];
    let wanted = match (first, last) {
        (0x00, 0x00..=0x7F) => &padded[2..],
        (0x00..=0x7F, _) => &padded[1..],
        _ => &padded[..],
    };
    let made = Unsigned::from_slice(alloc, octets)?;
    tally.count(made.as_slice() == wanted);
    let shared = Unsigned::from_bytes(alloc, Bytes::copy_from_slice(alloc, octets)?)?;
    tally.count(shared.as_slice() == wanted);
    Ok(())
}

/// Returns the boolean that contents octets are: one octet, all zero or not (X.690, 8.2). In CER
/// and DER, true is all ones (11.1).
fn truth_of(octets: &[u8], mode: Mode) -> Option<bool> {
    match octets {
        [0x00] => Some(false),
        [0xFF] => Some(true),
        [_] if mode == Mode::Ber => Some(true),
        _ => None,
    }
}

/// Compares what the readers of booleans make of contents octets in each mode.
fn compare_truths(alloc: Global, octets: &[u8], tally: &mut Tally) -> Result<(), Error> {
    let list = value_of(alloc, 0x01, octets)?;
    let value = list.as_slice();
    for mode in MODES {
        let wanted = truth_of(octets, mode);
        let read = found(Primitive::decode_slice(octets, mode, |p| p.to_bool()));
        count(tally, read, wanted);
        let read = found(mode.decode(SliceSource::new(value), |cons| cons.take_bool()));
        count(tally, read, wanted);
        let read = present(mode.decode(SliceSource::new(value), |cons| cons.take_opt_bool()));
        count(tally, read, wanted);
    }
    Ok(())
}

/// Compares all contents of one octet and of two. Of booleans it compares empty contents too.
pub fn compare_short(alloc: Global) -> Result<Readers, Error> {
    let mut readers = Readers::default();
    compare_truths(alloc, &[], &mut readers.truths)?;
    for octet in 0..=u8::MAX {
        let numbers = Numbers::of_one(octet);
        compare(alloc, &[octet], &numbers, &mut readers)?;
        compare_truths(alloc, &[octet], &mut readers.truths)?;
        compare_made(alloc, &[octet], 0x00, octet, &mut readers.made)?;
    }
    for pair in 0..=u16::MAX {
        let octets = pair.to_be_bytes();
        let (first, last) = (octets[0], octets[1]);
        let numbers = Numbers::of_two(first, last);
        compare(alloc, &octets, &numbers, &mut readers)?;
        compare_truths(alloc, &octets, &mut readers.truths)?;
        compare_made(alloc, &octets, first, last, &mut readers.made)?;
    }
    Ok(readers)
}
