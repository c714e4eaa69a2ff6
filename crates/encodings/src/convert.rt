//! Values in other rules (X.690, 9, 10, 11).
//!
//! Values in BER are what they are in other rules. For CER and DER, the octets are read into a list
//! of items: primitive values, the beginnings and ends of constructed ones, and the parts of
//! strings that were cut. For CER, strings of more than 1000 octets are cut anew. The list is
//! written from its end, so that the length of a value is known when its header is written. This is
//! done twice, the first time to count.
ghost use Rattle.std.specs.Prelude.{◌≡◌, ◌≢◌, ◌<◌, ◌+◌, ◌^◌, length, List, ℕ, option_map};
ghost use Rattle.std.specs.Prelude.{IfOk, IfErr, IfSome, IfNone, None};
ghost use Rattle.bcder.specs.declared.mode.Mode.{Mode as ModeValue};
ghost use Rattle.bcder.specs.steps.Reading.{read_tree};
ghost use Rattle.encodings.specs.Conversion.{ContentsBecome, Converts};
ghost use Rattle.encodings.specs.Conversion.{kind_of as kind_meant};
ghost use Rattle.encodings.specs.Cutting.{CutFit, StoresCut, StoresWritten};
ghost use Rattle.encodings.specs.Next.{IsDue};
ghost use Rattle.encodings.specs.Open.{open_values};
ghost use Rattle.encodings.specs.Pieces.{BeginsPiece, PassesOne, PassesNone, Made, PieceBecomes};
ghost use Rattle.encodings.specs.Pieces.{ReadsAs, ReadsAsNothing};
ghost use Rattle.encodings.specs.Pieces.{made_of, piece_read, all_made, ends};
ghost use Rattle.encodings.specs.Status.{no_memory};
ghost use Rattle.bcder.specs.calls.Captured.{AreWhole};
ghost use Rattle.bcder.specs.declared.mode.Mode.TheVariants.{Ber};

use crate::backwards::write;
use crate::bits::is_bit_string;
use crate::cut::cut;
use crate::status::{ABSENT, DONE, NO_MEMORY, NOT_CONVERTED, TOO_SMALL};
use crate::string::{is_octet_string, store_whole};
use crate::values::are_values;
use crate::walk::close;
use bcder::plain::front_at;
use bcder::{Mode, Tag};
use std::alloc::Global;

/// What a type is to the rules.
#[derive(Clone, Copy)]
pub(crate) enum Kind {
    Boolean,
    Bits,
    Text,
    Other,
}

/// What an item is.
#[derive(Clone, Copy)]
pub(crate) enum Sort {
    /// A primitive value.
    Value,

    /// The beginning of a constructed value.
    Begin,

    /// Its end.
    End,

    /// The beginning of a string that was cut and is joined.
    Whole,

    /// Octets of such a string.
    Part,

    /// Its end.
    WholeEnd,
}

/// A primitive value as it is written, or the beginning or the end of a constructed one.
#[derive(Clone, Copy)]
pub(crate) struct Item<'a> {
    pub(crate) sort: Sort,
    pub(crate) tag: Tag,

    /// The contents octets of a primitive value, or the octets of a part.
    pub(crate) contents: &'a [u8],
}

/// The header of a value, and the octets behind it.
#[derive(Clone, Copy)]
pub(crate) struct Begun<'a> {
    pub(crate) tag: Tag,
    pub(crate) constructed: bool,

    /// The contents octets, or, with the indefinite form, all octets behind the header.
    pub(crate) contents: &'a [u8],

    /// The octets behind the contents octets, unless the form is indefinite.
    pub(crate) behind: Option<&'a [u8]>,
}

/// The contents octets of the boolean that is true (X.690, 11.1).
const ALL_ONES: &[u8] = &[0xFF];

/// No octets.
const NOTHING: &[u8] = &[];

/// Returns what a type is to the rules, if the tag tells it.
pub(crate) fn kind_of(tag: Tag) -> Kind
    ensures { result ≡ kind_meant tag }
{
    if !tag.is_universal() {
        return Kind::Other;
    }
    let number = tag.number();
    if number == 1 {
        return Kind::Boolean;
    }
    if number == 3 {
        return Kind::Bits;
    }
    if number == 4 || number == 7 || number == 12 || number == 30 {
        return Kind::Text;
    }
    if number >= 18 && number <= 28 {
        return Kind::Text;
    }
    Kind::Other
}

/// Returns the contents octets that a primitive value has in CER or DER (X.690, 9.2, 11.1, 11.2.1).
fn contents_in(to: Mode, kind: Kind, contents: &[u8]) -> Option<&[u8]>
    ensures some { IfSome result (λ d. ContentsBecome to kind contents.now d.now) }
    ensures none { IfNone result
        ((d : List ℕ) → ContentsBecome to kind contents.now d → ⊥) }
{
    match kind {
        Kind::Boolean => match contents {
            [octet] => {
                if *octet == 0 {
                    Some(contents)
                } else {
                    Some(ALL_ONES)
                }
            }
            _ => None,
        },
        Kind::Bits => {
            if is_bit_string(to, contents) {
                Some(contents)
            } else {
                None
            }
        }
        Kind::Text | Kind::Other => Some(contents),
    }
}

/// Returns the item that a value begins with in CER or DER, and how many values of a string that is
/// cut are open behind it, for a value that is in no such string.
fn item_outside<'a>(
    to: Mode,
    tag: Tag,
    constructed: bool,
    contents: &'a [u8],
) -> Option<(Item<'a>, usize)>
    ensures some { IfSome result (λ r. PieceBecomes to 0
        (piece_read tag constructed contents.now) (made_of r.0) r.1) }
    ensures none { IfNone result ((q : Made) (m : ℕ)
        → PieceBecomes to 0 (piece_read tag constructed contents.now) q m → ⊥) }
{
    let kind = kind_of(tag);
    if constructed {
        return match kind {
            Kind::Other => Some((
                Item {
                    sort: Sort::Begin,
                    tag,
                    contents,
                },
                0,
            )),
            Kind::Text => Some((
                Item {
                    sort: Sort::Whole,
                    tag,
                    contents,
                },
                1,
            )),
            _ => None,
        };
    }
    match contents_in(to, kind, contents) {
        Some(contents) => Some((
            Item {
                sort: Sort::Value,
                tag,
                contents,
            },
            0,
        )),
        None => None,
    }
}

/// Does the same for a segment (X.690, 8.7.3), inside open values of a string that is cut.
fn item_inside<'a>(
    to: Mode,
    inside: usize,
    tag: Tag,
    constructed: bool,
    contents: &'a [u8],
) -> Option<(Item<'a>, usize)>
    requires inside { 0 < inside }
    requires room { inside + 1 < 2 ^ 64 }
    ensures some { IfSome result (λ r. PieceBecomes to inside
        (piece_read tag constructed contents.now) (made_of r.0) r.1) }
    ensures none { IfNone result ((q : Made) (m : ℕ)
        → PieceBecomes to inside (piece_read tag constructed contents.now) q m → ⊥) }
{
    if !is_octet_string(tag) {
        return None;
    }
    if constructed {
        return Some((
            Item {
                sort: Sort::Part,
                tag,
                contents: NOTHING,
            },
            inside + 1,
        ));
    }
    Some((
        Item {
            sort: Sort::Part,
            tag,
            contents,
        },
        inside,
    ))
}

/// Does the same for any value.
fn item_of<'a>(
    to: Mode,
    inside: usize,
    tag: Tag,
    constructed: bool,
    contents: &'a [u8],
) -> Option<(Item<'a>, usize)>
    requires { inside + 1 < 2 ^ 64 }
    ensures some { IfSome result (λ r. PieceBecomes to inside
        (piece_read tag constructed contents.now) (made_of r.0) r.1) }
    ensures none { IfNone result ((q : Made) (m : ℕ)
        → PieceBecomes to inside (piece_read tag constructed contents.now) q m → ⊥) }
{
    if inside == 0 {
        return item_outside(to, tag, constructed, contents);
    }
    item_inside(to, inside, tag, constructed, contents)
}

/// Returns the item for the end of a value, and how many values of a string that is cut are open
/// behind it.
fn end_of(inside: usize) -> (Item<'static>, usize)
    ensures { (to : ModeValue) → PieceBecomes to inside ends (made_of result.0) result.1 }
{
    let sort = if inside == 0 {
        Sort::End
    } else if inside == 1 {
        Sort::WholeEnd
    } else {
        Sort::Part
    };
    let item = Item {
        sort,
        tag: Tag::END_OF_VALUE,
        contents: NOTHING,
    };
    (item, inside.saturating_sub(1))
}

/// Reads the header of the next value.
pub(crate) fn begin(mode: Mode, rest: &[u8]) -> Option<Begun<'_>>
    ensures some { IfSome result (λ b. BeginsPiece mode rest.now b.tag b.constructed
        b.contents.now (option_map (λ s. s.now) b.behind)) }
    ensures none { IfNone result (read_tree mode rest.now ≡ None) }
{
    let Some(front) = front_at(mode, rest) else {
        return None;
    };
    match front.len {
        Some(len) => {
            if front.rest.len() < len {
                return None;
            }
            let (contents, behind) = front.rest.split_at(len);
            Some(Begun {
                tag: front.tag,
                constructed: front.constructed,
                contents,
                behind: Some(behind),
            })
        }
        None => Some(Begun {
            tag: front.tag,
            constructed: front.constructed,
            contents: front.rest,
            behind: None,
        }),
    }
}

/// Passes the header of the next value, and the contents if the value is primitive, and returns
/// what it becomes, how many values of a string that is cut are open then, and the octets that are
/// next to come.
fn enter<'a>(
    from: Mode,
    to: Mode,
    inside: usize,
    opened: &mut Vec<Option<&'a [u8]>>,
    rest: &'a [u8],
) -> Result<(Item<'a>, usize, &'a [u8]), u8>
    requires { IsDue from (open_values opened.old.items) rest.now }
    ensures passed { IfOk result (λ r. PassesOne from to
        inside (open_values opened.old.items) rest.now
        r.1 (open_values opened.new.items) r.2.now (made_of r.0)) }
    ensures none { IfErr result (λ status. status ≢ no_memory
        → PassesNone from to inside (open_values opened.old.items) rest.now) }
{
    if inside == usize::MAX {
        return Err(NO_MEMORY);
    }
    let Some(begun) = begin(from, rest) else {
        return Err(NOT_CONVERTED);
    };
    let Some((item, level)) = item_of(to, inside, begun.tag, begun.constructed, begun.contents)
    else {
        return Err(NOT_CONVERTED);
    };
    if begun.constructed {
        if opened.push(begun.behind).is_err() {
            return Err(NO_MEMORY);
        }
        return Ok((item, level, begun.contents));
    }
    match begun.behind {
        Some(behind) => Ok((item, level, behind)),
        None => Err(NOT_CONVERTED),
    }
}

/// Passes the end of the innermost open value, or what `enter` passes.
fn next<'a>(
    from: Mode,
    to: Mode,
    inside: usize,
    opened: &mut Vec<Option<&'a [u8]>>,
    rest: &'a [u8],
) -> Result<(Item<'a>, usize, &'a [u8]), u8>
    requires { 0 < opened.old.len + length rest.now }
    ensures passed { IfOk result (λ r. PassesOne from to
        inside (open_values opened.old.items) rest.now
        r.1 (open_values opened.new.items) r.2.now (made_of r.0)) }
    ensures none { IfErr result (λ status. status ≢ no_memory
        → PassesNone from to inside (open_values opened.old.items) rest.now) }
{
    let Some(&innermost) = opened.last() else {
        return enter(from, to, inside, opened, rest);
    };
    let mut at = 0;
    match close(from, innermost, rest, &mut at) {
        Some(after) => {
            let _ended = opened.pop();
            let (item, level) = end_of(inside);
            Ok((item, level, after))
        }
        None => enter(from, to, inside, opened, rest),
    }
}

/// Reads values into items, as they are in CER or DER.
fn read<'a>(alloc: Global, from: Mode, to: Mode, octets: &'a [u8]) -> Result<Vec<Item<'a>>, u8>
    ensures read { IfOk result (λ v. ReadsAs from to octets.now (all_made v.items)) }
    ensures none { IfErr result
        (λ status. status ≢ no_memory → ReadsAsNothing from to octets.now) }
{
    let mut items: Vec<Item<'a>> = Vec::new(alloc);
    let mut opened: Vec<Option<&'a [u8]>> = Vec::new(alloc);
    let mut inside = 0;
    let mut rest = octets;
    while !opened.is_empty() || !rest.is_empty() {
        match next(from, to, inside, &mut opened, rest) {
            Ok((item, level, after)) => {
                if items.push(item).is_err() {
                    return Err(NO_MEMORY);
                }
                inside = level;
                rest = after;
            }
            Err(status) => return Err(status),
        }
    }
    Ok(items)
}

/// Stores what is written of items.
fn store_items(
    alloc: Global,
    mode: Mode,
    items: &[Item<'_>],
    buffer: &mut [u8],
    size: &mut usize,
) -> u8
    ensures { StoresWritten mode (all_made items.now) result
        buffer.old buffer.new size.old size.new }
{
    let mut nowhere = [0u8; 0];
    match write(alloc, mode, items, &mut nowhere) {
        Ok(len) => {
            if len > buffer.len() {
                *size = len;
                return TOO_SMALL;
            }
            match write(alloc, mode, items, &mut buffer[..len]) {
                Ok(_) => {
                    *size = len;
                    DONE
                }
                Err(_) => NO_MEMORY,
            }
        }
        Err(NO_MEMORY) => NO_MEMORY,
        Err(_) => NOT_CONVERTED,
    }
}

/// Stores what is written of items in CER, whose strings are cut.
fn store_cut(alloc: Global, items: &[Item<'_>], buffer: &mut [u8], size: &mut usize) -> u8
    requires { CutFit (all_made items.now) }
    ensures { StoresCut (all_made items.now) result buffer.old buffer.new size.old size.new }
{
    match cut(alloc, items) {
        Ok(cut) => store_items(alloc, Mode::Cer, cut.as_slice(), buffer, size),
        Err(_) => NO_MEMORY,
    }
}

/// Stores values in CER or DER.
fn store_converted(
    alloc: Global,
    from: Mode,
    to: Mode,
    octets: &[u8],
    buffer: &mut [u8],
    size: &mut usize,
) -> u8
    requires canonical { to ≢ Ber }
    requires whole { AreWhole from octets.now }
    ensures { Converts from to octets.now result buffer.old buffer.new size.old size.new }
{
    let items = match read(alloc, from, to, octets) {
        Ok(items) => items,
        Err(NO_MEMORY) => return NO_MEMORY,
        Err(_) => return NOT_CONVERTED,
    };
    if to == Mode::Cer {
        return store_cut(alloc, items.as_slice(), buffer, size);
    }
    store_items(alloc, to, items.as_slice(), buffer, size)
}

/// Stores values that are in some rules, in other rules (X.690, 9, 10, 11). They are stored at the
/// front of a buffer that has room for them. `size` is the number of their octets, also if it has
/// no room.
///
/// The status is `DONE` or `TOO_SMALL`, or else nothing is stored: `ABSENT` if the octets aren't
/// values, `NOT_CONVERTED` if they become none, as a string of bits in segments. With `NO_MEMORY`
/// only `size` is as it was.
///
/// ```text
/// convert(alloc, Mode::Ber, Mode::Der, &[0x01, 0x01, 0x05], &mut buffer, &mut size)   // 01 01 FF
/// ```
pub fn convert(
    alloc: Global,
    from: Mode,
    to: Mode,
    octets: &[u8],
    buffer: &mut [u8],
    size: &mut usize,
) -> u8
    ensures { Converts from to octets.now result buffer.old buffer.new size.old size.new }
{
    match are_values(alloc, from, octets) {
        DONE => {
            if to == Mode::Ber {
                return store_whole(Mode::Ber, octets, buffer, size);
            }
            store_converted(alloc, from, to, octets, buffer, size)
        }
        NO_MEMORY => NO_MEMORY,
        _ => ABSENT,
    }
}
