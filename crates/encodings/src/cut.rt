//! Strings that are cut into segments, as CER wants those of more than 1000 octets (X.690, 9.2).
ghost use Rattle.std.specs.Prelude.{◌≡◌, ◌<◌, ◌≤◌, ◌+◌, ◌++◌, ◌∷◌, [], length, List, ℕ};
ghost use Rattle.std.specs.Prelude.{nat_lt, true, false};
ghost use Rattle.std.specs.Prelude.{IfOk, OnOk};
ghost use Rattle.bcder.specs.declared.mode.Mode.TheVariants.{Cer};
ghost use Rattle.encodings.specs.Cutting.{Adds, Fills, Feeds, Opens, body_left, cut_value};
ghost use Rattle.encodings.specs.Cutting.{FeedsSome, cut_written, inside_cut, state_written};
ghost use Rattle.encodings.specs.Cutting.{total_of, CutFit};
ghost use Rattle.encodings.specs.Pieces.{Made, Frames, all_made, ended, made_as, made_of};
ghost use Rattle.encodings.specs.Conversion.{kind_of as kind_meant};
ghost use Rattle.encodings.specs.declared.convert.Kind.TheVariants.{Text};

use crate::convert::{Item, Kind, Sort, kind_of};
use crate::status::NO_MEMORY;
use bcder::Tag;
use std::alloc::Global;

/// No octets.
const NOTHING: &[u8] = &[];

/// Adds an item.
fn push<'a>(out: &mut Vec<Item<'a>>, sort: Sort, tag: Tag, contents: &'a [u8]) -> Result<(), u8>
    ensures { OnOk result (all_made out.new.items
        ≡ all_made out.old.items ++ made_as sort tag contents.now ∷ []) }
{
    let item = Item {
        sort,
        tag,
        contents,
    };
    if out.push(item).is_err() {
        return Err(NO_MEMORY);
    }
    Ok(())
}

/// Opens a segment, unless one is open that has room for `room` octets, and returns for how many
/// the open one has room.
fn open_segment(out: &mut Vec<Item<'_>>, room: usize) -> Result<usize, u8>
    ensures opens { IfOk result (λ m.
        Opens room m (all_made out.old.items) (all_made out.new.items)) }
    ensures room { IfOk result (λ m. 0 < m) }
{
    if room > 0 {
        return Ok(room);
    }
    match push(out, Sort::Whole, Tag::OCTET_STRING, NOTHING) {
        Ok(()) => Ok(1000),
        Err(status) => Err(status),
    }
}

/// Adds octets to the open segment, ends it if it is full, and returns for how many it has room.
fn fill<'a>(out: &mut Vec<Item<'a>>, room: usize, octets: &'a [u8]) -> Result<usize, u8>
    requires { length octets.now ≤ room }
    ensures { IfOk result (λ m.
        Fills room octets.now m (all_made out.old.items) (all_made out.new.items)) }
{
    match push(out, Sort::Part, Tag::OCTET_STRING, octets) {
        Ok(()) => {}
        Err(status) => return Err(status),
    }
    let left = room - octets.len();
    if left > 0 {
        return Ok(left);
    }
    match push(out, Sort::WholeEnd, Tag::OCTET_STRING, NOTHING) {
        Ok(()) => Ok(0),
        Err(status) => Err(status),
    }
}

/// Adds as many octets as the open segment, or a new one, has room for, and returns for how many it
/// has room then, and the octets that are left.
fn feed_some<'a>(
    out: &mut Vec<Item<'a>>,
    room: usize,
    octets: &'a [u8],
) -> Result<(usize, &'a [u8]), u8>
    requires { 0 < length octets.now }
    ensures { IfOk result (λ r. FeedsSome room octets.now r.0 r.1.now
        (all_made out.old.items) (all_made out.new.items)) }
{
    let open = match open_segment(out, room) {
        Ok(open) => open,
        Err(status) => return Err(status),
    };
    let len = open.min(octets.len());
    let (front, back) = octets.split_at(len);
    match fill(out, open, front) {
        Ok(left) => Ok((left, back)),
        Err(status) => Err(status),
    }
}

/// Adds octets to a string, and returns for how many its open segment has room.
fn feed<'a>(out: &mut Vec<Item<'a>>, room: usize, octets: &'a [u8]) -> Result<usize, u8>
    ensures { IfOk result (λ m.
        Feeds room octets.now m (all_made out.old.items) (all_made out.new.items)) }
{
    let mut room = room;
    let mut rest = octets;
    while !rest.is_empty() {
        match feed_some(out, room, rest) {
            Ok((left, back)) => {
                room = left;
                rest = back;
            }
            Err(status) => return Err(status),
        }
    }
    Ok(room)
}

/// Ends a string and its open segment.
fn end_open(out: &mut Vec<Item<'_>>) -> Result<(), u8>
    ensures { OnOk result ((k : ℕ) → 0 < k → (f : Frames)
        → Adds (all_made out.old.items) (all_made out.new.items) f (body_left k [] (ended Cer f))) }
{
    match push(out, Sort::WholeEnd, Tag::OCTET_STRING, NOTHING) {
        Ok(()) => {}
        Err(status) => return Err(status),
    }
    match push(out, Sort::End, Tag::END_OF_VALUE, NOTHING) {
        Ok(()) => Ok(()),
        Err(status) => Err(status),
    }
}

/// Ends a string, and its open segment, if there is one.
fn end_string(out: &mut Vec<Item<'_>>, room: usize) -> Result<(), u8>
    ensures { OnOk result ((f : Frames) → Adds (all_made out.old.items) (all_made out.new.items)
        f (body_left room [] (ended Cer f))) }
{
    if room > 0 {
        return match end_open(out) {
            Ok(()) => Ok(()),
            Err(status) => Err(status),
        };
    }
    match push(out, Sort::End, Tag::END_OF_VALUE, NOTHING) {
        Ok(()) => Ok(()),
        Err(status) => Err(status),
    }
}

/// Adds a string that is cut.
fn cut_contents<'a>(out: &mut Vec<Item<'a>>, tag: Tag, contents: &'a [u8]) -> Result<(), u8>
    ensures { OnOk result ((f : Frames) → Adds (all_made out.old.items) (all_made out.new.items)
        f (cut_value tag contents.now f)) }
{
    match push(out, Sort::Begin, tag, NOTHING) {
        Ok(()) => {}
        Err(status) => return Err(status),
    }
    match feed(out, 0, contents) {
        Ok(room) => match end_string(out, room) {
            Ok(()) => Ok(()),
            Err(status) => Err(status),
        },
        Err(status) => Err(status),
    }
}

/// Returns whether the parts in front have more than 1000 octets.
fn are_long(items: &[Item<'_>]) -> bool
    ensures { result ≡ nat_lt 1000 (total_of (all_made items.now)) }
{
    let mut count = 0usize;
    let mut rest = items;
    while let [item, after @ ..] = rest {
        match item.sort {
            Sort::Part => {
                count += item.contents.len();
                if count > 1000 {
                    return true;
                }
                rest = after;
            }
            _ => return false,
        }
    }
    false
}

/// Adds an item inside a string that is cut, whose open segment has room for `room` octets. Returns
/// 0 if the string has ended, or one more than its open segment has room for.
fn cut_inside<'a>(out: &mut Vec<Item<'a>>, room: usize, item: &Item<'a>) -> Result<usize, u8>
    ensures { IfOk result (λ m. (qs : List Made) → Adds
        (all_made out.old.items) (all_made out.new.items)
        (state_written m qs) (inside_cut room (made_of item.now ∷ qs) [])) }
{
    match item.sort {
        Sort::Part => {
            let left = match feed(out, room, item.contents) {
                Ok(left) => left,
                Err(status) => return Err(status),
            };
            if left == usize::MAX {
                return Err(NO_MEMORY);
            }
            Ok(left + 1)
        }
        _ => match end_string(out, room) {
            Ok(()) => Ok(0),
            Err(status) => Err(status),
        },
    }
}

/// Returns whether a primitive value is a string that has to be cut.
fn is_long(item: &Item<'_>) -> bool
    ensures yes { result ≡ true
        → (1000 < length item.now.contents.now) × (kind_meant item.now.tag ≡ Text) }
    ensures no { result ≡ false
        → 1000 < length item.now.contents.now → kind_meant item.now.tag ≡ Text → ⊥ }
{
    if item.contents.len() <= 1000 {
        return false;
    }
    match kind_of(item.tag) {
        Kind::Text => true,
        _ => false,
    }
}

/// Adds an item outside such strings, and cuts it if it has to be. Returns 1 if it begins a string
/// that is cut, otherwise 0.
fn cut_outside<'a>(out: &mut Vec<Item<'a>>, item: &Item<'a>, rest: &[Item<'a>]) -> Result<usize, u8>
    requires { CutFit (made_of item.now ∷ all_made rest.now) }
    ensures { IfOk result (λ m. Adds (all_made out.old.items) (all_made out.new.items)
        (state_written m (all_made rest.now))
        (cut_written (made_of item.now ∷ all_made rest.now))) }
{
    match item.sort {
        Sort::Value => {
            if is_long(item) {
                match cut_contents(out, item.tag, item.contents) {
                    Ok(()) => return Ok(0),
                    Err(status) => return Err(status),
                }
            }
            match push(out, item.sort, item.tag, item.contents) {
                Ok(()) => Ok(0),
                Err(status) => Err(status),
            }
        }
        Sort::Whole => {
            if are_long(rest) {
                match push(out, Sort::Begin, item.tag, NOTHING) {
                    Ok(()) => return Ok(1),
                    Err(status) => return Err(status),
                }
            }
            match push(out, item.sort, item.tag, item.contents) {
                Ok(()) => Ok(0),
                Err(status) => Err(status),
            }
        }
        _ => match push(out, item.sort, item.tag, item.contents) {
            Ok(()) => Ok(0),
            Err(status) => Err(status),
        },
    }
}

/// Adds an item, inside a string that is cut if `state` isn't 0, and returns the state behind it.
fn cut_one<'a>(
    out: &mut Vec<Item<'a>>,
    state: usize,
    item: &Item<'a>,
    rest: &[Item<'a>],
) -> Result<usize, u8>
    requires { CutFit (made_of item.now ∷ all_made rest.now) }
    ensures { IfOk result (λ m. Adds (all_made out.old.items) (all_made out.new.items)
        (state_written m (all_made rest.now))
        (state_written state (made_of item.now ∷ all_made rest.now))) }
{
    if state > 0 {
        return match cut_inside(out, state - 1, item) {
            Ok(after) => Ok(after),
            Err(status) => Err(status),
        };
    }
    match cut_outside(out, item, rest) {
        Ok(after) => Ok(after),
        Err(status) => Err(status),
    }
}

/// Cuts the strings of more than 1000 octets.
pub(crate) fn cut<'a>(alloc: Global, items: &[Item<'a>]) -> Result<Vec<Item<'a>>, u8>
    requires { CutFit (all_made items.now) }
    ensures { IfOk result (λ v. Adds [] (all_made v.items)
        (cut_written []) (cut_written (all_made items.now))) }
{
    let mut out: Vec<Item<'a>> = Vec::new(alloc);
    let mut state = 0;
    let mut rest = items;
    while let [item, after @ ..] = rest {
        match cut_one(&mut out, state, item, after) {
            Ok(next) => {
                state = next;
                rest = after;
            }
            Err(status) => return Err(status),
        }
    }
    if state > 0 {
        match end_string(&mut out, state - 1) {
            Ok(()) => return Ok(out),
            Err(status) => return Err(status),
        }
    }
    Ok(out)
}
