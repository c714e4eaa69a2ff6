//! The values around the octets to come: the order of the values inside each SET, and the segments
//! of strings.
ghost use Rattle.std.specs.Prelude.{◌≡◌, ◌≢◌, ◌↔◌, ◌++◌, [], List, ℕ, IsTrue, OnOk, IfSome, IfNone};
ghost use Rattle.std.specs.Prelude.{option_map, reverse, drop, slice_index, take};
ghost use Rattle.bcder.specs.declared.mode.Mode.TheVariants.{Ber, Cer};
ghost use Rattle.encodings.specs.Headings.{class_number};
ghost use Rattle.encodings.specs.Sets.{IsNotAfter, is_set as is_set_meant, place};
ghost use Rattle.rules.specs.Around.{Adds, BreaksFit, Fits, Follows, KeepsOrder, Leaves};
ghost use Rattle.rules.specs.Around.{TellsEnd, TellsFit, TellsText, element_outline};
ghost use Rattle.rules.specs.Around.{chosen, gathers_in as gathers_meant};
ghost use Rattle.rules.specs.Around.{last_unused as last_unused_meant, met_meant};
ghost use Rattle.rules.specs.Kinds.{IsString, is_bits as is_bits_meant};
ghost use Rattle.rules.specs.Kinds.{is_string_kind as is_string_meant};
ghost use Rattle.rules.specs.Placed.{HasSegmentTag, IsBehindFull, IsBehindWhole, IsCut};
ghost use Rattle.rules.specs.Placed.{IsSegmentSize, MayEnd};

use crate::begun::Begun;
use crate::judge::{characters_rule, has_characters};
use crate::kind::{Kind, kind_of};
use crate::rule::{Breach, Rule};
use bcder::{Mode, NoMemory, Tag};

/// A value that was passed inside another.
#[derive(Clone, Copy)]
pub(crate) struct Element<'a> {
    /// The place of its tag in the order of tags.
    pub(crate) place: u64,

    /// The number of its contents octets, if it is primitive.
    pub(crate) size: Option<usize>,

    /// The first contents octet of the last primitive value in it: of a BIT STRING the number of
    /// unused bits.
    pub(crate) unused: u8,

    /// Its octets.
    pub(crate) octets: &'a [u8],
}

/// A value that is open.
#[derive(Clone, Copy)]
pub(crate) struct Enclosing<'a> {
    /// The place of its tag in the order of tags.
    pub(crate) place: u64,

    /// Whether it is a SET.
    pub(crate) sorts: bool,

    /// The kind of its type.
    pub(crate) kind: Kind,

    /// All octets from its first on.
    pub(crate) start: &'a [u8],

    /// The number of octets that were gathered before it.
    pub(crate) from: usize,

    /// Whether the contents octets inside it are gathered: whether it is a string, or in one.
    pub(crate) gathers: bool,

    /// Whether two values or more were passed in it.
    pub(crate) several: bool,

    /// The last value that was passed in it.
    pub(crate) last: Option<Element<'a>>,
}

/// What was passed in a step of the walk.
#[derive(Clone, Copy)]
pub(crate) enum Met {
    /// A primitive value: the place of its tag, the number of its contents octets, and the first of
    /// them, or 0.
    Value(u64, usize, u8),

    /// The header of a constructed value: the place of its tag, whether it is a SET, and the kind
    /// of its type.
    Begin(u64, bool, Kind),

    /// The end of a constructed value.
    End,

    /// What breaks a rule of headers or of ends.
    Lost,
}

/// Returns the place of a class in the order of tags (X.680, 8.6).
fn class_of(tag: Tag) -> u64
    ensures { result ≡ class_number tag.class }
{
    if tag.is_universal() {
        0
    } else if tag.is_application() {
        1
    } else if tag.is_context_specific() {
        2
    } else {
        3
    }
}

/// Returns the place of a tag in the order of tags (X.680, 8.6).
fn place_of(tag: Tag) -> u64
    ensures { result ≡ place tag }
{
    class_of(tag) * 2097152 + tag.number() as u64
}

/// Returns whether a tag is that of SET and SET OF.
fn is_set(tag: Tag) -> bool
    ensures { result ≡ is_set_meant tag }
{
    tag.is_universal() && tag.number() == 17
}

/// Returns the first of octets, or 0.
fn first_of(octets: &[u8]) -> u8
    ensures { result ≡ slice_index octets.now 0 }
{
    match octets {
        [first, ..] => *first,
        [] => 0,
    }
}

/// Returns what is told of a value that was passed, or whose header was.
pub(crate) fn met_of(begun: &Begun<'_>) -> Met
    ensures { result ≡ met_meant begun.now.tag begun.now.constructed begun.now.contents.now }
{
    let place = place_of(begun.tag);
    if begun.constructed {
        Met::Begin(place, is_set(begun.tag), kind_of(begun.tag))
    } else {
        Met::Value(place, begun.contents.len(), first_of(begun.contents))
    }
}

/// Returns whether all octets are zero.
fn are_zero(octets: &[u8]) -> bool
    ensures { IsTrue result ↔ IsNotAfter octets.now [] }
{
    let mut rest = octets;
    while let [first, behind @ ..] = rest {
        if *first != 0 {
            return false;
        }
        rest = behind;
    }
    true
}

/// Returns whether octets don't come after others, the shorter ones padded with zeros (11.6).
fn is_not_after(first: &[u8], second: &[u8]) -> bool
    ensures { IsTrue result ↔ IsNotAfter first.now second.now }
{
    let mut left = first;
    let mut right = second;
    while let [one, others @ ..] = left {
        let [other, behind @ ..] = right else {
            return are_zero(left);
        };
        if *one != *other {
            return *one < *other;
        }
        left = others;
        right = behind;
    }
    true
}

/// Returns whether the mode is CER or DER.
fn is_strict(mode: Mode) -> bool
    ensures { IsTrue result ↔ (mode ≢ Ber) }
{
    match mode {
        Mode::Ber => false,
        Mode::Cer | Mode::Der => true,
    }
}

/// Returns whether a value inside a SET comes behind the last one (9.3, 10.3, 11.6).
fn keeps_order(mode: Mode, sorts: bool, last: Option<Element<'_>>, next: Element<'_>) -> bool
    ensures { IsTrue result ↔ KeepsOrder mode sorts last.entry next.entry }
{
    let Some(last) = last else {
        return true;
    };
    if !sorts || !is_strict(mode) {
        return true;
    }
    if last.place != next.place {
        return last.place < next.place;
    }
    is_not_after(last.octets, next.octets)
}

/// Returns whether a kind is that of strings, of octets or of bits.
fn is_string(kind: Kind) -> bool
    ensures kind { IsTrue result ↔ IsString kind }
    ensures test { result ≡ is_string_meant kind }
{
    match kind {
        Kind::BitString
        | Kind::OctetString
        | Kind::Utf8String
        | Kind::NumericString
        | Kind::PrintableString
        | Kind::Ia5String
        | Kind::VisibleString
        | Kind::UniversalString
        | Kind::BmpString
        | Kind::UtcTime
        | Kind::GeneralizedTime => true,
        Kind::Boolean
        | Kind::Integer
        | Kind::Real
        | Kind::Null
        | Kind::Identifier
        | Kind::Structure
        | Kind::Other => false,
    }
}

/// Returns whether a kind is that of BIT STRING.
fn is_bits(kind: Kind) -> bool
    ensures { result ≡ is_bits_meant kind }
{
    match kind {
        Kind::BitString => true,
        _ => false,
    }
}

/// Returns whether a value has the tag of the segments of a string (8.6.4, 8.7.3.2).
fn has_segment_tag(kind: Kind, next: Element<'_>) -> bool
    ensures { IsTrue result ↔ HasSegmentTag kind (element_outline next.entry) }
{
    if !is_string(kind) {
        return true;
    }
    if is_bits(kind) {
        return next.place == 3;
    }
    next.place == 4
}

/// Returns whether no bits of the last segment of a BIT STRING are unused (8.6.4).
fn is_behind_whole(kind: Kind, last: Option<Element<'_>>) -> bool
    ensures { IsTrue result ↔ IsBehindWhole kind (option_map element_outline last.entry) }
{
    match last {
        Some(last) => !is_bits(kind) || last.unused == 0,
        None => true,
    }
}

/// Returns whether a segment has bits or octets.
fn is_segment_size(kind: Kind, size: Option<usize>) -> bool
    ensures { IsTrue result ↔ IsSegmentSize kind size }
{
    match size {
        Some(size) => { if is_bits(kind) { size > 1 } else { size > 0 } }
        None => false,
    }
}

/// Returns whether the last segment has 1000 contents octets.
fn is_behind_full(last: Option<Element<'_>>) -> bool
    ensures { IsTrue result ↔ IsBehindFull (option_map element_outline last.entry) }
{
    match last {
        Some(last) => match last.size {
            Some(size) => size == 1000,
            None => false,
        },
        None => true,
    }
}

/// Returns whether the mode is CER.
fn is_cer(mode: Mode) -> bool
    ensures { IsTrue result ↔ (mode ≡ Cer) }
{
    match mode {
        Mode::Cer => true,
        Mode::Ber | Mode::Der => false,
    }
}

/// Returns whether a segment of a string is as in CER (9.2).
fn is_cut(mode: Mode, kind: Kind, last: Option<Element<'_>>, next: Element<'_>) -> bool
    ensures { IsTrue result ↔ IsCut mode kind (option_map element_outline last.entry)
        (element_outline next.entry) }
{
    if !is_cer(mode) || !is_string(kind) {
        return true;
    }
    is_segment_size(kind, next.size) && is_behind_full(last)
}

/// Returns whether a value may end in which several values were passed, or not (9.2).
fn may_end(mode: Mode, kind: Kind, several: bool) -> bool
    ensures { IsTrue result ↔ MayEnd mode kind several }
{
    several || !is_cer(mode) || !is_string(kind)
}

/// Returns the rule by which a value may not come behind the last one in an open value.
fn misfit(mode: Mode, value: &Enclosing<'_>, next: Element<'_>) -> Option<Rule>
    ensures some { IfSome result (λ rule. BreaksFit mode value.now next.entry rule) }
    ensures none { IfNone result (Fits mode value.now next.entry) }
{
    if !keeps_order(mode, value.sorts, value.last, next) {
        return Some(Rule::OutOfOrder);
    }
    if !has_segment_tag(value.kind, next) {
        return Some(Rule::SegmentTag(value.kind));
    }
    if !is_behind_whole(value.kind, value.last) {
        return Some(Rule::SegmentUnused);
    }
    if !is_cut(mode, value.kind, value.last, next) {
        return Some(Rule::SegmentSize);
    }
    None
}

/// Returns the octets before others that follow them.
fn until<'a>(octets: &'a [u8], behind: &[u8]) -> &'a [u8]
    ensures { (v : List ℕ) → octets.now ≡ v ++ behind.now → result.now ≡ v }
{
    octets.split_at(octets.len().saturating_sub(behind.len())).0
}

/// Tells a value that may not come behind the last one in an open value. The octet behind it is at
/// `at`.
fn tell_misfit(
    mode: Mode,
    contents: bool,
    value: &Enclosing<'_>,
    element: Element<'_>,
    at: usize,
    found: &mut Vec<Breach>,
) -> Result<(), NoMemory>
    ensures { OnOk result (TellsFit mode contents value.now element.entry at
        found.old.items found.new.items) }
{
    if !contents {
        return Ok(());
    }
    match misfit(mode, value, element) {
        Some(rule) => {
            let at = at.saturating_sub(element.octets.len());
            if found.push(Breach { at, rule }).is_err() {
                return Err(NoMemory);
            }
            Ok(())
        }
        None => Ok(()),
    }
}

/// Tells a string that is cut in vain. The octets behind it are `rest`, the first of them at `at`.
fn tell_end(
    mode: Mode,
    contents: bool,
    value: &Enclosing<'_>,
    rest: &[u8],
    at: usize,
    found: &mut Vec<Breach>,
) -> Result<(), NoMemory>
    ensures { OnOk result (TellsEnd mode contents value.now rest.now at
        found.old.items found.new.items) }
{
    if !contents || may_end(mode, value.kind, value.several) {
        return Ok(());
    }
    let at = at.saturating_sub(until(value.start, rest).len());
    let breach = Breach {
        at,
        rule: Rule::SegmentSize,
    };
    if found.push(breach).is_err() {
        return Err(NoMemory);
    }
    Ok(())
}

/// Returns the octets behind so many.
fn behind(octets: &[u8], from: usize) -> &[u8]
    ensures { result.now ≡ drop from octets.now }
{
    if from <= octets.len() {
        octets.split_at(from).1
    } else {
        octets.split_at(octets.len()).1
    }
}

/// Tells a string whose segments aren't characters of its type. The octets behind it are `rest`,
/// the first of them at `at`.
fn tell_text(
    mode: Mode,
    contents: bool,
    value: &Enclosing<'_>,
    text: &[u8],
    rest: &[u8],
    at: usize,
    found: &mut Vec<Breach>,
) -> Result<(), NoMemory>
    ensures { OnOk result (TellsText mode contents value.now text.now rest.now at
        found.old.items found.new.items) }
{
    let spelled = behind(text, value.from);
    if !contents || has_characters(mode, value.kind, spelled) {
        return Ok(());
    }
    let rule = characters_rule(mode, value.kind, spelled);
    let at = at.saturating_sub(until(value.start, rest).len());
    if found.push(Breach { at, rule }).is_err() {
        return Err(NoMemory);
    }
    Ok(())
}

/// Returns whether the contents octets inside the innermost open value are gathered.
fn gathers_in(around: &[Enclosing<'_>]) -> bool
    ensures { result ≡ gathers_meant (reverse around.now) }
{
    match around {
        [.., innermost] => innermost.gathers,
        [] => false,
    }
}

/// Passes a value inside the innermost open one, and tells it if it may not come there.
fn add<'a>(
    mode: Mode,
    contents: bool,
    around: &mut Vec<Enclosing<'a>>,
    element: Element<'a>,
    at: usize,
    found: &mut Vec<Breach>,
) -> Result<(), NoMemory>
    ensures { OnOk result (Adds mode contents (reverse around.old.items) element.entry at
        found.old.items (reverse around.new.items) found.new.items) }
{
    let Some(innermost) = around.pop() else {
        return Ok(());
    };
    let Ok(()) = tell_misfit(mode, contents, &innermost, element, at, found) else {
        return Err(NoMemory);
    };
    let changed = Enclosing {
        place: innermost.place,
        sorts: innermost.sorts,
        kind: innermost.kind,
        start: innermost.start,
        from: innermost.from,
        gathers: innermost.gathers,
        several: innermost.last.is_some(),
        last: Some(element),
    };
    if around.push(changed).is_err() {
        return Err(NoMemory);
    }
    Ok(())
}

/// Returns the unused bits of a last value.
fn last_unused(last: Option<Element<'_>>) -> u8
    ensures { result ≡ last_unused_meant last.entry }
{
    match last {
        Some(last) => last.unused,
        None => 0,
    }
}

/// Gathers the contents octets of a value inside strings.
fn gather(gathers: bool, contents: &[u8], text: &mut Vec<u8>) -> Result<(), NoMemory>
    ensures { OnOk result (text.new.items
        ≡ chosen gathers (text.old.items ++ contents.now) text.old.items) }
{
    if !gathers {
        return Ok(());
    }
    if text.extend_from_slice(contents).is_err() {
        return Err(NoMemory);
    }
    Ok(())
}

/// Drops what was gathered of a value that isn't inside a string.
fn ungather(gathers: bool, from: usize, text: &mut Vec<u8>)
    ensures { text.new.items ≡ chosen gathers text.old.items (take from text.old.items) }
{
    if !gathers {
        text.truncate(from);
    }
}

/// Passes the end of a value, before the octets `rest`.
fn leave<'a>(
    mode: Mode,
    contents: bool,
    around: &mut Vec<Enclosing<'a>>,
    text: &mut Vec<u8>,
    value: Enclosing<'a>,
    rest: &'a [u8],
    at: usize,
    found: &mut Vec<Breach>,
) -> Result<(), NoMemory>
    ensures { OnOk result (Leaves mode contents value.entry (reverse around.old.items)
        text.old.items rest.now at found.old.items (reverse around.new.items) text.new.items
        found.new.items) }
{
    let Ok(()) = tell_end(mode, contents, &value, rest, at, found) else {
        return Err(NoMemory);
    };
    let Ok(()) = tell_text(mode, contents, &value, text, rest, at, found) else {
        return Err(NoMemory);
    };
    let gathers = gathers_in(around);
    ungather(gathers, value.from, text);
    let element = Element {
        place: value.place,
        size: None,
        unused: last_unused(value.last),
        octets: until(value.start, rest),
    };
    add(mode, contents, around, element, at, found)
}

/// Follows a step of the walk from the octets `start` to `rest`, the first of which is at `at`. The
/// contents octets of a primitive value are `octets`.
pub(crate) fn follow<'a>(
    mode: Mode,
    contents: bool,
    around: &mut Vec<Enclosing<'a>>,
    text: &mut Vec<u8>,
    start: &'a [u8],
    octets: &'a [u8],
    met: Met,
    rest: &'a [u8],
    at: usize,
    found: &mut Vec<Breach>,
) -> Result<(), NoMemory>
    ensures { OnOk result (Follows mode contents (reverse around.old.items) text.old.items
        start.entry octets.now met rest.entry.now at found.old.items (reverse around.new.items)
        text.new.items found.new.items) }
{
    match met {
        Met::Value(place, size, unused) => {
            let Ok(()) = gather(gathers_in(around), octets, text) else {
                return Err(NoMemory);
            };
            let element = Element {
                place,
                size: Some(size),
                unused,
                octets: until(start, rest),
            };
            add(mode, contents, around, element, at, found)
        }
        Met::Begin(place, sorts, kind) => {
            let value = Enclosing {
                place,
                sorts,
                kind,
                start,
                from: text.len(),
                gathers: is_string(kind) || gathers_in(around),
                several: false,
                last: None,
            };
            if around.push(value).is_err() {
                return Err(NoMemory);
            }
            Ok(())
        }
        Met::End => {
            let Some(value) = around.pop() else {
                return Ok(());
            };
            leave(mode, contents, around, text, value, rest, at, found)
        }
        Met::Lost => Ok(()),
    }
}
