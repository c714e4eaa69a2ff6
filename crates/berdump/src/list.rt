//! Lists the values of an encoding.
ghost use Rattle.std.specs.Prelude.{◌≡◌, ◌≢◌, ◌⊎◌, ℕ, ◌+◌, ◌<◌, ◌≤◌, ◌^◌};
ghost use Rattle.std.specs.Prelude.{List, [], ◌∷◌, ◌++◌, length, take, Some, None};
ghost use Rattle.std.specs.Borrow.{Bor};
ghost use Rattle.std.specs.Prelude.{IfOk, OnOk, IfErr, IfSome, IfNone, MatchOption, string_bytes};
ghost use Rattle.cli.specs.Shown.{IsShown};
ghost use Rattle.berdump.specs.Answers.{HasContents, HasNone};
ghost use Rattle.berdump.specs.Answers.{IsUnlisted, IsUnwritten, Listed, Written};
ghost use Rattle.berdump.specs.declared.list.Reason.TheVariants.{Contents, TooLong};
ghost use Rattle.berdump.specs.Lines.{IsLine};
ghost use Rattle.berdump.specs.Opened.{GoesOn};
ghost use Rattle.berdump.specs.Reasons.{IsReason, BeginsNoHeader};
ghost use Rattle.berdump.specs.Answers.{IsDefiniteAt, IsIndefiniteAt};
ghost use Rattle.berdump.specs.Walk.{PassesContents, Meets, Stops, left};

use crate::heading::Heading;
use crate::held::{gone_into, held_in};
use crate::note::{Manner, add_note};
use crate::opened::{Open, close};
use crate::scope::{Scope, is_shown};
use bcder::decode::Violation;
use bcder::encode::write_octets;
use bcder::plain::front_at;
use bcder::{Mode, NoMemory};
use cli::shown::is_shown as is_clean;
use std::alloc::Global;
use std::collections::VecDeque;
use std::{fmt, io};

/// The reason why octets are refused.
#[derive(Clone, Copy, Debug)]
pub enum Reason {
    /// The octets here are no header, and this is what they violate.
    Header(Violation),

    /// The octets end before the contents of the value that begins here do.
    Contents,

    /// The value that begins here ends behind the end of the value around it.
    TooLong,

    /// These are end-of-contents octets, and no value of indefinite length can end here.
    StrayEnd,

    /// The octets end here, and a value of indefinite length is open.
    NoEnd,
}

impl fmt::Display for Reason {
    fn fmt<W: fmt::Write>(&self, f: &mut fmt::Formatter<W>) -> fmt::Result {
        match self {
            Reason::Header(violation) => write!(f, "{}", violation.text()),
            Reason::Contents => write!(f, "the contents of this value are cut short"),
            Reason::TooLong => write!(f, "this value ends behind the end of the value around it"),
            Reason::StrayEnd => write!(f, "end-of-contents octets where none belong"),
            Reason::NoEnd => write!(f, "end-of-contents octets are missing"),
        }
    }
}

/// The reason why octets weren't listed.
#[derive(Debug, Drop)]
pub enum ListError {
    /// The octets aren't the encodings of values in the mode: the offset at which this was seen,
    /// and why.
    Refused(usize, Reason),

    /// Memory ran out.
    NoMemory,

    /// The target failed.
    Target(io::Error),
}

impl From<NoMemory> for ListError {
    ghost use Rattle.berdump.specs.declared.list.ListError.TheVariants.{NoMemory};

    ghost from_gives = { λ _ e. e ≡ NoMemory };

    fn from(_error: NoMemory) -> ListError {
        ListError::NoMemory
    }
}

/// Returns the note on contents octets, which hold encodings or don't. No note has a control
/// character; the check for them proves that the line is one line.
fn note_of(
    alloc: Global,
    mode: Mode,
    scope: Scope,
    heading: Heading,
    contents: &[u8],
    holds: bool,
) -> Result<String, NoMemory>
    ensures { IfOk result (λ note. IsShown (string_bytes note)) }
{
    if heading.constructed {
        return Ok(String::new(alloc));
    }
    let mut note = String::new(alloc);
    let manner = Manner {
        alloc,
        mode,
        whole: scope.whole,
    };
    add_note(manner, &mut note, heading.tag, contents, holds)?;
    if !is_clean(note.as_str()) {
        return Ok(String::new(alloc));
    }
    Ok(note)
}

/// Returns the line of a value with these contents octets, which hold encodings or don't.
fn line(
    alloc: Global,
    mode: Mode,
    scope: Scope,
    heading: Heading,
    contents: &[u8],
    holds: bool,
) -> Result<String, NoMemory>
    ensures { IfOk result (λ text. IsLine heading (string_bytes text)) }
{
    let note = note_of(alloc, mode, scope, heading, contents, holds)?;
    let mut text = String::new(alloc);
    write!(text, "{heading}{}\n", note.as_str())?;
    Ok(text)
}

/// Writes the line of a value, if it has one.
fn write_line<W: io::Write>(
    alloc: Global,
    mode: Mode,
    scope: Scope,
    heading: Heading,
    contents: &[u8],
    holds: bool,
    target: &mut W,
) -> Result<(), ListError>
    ensures written { OnOk result
        (Written scope (heading ∷ []) (W.contents target.old) (W.contents target.new)) }
    ensures unwritten { IfErr result
        (IsUnwritten scope heading (W.contents target.old) (W.contents target.new)) }
{
    if !is_shown(scope, heading.depth) {
        return Ok(());
    }
    let text = match line(alloc, mode, scope, heading, contents, holds) {
        Ok(text) => text,
        Err(NoMemory) => return Err(ListError::NoMemory),
    };
    match write_octets(target, text.as_bytes()) {
        Ok(()) => Ok(()),
        Err(error) => Err(ListError::Target(error)),
    }
}

/// Where a listing is behind the line of a value: the octets that are left of the innermost open
/// value, the number of octets before them, and the contents octets of the value, or `None` if
/// end-of-contents octets end them.
#[derive(Clone, Copy)]
struct Place<'a> {
    rest: &'a [u8],
    at: usize,
    contents: Option<&'a [u8]>,
}

/// Opens a value, and writes its line.
fn open_value<'a, W: io::Write>(
    alloc: Global,
    mode: Mode,
    scope: Scope,
    heading: Heading,
    contents: &[u8],
    value: Open<'a>,
    opened: &mut VecDeque<Open<'a>>,
    target: &mut W,
) -> Result<(), ListError>
    ensures opens { OnOk result (opened.new.items ≡ value.entry ∷ opened.old.items) }
    ensures written { OnOk result
        (Written scope (heading ∷ []) (W.contents target.old) (W.contents target.new)) }
    ensures unwritten { IfErr result
        (IsUnwritten scope heading (W.contents target.old) (W.contents target.new)) }
{
    if opened.push_front(value).is_err() {
        return Err(ListError::NoMemory);
    }
    write_line(alloc, mode, scope, heading, contents, true, target)
}

/// Lists a primitive value whose contents octets are at an offset, and opens it if it holds
/// encodings that are to be listed.
fn list_primitive<'a, W: io::Write>(
    alloc: Global,
    mode: Mode,
    scope: Scope,
    heading: Heading,
    contents: &'a [u8],
    behind: &'a [u8],
    at: usize,
    opened: &mut VecDeque<Open<'a>>,
    target: &mut W,
) -> Result<Place<'a>, ListError>
    requires { at + length contents.now < 2 ^ 64 }
    ensures passes { IfOk result
        (λ p. PassesContents scope mode heading.tag contents.now behind.now at
        opened.old.items opened.new.items p.rest.now p.at) }
    ensures contents { IfOk result (λ p. p.contents ≡ Some contents.entry) }
    ensures written { OnOk result
        (Written scope (heading ∷ []) (W.contents target.old) (W.contents target.new)) }
    ensures unwritten { IfErr result
        (IsUnwritten scope heading (W.contents target.old) (W.contents target.new)) }
{
    let held = match held_in(alloc, mode, heading.tag, contents) {
        Ok(held) => held,
        Err(NoMemory) => return Err(ListError::NoMemory),
    };
    let Some(rest) = gone_into(scope.inside, held) else {
        if let Err(error) = write_line(
            alloc,
            mode,
            scope,
            heading,
            contents,
            held.is_some(),
            target,
        ) {
            return Err(error);
        }
        return Ok(Place {
            rest: behind,
            at: at + contents.len(),
            contents: Some(contents),
        });
    };
    let at = at + (contents.len() - rest.len());
    let value = Open::Definite(behind);
    if let Err(error) = open_value(alloc, mode, scope, heading, contents, value, opened, target) {
        return Err(error);
    }
    Ok(Place {
        rest,
        at,
        contents: Some(contents),
    })
}

/// Returns why octets begin with no header, where they don't end a value.
fn reason_at(mode: Mode, rest: &[u8]) -> Reason
    requires { BeginsNoHeader mode rest.now }
    ensures { IsReason mode rest.now result }
{
    if rest.is_empty() {
        return Reason::NoEnd;
    }
    match Violation::at(mode, rest) {
        Some(violation) => Reason::Header(violation),
        None => Reason::StrayEnd,
    }
}

/// Returns why a value is too long, which is inside these values.
fn shortness(opened: &VecDeque<Open<'_>>) -> Reason
    ensures { result ≡ Contents ⊎ result ≡ TooLong }
{
    for value in opened.iter() {
        if let Open::Definite(_) = value {
            return Reason::TooLong;
        }
    }
    Reason::Contents
}

/// Lists the value that the octets, which are at an offset, begin with, and opens it if values
/// inside it are to be listed.
fn list_value<'a, W: io::Write>(
    alloc: Global,
    mode: Mode,
    scope: Scope,
    rest: &'a [u8],
    at: usize,
    opened: &mut VecDeque<Open<'a>>,
    target: &mut W,
) -> Result<Place<'a>, ListError>
    requires room { at + length rest.now < 2 ^ 64 }
    requires goes_on { GoesOn mode opened.old.items rest.now }
    requires some { opened.old.items ≡ [] → rest.now ≢ [] }
    ensures meets { IfOk result
        (λ p. Meets scope mode opened.old.items rest.now at (W.contents target.old)
        opened.new.items p.rest.now p.at (W.contents target.new)) }
    ensures less { IfOk result
        (λ p. left opened.new.items p.rest.now < left opened.old.items rest.now) }
    ensures contents { IfOk result (λ p. MatchOption p.contents
        (IsIndefiniteAt mode rest.now p.rest.now)
        (λ contents. IsDefiniteAt mode rest.now contents.now)) }
    ensures opens { IfOk result (λ p. MatchOption p.contents
        (length opened.old.items < length opened.new.items)
        (λ _. length opened.old.items ≤ length opened.new.items)) }
    ensures stops { IfErr result
        (Stops scope mode opened.old.items rest.now at (W.contents target.old)
        (W.contents target.new)) }
{
    let Some(front) = front_at(mode, rest) else {
        return Err(ListError::Refused(at, reason_at(mode, rest)));
    };
    let header = rest.len() - front.rest.len();
    let heading = Heading {
        tag: front.tag,
        constructed: front.constructed,
        depth: opened.len(),
        offset: at,
        header,
        len: front.len,
    };
    let inner = at + header;
    let Some(len) = front.len else {
        let value = Open::Indefinite;
        if let Err(error) = open_value(alloc, mode, scope, heading, &[], value, opened, target) {
            return Err(error);
        }
        return Ok(Place {
            rest: front.rest,
            at: inner,
            contents: None,
        });
    };
    if front.rest.len() < len {
        return Err(ListError::Refused(at, shortness(opened)));
    }
    let (contents, behind) = front.rest.split_at(len);
    if front.constructed {
        let value = Open::Definite(behind);
        if let Err(error) = open_value(
            alloc, mode, scope, heading, contents, value, opened, target,
        ) {
            return Err(error);
        }
        return Ok(Place {
            rest: contents,
            at: inner,
            contents: Some(contents),
        });
    }
    list_primitive(
        alloc, mode, scope, heading, contents, behind, inner, opened, target,
    )
}

/// Writes a line for each value that the octets encode in the mode, and for each value inside it,
/// before those inside, if the scope takes in its depth. The first octet is at the scope's offset.
/// If the scope is inside strings, the values whose encodings an OCTET STRING or a BIT STRING holds
/// are inside it.
///
/// # Errors
///
/// - `Refused` if the octets aren't the encodings of values in the mode. The lines of the values up
///   to there were written.
/// - `NoMemory` if memory runs out.
/// - `Target` if the target fails.
pub fn list<W: io::Write>(
    alloc: Global,
    mode: Mode,
    scope: Scope,
    octets: &[u8],
    target: &mut W,
) -> Result<(), ListError>
    requires room { scope.from + length octets.now < 2 ^ 64 }
    ensures listed { OnOk result
        (Listed scope mode octets.now (W.contents target.old) (W.contents target.new)) }
    ensures unlisted { IfErr result
        (IsUnlisted scope mode octets.now (W.contents target.old) (W.contents target.new)) }
{
    let mut opened = VecDeque::new(alloc);
    let mut rest = octets;
    let mut at = scope.from;
    loop {
        if let Some((count, behind)) = close(mode, &mut opened, rest) {
            at += count;
            rest = behind;
            continue;
        }
        if rest.is_empty() && opened.is_empty() {
            return Ok(());
        }
        match list_value(alloc, mode, scope, rest, at, &mut opened, target) {
            Ok(place) => {
                rest = place.rest;
                at = place.at;
            }
            Err(error) => return Err(error),
        }
    }
}

/// Returns the contents octets of a value at an offset, if that is wanted and its length is
/// definite.
fn definite_here(contents: Option<&[u8]>, at: usize, wanted: usize) -> Option<&[u8]>
    ensures here { IfSome result (λ _. at ≡ wanted) }
    ensures contents { IfSome result (λ r. contents.entry ≡ Some r) }
    ensures none { IfNone result (at ≡ wanted → contents.entry ≡ None) }
{
    if at == wanted { contents } else { None }
}

/// A value that was sought, and is open: the number of values around it, and what follows its
/// header.
#[derive(Clone, Copy)]
struct Begun<'a> {
    depth: usize,
    behind: Option<&'a [u8]>,
}

/// Returns the value that is sought, if it is the one at an offset, or the one that has begun.
fn begun_at<'a>(
    begun: Begun<'a>,
    depth: usize,
    behind: &'a [u8],
    at: usize,
    wanted: usize,
) -> Begun<'a>
    ensures { (at ≡ wanted) × (result.depth ≡ depth) × (result.behind ≡ Some behind.entry)
        ⊎ (at ≢ wanted) × (result.depth ≡ begun.entry.depth)
        × (result.behind ≡ begun.entry.behind) }
{
    if at == wanted {
        return Begun {
            depth,
            behind: Some(behind),
        };
    }
    begun
}

/// Returns the contents octets of the value that has begun, if it ends where these octets begin,
/// in this number of values.
fn ended_at<'a>(begun: Begun<'a>, depth: usize, rest: &[u8]) -> Option<&'a [u8]>
    ensures some { IfSome result (λ c. (r : Bor (List ℕ)) × (n : ℕ)
        × (begun.entry.behind ≡ Some r) × (c.now ≡ take n r.now)) }
    ensures none { IfNone result (begun.entry.behind ≡ None ⊎ begun.entry.depth ≢ depth) }
{
    let Some(behind) = begun.behind else {
        return None;
    };
    if begun.depth != depth {
        return None;
    }
    let len = behind.len().saturating_sub(rest.len());
    Some(behind.split_at(len).0)
}

/// Returns the contents octets of the value whose header is at an offset, or `None` if no value of
/// the scope is there. The lines of the values up to and with it are written too.
///
/// # Errors
///
/// As those of `list`, up to the end of the value.
pub fn find<'a, W: io::Write>(
    alloc: Global,
    mode: Mode,
    scope: Scope,
    octets: &'a [u8],
    wanted: usize,
    lines: &mut W,
) -> Result<Option<&'a [u8]>, ListError>
    requires room { scope.from + length octets.now < 2 ^ 64 }
    ensures found { IfOk result (λ found. IfSome found
        (λ contents. HasContents scope mode octets.now wanted contents.now)) }
    ensures none { IfOk result
        (λ found. IfNone found (HasNone scope mode octets.now wanted)) }
{
    let mut opened = VecDeque::new(alloc);
    let mut rest = octets;
    let mut at = scope.from;
    let mut begun = Begun {
        depth: 0,
        behind: None,
    };
    loop {
        if let Some((count, behind)) = close(mode, &mut opened, rest) {
            if let Some(contents) = ended_at(begun, opened.len(), rest) {
                return Ok(Some(contents));
            }
            at += count;
            rest = behind;
            continue;
        }
        if rest.is_empty() && opened.is_empty() {
            return Ok(None);
        }
        let depth = opened.len();
        let place = match list_value(alloc, mode, scope, rest, at, &mut opened, lines) {
            Ok(place) => place,
            Err(error) => return Err(error),
        };
        if let Some(contents) = definite_here(place.contents, at, wanted) {
            return Ok(Some(contents));
        }
        begun = begun_at(begun, depth, place.rest, at, wanted);
        rest = place.rest;
        at = place.at;
    }
}
