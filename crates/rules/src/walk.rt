//! The walk over octets that tells the rules that they break.
ghost use Rattle.std.specs.Prelude.{◌≡◌, ◌↔◌, ◌+◌, ◌<◌, ◌^◌, ◌*◌, ◌++◌, ◌∷◌, [], ℕ, List, length};
ghost use Rattle.std.specs.Prelude.{IsTrue, IfOk, OnOk, IfNone, All, option_map, reverse, true};
ghost use Rattle.bcder.specs.declared.mode.Mode.TheVariants.{Ber};
ghost use Rattle.encodings.specs.Next.{IsDue};
ghost use Rattle.encodings.specs.Open.{GoesBeyond, HasNoHeader, open_values, to_come};
ghost use Rattle.rules.specs.Begun.{BeginsValue};
ghost use Rattle.rules.specs.Broken.{Breaks, Holds, IsInDefinite};
ghost use Rattle.rules.specs.Comes.{HasNoEnd};
ghost use Rattle.rules.specs.declared.around.Met.TheVariants.{Lost};
ghost use Rattle.rules.specs.Means.{AreRight};
ghost use Rattle.rules.specs.Passes.{EndsBefore, Enters, GoesTo, InWalk, Looks, Onward, Passes};
ghost use Rattle.rules.specs.Passes.{PassesBroken, PassesValue};

use crate::around::{Enclosing, Met, follow, met_of};
use crate::begun::{Begun, Front, begin, close};
use crate::judge::judge;
use crate::rule::{Breach, Rule};
use bcder::decode::Violation;
use bcder::plain::end_at;
use bcder::{Mode, NoMemory};
use std::alloc::Global;

/// The octets that are left of the innermost open value, and the number of octets before them.
#[derive(Clone, Copy)]
struct Place<'a> {
    rest: &'a [u8],
    at: usize,
}

/// Where a step of the walk got to, and what it passed.
#[derive(Clone, Copy)]
struct Stepped<'a> {
    rest: &'a [u8],
    at: usize,
    met: Met,

    /// The contents octets, if it is a primitive value.
    octets: &'a [u8],
}

/// Where the walk got to, and whether it lost no value: whether no rule of headers or ends was
/// broken.
#[derive(Clone, Copy)]
struct Standing<'a> {
    rest: &'a [u8],
    at: usize,
    whole: bool,
}

/// Adds a breach.
fn tell(found: &mut Vec<Breach>, at: usize, rule: Rule) -> Result<(), NoMemory>
    ensures { OnOk result (found.new.items
        ≡ found.old.items ++ record { at = at; rule = rule } ∷ []) }
{
    if found.push(Breach { at, rule }).is_err() {
        return Err(NoMemory);
    }
    Ok(())
}

/// Returns whether an open value has a definite length.
fn is_in_definite(opened: &[Option<&[u8]>]) -> bool
    ensures { IsTrue result ↔ IsInDefinite (open_values opened.now) }
{
    for value in opened {
        if value.is_some() {
            return true;
        }
    }
    false
}

/// Goes on behind the innermost open value of definite length, from where a value has no end.
fn give_up<'a>(opened: &mut Vec<Option<&'a [u8]>>, rest: &'a [u8], at: usize) -> Place<'a>
    requires end { HasNoEnd rest.now }
    requires some { 0 < length rest.now }
    requires room { at + length (to_come (open_values opened.old.items) rest.now) < 2 ^ 64 }
    ensures { GoesTo (open_values opened.old.items) rest.now at
        (open_values opened.new.items) result.rest.now result.at }
{
    while let Some(&innermost) = opened.last() {
        let _left = opened.pop();
        if let Some(behind) = innermost {
            return Place {
                rest: behind,
                at: at + rest.len(),
            };
        }
    }
    Place {
        rest: rest.split_at(rest.len()).1,
        at: at + rest.len(),
    }
}

/// Goes past end-of-contents octets, before the octets `behind`. They end the innermost open value
/// if it is of indefinite length, and else none.
fn pass_end<'a>(
    opened: &mut Vec<Option<&'a [u8]>>,
    rest: &'a [u8],
    behind: &'a [u8],
    at: usize,
) -> Place<'a>
    requires end { EndsBefore rest.now behind.now }
    requires room { at + length (to_come (open_values opened.old.items) rest.now) < 2 ^ 64 }
    ensures { GoesTo (open_values opened.old.items) rest.now at
        (open_values opened.new.items) result.rest.now result.at }
{
    let place = Place {
        rest: behind,
        at: at + (rest.len() - behind.len()),
    };
    let Some(&innermost) = opened.last() else {
        return place;
    };
    if innermost.is_some() {
        return place;
    }
    let _ended = opened.pop();
    place
}

/// Tells what a value breaks by its form and its contents octets, if these are to be looked at.
fn look(
    mode: Mode,
    contents: bool,
    begun: &Begun<'_>,
    at: usize,
    found: &mut Vec<Breach>,
) -> Result<(), NoMemory>
    requires { at + begun.now.size + length begun.now.contents.now < 2 ^ 64 }
    ensures { OnOk result (Looks mode contents begun.now.tag begun.now.constructed
        begun.now.size begun.now.contents.now at found.old.items found.new.items) }
{
    if !contents {
        return Ok(());
    }
    match judge(
        mode,
        begun.tag,
        begun.constructed,
        begun.size,
        begun.contents,
    ) {
        Some((rule, place)) => tell(found, at + place, rule),
        None => Ok(()),
    }
}

/// Goes past the header of a value, and past its contents if it is primitive.
fn enter<'a>(
    opened: &mut Vec<Option<&'a [u8]>>,
    begun: &Begun<'a>,
    at: usize,
) -> Result<Place<'a>, NoMemory>
    requires room { at + begun.now.size + length begun.now.contents.now < 2 ^ 64 }
    requires form { IfNone begun.now.behind (begun.now.constructed ≡ true) }
    ensures { IfOk result (λ p. Enters begun.now.constructed begun.now.size
        begun.now.contents.now (option_map (λ s. s.now) begun.now.behind) at
        (open_values opened.old.items)
        (open_values opened.new.items) p.rest.now p.at) }
{
    let inner = at + begun.size;
    if begun.constructed {
        if opened.push(begun.behind).is_err() {
            return Err(NoMemory);
        }
        return Ok(Place {
            rest: begun.contents,
            at: inner,
        });
    }
    match begun.behind {
        Some(behind) => Ok(Place {
            rest: behind,
            at: inner + begun.contents.len(),
        }),
        None => unreachable!(),
    }
}

/// Passes a value that the octets begin with, or its header if it is constructed.
fn pass_value<'a>(
    mode: Mode,
    contents: bool,
    opened: &mut Vec<Option<&'a [u8]>>,
    rest: &'a [u8],
    begun: &Begun<'a>,
    at: usize,
    found: &mut Vec<Breach>,
) -> Result<Place<'a>, NoMemory>
    requires begins { BeginsValue Ber rest.now begun.now.tag begun.now.constructed
        begun.now.size begun.now.contents.now (option_map (λ s. s.now) begun.now.behind) }
    requires room { at + length (to_come (open_values opened.old.items) rest.now) < 2 ^ 64 }
    ensures { IfOk result (λ p. PassesValue mode contents begun.now.tag begun.now.constructed
        begun.now.size begun.now.contents.now (option_map (λ s. s.now) begun.now.behind)
        (open_values opened.old.items) rest.now at found.old.items
        (open_values opened.new.items) p.rest.now p.at found.new.items) }
{
    let Ok(()) = look(mode, contents, begun, at, found) else {
        return Err(NoMemory);
    };
    enter(opened, begun, at)
}

/// Returns the rule that a value breaks inside these open values which has more contents octets
/// than are there.
fn beyond_rule(opened: &[Option<&[u8]>]) -> Rule
    ensures { (mode : _) (x : _) → GoesBeyond Ber x
        → Breaks mode (open_values opened.now) x result 0 }
{
    if is_in_definite(opened) {
        Rule::ValueTooLong
    } else {
        Rule::ContentsCut
    }
}

/// Tells that a value has more contents octets than are there, and gives it up.
fn pass_beyond<'a>(
    mode: Mode,
    opened: &mut Vec<Option<&'a [u8]>>,
    rest: &'a [u8],
    at: usize,
    found: &mut Vec<Breach>,
) -> Result<Place<'a>, NoMemory>
    requires beyond { GoesBeyond Ber rest.now }
    requires room { at + length (to_come (open_values opened.old.items) rest.now) < 2 ^ 64 }
    ensures { IfOk result (λ p. PassesBroken mode
        (open_values opened.old.items) rest.now at found.old.items
        (open_values opened.new.items) p.rest.now p.at found.new.items) }
{
    let rule = beyond_rule(opened);
    let Ok(()) = tell(found, at, rule) else {
        return Err(NoMemory);
    };
    Ok(give_up(opened, rest, at))
}

/// Goes on from octets that break a rule of headers, which was told.
fn recover<'a>(
    mode: Mode,
    contents: bool,
    opened: &mut Vec<Option<&'a [u8]>>,
    rest: &'a [u8],
    at: usize,
    found: &mut Vec<Breach>,
) -> Result<Place<'a>, NoMemory>
    requires some { 0 < length rest.now }
    requires room { at + length (to_come (open_values opened.old.items) rest.now) < 2 ^ 64 }
    ensures { IfOk result (λ p. Onward mode
        (open_values opened.old.items) rest.now at found.old.items
        (open_values opened.new.items) p.rest.now p.at found.new.items) }
{
    if let Some(behind) = end_at(Mode::Ber, rest) {
        return Ok(pass_end(opened, rest, behind, at));
    }
    match begin(Mode::Ber, rest) {
        Front::Value(begun) => pass_value(mode, contents, opened, rest, &begun, at, found),
        Front::Beyond => pass_beyond(mode, opened, rest, at, found),
        Front::Nothing => Ok(give_up(opened, rest, at)),
    }
}

/// Returns the rule that octets break which begin with no header, where a value is due.
fn rule_at(mode: Mode, rest: &[u8]) -> Rule
    requires none { HasNoHeader mode rest.now }
    requires some { 0 < length rest.now }
    ensures { (os : _) → IsDue mode os rest.now → Breaks mode os rest.now result 0 }
{
    match Violation::at(mode, rest) {
        Some(violation) => Rule::Header(violation),
        None => Rule::StrayEnd,
    }
}

/// Tells that a value of indefinite length ends without end-of-contents octets, and closes it.
fn pass_missing_end<'a>(
    mode: Mode,
    opened: &mut Vec<Option<&'a [u8]>>,
    rest: &'a [u8],
    at: usize,
    found: &mut Vec<Breach>,
) -> Result<Place<'a>, NoMemory>
    requires due { IsDue mode (open_values opened.old.items) rest.now }
    requires nothing { length rest.now ≡ 0 }
    ensures { IfOk result (λ p. PassesBroken mode
        (open_values opened.old.items) rest.now at found.old.items
        (open_values opened.new.items) p.rest.now p.at found.new.items) }
{
    let Some(&_innermost) = opened.last() else {
        unreachable!();
    };
    let Ok(()) = tell(found, at, Rule::MissingEnd) else {
        return Err(NoMemory);
    };
    let _ended = opened.pop();
    Ok(Place { rest, at })
}

/// Tells which rule octets break that begin with no header where a value is due, and goes on.
fn pass_broken<'a>(
    mode: Mode,
    contents: bool,
    opened: &mut Vec<Option<&'a [u8]>>,
    rest: &'a [u8],
    at: usize,
    found: &mut Vec<Breach>,
) -> Result<Place<'a>, NoMemory>
    requires due { IsDue mode (open_values opened.old.items) rest.now }
    requires none { HasNoHeader mode rest.now }
    requires room { at + length (to_come (open_values opened.old.items) rest.now) < 2 ^ 64 }
    ensures { IfOk result (λ p. PassesBroken mode
        (open_values opened.old.items) rest.now at found.old.items
        (open_values opened.new.items) p.rest.now p.at found.new.items) }
{
    if rest.is_empty() {
        return pass_missing_end(mode, opened, rest, at, found);
    }
    let rule = rule_at(mode, rest);
    let Ok(()) = tell(found, at, rule) else {
        return Err(NoMemory);
    };
    recover(mode, contents, opened, rest, at, found)
}

/// Passes what comes next, where a value is due.
fn pass_due<'a>(
    mode: Mode,
    contents: bool,
    opened: &mut Vec<Option<&'a [u8]>>,
    rest: &'a [u8],
    at: usize,
    found: &mut Vec<Breach>,
) -> Result<Stepped<'a>, NoMemory>
    requires due { IsDue mode (open_values opened.old.items) rest.now }
    requires room { at + length (to_come (open_values opened.old.items) rest.now) < 2 ^ 64 }
    ensures { IfOk result (λ p. Passes mode contents
        (open_values opened.old.items) rest.now at found.old.items
        (open_values opened.new.items) p.rest.now p.at found.new.items p.met p.octets.now) }
{
    match begin(mode, rest) {
        Front::Value(begun) => {
            let met = met_of(&begun);
            match pass_value(mode, contents, opened, rest, &begun, at, found) {
                Ok(place) => Ok(Stepped {
                    rest: place.rest,
                    at: place.at,
                    met,
                    octets: begun.contents,
                }),
                Err(NoMemory) => Err(NoMemory),
            }
        }
        Front::Beyond => match pass_beyond(mode, opened, rest, at, found) {
            Ok(place) => Ok(Stepped {
                rest: place.rest,
                at: place.at,
                met: Met::Lost,
                octets: rest,
            }),
            Err(NoMemory) => Err(NoMemory),
        },
        Front::Nothing => match pass_broken(mode, contents, opened, rest, at, found) {
            Ok(place) => Ok(Stepped {
                rest: place.rest,
                at: place.at,
                met: Met::Lost,
                octets: rest,
            }),
            Err(NoMemory) => Err(NoMemory),
        },
    }
}

/// Passes the end of the innermost open value, or what comes next in it.
fn pass_next<'a>(
    mode: Mode,
    contents: bool,
    opened: &mut Vec<Option<&'a [u8]>>,
    rest: &'a [u8],
    at: usize,
    found: &mut Vec<Breach>,
) -> Result<Stepped<'a>, NoMemory>
    requires some { 0 < opened.old.len + length rest.now }
    requires room { at + length (to_come (open_values opened.old.items) rest.now) < 2 ^ 64 }
    ensures { IfOk result (λ p. Passes mode contents
        (open_values opened.old.items) rest.now at found.old.items
        (open_values opened.new.items) p.rest.now p.at found.new.items p.met p.octets.now) }
{
    let Some(&innermost) = opened.last() else {
        return pass_due(mode, contents, opened, rest, at, found);
    };
    match close(mode, innermost, rest) {
        Some((size, behind)) => {
            let _ended = opened.pop();
            Ok(Stepped {
                rest: behind,
                at: at + size,
                met: Met::End,
                octets: rest,
            })
        }
        None => pass_due(mode, contents, opened, rest, at, found),
    }
}

/// Returns whether a value was lost.
fn is_lost(met: Met) -> bool
    ensures { IsTrue result ↔ (met ≡ Lost) }
{
    match met {
        Met::Lost => true,
        _ => false,
    }
}

/// Goes one step on, and follows it if no value was lost.
fn go_on<'a>(
    mode: Mode,
    contents: bool,
    opened: &mut Vec<Option<&'a [u8]>>,
    around: &mut Vec<Enclosing<'a>>,
    text: &mut Vec<u8>,
    place: Standing<'a>,
    found: &mut Vec<Breach>,
) -> Result<Standing<'a>, NoMemory>
    requires some { 0 < opened.old.len + length place.rest.now }
    requires room { place.at
        + length (to_come (open_values opened.old.items) place.rest.now) < 2 ^ 64 }
    ensures smaller { IfOk result (λ p.
        length (to_come (open_values opened.new.items) p.rest.now) * 2
        + length (open_values opened.new.items)
        < length (to_come (open_values opened.old.items) place.entry.rest.now) * 2
        + length (open_values opened.old.items)) }
    ensures walk { IfOk result (λ p. (octets : List ℕ)
        → InWalk mode contents octets (open_values opened.old.items) (reverse around.old.items)
        text.old.items place.entry.whole place.entry.rest.now place.entry.at found.old.items
        → InWalk mode contents octets (open_values opened.new.items) (reverse around.new.items)
        text.new.items p.whole p.rest.now p.at found.new.items) }
{
    let next = match pass_next(mode, contents, opened, place.rest, place.at, found) {
        Ok(next) => next,
        Err(NoMemory) => return Err(NoMemory),
    };
    if !place.whole || is_lost(next.met) {
        return Ok(Standing {
            rest: next.rest,
            at: next.at,
            whole: false,
        });
    }
    let Ok(()) = follow(
        mode,
        contents,
        around,
        text,
        place.rest,
        next.octets,
        next.met,
        next.rest,
        next.at,
        found,
    ) else {
        return Err(NoMemory);
    };
    Ok(Standing {
        rest: next.rest,
        at: next.at,
        whole: true,
    })
}

/// Returns what octets break that are to be encodings of values in the mode, one after the other,
/// and, if `contents`, what their contents octets, the segments of strings and the order of the
/// values inside each SET break. There is nothing exactly if they are.
///
/// Octets don't tell a SET from a SET OF: its values have to be in the order of their tags, and
/// those with the same tag in the order of their octets, as [`encodings::sets`] puts them. Order
/// and segments are looked at up to the first octet that breaks a rule of headers.
///
/// ```text
/// breaches(alloc, Mode::Der, true, &[0x30, 0x03, 0x01, 0x01, 0x01])   // at 4: BooleanValue
/// ```
pub fn breaches(
    alloc: Global,
    mode: Mode,
    contents: bool,
    octets: &[u8],
) -> Result<Vec<Breach>, NoMemory>
    ensures none { IfOk result (λ found. found.items ≡ [] ↔ AreRight mode contents octets.now) }
    ensures hold { IfOk result (λ found. All (Holds mode octets.now) found.items) }
{
    let mut found = Vec::new(alloc);
    let mut opened: Vec<Option<&[u8]>> = Vec::new(alloc);
    let mut around = Vec::new(alloc);
    let mut text = Vec::new(alloc);
    let mut place = Standing {
        rest: octets,
        at: 0,
        whole: true,
    };
    while !opened.is_empty() || !place.rest.is_empty() {
        match go_on(
            mode,
            contents,
            &mut opened,
            &mut around,
            &mut text,
            place,
            &mut found,
        ) {
            Ok(next) => place = next,
            Err(NoMemory) => return Err(NoMemory),
        }
    }
    Ok(found)
}
