//! Tests of errors that a closure drops, at any depth.
#![tactic(auto, using(bcder::specs::laws::Moved::steps))]

ghost use Rattle.bcder.specs.calls.Views.{Moved, MovedContent};

use crate::asserts::{holds, is_refused};
use crate::over::{shared, sip};
use bcder::decode::{Constructed, Content, DecodeError, Primitive, SliceSource, Source, walk};
use bcder::{Mode, Tag};
use std::alloc::Global;
use std::process::Abort;
use support::calls::{Inside, Number, Take, take_by};

/// Checks that no take, skip or capture succeeds.
fn takes_nothing<S: Source>(rt: &impl Abort, alloc: Global, cons: &mut Constructed<'_, S>)
    ensures { Moved S.stream cons }
{
    holds(rt, cons.take_opt_value(|_tag, _content| Ok(())).is_err());
    holds(rt, cons.take_opt_u8().is_err());
    holds(rt, walk(cons).is_err());
    holds(rt, cons.skip_one(alloc).is_err());
    holds(rt, cons.capture_all(alloc).is_err());
}

/// A call on the innermost value.
#[derive(Clone, Copy)]
enum Last {
    U8,
    OptU8,

    /// It takes the octets.
    Octets(Take),
    Walk,
    SkipOne,
}

/// Where errors are dropped.
#[derive(Drop)]
struct Drops<'a, R> {
    rt: &'a R,
    alloc: Global,

    /// The call at each level, which takes a constructed value.
    take: Take,

    /// The level at which the error is dropped. Level 0 is inside the outermost value.
    level: usize,
}

impl<'a, R: Abort> Drops<'a, R> {
    /// Returns the tag of the values at each level.
    fn tag(&self) -> Tag {
        match self.take {
            Take::Set | Take::OptSet => Tag::SET,
            _ => Tag::SEQUENCE,
        }
    }

    /// Returns the result of a closure that met this result at a level. If the closure drops the
    /// error there, checks that other calls fail too.
    fn settle<S: Source>(
        &self,
        cons: &mut Constructed<'_, S>,
        level: usize,
        met: Result<u8, DecodeError<S::Error>>,
    ) -> Result<u8, DecodeError<S::Error>>
        ensures { Moved S.stream cons }
    {
        if level != self.level {
            return met;
        }
        holds(self.rt, is_refused(met));
        takes_nothing(self.rt, self.alloc, cons);
        Ok(0)
    }
}

/// A value at a level.
trait Nested {
    /// Takes the value, and drops the error if it is to be dropped here.
    fn take<S: Source, R: Abort>(
        &self,
        drops: &Drops<'_, R>,
        cons: &mut Constructed<'_, S>,
    ) -> Result<u8, DecodeError<S::Error>>
        ensures { Moved S.stream cons };
}

/// The innermost value, an INTEGER.
#[derive(Clone, Copy)]
struct Innermost {
    level: usize,
    call: Last,
}

impl Innermost {
    /// Takes or skips the number.
    fn pass<S: Source>(
        self,
        cons: &mut Constructed<'_, S>,
        alloc: Global,
    ) -> Result<u8, DecodeError<S::Error>>
        ensures { Moved S.stream cons }
    {
        match self.call {
            Last::U8 => cons.take_u8(),
            Last::OptU8 => Ok(cons.take_opt_u8()?.unwrap_or(0)),
            Last::Walk => Ok(u8::from(walk(cons)?.is_some())),
            Last::SkipOne => Ok(u8::from(cons.skip_one(alloc)?.is_some())),
            Last::Octets(take) => {
                let taken = take_by(cons, take, Tag::INTEGER, &mut Number)?;
                Ok(taken.unwrap_or(0))
            }
        }
    }
}

impl Nested for Innermost {
    fn take<S: Source, R: Abort>(
        &self,
        drops: &Drops<'_, R>,
        cons: &mut Constructed<'_, S>,
    ) -> Result<u8, DecodeError<S::Error>>
        ensures { Moved S.stream cons }
    {
        let met = self.pass(cons, drops.alloc);
        drops.settle(cons, self.level, met)
    }
}

/// A value with another one inside.
#[derive(Clone, Copy)]
struct Around<T> {
    level: usize,
    inner: T,
}

/// What is done inside a value: the next one is taken.
#[derive(Drop)]
struct Next<'a, 'b, T, R> {
    inner: &'a T,
    drops: &'a Drops<'b, R>,
}

impl<T: Nested, R: Abort> Inside for Next<'_, '_, T, R> {
    fn of_content<S: Source>(
        &mut self,
        _tag: Tag,
        content: &mut Content<'_, S>,
    ) -> Result<u8, DecodeError<S::Error>> {
        match content {
            Content::Constructed(values) => self.inner.take(self.drops, values),
            Content::Primitive(octets) => octets.to_u8(),
        }
    }

    fn of_octets<S: Source>(
        &mut self,
        _tag: Tag,
        octets: &mut Primitive<'_, S>,
    ) -> Result<u8, DecodeError<S::Error>> {
        octets.to_u8()
    }

    fn of_values<S: Source>(
        &mut self,
        _tag: Tag,
        values: &mut Constructed<'_, S>,
    ) -> Result<u8, DecodeError<S::Error>> {
        self.inner.take(self.drops, values)
    }
}

impl<T: Nested> Around<T> {
    /// Takes the value.
    fn pass<S: Source, R: Abort>(
        &self,
        drops: &Drops<'_, R>,
        cons: &mut Constructed<'_, S>,
    ) -> Result<u8, DecodeError<S::Error>>
        ensures { Moved S.stream cons }
    {
        let mut next = Next {
            inner: &self.inner,
            drops,
        };
        let taken = take_by(cons, drops.take, drops.tag(), &mut next)?;
        Ok(taken.unwrap_or(0))
    }
}

impl<T: Nested> Nested for Around<T> {
    fn take<S: Source, R: Abort>(
        &self,
        drops: &Drops<'_, R>,
        cons: &mut Constructed<'_, S>,
    ) -> Result<u8, DecodeError<S::Error>>
        ensures { Moved S.stream cons }
    {
        let met = self.pass(drops, cons);
        drops.settle(cons, self.level, met)
    }
}

/// Creates a value around another one, which is a level deeper.
fn nest<T: Nested>(level: usize, inner: T) -> Around<T> {
    Around { level, inner }
}

/// Checks that the INTEGER in five values is refused.
fn refuses<S: Source>(rt: &impl Abort, drops: &Drops<'_, impl Abort>, source: &mut S, call: Last) {
    let number = Innermost { level: 4, call };
    let inner = nest(1, nest(2, nest(3, number)));
    let all = nest(5, nest(0, inner));
    let decoded = Mode::Ber.decode_lent(source, |cons| all.pass(drops, cons));
    holds(rt, is_refused(decoded));
}

/// Returns a truncated INTEGER in five values of definite length.
fn definite(tag: u8) -> [u8; 13] {
    [
        tag, 0x0B, tag, 0x09, tag, 0x07, tag, 0x05, tag, 0x03, 0x02, 0x02, 0x01,
    ]
}

/// Returns a truncated INTEGER in five values of indefinite length.
fn indefinite(tag: u8) -> [u8; 13] {
    [
        tag, 0x80, tag, 0x80, tag, 0x80, tag, 0x80, tag, 0x80, 0x02, 0x02, 0x01,
    ]
}

/// The calls that take a constructed value, whose closure gets what is inside.
const TAKES: [Take; 12] = [
    Take::Value,
    Take::ValueIf,
    Take::Constructed,
    Take::ConstructedIf,
    Take::Sequence,
    Take::Set,
    Take::OptValue,
    Take::OptValueIf,
    Take::OptConstructed,
    Take::OptConstructedIf,
    Take::OptSequence,
    Take::OptSet,
];

const LASTS: [Last; 8] = [
    Last::U8,
    Last::OptU8,
    Last::Octets(Take::Primitive),
    Last::Octets(Take::PrimitiveIf),
    Last::Octets(Take::OptPrimitive),
    Last::Octets(Take::OptPrimitiveIf),
    Last::Walk,
    Last::SkipOne,
];

/// Checks that octets are refused over each source, whatever the call on the innermost value is.
fn check(rt: &impl Abort, drops: &Drops<'_, impl Abort>, octets: &[u8]) {
    for call in LASTS {
        refuses(rt, drops, &mut SliceSource::new(octets), call);
        refuses(rt, drops, &mut shared(rt, drops.alloc, octets), call);
        refuses(rt, drops, &mut sip(rt, drops.alloc, octets), call);
    }
}

/// Checks that the enclosing takes and `decode` refuse, wherever a closure drops the error.
#[test]
fn dropped_refusals_are_refused(rt: HostRuntime) {
    for take in TAKES {
        for level in 0..5usize {
            let drops = Drops {
                rt: &rt,
                alloc: rt.alloc(),
                take,
                level,
            };
            let tag = if drops.tag() == Tag::SET { 0x31 } else { 0x30 };
            check(&rt, &drops, &definite(tag));
            check(&rt, &drops, &indefinite(tag));
        }
    }
}
