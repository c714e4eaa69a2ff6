//! A call that is tried: alone, with its error returned or dropped, and inside other calls.
ghost use Rattle.bcder.specs.calls.Views.{Moved, MovedContent, MovedOctets};

use crate::asserts::{done, holds, same};
use crate::over::{failing_sip, failing_whole};
use bcder::decode::{Constructed, Content, DecodeError, Primitive, Source};
use bcder::{Captured, Mode, Tag};
use std::alloc::Global;
use std::process::Abort;
use support::calls::{Answer, Call, Inside, Take, ask, take_by};
use support::sip::Sip;

/// A call, the mode and the octets that it reads, and what it returns and how many octets it leaves
/// if the source doesn't fail.
#[derive(Clone, Copy)]
pub struct Trial<'a> {
    pub mode: Mode,
    pub octets: &'a [u8],
    pub call: Call,
    pub wanted: Answer,
    pub left: usize,
}

/// Which request of a source fails, counted from 1, and whether a request makes all that is left
/// available, or no more than it asks for.
#[derive(Clone, Copy)]
pub struct Failing {
    pub number: usize,
    pub whole: bool,
}

/// Where a call is made, and what becomes of its error.
#[derive(Clone, Copy)]
pub enum Place {
    /// In `decode_lent`, and the closure drops the error.
    Dropped,

    /// In `decode`, and the closure returns the error.
    Answered,

    /// In a value that this call takes, and the closure drops the error.
    Inside(Take),

    /// In a capture, and the closure drops the error.
    Captured,
}

/// Where a source failed.
#[derive(Clone, Copy)]
enum Met {
    /// Nowhere, or in the call around the one that is tried.
    Nothing,

    /// In the call that is tried.
    InCall,

    /// After it, in the same content.
    Behind,
}

/// Returns a source over octets, of which a request fails.
fn source_of(rt: &impl Abort, alloc: Global, octets: &[u8], failing: Failing) -> Sip {
    if failing.whole {
        failing_whole(rt, alloc, octets, failing.number)
    } else {
        failing_sip(rt, alloc, octets, failing.number)
    }
}

/// Returns whether these many octets were captured.
fn has_captured<E: Drop>(outcome: Result<Captured, DecodeError<E>>, all: usize) -> bool {
    match outcome {
        Ok(captured) => captured.len() == all,
        Err(_) => false,
    }
}

impl<'a> Trial<'a> {
    /// Returns whether the call is refused if the source doesn't fail.
    fn is_refused(&self) -> bool {
        matches!(self.wanted, Answer::Lacking | Answer::Refused)
    }

    /// Checks that the error is a refusal of content, and that a refusal is wanted.
    fn check_refusal<E: Drop>(&self, rt: &impl Abort, error: DecodeError<E>) {
        holds(rt, error.content_error().is_some());
        holds(rt, self.is_refused());
    }

    /// Makes the call again after the source failed. A capture gives its usual result, and any
    /// other call is refused.
    fn ask_again<S: Source>(&self, rt: &impl Abort, alloc: Global, cons: &mut Constructed<'_, S>)
        ensures { Moved S.stream cons }
    {
        match ask(cons, alloc, self.call) {
            Ok(found) => holds(rt, self.call.captures() && found == self.wanted),
            Err(error) => {
                holds(rt, error.content_error().is_some());
                holds(rt, !self.call.captures() || self.is_refused());
            }
        }
    }

    /// Checks that the call returns what is wanted, or that the source failed in it. Returns
    /// whether the source failed.
    fn check_call<S: Source>(
        &self,
        rt: &impl Abort,
        alloc: Global,
        cons: &mut Constructed<'_, S>,
    ) -> bool
        ensures { Moved S.stream cons }
    {
        match ask(cons, alloc, self.call) {
            Ok(found) => same(rt, found, self.wanted),
            Err(error) if error.is_source() => {
                self.ask_again(rt, alloc, cons);
                return true;
            }
            Err(error) => self.check_refusal(rt, error),
        }
        false
    }

    // ---- alone

    /// Drops the error, and checks that `decode_lent` refuses then, unless the content is usable.
    /// Returns whether the source failed.
    fn check_dropped(&self, rt: &impl Abort, alloc: Global, failing: Failing) -> bool {
        let mut source = source_of(rt, alloc, self.octets, failing);
        let mut struck = false;
        let decoded = self.mode.decode_lent(&mut source, |cons| {
            struck = self.check_call(rt, alloc, cons);
            Ok(())
        });
        same(rt, source.faults(), usize::from(struck));
        let usable = self.call.captures() || !struck && self.wanted != Answer::Refused;
        match decoded {
            Ok(()) => holds(rt, usable),
            Err(error) => holds(rt, !usable && error.content_error().is_some()),
        }
        if usable && (struck || failing.number == 0) {
            same(rt, done(rt, source.skip(self.octets.len())), self.left);
        }
        struck
    }

    /// Returns the error from the closure, and checks that `decode` returns it. Returns whether the
    /// source failed.
    #[tactic(auto, using(bcder::specs::laws::Moved::untouched_is_moved))]
    fn check_answered<S: Source + Drop>(&self, rt: &impl Abort, alloc: Global, source: S) -> bool {
        let call = self.call;
        match self.mode.decode(source, |cons| ask(cons, alloc, call)) {
            Ok(found) => same(rt, found, self.wanted),
            Err(error) if error.is_source() => return true,
            Err(error) => self.check_refusal(rt, error),
        }
        false
    }

    // ---- inside another call

    /// Makes the call, and skips what it leaves, whatever is refused.
    fn settle<S: Source>(
        &self,
        rt: &impl Abort,
        alloc: Global,
        cons: &mut Constructed<'_, S>,
    ) -> Met
        ensures { Moved S.stream cons }
    {
        let struck = self.check_call(rt, alloc, cons);
        match cons.skip_all(alloc) {
            Err(error) if error.is_source() => Met::Behind,
            _ if struck => Met::InCall,
            _ => Met::Nothing,
        }
    }

    /// Makes the call in a value that another call takes, and skips what it leaves.
    fn enclose<S: Source>(
        &self,
        rt: &impl Abort,
        alloc: Global,
        cons: &mut Constructed<'_, S>,
        take: Take,
    ) -> (Result<Option<u8>, DecodeError<S::Error>>, Met)
        ensures { Moved S.stream cons }
    {
        let mut inside = Settling {
            trial: *self,
            rt,
            alloc,
            met: Met::Nothing,
        };
        let outcome = take_by(cons, take, Tag::SEQUENCE, &mut inside);
        (outcome, inside.met)
    }

    /// Makes the call in a capture, and skips what it leaves. A capture that is refused leaves the
    /// content as it was.
    fn enclose_capture<S: Source>(
        &self,
        rt: &impl Abort,
        alloc: Global,
        cons: &mut Constructed<'_, S>,
    ) -> (Result<Option<u8>, DecodeError<S::Error>>, Met)
        ensures { Moved S.stream cons }
    {
        let mut met = Met::Nothing;
        let outcome = cons.capture(alloc, |inner| {
            met = self.settle(rt, alloc, inner);
            Ok(())
        });
        let outcome = match outcome {
            Ok(captured) => {
                same(rt, captured.len(), self.octets.len());
                Ok(Some(0))
            }
            Err(error) => {
                if self.wanted != Answer::Refused {
                    let again = cons.capture_all(alloc);
                    holds(rt, has_captured(again, self.octets.len()));
                }
                Err(error)
            }
        };
        (outcome, met)
    }

    /// Returns the octets as the content of a value. If the call is refused and the content fails,
    /// the end of the value is missing.
    fn enclosed(&self, rt: &impl Abort, alloc: Global, identifier: u8) -> Vec<u8> {
        let mut list = Vec::new(alloc);
        let len = (self.octets.len() % 128) as u8;
        let length = if self.mode.is_der() { len } else { 0x80 };
        done(rt, list.extend_from_slice(&[identifier, length]));
        done(rt, list.extend_from_slice(self.octets));
        if !self.mode.is_der() && self.wanted != Answer::Refused {
            done(rt, list.extend_from_slice(&[0x00, 0x00]));
        }
        list
    }

    /// Returns the octets for a place.
    fn octets_for(&self, rt: &impl Abort, alloc: Global, place: Place) -> Vec<u8> {
        match place {
            Place::Inside(Take::Set | Take::OptSet) => self.enclosed(rt, alloc, 0x31),
            Place::Inside(_) => self.enclosed(rt, alloc, 0x30),
            _ => done(rt, self.octets.to_vec(alloc)),
        }
    }

    /// Drops the error inside another call, and checks that this call refuses, unless the content
    /// is usable. Returns whether the source failed.
    fn check_inside(&self, rt: &impl Abort, alloc: Global, place: Place, failing: Failing) -> bool {
        let list = self.octets_for(rt, alloc, place);
        let mut source = source_of(rt, alloc, list.as_slice(), failing);
        let mut met = Met::Nothing;
        let decoded = self.mode.decode_lent(&mut source, |cons| {
            let (outcome, found) = match place {
                Place::Inside(take) => self.enclose(rt, alloc, cons, take),
                _ => self.enclose_capture(rt, alloc, cons),
            };
            met = found;
            outcome
        });
        let struck = source.faults() == 1;
        let usable = !struck || matches!(met, Met::InCall) && self.call.captures();
        match decoded {
            Ok(found) => holds(
                rt,
                found.is_some() && usable && self.wanted != Answer::Refused,
            ),
            Err(error) if struck && matches!(met, Met::Nothing) => holds(rt, error.is_source()),
            Err(error) => {
                holds(rt, error.content_error().is_some());
                holds(rt, !usable || self.wanted == Answer::Refused);
            }
        }
        struck
    }

    // ---- all

    /// Tries the call while a request fails, and returns whether there was a request with that
    /// number.
    fn check(&self, rt: &impl Abort, alloc: Global, place: Place, failing: Failing) -> bool {
        match place {
            Place::Dropped => self.check_dropped(rt, alloc, failing),
            Place::Answered => {
                self.check_answered(rt, alloc, source_of(rt, alloc, self.octets, failing))
            }
            _ => self.check_inside(rt, alloc, place, failing),
        }
    }

    /// Tries the call without a request that fails, and then with each in turn, until there are no
    /// more.
    pub fn run(&self, rt: &impl Abort, alloc: Global, place: Place, whole: bool) {
        holds(
            rt,
            !self.check(rt, alloc, place, Failing { number: 0, whole }),
        );
        holds(
            rt,
            self.check(rt, alloc, place, Failing { number: 1, whole }),
        );
        for number in 2..REQUESTS {
            if !self.check(rt, alloc, place, Failing { number, whole }) {
                return;
            }
        }
        holds(rt, false);
    }
}

/// A call that is tried inside another one, which takes a constructed value, and where the source
/// failed there.
#[derive(Clone, Copy)]
struct Settling<'a, R> {
    trial: Trial<'a>,
    rt: &'a R,
    alloc: Global,
    met: Met,
}

impl<R: Abort> Inside for Settling<'_, R> {
    fn of_content<S: Source>(
        &mut self,
        tag: Tag,
        content: &mut Content<'_, S>,
    ) -> Result<u8, DecodeError<S::Error>> {
        content.as_constructed(|values| self.of_values(tag, values))
    }

    fn of_octets<S: Source>(
        &mut self,
        _tag: Tag,
        octets: &mut Primitive<'_, S>,
    ) -> Result<u8, DecodeError<S::Error>> {
        octets.to_u8()
    }

    fn of_values<S: Source>(
        &mut self,
        _tag: Tag,
        values: &mut Constructed<'_, S>,
    ) -> Result<u8, DecodeError<S::Error>> {
        self.met = self.trial.settle(self.rt, self.alloc, values);
        Ok(0)
    }
}

/// More requests than any of these calls makes.
const REQUESTS: usize = 128;
