//! Walking over values, which checks every header inside them.
ghost use Rattle.std.specs.Prelude.{◌≡◌, ◌≤◌, false, IfOk, IfSome, OnOk, OnErr};
ghost use Rattle.bcder.specs.steps.StopCause.{stop_cause};
ghost use Rattle.bcder.specs.calls.Stream.{Grew};
ghost use Rattle.bcder.specs.x690.Identifier.{Tag as TagValue};
ghost use Rattle.bcder.specs.steps.Peek.{len_of};
ghost use Rattle.bcder.specs.calls.Content.{any, Moves, FitsOwed, values, Resembles};
ghost use Rattle.bcder.specs.steps.Inside.{RanOver};
ghost use Rattle.bcder.specs.calls.Cause.{cause_of};
ghost use Rattle.bcder.specs.calls.Content.{Refuses};
ghost use Rattle.bcder.specs.calls.Calls.{NextBy};
ghost use Rattle.bcder.specs.steps.WalkSteps.{Between};
ghost use Rattle.bcder.specs.calls.Walking.{HasNoNext, PassesValue};
ghost use Rattle.bcder.specs.steps.WalkSteps.{NoFault, Fault, PassedStep};
ghost use Rattle.bcder.specs.steps.WalkSteps.{PassedOver, PassedAtOnce, WalkedOver};
ghost use Rattle.bcder.specs.x690.Grammar.{BeginsWhole};
ghost use Rattle.bcder.specs.steps.WalkSteps.{itself, walked};
ghost use Rattle.bcder.specs.calls.Views.{Moved, of_constructed, limited_stream, before, after};

use super::take::pop;
use super::{Constructed, Kind, State};
use crate::decode::error::DecodeError;
use crate::decode::header::{Form, Header, Wanted};
use crate::decode::source::{LimitedSource, Source};
use crate::decode::stop::Stop;
use crate::length::Length;
use crate::mode::Mode;
use crate::plain::{short_size, size_within};

/// Passes over the next value, or returns `None` at the end of the content, whose marker it takes.
///
/// Unless the source fails, a value is passed exactly if the encoding of one comes next, in the
/// content's mode (X.690, 8.1.1). The identifier octets, length octets and end-of-contents octets
/// of the value and of all values inside it are checked. Contents octets of primitive values are
/// not looked at. Nothing is allocated, but each level of values may need a level of calls.
///
/// # Errors
///
/// Returns an error if neither the encoding of a value nor the end comes next, if an earlier value
/// was refused, or if the source fails. The content has then failed.
#[tactic(auto, using(crate::specs::laws::Moved::moved_twice_is_moved))]
#[inline(always)]
pub fn walk<S: Source>(cons: &mut Constructed<'_, S>) -> Result<Option<()>, DecodeError<S::Error>>
    ensures moves { Moved S.stream cons }
    ensures passed { NextBy any (λ i _ j. PassesValue i j) (Refuses cause_of any HasNoNext ⊥)
        (of_constructed S.stream cons.old) result (of_constructed S.stream cons.new) }
{
    match cons.pass_at_hand(Lookahead::Short) {
        Ok(true) => Ok(Some(())),
        Ok(false) => match walk_copy(cons) {
            Ok(passed) => Ok(passed),
            Err(stop) => Err(cons.stop_error(stop)),
        },
        Err(stop) => Err(cons.stop_error(stop)),
    }
}

/// Which values at hand to look for.
#[derive(Clone, Copy)]
pub(super) enum Lookahead {
    /// Primitive values with a header of two octets.
    Short,

    /// Values that can be read within a limited number of levels of calls.
    Shallow,
}

/// Returns how many octets the next value has, if it is one to look for and all of its octets are
/// here.
#[inline(always)]
fn whole_size(mode: Mode, octets: &[u8], looked: Lookahead) -> Option<usize>
    ensures { IfSome result (λ n. BeginsWhole mode octets.now n) }
{
    match looked {
        Lookahead::Short => short_size(octets),
        Lookahead::Shallow => size_within(mode, octets),
    }
}

/// Returns how many octets the next value of a source has, if it is one to look for and all of its
/// octets are at hand.
///
/// It requests two octets, since every header has at least two, and takes none. An error is the
/// source's own.
#[inline(always)]
fn size_ahead<S: Source>(
    source: &mut S,
    mode: Mode,
    looked: Lookahead,
) -> Result<Option<usize>, S::Error>
    ensures whole { IfOk result (λ o.
        IfSome o (λ n. BeginsWhole mode (S.stream source.new).rest n)) }
    ensures at_hand { IfOk result (λ o. IfSome o (λ n. n ≤ (S.stream source.new).avail)) }
    ensures no_fault { OnOk result
        ((S.stream source.new).faults ≡ (S.stream source.old).faults) }
    ensures fault { OnErr result
        (Grew (S.stream source.old).faults (S.stream source.new).faults) }
    ensures rest { (S.stream source.new).rest ≡ (S.stream source.old).rest }
    ensures kept { (S.stream source.new).kept ≡ (S.stream source.old).kept }
{
    let found = source.request(2)?;
    Ok(whole_size(mode, &source.slice()[..found], looked))
}

impl<'a, S: Source> Constructed<'a, S> {
    /// Passes over octets that are at hand.
    #[tactic(auto, unfolding(crate::specs::calls::Views::of_constructed))]
    #[inline(always)]
    fn pass_over(&mut self, size: usize)
        requires { size ≤ (limited_stream S.stream self.old.source.now).avail }
        ensures { PassedOver S.stream self size }
    {
        self.source.advance(size);
    }

    /// Returns how many octets the next value has, if it is one to look for and all of its octets
    /// are at hand. Nothing is taken.
    #[tactic(auto, unfolding(crate::specs::calls::Views::of_constructed))]
    #[inline(always)]
    fn look_ahead(&mut self, looked: Lookahead) -> Result<Option<usize>, S::Error>
        ensures same { Between S.stream self Resembles }
        ensures whole { IfOk result (λ o. IfSome o (λ n.
            BeginsWhole self.old.mode (limited_stream S.stream self.new.source.now).rest n)) }
        ensures at_hand { IfOk result (λ o. IfSome o (λ n.
            n ≤ (limited_stream S.stream self.new.source.now).avail)) }
        ensures no_fault { OnOk result (NoFault S.stream self) }
        ensures fault { OnErr result (Fault S.stream self) }
    {
        size_ahead(self.source, self.mode, looked)
    }

    /// Passes over the next value in one go, if it is one to look for and all of its octets are at
    /// hand, and returns whether it did. The source gets one request.
    #[tactic(auto, unfolding(crate::specs::calls::Views::of_constructed))]
    #[inline(always)]
    fn pass_ahead(&mut self, looked: Lookahead) -> Result<bool, Stop<S::Error>>
        requires { self.old.state ≡ State.Open }
        ensures moves { Between S.stream self Moves }
        ensures passed { PassedAtOnce S.stream self result }
    {
        match self.look_ahead(looked) {
            Ok(Some(size)) => {
                self.pass_over(size);
                Ok(true)
            }
            Ok(None) => Ok(false),
            Err(error) => {
                self.state = State::Failed;
                Err(Stop::Source(error))
            }
        }
    }

    /// Does what `pass_ahead` does, for content in any state.
    ///
    /// The source gets at most one request, and none if no octets are owed. If there is no limit,
    /// that too is checked only once.
    #[tactic(auto, unfolding(crate::specs::calls::Views::of_constructed))]
    #[inline(always)]
    pub(super) fn pass_at_hand(&mut self, looked: Lookahead) -> Result<bool, Stop<S::Error>>
        ensures moves { Between S.stream self Moves }
        ensures passed { PassedAtOnce S.stream self result }
    {
        let State::Open = self.state else {
            return Ok(false);
        };
        let Some(owed) = self.source.limit() else {
            return self.pass_ahead(looked);
        };
        if let Kind::Definite = self.kind {
            if owed == 0 {
                return Ok(false);
            }
        }
        self.pass_ahead(looked)
    }

    /// Passes over the next value in one go, if it needs only a limited number of levels of calls.
    /// This call is out of line.
    #[tactic(auto, using(crate::proofs::moves_constructed_name))]
    #[inline(never)]
    pub(super) fn pass_shallow(&mut self) -> Result<bool, Stop<S::Error>>
        ensures moves { Between S.stream self Moves }
        ensures passed { PassedAtOnce S.stream self result }
        ensures name { self.new.source.ghost_name ≡ self.old.source.ghost_name }
    {
        self.pass_at_hand(Lookahead::Shallow)
    }
}

/// Does what `walk` does, whatever comes next, but returns a stop instead of an error.
///
/// It lends a copy of the content, and sets the state of the original only if no value was passed.
/// So content that is a caller's local variable has no address, and a loop over its values checks
/// neither its state nor its kind.
#[inline(always)]
fn walk_copy<S: Source>(cons: &mut Constructed<'_, S>) -> Result<Option<()>, Stop<S::Error>>
    ensures moves { Between S.stream cons Moves }
    ensures passed { PassedStep S.stream cons result }
{
    // No call makes the copy, since a call would get the address of the content.
    let mut copy = Constructed {
        source: &mut *cons.source,
        kind: cons.kind,
        state: cons.state,
        mode: cons.mode,
        marked: cons.marked,
        start: cons.start,
    };
    match walk_any(&mut copy) {
        Ok(Some(())) => Ok(Some(())),
        Ok(None) => {
            cons.state = copy.state;
            Ok(None)
        }
        Err(stop) => {
            cons.state = State::Failed;
            Err(stop)
        }
    }
}

/// Passes over the next value, whatever it is. This call is out of line.
#[inline(never)]
fn walk_any<S: Source>(cons: &mut Constructed<'_, S>) -> Result<Option<()>, Stop<S::Error>>
    ensures moves { Between S.stream cons Moves }
    ensures passed { PassedStep S.stream cons result }
    ensures name { cons.new.source.ghost_name ≡ cons.old.source.ghost_name }
{
    match cons.pass_at_hand(Lookahead::Shallow) {
        Ok(true) => Ok(Some(())),
        Ok(false) => step(cons),
        Err(stop) => Err(stop),
    }
}

/// Passes over the next value header by header.
#[cycle(walk)]
#[tactic(auto, unfolding(crate::specs::calls::Views::of_constructed))]
#[inline(always)]
fn step<S: Source>(cons: &mut Constructed<'_, S>) -> Result<Option<()>, Stop<S::Error>>
    ensures moves { Between S.stream cons Moves }
    ensures passed { PassedStep S.stream cons result }
{
    match cons.next_header(Wanted::Any) {
        Ok(Some(header)) => match pass_content(cons, header) {
            Ok(()) => {
                cons.state = State::Open;
                Ok(Some(()))
            }
            Err(stop) => Err(stop),
        },
        Ok(None) => Ok(None),
        Err(stop) => Err(stop),
    }
}

/// Passes over the content of a value whose header was passed.
#[cycle(walk)]
#[tactic(auto, unfolding(crate::specs::calls::Views::of_constructed))]
#[inline(always)]
fn pass_content<S: Source>(
    cons: &mut Constructed<'_, S>,
    header: Header,
) -> Result<(), Stop<S::Error>>
    requires { FitsOwed (len_of header.form) cons.old.source.now.limit }
    ensures taken { WalkedOver S.stream cons header result }
    ensures mode { cons.new.mode ≡ cons.old.mode }
    ensures marked { cons.new.marked ≡ cons.old.marked }
    ensures state { cons.new.state ≡ cons.old.state }
    ensures no_fault { OnOk result (NoFault S.stream cons) }
{
    match header.form {
        Form::Primitive(len) => cons.source.skip_owed(len),
        Form::Constructed(Length::Definite(len)) => {
            let outer = cons.source.limit();
            cons.source.set_limit(Some(len));
            let result = walk_over(cons.source, Kind::Definite, cons.mode);
            pop(cons.source, outer, len);
            result
        }
        Form::Constructed(Length::Indefinite) => {
            walk_over(cons.source, Kind::Indefinite, cons.mode)
        }
    }
}

/// Passes over all values inside a value, up to its end, whose marker it takes.
#[cycle(walk)]
#[tactic(auto, unfolding(crate::specs::calls::Views::of_constructed))]
#[inline(never)]
fn walk_over<S: Source>(
    source: &mut LimitedSource<S>,
    kind: Kind,
    mode: Mode,
) -> Result<(), Stop<S::Error>>
    ensures ran { (t : TagValue) → RanOver stop_cause itself (walked stop_cause)
        (limited_stream S.stream source.old) source.old.limit (values kind) mode t result false
        (limited_stream S.stream source.new) source.new.limit }
    ensures no_fault { OnOk result
        ((limited_stream S.stream source.new).faults
        ≡ (limited_stream S.stream source.old).faults) }
{
    let mut cons = Constructed::over(&mut *source, kind, State::Open, mode);
    while step(&mut cons)?.is_some() {}
    Ok(())
}
