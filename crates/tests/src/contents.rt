//! Tests of content: what it says of itself, why it refuses, and its state after its source failed.
#![tactic(auto, using(bcder::specs::laws::Moved::steps))]

ghost use Rattle.bcder.specs.calls.Views.{Moved};

use crate::asserts::{done, holds, is_refused};
use crate::over::check_all;
use crate::reading::{Line, Look, Wanted, check_failing};
use bcder::decode::{
    Constructed, Content, ContentError, DecodeError, Primitive, SliceSource, Source, walk,
};
use bcder::{Mode, Tag};
use std::alloc::{AllocError, Global};
use std::fmt::Debug;
use support::calls::{Call, Inside, Take, ask, take_by};

/// Looks at content of both forms in this mode: a primitive and a constructed value, then one of
/// each that is asked for its form. It says whether each was as it should be.
#[derive(Clone, Copy)]
struct Forms {
    mode: Mode,
    right: bool,
}

impl Inside for Forms {
    /// Content of one form, which is an INTEGER if it is primitive, is refused as content of the
    /// other, and stays.
    fn of_content<S: Source>(
        &mut self,
        tag: Tag,
        content: &mut Content<'_, S>,
    ) -> Result<u8, DecodeError<S::Error>> {
        let primitive = tag == Tag::INTEGER;
        let told = (content.is_primitive() == primitive)
            & (content.is_constructed() != primitive)
            & (content.mode() == self.mode);
        let octets = content.as_primitive(|_| Ok(())).is_ok() == primitive;
        let values = content.as_constructed(|_| Ok(())).is_ok() != primitive;
        self.right = self.right & told & octets & values;
        if content.is_primitive() {
            content.to_u8()
        } else {
            content.as_constructed(|values| pass(values))
        }
    }

    /// Three octets are left, and none after they are skipped. Another mode holds once it is set.
    fn of_octets<S: Source>(
        &mut self,
        _tag: Tag,
        octets: &mut Primitive<'_, S>,
    ) -> Result<u8, DecodeError<S::Error>> {
        let right = (octets.remaining() == 3) & (octets.mode() == self.mode);
        octets.set_mode(Mode::Cer);
        let set = octets.mode() == Mode::Cer;
        octets.skip_all()?;
        self.right = self.right & right & set & (octets.remaining() == 0);
        Ok(0)
    }

    /// Another mode holds once it is set.
    fn of_values<S: Source>(
        &mut self,
        _tag: Tag,
        values: &mut Constructed<'_, S>,
    ) -> Result<u8, DecodeError<S::Error>> {
        let right = values.mode() == self.mode;
        values.set_mode(Mode::Cer);
        self.right = self.right & right & (values.mode() == Mode::Cer);
        pass(values)
    }
}

impl Forms {
    /// Looks at content of both forms, as it is taken by each kind of take.
    fn look<S: Source>(
        &mut self,
        cons: &mut Constructed<'_, S>,
    ) -> Result<bool, DecodeError<S::Error>>
        ensures { Moved S.stream cons }
    {
        take_by(cons, Take::Primitive, Tag::OCTET_STRING, self)?;
        let first = cons.mode() == self.mode;
        take_by(cons, Take::Constructed, Tag::SEQUENCE, self)?;
        let second = cons.mode() == self.mode;
        take_by(cons, Take::Value, Tag::INTEGER, self)?;
        take_by(cons, Take::Value, Tag::SET, self)?;
        Ok(self.right & first & second)
    }
}

/// Skips a value, if there is one.
fn pass<S: Source>(values: &mut Constructed<'_, S>) -> Result<u8, DecodeError<S::Error>>
    ensures { Moved S.stream values }
{
    walk(values)?;
    Ok(0)
}

/// Returns whether the next value, which may be there, is refused.
fn takes_nothing<S: Source>(alloc: Global, cons: &mut Constructed<'_, S>) -> bool
    ensures { Moved S.stream cons }
{
    is_refused(ask(cons, alloc, Call::Take(Take::OptValue)))
}

/// What is done with content.
#[derive(Clone, Copy)]
enum Way {
    /// Content of both forms is asked of itself, in this mode.
    Forms(Mode),

    /// The content of a SEQUENCE is made to fail behind one value. Whether no other value is taken
    /// then is noted.
    FailBehindOne(bool),

    /// The content of a SEQUENCE is made to fail behind two values at most, and their end.
    FailBehindAll,

    /// The value behind the first in a SEQUENCE is refused.
    RefuseSecond,

    /// The value in a SEQUENCE is taken, and the failure of the source is dropped. Whether it is
    /// told is noted.
    Enter(bool),
}

/// Takes one value, and makes the content fail. Notes whether no other value is taken then.
fn fail_behind_one<S: Source>(
    alloc: Global,
    cons: &mut Constructed<'_, S>,
    nothing: &mut bool,
) -> Result<bool, DecodeError<S::Error>>
    ensures { Moved S.stream cons }
{
    walk(cons)?;
    cons.fail();
    *nothing = takes_nothing(alloc, cons);
    Ok(true)
}

/// Takes two values at most and their end, and makes the content fail then.
fn fail_behind_all<S: Source>(cons: &mut Constructed<'_, S>) -> Result<bool, DecodeError<S::Error>>
    ensures { Moved S.stream cons }
{
    pass(cons)?;
    pass(cons)?;
    pass(cons)?;
    cons.fail();
    Ok(true)
}

/// Takes one value, and refuses the next.
fn refuse_second<S: Source>(cons: &mut Constructed<'_, S>) -> Result<bool, DecodeError<S::Error>>
    ensures { Moved S.stream cons }
{
    pass(cons)?;
    Err(cons.next_err(ContentError::from_static("no second")))
}

impl Way {
    /// Makes the content of a SEQUENCE fail, or refuses it.
    fn inside<S: Source>(
        &mut self,
        alloc: Global,
        cons: &mut Constructed<'_, S>,
    ) -> Result<bool, DecodeError<S::Error>>
        ensures { Moved S.stream cons }
    {
        match self {
            Way::FailBehindOne(nothing) => fail_behind_one(alloc, cons, nothing),
            Way::FailBehindAll => fail_behind_all(cons),
            _ => refuse_second(cons),
        }
    }
}

impl Look for Way {
    fn look<S: Source>(
        &mut self,
        alloc: Global,
        cons: &mut Constructed<'_, S>,
    ) -> Result<bool, DecodeError<S::Error>> {
        match self {
            Way::Forms(mode) => {
                let mut forms = Forms {
                    mode: *mode,
                    right: true,
                };
                forms.look(cons)
            }
            Way::Enter(right) => enter(alloc, cons, right),
            _ => cons.take_sequence(|inner| self.inside(alloc, inner)),
        }
    }

    fn noted(&self) -> bool {
        match self {
            Way::FailBehindOne(noted) | Way::Enter(noted) => *noted,
            _ => true,
        }
    }
}

/// An OCTET STRING, a SEQUENCE with one of indefinite length inside, an INTEGER, and a SET.
const FORMS: &[u8] = &[
    0x04, 0x03, 0x01, 0x02, 0x03, 0x30, 0x04, 0x30, 0x80, 0x00, 0x00, 0x02, 0x01, 0x05, 0x31, 0x02,
    0x05, 0x00,
];

/// A SEQUENCE of two INTEGERs.
const TWO: &[u8] = &[0x30, 0x06, 0x02, 0x01, 0x05, 0x02, 0x01, 0x06];

/// Content knows its mode, its form and how many octets it has left. A SEQUENCE is refused if its
/// content was made to fail, unless its end was taken before. The next value is refused at its
/// position, not at that of the content.
const LINES: [Line<'_, Way>; 6] = [
    Line(Mode::Ber, FORMS, Way::Forms(Mode::Ber), Wanted::Right),
    Line(Mode::Der, FORMS, Way::Forms(Mode::Der), Wanted::Right),
    Line(Mode::Der, TWO, Way::FailBehindOne(false), Wanted::Refused),
    Line(Mode::Der, TWO, Way::FailBehindAll, Wanted::Refused),
    Line(
        Mode::Ber,
        &[0x30, 0x80, 0x02, 0x01, 0x05, 0x00, 0x00],
        Way::FailBehindAll,
        Wanted::Right,
    ),
    Line(
        Mode::Der,
        TWO,
        Way::RefuseSecond,
        Wanted::Says("no second (at position 5)"),
    ),
];

#[test]
fn content_of_itself_and_failed(rt: HostRuntime) {
    check_all(&rt, rt.alloc(), &LINES);
}

/// Takes a value, and drops the error if the source fails. Notes whether no other value is taken
/// then.
fn drop_failure<S: Source>(
    alloc: Global,
    cons: &mut Constructed<'_, S>,
    right: &mut bool,
) -> Result<(), DecodeError<S::Error>>
    ensures { Moved S.stream cons }
{
    if let Err(error) = ask(cons, alloc, Call::Take(Take::Primitive)) {
        *right = error.is_source() && takes_nothing(alloc, cons);
    }
    Ok(())
}

/// Takes a value inside a SEQUENCE, and drops the error if the source fails. Notes whether the
/// SEQUENCE is refused then, and no other value is taken.
fn enter<S: Source>(
    alloc: Global,
    cons: &mut Constructed<'_, S>,
    right: &mut bool,
) -> Result<bool, DecodeError<S::Error>>
    ensures { Moved S.stream cons }
{
    let entered = cons.take_sequence(|inner| drop_failure(alloc, inner, right));
    if entered.is_err() {
        *right = *right && takes_nothing(alloc, cons);
    }
    Ok(true)
}

/// Lets each request of the source fail once.
#[test]
fn failed_sources_fail_content(rt: HostRuntime) {
    let octets = &[0x30, 0x03, 0x02, 0x01, 0x05];
    let line = Line(Mode::Der, octets, Way::Enter(true), Wanted::Fails);
    check_failing(&rt, rt.alloc(), 0, &line);
}

/// Returns the debug text of values.
fn debugged<S: Source + Debug>(
    alloc: Global,
    cons: &Constructed<'_, S>,
) -> Result<String, AllocError> {
    format!(in alloc; "{cons:?}")
}

/// Checks that the debug text of values has their fields, the mode among them.
#[test]
fn values_are_debugged(rt: HostRuntime) {
    let alloc = rt.alloc();
    let mut source = SliceSource::new(&[0x05, 0x00]);
    let shown = Mode::Der.decode_lent(&mut source, |cons| Ok(debugged(alloc, cons)));
    let shown = done(&rt, done(&rt, shown));
    holds(&rt, shown.starts_with("Constructed {"));
    holds(&rt, shown.contains("mode: Der"));
}
