//! Gathers the lines of all values.
ghost use Rattle.std.specs.Prelude.{◌≡◌, ◌++◌, [], IfOk, IfErr, IfSome, IfNone, OnOk, string_bytes};
ghost use Rattle.bcder.specs.calls.Views.{Moved, of_constructed};
ghost use Rattle.berlist.specs.Lines.{line};
ghost use Rattle.berlist.specs.Gather.{Ends, IsLeftDone, KeepsMark, KeepsMode, ListsAll};
ghost use Rattle.berlist.specs.Gather.{ListsNext, Refuses, RefusesOne};
ghost use Rattle.berlist.specs.Answers.{IsListOf};

use bcder::decode::{Constructed, ContentError, DecodeError, SliceSource, Source};
use bcder::{Mode, NoMemory, Tag};
use std::alloc::Global;
use std::fmt;

/// What a line shows of a value.
#[derive(Clone, Copy)]
struct Heading {
    tag: Tag,
    constructed: bool,
    depth: usize,
}

impl fmt::Display for Heading {
    ghost use Rattle.std.specs.Prelude.{Some};
    ghost use Rattle.berlist.specs.Lines.{line};

    ghost output = { λ h.
        Some (line (record { tag = h.tag; constructed = h.constructed; depth = h.depth })) };

    fn fmt<W: fmt::Write>(&self, f: &mut fmt::Formatter<W>) -> fmt::Result {
        let form = if self.constructed {
            "constructed"
        } else {
            "primitive"
        };
        write!(f, "{} {} {form}\n", self.depth, self.tag)
    }
}

/// Appends the line of a value to a text.
fn add_line(text: &mut String, tag: Tag, constructed: bool, depth: usize) -> Result<(), NoMemory>
    ensures { OnOk result (string_bytes text.new ≡ string_bytes text.old
        ++ line (record { tag = tag; constructed = constructed; depth = depth })) }
{
    let heading = Heading {
        tag,
        constructed,
        depth,
    };
    write!(text, "{heading}")?;
    Ok(())
}

/// Appends the lines of the next value to a text, or returns `None` at the end of the content.
fn next_lines<S: Source>(
    alloc: Global,
    cons: &mut Constructed<'_, S>,
    text: &mut String,
) -> Result<Option<()>, DecodeError<S::Error>>
    ensures moves { Moved S.stream cons }
    ensures listed { IfOk result (λ o. IfSome o (λ _.
        ListsNext (of_constructed S.stream) cons (string_bytes text.old) (string_bytes text.new))) }
    ensures end { IfOk result (λ o. IfNone o (Ends (of_constructed S.stream) cons)) }
    ensures done { IfOk result (λ o. IfNone o (IsLeftDone (of_constructed S.stream) cons)) }
    ensures same { IfOk result (λ o. IfNone o (string_bytes text.new ≡ string_bytes text.old)) }
    ensures refused { IfErr result (λ e. RefusesOne (of_constructed S.stream) cons e) }
    ensures mode { KeepsMode (of_constructed S.stream) cons }
    ensures marked { OnOk result (KeepsMark (of_constructed S.stream) cons) }
{
    let mut wants_memory = false;
    let mut add = |tag: Tag, constructed: bool, depth: usize| -> Result<(), ContentError> {
        match add_line(text, tag, constructed, depth) {
            Ok(()) => Ok(()),
            Err(NoMemory) => {
                wants_memory = true;
                Err(ContentError::from_static("no memory for a line"))
            }
        }
    };
    let passed = cons.skip_opt(alloc, &mut add);
    if wants_memory {
        return Err(DecodeError::no_memory());
    }
    passed
}

/// Returns the lines of all values up to the end of the content.
fn all_lines<S: Source>(
    alloc: Global,
    cons: &mut Constructed<'_, S>,
) -> Result<String, DecodeError<S::Error>>
    ensures moves { Moved S.stream cons }
    ensures done { OnOk result (IsLeftDone (of_constructed S.stream) cons) }
    ensures listed { IfOk result (λ text.
        ListsAll (of_constructed S.stream) cons (string_bytes text)) }
    ensures refused { IfErr result (λ e. Refuses (of_constructed S.stream) cons e) }
{
    let mut text = String::new(alloc);
    while next_lines(alloc, cons, &mut text)?.is_some() {}
    Ok(text)
}

/// Returns the lines of all values, or `None` if the octets aren't the encodings of values in the
/// mode.
#[tactic(auto, using(bcder::specs::laws::Moved::untouched_is_moved))]
pub(crate) fn lines(alloc: Global, mode: Mode, octets: &[u8]) -> Result<Option<String>, NoMemory>
    ensures { IfOk result (IsListOf string_bytes mode octets.now) }
{
    match mode.decode(SliceSource::new(octets), |cons| all_lines(alloc, cons)) {
        Ok(text) => Ok(Some(text)),
        Err(error) => {
            error.into_content()?;
            Ok(None)
        }
    }
}
