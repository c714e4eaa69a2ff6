//! Checks files: their octets, or the blocks of a text (RFC 7468).
ghost use Rattle.std.specs.Prelude.{◌≡◌, ◌≢◌, [], IfOk, IfErr, IfSome, IfNone};
ghost use Rattle.cli.specs.Spelling.{IsMisspelled};
ghost use Rattle.cli.specs.Told.{Tells};
ghost use Rattle.cli.specs.declared.status.Status.TheVariants.{Done, Refused};
ghost use Rattle.rules.specs.Means.{AreRight};
ghost use Rattle.bercheck.specs.Runs.{AreFilesRight, IsBlockBroken, IsBlockRight};
ghost use Rattle.bercheck.specs.Runs.{AreBlocksRight, HasBrokenBlock, HasBrokenFile};
ghost use Rattle.bercheck.specs.Runs.{IsFileBroken, IsFileRight, IsInputBroken, IsInputRight};
ghost use Rattle.bercheck.specs.Runs.{IsItselfIn, IsTextBroken, IsTextRight, MisspellsIn};
ghost use Rattle.bercheck.specs.Runs.{SpellsInForm};
ghost use Rattle.bercheck.specs.Tells.{Goes};

use crate::PROGRAM;
use crate::line::Line;
use crate::request::Request;
use bcder::encode::write_octets;
use cli::files::Input;
use cli::form::{Form, Misspelled};
use cli::pem::{Block, BlockError, has_blocks, next_block, octets_in};
use cli::shown::line_of;
use cli::spelled::spelled_as;
use cli::status::Status;
use cli::tell::{Place, tell, tell_no_memory, tell_unwritten};
use rules::{Breach, breaches};
use std::alloc::{AllocError, Global};
use std::{fmt, io};

/// Says why something isn't checked, and returns the status.
fn refuse<E: io::Write, D: fmt::Display + Drop>(
    alloc: Global,
    place: Place<'_>,
    reason: D,
    err: &mut E,
) -> Status
    ensures told { Tells (E.contents err.old) (E.contents err.new) }
    ensures refused { result ≡ Refused }
{
    tell(alloc, PROGRAM, place, reason, err);
    Status::Refused
}

/// Writes the line for a breach.
fn write_breach<W: io::Write, E: io::Write>(
    alloc: Global,
    line: Line<'_>,
    out: &mut W,
    err: &mut E,
) -> Status
    ensures goes { Goes (W.contents out.old) (W.contents out.new)
        (E.contents err.old) (E.contents err.new) result }
    ensures told { result ≢ Done }
{
    let text = match line_of(alloc, line) {
        Ok(text) => text,
        Err(AllocError) => return tell_no_memory(PROGRAM, err),
    };
    match write_octets(out, text.as_bytes()) {
        Ok(()) => Status::Refused,
        Err(_) => tell_unwritten(PROGRAM, err),
    }
}

/// Writes a line for each breach.
fn write_breaches<W: io::Write, E: io::Write>(
    alloc: Global,
    request: Request,
    place: Place<'_>,
    octets: &[u8],
    found: &[Breach],
    out: &mut W,
    err: &mut E,
) -> Status
    ensures goes { Goes (W.contents out.old) (W.contents out.new)
        (E.contents err.old) (E.contents err.new) result }
    ensures right { result ≡ Done → found.now ≡ [] }
    ensures broken { result ≡ Refused → found.now ≢ [] }
{
    let mut status = Status::Done;
    let mut rest = found;
    while let [breach, behind @ ..] = rest {
        rest = behind;
        let line = Line {
            place,
            mode: request.mode,
            octets,
            breach: *breach,
        };
        status = write_breach(alloc, line, out, err);
        if status == Status::Failed {
            return Status::Failed;
        }
    }
    status
}

/// Checks octets, and writes what they break on `out`.
fn run_octets<W: io::Write, E: io::Write>(
    alloc: Global,
    request: Request,
    place: Place<'_>,
    octets: &[u8],
    out: &mut W,
    err: &mut E,
) -> Status
    ensures goes { Goes (W.contents out.old) (W.contents out.new)
        (E.contents err.old) (E.contents err.new) result }
    ensures right { result ≡ Done → AreRight request.mode request.contents octets.now }
    ensures broken { result ≡ Refused → AreRight request.mode request.contents octets.now → ⊥ }
{
    match breaches(alloc, request.mode, request.contents, octets) {
        Ok(found) => write_breaches(alloc, request, place, octets, &found, out, err),
        Err(_) => tell_no_memory(PROGRAM, err),
    }
}

/// Checks the octets of a block.
fn run_block<W: io::Write, E: io::Write>(
    alloc: Global,
    request: Request,
    place: Place<'_>,
    block: Block<'_>,
    out: &mut W,
    err: &mut E,
) -> Status
    ensures goes { Goes (W.contents out.old) (W.contents out.new)
        (E.contents err.old) (E.contents err.new) result }
    ensures right { result ≡ Done → IsBlockRight request block.entry }
    ensures broken { result ≡ Refused → IsBlockBroken request block.entry }
{
    match octets_in(alloc, block) {
        Ok(octets) => run_octets(alloc, request, place, &octets, out, err),
        Err(BlockError::NoMemory) => tell_no_memory(PROGRAM, err),
        Err(error) => refuse(alloc, place, error, err),
    }
}

/// Checks the blocks of a text.
fn run_blocks<W: io::Write, E: io::Write>(
    alloc: Global,
    request: Request,
    file: &str,
    octets: &[u8],
    out: &mut W,
    err: &mut E,
) -> Status
    ensures goes { Goes (W.contents out.old) (W.contents out.new)
        (E.contents err.old) (E.contents err.new) result }
    ensures right { result ≡ Done → AreBlocksRight request octets.now }
    ensures broken { result ≡ Refused → HasBrokenBlock request octets.now }
{
    let mut rest = octets;
    let mut number = 0usize;
    let mut status = Status::Done;
    while let Some(block) = next_block(rest) {
        rest = block.rest;
        number = number.saturating_add(1);
        let place = Place {
            file: Some(file),
            block: Some((number, block.label)),
        };
        let found = run_block(alloc, request, place, block, out, err);
        if found == Status::Failed {
            return Status::Failed;
        }
        status = status.and(found);
    }
    status
}

/// Checks a text that is to be read as blocks.
fn run_text<W: io::Write, E: io::Write>(
    alloc: Global,
    request: Request,
    file: &str,
    octets: &[u8],
    out: &mut W,
    err: &mut E,
) -> Status
    ensures goes { Goes (W.contents out.old) (W.contents out.new)
        (E.contents err.old) (E.contents err.new) result }
    ensures right { result ≡ Done → IsTextRight request octets.now }
    ensures broken { result ≡ Refused → IsTextBroken request octets.now }
{
    if next_block(octets).is_none() {
        let place = Place {
            file: Some(file),
            block: None,
        };
        return refuse(alloc, place, "there is no block", err);
    }
    run_blocks(alloc, request, file, octets, out, err)
}

/// Returns the octets that a text spells in the form that is asked for, or `None` if it is to be
/// read as it is.
fn spelled_in(alloc: Global, form: Option<Form>, text: &[u8]) -> Result<Option<Vec<u8>>, Misspelled>
    ensures spells { IfOk result (λ o. IfSome o (λ v. SpellsInForm form text.now v.items)) }
    ensures itself { IfOk result (λ o. IfNone o (IsItselfIn form)) }
    ensures misspelled { IfErr result (IsMisspelled (MisspellsIn form text.now)) }
{
    match form {
        Some(form) => spelled_as(alloc, form, text),
        None => Ok(None),
    }
}

/// Checks what was read of a file, in the form that is asked for or found.
fn run_read<W: io::Write, E: io::Write>(
    alloc: Global,
    request: Request,
    file: &str,
    octets: &[u8],
    out: &mut W,
    err: &mut E,
) -> Status
    ensures goes { Goes (W.contents out.old) (W.contents out.new)
        (E.contents err.old) (E.contents err.new) result }
    ensures right { result ≡ Done → IsInputRight request octets.now }
    ensures broken { result ≡ Refused → IsInputBroken request octets.now }
{
    if has_blocks(request.form, octets) {
        return run_text(alloc, request, file, octets, out, err);
    }
    let place = Place {
        file: Some(file),
        block: None,
    };
    match spelled_in(alloc, request.form, octets) {
        Ok(Some(spelled)) => run_octets(alloc, request, place, &spelled, out, err),
        Ok(None) => run_octets(alloc, request, place, octets, out, err),
        Err(Misspelled::NoMemory) => tell_no_memory(PROGRAM, err),
        Err(Misspelled::Form) => {
            let why = "it isn't in the form that is asked for";
            refuse(alloc, place, why, err)
        }
    }
}

/// Checks a file.
fn run_input<W: io::Write, E: io::Write>(
    alloc: Global,
    request: Request,
    input: &Input<'_>,
    out: &mut W,
    err: &mut E,
) -> Status
    ensures goes { Goes (W.contents out.old) (W.contents out.new)
        (E.contents err.old) (E.contents err.new) result }
    ensures right { result ≡ Done → IsFileRight request input.now }
    ensures broken { result ≡ Refused → IsFileBroken request input.now }
{
    let file = input.title();
    match &input.octets {
        Ok(octets) => run_read(alloc, request, file, octets, out, err),
        Err(error) => {
            let place = Place {
                file: Some(file),
                block: None,
            };
            tell(alloc, PROGRAM, place, error, err);
            Status::Unread
        }
    }
}

/// Checks files one after the other.
fn run_inputs<W: io::Write, E: io::Write>(
    alloc: Global,
    request: Request,
    inputs: &[Input<'_>],
    out: &mut W,
    err: &mut E,
) -> Status
    ensures goes { Goes (W.contents out.old) (W.contents out.new)
        (E.contents err.old) (E.contents err.new) result }
    ensures right { result ≡ Done → AreFilesRight request inputs.now }
    ensures broken { result ≡ Refused → HasBrokenFile request inputs.now }
{
    let mut status = Status::Done;
    let mut rest = inputs;
    while let [input, behind @ ..] = rest {
        rest = behind;
        let found = run_input(alloc, request, input, out, err);
        if found == Status::Failed {
            return Status::Failed;
        }
        status = status.and(found);
    }
    status
}

/// Checks files one after the other, and returns how that ends. A line for each violation is
/// written on `out`, and why something isn't checked on `err`.
pub fn run<W: io::Write, E: io::Write>(
    alloc: Global,
    request: Request,
    inputs: &[Input<'_>],
    out: &mut W,
    err: &mut E,
) -> Status
    ensures goes { Goes (W.contents out.old) (W.contents out.new)
        (E.contents err.old) (E.contents err.new) result }
    ensures right { result ≡ Done → AreFilesRight request inputs.now }
    ensures broken { result ≡ Refused → HasBrokenFile request inputs.now }
{
    let status = run_inputs(alloc, request, inputs, out, err);
    match out.flush() {
        Ok(()) => status,
        Err(_) => tell_unwritten(PROGRAM, err),
    }
}
