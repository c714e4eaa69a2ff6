//! Lists files: their octets, or the blocks of a text (RFC 7468).
ghost use Rattle.std.specs.Prelude.{◌≡◌, ◌==◌, true, false, [], length};
ghost use Rattle.std.specs.Io.KnownBytes.{Keeps};
ghost use Rattle.std.specs.Io.Buffered.{writer_contents, writer_buffer};
ghost use Rattle.cli.specs.declared.pem.Block.{Block as TheBlock};
ghost use Rattle.cli.specs.Pem.{IsNext};
ghost use Rattle.cli.specs.declared.status.Status.TheVariants.{Done};
ghost use Rattle.berdump.specs.Runs.{Ends, IsBound, IsInput, IsFile, FilesListed};
ghost use Rattle.berdump.specs.Runs.{BlockListed, BlockTitled, BlocksListed};

use crate::list::{ListError, list};
use crate::request::Request;
use crate::tell::{PROGRAM, tell_error};
use crate::title::write_title;
use cli::files::Input;
use cli::form::Misspelled;
use cli::pem::{Block, BlockError, has_blocks, next_block, octets_in};
use cli::spelled::spelled_in;
use cli::status::Status;
use cli::tell::{Place, tell, tell_no_memory, tell_unwritten};
use std::alloc::Global;
use std::io;
use std::io::{BufWriter, Write};

/// Lists octets on `out`. If not all are listed, `err` says why.
fn run_octets<W: io::Write, E: io::Write>(
    alloc: Global,
    request: Request,
    place: Place<'_>,
    octets: &[u8],
    out: &mut W,
    err: &mut E,
) -> Status
    ensures ends { Ends request.scope request.mode octets.now
        (W.contents out.old) (W.contents out.new) result }
    ensures silent { result ≡ Done → Keeps (E.contents err.old) (E.contents err.new) }
{
    let scope = request.scope;
    if octets.len() < scope.from {
        let why = "the octets end before the offset";
        tell(alloc, PROGRAM, place, why, err);
        return Status::Refused;
    }
    let listed = octets.split_at(scope.from).1;
    match list(alloc, request.mode, scope, listed, out) {
        Ok(()) => match out.flush() {
            Ok(()) => Status::Done,
            Err(_) => tell_unwritten(PROGRAM, err),
        },
        Err(error) => {
            let _ = out.flush();
            tell_error(alloc, place, &error, err)
        }
    }
}

/// Lists the octets of a block.
fn run_body<W: io::Write, E: io::Write>(
    alloc: Global,
    request: Request,
    place: Place<'_>,
    block: Block<'_>,
    out: &mut W,
    err: &mut E,
) -> Status
    ensures listed { result ≡ Done
        → BlockListed request block.entry (W.contents out.old) (W.contents out.new) }
    ensures bound { IsBound request.scope request.mode
        (W.contents out.old) (W.contents out.new) result }
    ensures silent { result ≡ Done → Keeps (E.contents err.old) (E.contents err.new) }
{
    match octets_in(alloc, block) {
        Ok(octets) => run_octets(alloc, request, place, &octets, out, err),
        Err(BlockError::NoMemory) => tell_no_memory(PROGRAM, err),
        Err(error) => {
            tell(alloc, PROGRAM, place, error, err);
            Status::Refused
        }
    }
}

/// Lists a block, behind a line with its label.
fn run_block<W: io::Write, E: io::Write>(
    alloc: Global,
    request: Request,
    place: Place<'_>,
    is_first: bool,
    block: Block<'_>,
    out: &mut W,
    err: &mut E,
) -> Status
    ensures listed { result ≡ Done
        → BlockTitled request is_first block.entry (W.contents out.old) (W.contents out.new) }
    ensures bound { IsBound request.scope request.mode
        (W.contents out.old) (W.contents out.new) result }
    ensures silent { result ≡ Done → Keeps (E.contents err.old) (E.contents err.new) }
{
    match write_title(alloc, is_first, block.label, out) {
        Ok(()) => run_body(alloc, request, place, block, out, err),
        Err(error) => tell_error(alloc, place, &error, err),
    }
}

/// Lists the blocks of a text, each behind a line with its label.
fn run_blocks<W: io::Write, E: io::Write>(
    alloc: Global,
    request: Request,
    file: Option<&str>,
    octets: &[u8],
    out: &mut W,
    err: &mut E,
) -> Status
    ensures some { result ≡ Done → (block : TheBlock) × IsNext octets.now block }
    ensures listed { result ≡ Done
        → BlocksListed request true octets.now (W.contents out.old) (W.contents out.new) }
    ensures bound { IsBound request.scope request.mode
        (W.contents out.old) (W.contents out.new) result }
    ensures silent { result ≡ Done → Keeps (E.contents err.old) (E.contents err.new) }
{
    let Some(_) = next_block(octets) else {
        let place = Place { file, block: None };
        tell(alloc, PROGRAM, place, "there is no block", err);
        return Status::Refused;
    };
    let mut rest = octets;
    let mut number = 0usize;
    let mut is_first = true;
    let mut status = Status::Done;
    while let Some(block) = next_block(rest) {
        rest = block.rest;
        number = number.saturating_add(1);
        let place = Place {
            file,
            block: Some((number, block.label)),
        };
        let found = run_block(alloc, request, place, is_first, block, out, err);
        if found == Status::Failed {
            return Status::Failed;
        }
        status = status.and(found);
        is_first = false;
    }
    status
}

/// Lists what was read of a file, in the form that is asked for or found.
fn run_read<W: io::Write, E: io::Write>(
    alloc: Global,
    request: Request,
    file: Option<&str>,
    octets: &[u8],
    out: &mut W,
    err: &mut E,
) -> Status
    ensures input { result ≡ Done
        → IsInput request octets.now (W.contents out.old) (W.contents out.new) }
    ensures bound { IsBound request.scope request.mode
        (W.contents out.old) (W.contents out.new) result }
    ensures silent { result ≡ Done → Keeps (E.contents err.old) (E.contents err.new) }
{
    if has_blocks(request.form, octets) {
        return run_blocks(alloc, request, file, octets, out, err);
    }
    let place = Place { file, block: None };
    match spelled_in(alloc, request.mode, request.form, octets) {
        Ok(Some(spelled)) => run_octets(alloc, request, place, &spelled, out, err),
        Ok(None) => run_octets(alloc, request, place, octets, out, err),
        Err(Misspelled::NoMemory) => tell_no_memory(PROGRAM, err),
        Err(Misspelled::Form) => {
            let why = "it isn't in the form that is asked for";
            tell(alloc, PROGRAM, place, why, err);
            Status::Refused
        }
    }
}

/// Lists a file, behind a line with its name if it isn't the only one.
fn run_input<W: io::Write, E: io::Write>(
    alloc: Global,
    request: Request,
    is_only: bool,
    is_first: bool,
    input: &Input<'_>,
    out: &mut W,
    err: &mut E,
) -> Status
    ensures file { result ≡ Done
        → IsFile request is_only is_first input.now (W.contents out.old) (W.contents out.new) }
    ensures bound { IsBound request.scope request.mode
        (W.contents out.old) (W.contents out.new) result }
    ensures silent { result ≡ Done → Keeps (E.contents err.old) (E.contents err.new) }
{
    let octets = match &input.octets {
        Ok(octets) => octets,
        Err(error) => {
            let place = Place {
                file: Some(input.title()),
                block: None,
            };
            tell(alloc, PROGRAM, place, error, err);
            return Status::Unread;
        }
    };
    if is_only {
        return run_read(alloc, request, None, octets, out, err);
    }
    let name = input.title();
    match write_title(alloc, is_first, name.as_bytes(), out) {
        Ok(()) => run_read(alloc, request, Some(name), octets, out, err),
        Err(error) => {
            let place = Place {
                file: Some(name),
                block: None,
            };
            tell_error(alloc, place, &error, err)
        }
    }
}

/// Returns whether nothing is listed yet, behind a file.
fn stays_first(is_first: bool, found: Status) -> bool
    ensures { found ≡ Done → result ≡ false }
{
    match found {
        Status::Unread => is_first,
        _ => false,
    }
}

/// Lists files on `out`, one after the other, and returns how that ends. If not all is listed,
/// `err` says why.
fn run_inputs<W: io::Write, E: io::Write>(
    alloc: Global,
    request: Request,
    inputs: &[Input<'_>],
    out: &mut W,
    err: &mut E,
) -> Status
    ensures files { result ≡ Done
        → FilesListed request (length inputs.now == 1) true inputs.now
        (W.contents out.old) (W.contents out.new) }
    ensures bound { IsBound request.scope request.mode
        (W.contents out.old) (W.contents out.new) result }
    ensures silent { result ≡ Done → Keeps (E.contents err.old) (E.contents err.new) }
{
    let mut status = Status::Done;
    let mut is_first = true;
    for input in inputs {
        let found = run_input(alloc, request, inputs.len() == 1, is_first, input, out, err);
        if found == Status::Failed {
            return Status::Failed;
        }
        status = status.and(found);
        is_first = stays_first(is_first, found);
    }
    status
}

/// Lists files on `out`, one after the other, and returns how that ends. If not all is listed,
/// `err` says why. If all is, nothing is left in the buffer.
pub fn run<W: io::Write + Drop, E: io::Write>(
    alloc: Global,
    request: Request,
    inputs: &[Input<'_>],
    out: &mut BufWriter<W>,
    err: &mut E,
) -> Status
    ensures files { result ≡ Done
        → FilesListed request (length inputs.now == 1) true inputs.now
        (writer_contents W.contents out.old) (writer_contents W.contents out.new) }
    ensures flushed { result ≡ Done → writer_buffer out.new ≡ [] }
    ensures bound { IsBound request.scope request.mode
        (writer_contents W.contents out.old) (writer_contents W.contents out.new) result }
    ensures silent { result ≡ Done → Keeps (E.contents err.old) (E.contents err.new) }
{
    match run_inputs(alloc, request, inputs, out, err) {
        Status::Done => match out.flush() {
            Ok(()) => Status::Done,
            Err(_) => tell_unwritten(PROGRAM, err),
        },
        status => status,
    }
}
