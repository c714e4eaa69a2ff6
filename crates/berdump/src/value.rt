//! Writes the contents octets of one value.
ghost use Rattle.std.specs.Prelude.{◌≡◌, ℕ, List};
ghost use Rattle.std.specs.Io.KnownBytes.{Keeps};
ghost use Rattle.cli.specs.declared.pem.Block.{Block as TheBlock};
ghost use Rattle.cli.specs.declared.status.Status.TheVariants.{Done};
ghost use Rattle.cli.specs.Pem.{HasOctets, IsNext};
ghost use Rattle.berdump.specs.Runs.{ValueWritten, FirstWritten};

use crate::list::{ListError, find};
use crate::request::Request;
use crate::scope::Scope;
use crate::tell::{NOWHERE, PROGRAM, tell_error};
use bcder::encode::write_octets;
use cli::files::Input;
use cli::form::Misspelled;
use cli::pem::{BlockError, has_blocks, next_block, octets_in};
use cli::spelled::spelled_in;
use cli::status::Status;
use cli::tell::{Place, tell, tell_no_memory, tell_unwritten};
use std::alloc::Global;
use std::io;

/// Writes the contents octets of the value whose header is at an offset.
fn run_octets<W: io::Write, E: io::Write>(
    alloc: Global,
    request: Request,
    at: usize,
    place: Place<'_>,
    octets: &[u8],
    out: &mut W,
    err: &mut E,
) -> Status
    ensures written { result ≡ Done
        → ValueWritten request at octets.now (W.contents out.old) (W.contents out.new) }
    ensures silent { result ≡ Done → Keeps (E.contents err.old) (E.contents err.new) }
{
    let scope = Scope {
        from: 0,
        ..request.scope
    };
    match find(alloc, request.mode, scope, octets, at, &mut io::sink()) {
        Ok(Some(contents)) => match write_octets(out, contents) {
            Ok(()) => match out.flush() {
                Ok(()) => Status::Done,
                Err(_) => tell_unwritten(PROGRAM, err),
            },
            Err(_) => tell_unwritten(PROGRAM, err),
        },
        Ok(None) => {
            let why = format_args!("octet {at}: no value begins here");
            tell(alloc, PROGRAM, place, why, err);
            Status::Refused
        }
        Err(error) => tell_error(alloc, place, &error, err),
    }
}

/// Writes the contents octets of a value in the first block of a text.
fn run_block<W: io::Write, E: io::Write>(
    alloc: Global,
    request: Request,
    at: usize,
    octets: &[u8],
    out: &mut W,
    err: &mut E,
) -> Status
    ensures written { result ≡ Done
        → (block : TheBlock) × (v : List ℕ) × IsNext octets.now block × HasOctets block v
        × ValueWritten request at v (W.contents out.old) (W.contents out.new) }
    ensures silent { result ≡ Done → Keeps (E.contents err.old) (E.contents err.new) }
{
    let Some(block) = next_block(octets) else {
        tell(alloc, PROGRAM, NOWHERE, "there is no block", err);
        return Status::Refused;
    };
    let place = Place {
        file: None,
        block: Some((1, block.label)),
    };
    match octets_in(alloc, block) {
        Ok(octets) => run_octets(alloc, request, at, place, &octets, out, err),
        Err(BlockError::NoMemory) => tell_no_memory(PROGRAM, err),
        Err(error) => {
            tell(alloc, PROGRAM, place, error, err);
            Status::Refused
        }
    }
}

/// Writes on `out` the contents octets of the value whose header is at an offset of the first
/// file, and returns how that ends. If nothing is written, `err` says why.
pub fn run<W: io::Write, E: io::Write>(
    alloc: Global,
    request: Request,
    at: usize,
    inputs: &[Input<'_>],
    out: &mut W,
    err: &mut E,
) -> Status
    ensures written { result ≡ Done
        → FirstWritten request at inputs.now (W.contents out.old) (W.contents out.new) }
    ensures silent { result ≡ Done → Keeps (E.contents err.old) (E.contents err.new) }
{
    let [input, ..] = inputs else {
        return Status::Done;
    };
    let octets = match &input.octets {
        Ok(octets) => octets,
        Err(error) => {
            let place = Place {
                file: Some(input.title()),
                block: None,
            };
            tell(alloc, PROGRAM, place, error, err);
            return Status::Unread;
        }
    };
    if has_blocks(request.form, octets) {
        return run_block(alloc, request, at, octets, out, err);
    }
    match spelled_in(alloc, request.mode, request.form, octets) {
        Ok(Some(spelled)) => run_octets(alloc, request, at, NOWHERE, &spelled, out, err),
        Ok(None) => run_octets(alloc, request, at, NOWHERE, octets, out, err),
        Err(Misspelled::NoMemory) => tell_no_memory(PROGRAM, err),
        Err(Misspelled::Form) => {
            let why = "it isn't in the form that is asked for";
            tell(alloc, PROGRAM, NOWHERE, why, err);
            Status::Refused
        }
    }
}
