//! Converts what was read.
ghost use Rattle.std.specs.Prelude.{◌≡◌, ◌++◌, [], ℕ, List, OnOk, OnErr, IfOk, IfErr};
ghost use Rattle.std.specs.Io.KnownBytes.{Appends};
ghost use Rattle.bcder.specs.calls.Encoders.{AppendsFront};
ghost use Rattle.encodings.specs.Conversion.{IsConversion};
ghost use Rattle.encodings.specs.Values.{AreNoValues};
ghost use Rattle.cli.specs.Pem.{AreBlocks, HasOctets};
ghost use Rattle.cli.specs.Spelled.{IsReadAs};
ghost use Rattle.berconv.specs.Ends.{AppendsConversion, AppendsConversions, Ends, Puts, Runs};
ghost use Rattle.berconv.specs.Ends.{IsConverted, IsInOrder, IsRefused, IsRefusedAlone};
ghost use Rattle.berconv.specs.Ends.{IsRefusedBlock, IsUnconverted, text_of};
ghost use Rattle.berconv.specs.Refusals.{refusal_of};

use crate::PROGRAM;
use crate::refusal::{Refusal, refuse};
use crate::request::Request;
use bcder::encode::write_octets;
use bcder::{Mode, NoMemory};
use cli::armor::append_block;
use cli::files::Input;
use cli::form::Misspelled;
use cli::pem::{Block, BlockError, Unended, has_blocks, next_block, octets_in};
use cli::spelled::spelled_in;
use cli::status::Status;
use cli::tell::{Place, put as put_message, tell};
use encodings::checked::Checked;
use encodings::convert::convert;
use encodings::sets::sort_sets;
use encodings::status::{ABSENT, DONE, NO_MEMORY, NO_ORDER, NOT_CONVERTED, TOO_SMALL};
use encodings::values::check;
use std::alloc::{AllocError, Global};
use std::io;

/// The message if the target fails.
const UNWRITTEN: &str = "berconv: the output can't be written\n";

/// Writes octets and flushes the target.
fn write_all<W: io::Write>(octets: &[u8], out: &mut W) -> Result<(), io::Error>
    ensures ok { OnOk result (Appends (W.contents out.old) (W.contents out.new) octets.now) }
    ensures err { OnErr result
        (AppendsFront (W.contents out.old) (W.contents out.new) octets.now) }
{
    write_octets(out, octets)?;
    out.flush()
}

/// Writes octets on `out`, and returns how that ends. If it fails, `err` says so.
pub(crate) fn put<W: io::Write, E: io::Write>(octets: &[u8], out: &mut W, err: &mut E) -> Status
    ensures { Puts octets.now (W.contents out.old) (W.contents out.new)
        (E.contents err.old) (E.contents err.new) result }
{
    match write_all(octets, out) {
        Ok(()) => Status::Done,
        Err(_) => {
            put_message(err, UNWRITTEN);
            Status::Failed
        }
    }
}

/// Returns where octets are no values, and why.
fn refusal_of(alloc: Global, from: Mode, octets: &[u8]) -> Refusal
    requires { AreNoValues from octets.now }
    ensures { (to : _) → IsRefused from to octets.now result }
{
    let mut checked = Checked {
        at: 0,
        values: 0,
        depth: 0,
    };
    match check(alloc, from, octets, &mut checked) {
        NO_MEMORY => Refusal::NoMemory,
        status => Refusal::NoValues(checked.at, status),
    }
}

/// Puts the values inside each SET in order, if that is wanted, and the rules have one.
fn sort(alloc: Global, sorts: bool, to: Mode, values: &mut [u8]) -> Result<(), NoMemory>
    ensures { OnOk result (IsInOrder sorts to values.old values.new) }
{
    if !sorts {
        return Ok(());
    }
    match sort_sets(alloc, to, values) {
        DONE | NO_ORDER => Ok(()),
        _ => Err(NoMemory),
    }
}

/// Returns values in other rules, which have this number of octets.
fn stored(
    alloc: Global,
    from: Mode,
    to: Mode,
    octets: &[u8],
    size: usize,
) -> Result<Vec<u8>, NoMemory>
    ensures { IfOk result (λ v. IsConversion from to octets.now v.items) }
{
    let mut buffer = vec![in alloc; 0u8; size]?;
    let mut len = 0;
    match convert(alloc, from, to, octets, &mut buffer, &mut len) {
        DONE => {
            buffer.truncate(len);
            Ok(buffer)
        }
        _ => Err(NoMemory),
    }
}

/// Returns values in other rules.
fn converted(alloc: Global, from: Mode, to: Mode, octets: &[u8]) -> Result<Vec<u8>, Refusal>
    ensures converted { IfOk result (λ v. IsConversion from to octets.now v.items) }
    ensures refused { IfErr result (IsRefused from to octets.now) }
{
    let mut nowhere = [0u8; 0];
    let mut size = 0;
    match convert(alloc, from, to, octets, &mut nowhere, &mut size) {
        DONE | TOO_SMALL => match stored(alloc, from, to, octets, size) {
            Ok(values) => Ok(values),
            Err(NoMemory) => Err(Refusal::NoMemory),
        },
        ABSENT => Err(refusal_of(alloc, from, octets)),
        NOT_CONVERTED => Err(Refusal::NotConverted),
        _ => Err(Refusal::NoMemory),
    }
}

/// Returns values in other rules, with those inside each SET in order if that is wanted.
fn in_order(alloc: Global, request: Request<'_>, octets: &[u8]) -> Result<Vec<u8>, Refusal>
    ensures converted { IfOk result (λ v. IsConverted request.entry octets.now v.items) }
    ensures refused { IfErr result
        (IsRefused request.entry.from request.entry.to octets.now) }
{
    let mut values = converted(alloc, request.from, request.to, octets)?;
    match sort(alloc, request.sorts, request.to, &mut values) {
        Ok(()) => Ok(values),
        Err(NoMemory) => Err(Refusal::NoMemory),
    }
}

/// Appends octets as they are, or as a block of text with a label.
fn append(pem: Option<&str>, octets: &[u8], text: &mut Vec<u8>) -> Result<(), AllocError>
    ensures { OnOk result (text.new.items ≡ text.old.items ++ text_of pem.entry octets.now) }
{
    match pem {
        Some(label) => append_block(text, label, octets),
        None => text.extend_from_slice(octets),
    }
}

/// Appends what is written of octets.
fn append_converted(
    alloc: Global,
    request: Request<'_>,
    octets: &[u8],
    text: &mut Vec<u8>,
) -> Result<(), Refusal>
    ensures appended { OnOk result
        (AppendsConversion request.entry octets.now text.old.items text.new.items) }
    ensures refused { IfErr result
        (IsRefused request.entry.from request.entry.to octets.now) }
{
    let values = in_order(alloc, request, octets)?;
    match append(request.pem, &values, text) {
        Ok(()) => Ok(()),
        Err(AllocError) => Err(Refusal::NoMemory),
    }
}

/// Returns why a block isn't converted that carries no octets.
fn refusal_of_block(error: BlockError<'_>) -> Refusal
    ensures { result ≡ refusal_of error.entry }
{
    match error {
        BlockError::Unended(Unended::Missing) => Refusal::Unended,
        BlockError::Unended(Unended::Label(_)) => Refusal::OtherLabel,
        BlockError::Headers(_) => Refusal::Headers,
        BlockError::NotBase64 => Refusal::NotBase64,
        BlockError::NoMemory => Refusal::NoMemory,
    }
}

/// Appends what is written of a block.
fn append_from_block(
    alloc: Global,
    request: Request<'_>,
    block: Block<'_>,
    text: &mut Vec<u8>,
) -> Result<(), Refusal>
    ensures appended { OnOk result ((octets : List ℕ) × HasOctets block.entry octets
        × AppendsConversion request.entry octets text.old.items text.new.items) }
    ensures refused { IfErr result (IsRefusedBlock request.entry block.entry) }
{
    match octets_in(alloc, block) {
        Ok(octets) => append_converted(alloc, request, &octets, text),
        Err(error) => Err(refusal_of_block(error)),
    }
}

/// Appends what is written of all blocks of a text, or returns which of them isn't converted, and
/// why.
fn append_blocks(
    alloc: Global,
    request: Request<'_>,
    octets: &[u8],
    text: &mut Vec<u8>,
) -> Result<(), (usize, Refusal)>
    ensures appended { OnOk result ((parts : List (List ℕ)) × AreBlocks octets.now parts
        × AppendsConversions request.entry parts text.old.items text.new.items) }
    ensures refused { IfErr result (λ r. IsUnconverted request.entry octets.now r.1) }
{
    let mut rest = octets;
    let mut number = 0usize;
    while let Some(block) = next_block(rest) {
        number = number.saturating_add(1);
        match append_from_block(alloc, request, block, text) {
            Ok(()) => rest = block.rest,
            Err(refusal) => return Err((number, refusal)),
        }
    }
    Ok(())
}

/// Returns what is written of an input without blocks.
fn converted_alone(alloc: Global, request: Request<'_>, octets: &[u8]) -> Result<Vec<u8>, Refusal>
    ensures converted { IfOk result (λ text. (part : List ℕ)
        × IsReadAs request.entry.from request.entry.form octets.now part
        × AppendsConversion request.entry part [] text.items) }
    ensures refused { IfErr result (IsRefusedAlone request.entry octets.now) }
{
    let mut text = Vec::new(alloc);
    match spelled_in(alloc, request.from, request.form, octets) {
        Ok(Some(spelled)) => append_converted(alloc, request, &spelled, &mut text)?,
        Ok(None) => append_converted(alloc, request, octets, &mut text)?,
        Err(Misspelled::NoMemory) => return Err(Refusal::NoMemory),
        Err(Misspelled::Form) => return Err(Refusal::Misspelled),
    }
    Ok(text)
}

/// Returns what is written of the blocks of an input.
fn converted_blocks(
    alloc: Global,
    request: Request<'_>,
    octets: &[u8],
) -> Result<Vec<u8>, (usize, Refusal)>
    ensures converted { IfOk result (λ text. (parts : List (List ℕ)) × AreBlocks octets.now parts
        × AppendsConversions request.entry parts [] text.items) }
    ensures refused { IfErr result (λ r. IsUnconverted request.entry octets.now r.1) }
{
    if next_block(octets).is_none() {
        return Err((0, Refusal::NoBlock));
    }
    let mut text = Vec::new(alloc);
    append_blocks(alloc, request, octets, &mut text)?;
    Ok(text)
}

/// Writes what an input becomes on `out`, and returns how that ends. Nothing is written before it
/// is known that all of it is converted. If it isn't, `err` says why, and where.
fn run_read<W: io::Write, E: io::Write>(
    alloc: Global,
    request: Request<'_>,
    octets: &[u8],
    out: &mut W,
    err: &mut E,
) -> Status
    ensures { Ends request.entry octets.now (W.contents out.old) (W.contents out.new)
        (E.contents err.old) (E.contents err.new) result }
{
    if has_blocks(request.form, octets) {
        return match converted_blocks(alloc, request, octets) {
            Ok(text) => put(&text, out, err),
            Err((number, refusal)) => refuse(alloc, number, refusal, err),
        };
    }
    match converted_alone(alloc, request, octets) {
        Ok(text) => put(&text, out, err),
        Err(refusal) => refuse(alloc, 0, refusal, err),
    }
}

/// Writes what a file becomes on `out`, and returns how that ends. Nothing is written before it is
/// known that all of it is converted. If it isn't, or the file can't be read, `err` says why.
///
/// A failure of `err` changes nothing.
pub(crate) fn run<W: io::Write, E: io::Write>(
    alloc: Global,
    request: Request<'_>,
    input: &Input<'_>,
    out: &mut W,
    err: &mut E,
) -> Status
    ensures { Runs request.entry input.now (W.contents out.old) (W.contents out.new)
        (E.contents err.old) (E.contents err.new) result }
{
    match &input.octets {
        Ok(octets) => run_read(alloc, request, octets, out, err),
        Err(error) => {
            let place = Place {
                file: Some(input.title()),
                block: None,
            };
            tell(alloc, PROGRAM, place, error, err);
            Status::Unread
        }
    }
}
