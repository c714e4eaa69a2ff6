//! Shows files: their octets, or the blocks of a text (RFC 7468).
ghost use Rattle.std.specs.Prelude.{◌≡◌, []};
ghost use Rattle.std.specs.Io.KnownBytes.{Keeps};
ghost use Rattle.std.specs.Io.Buffered.{writer_contents, writer_buffer};
ghost use Rattle.cli.specs.declared.status.Status.TheVariants.{Done};
ghost use Rattle.certdump.specs.Lines.{ShowsFront, ShowsLines};

use crate::decoded::Unshown;
use crate::kind::{KINDS, Kind};
use crate::page::{PROGRAM, Page};
use crate::request::Request;
use crate::structure::show_as;
use asn1::TypeError;
use bcder::encode::write_octets;
use cli::files::Input;
use cli::form::Misspelled;
use cli::pem::{Block, BlockError, has_blocks, next_block, octets_in};
use cli::shown::ShownOctets;
use cli::spelled::spelled_in;
use cli::status::Status;
use cli::tell::{Place, put, tell_no_memory, tell_unwritten};
use cms::ContentInfo;
use pkix::{
    Certificate, CertificateList, CertificationRequest, EcParameters, EcPrivateKey,
    EncryptedPrivateKeyInfo, PrivateKeyInfo, RsaPrivateKey, RsaPublicKey, SubjectPublicKeyInfo,
};
use std::alloc::{AllocError, Global};
use std::io;
use std::io::{BufWriter, Write};

/// Shows octets that are a structure. If they are none, nothing is shown.
fn show(page: &mut Page, kind: Kind, octets: &[u8]) -> Result<(), Unshown> {
    match kind {
        Kind::Certificate => show_as::<Certificate>(page, octets),
        Kind::CertificateList => show_as::<CertificateList>(page, octets),
        Kind::Request => show_as::<CertificationRequest>(page, octets),
        Kind::Message => show_as::<ContentInfo>(page, octets),
        Kind::PublicKey => show_as::<SubjectPublicKeyInfo>(page, octets),
        Kind::PrivateKey => show_as::<PrivateKeyInfo>(page, octets),
        Kind::EncryptedPrivateKey => show_as::<EncryptedPrivateKeyInfo>(page, octets),
        Kind::RsaPrivateKey => show_as::<RsaPrivateKey>(page, octets),
        Kind::EcPrivateKey => show_as::<EcPrivateKey>(page, octets),
        Kind::RsaPublicKey => show_as::<RsaPublicKey>(page, octets),
        Kind::EcParameters => show_as::<EcParameters>(page, octets),
    }
}

/// Returns the octet at which something was refused.
fn octet_of(error: &TypeError) -> usize {
    match error.position() {
        Some(at) => usize::from(at),
        None => 0,
    }
}

/// Returns the error that was found further on.
fn further(one: Option<TypeError>, other: TypeError) -> TypeError {
    match one {
        Some(one) if octet_of(&other) <= octet_of(&one) => one,
        _ => other,
    }
}

/// Shows octets of a structure that is to be found out.
fn show_any(page: &mut Page, octets: &[u8]) -> Result<(), Unshown> {
    let mut likeliest = None;
    for kind in KINDS {
        match show(page, kind, octets) {
            Ok(()) => return Ok(()),
            Err(Unshown::NoMemory) => return Err(Unshown::NoMemory),
            Err(Unshown::Refused(error)) => likeliest = Some(further(likeliest, error)),
        }
    }
    match likeliest {
        Some(error) => Err(Unshown::Refused(error)),
        None => Ok(()),
    }
}

/// Shows octets, or says why they aren't shown.
fn show_octets(page: &mut Page, kind: Option<Kind>, octets: &[u8]) -> Result<(), AllocError> {
    let shown = match kind {
        Some(kind) => show(page, kind, octets),
        None => show_any(page, octets),
    };
    match shown {
        Ok(()) => Ok(()),
        Err(Unshown::NoMemory) => Err(AllocError),
        Err(Unshown::Refused(error)) => page.refuse(error),
    }
}

/// Shows the octets of a block.
fn show_block(page: &mut Page, request: Request, block: Block<'_>) -> Result<(), AllocError> {
    let kind = match request.kind {
        Some(kind) => Some(kind),
        None => Kind::labelled(block.label),
    };
    let octets = match octets_in(page.alloc, block) {
        Ok(octets) => octets,
        Err(BlockError::NoMemory) => return Err(AllocError),
        Err(error) => return page.refuse(error),
    };
    match kind {
        Some(kind) => show_octets(page, Some(kind), &octets),
        None => page.refuse("a block with this label can't be shown"),
    }
}

/// Adds the line that names what follows, behind an empty line unless it is the first.
fn add_title(page: &mut Page, name: &[u8]) -> Result<(), AllocError> {
    if !page.lines.is_empty() {
        page.line(0, "")?;
    }
    page.line(0, format_args!("{}:", ShownOctets(name)))
}

/// Shows the blocks of a text, each behind a line with its label.
fn show_blocks(
    page: &mut Page,
    request: Request,
    file: Option<&str>,
    octets: &[u8],
) -> Result<(), AllocError> {
    let mut rest = octets;
    let mut number = 0usize;
    while let Some(block) = next_block(rest) {
        rest = block.rest;
        number = number.saturating_add(1);
        page.go_to(Place {
            file,
            block: Some((number, block.label)),
        })?;
        add_title(page, block.label)?;
        show_block(page, request, block)?;
    }
    if number == 0 {
        return page.refuse("there is no block");
    }
    Ok(())
}

/// Shows what was read of a file, in the form that is asked for or found.
fn show_read(
    page: &mut Page,
    request: Request,
    file: Option<&str>,
    octets: &[u8],
) -> Result<(), AllocError> {
    page.go_to(Place { file, block: None })?;
    if has_blocks(request.form, octets) {
        return show_blocks(page, request, file, octets);
    }
    match spelled_in(page.alloc, request.mode, request.form, octets) {
        Ok(Some(spelled)) => show_octets(page, request.kind, &spelled),
        Ok(None) => show_octets(page, request.kind, octets),
        Err(Misspelled::NoMemory) => Err(AllocError),
        Err(Misspelled::Form) => page.refuse("it isn't in the form that is asked for"),
    }
}

/// Shows a file, behind a line with its name if it isn't the only one.
fn show_input(
    page: &mut Page,
    request: Request,
    is_only: bool,
    input: &Input<'_>,
) -> Result<(), AllocError> {
    let name = input.title();
    match &input.octets {
        Ok(octets) if is_only => show_read(page, request, None, octets),
        Ok(octets) => {
            add_title(page, name.as_bytes())?;
            show_read(page, request, Some(name), octets)
        }
        Err(error) => {
            page.go_to(Place {
                file: Some(name),
                block: None,
            })?;
            page.tell(Status::Unread, format_args!("{error}"))
        }
    }
}

/// Returns what is written of files.
fn page_of(alloc: Global, request: Request, inputs: &[Input<'_>]) -> Result<Page, AllocError> {
    let mut page = Page::new(alloc, request.mode, request.private);
    for input in inputs {
        show_input(&mut page, request, inputs.len() == 1, input)?;
    }
    Ok(page)
}

/// Writes the lines of a page on `out`, and then its messages on `err`. Returns how that ends.
fn write_page<W: io::Write + Drop, E: io::Write>(
    page: &Page,
    out: &mut BufWriter<W>,
    err: &mut E,
) -> Status
    ensures shown { result ≡ Done → ShowsLines
        (writer_contents W.contents out.old) (writer_contents W.contents out.new) }
    ensures flushed { result ≡ Done → writer_buffer out.new ≡ [] }
    ensures cut { ShowsFront
        (writer_contents W.contents out.old) (writer_contents W.contents out.new) }
    ensures silent { result ≡ Done → Keeps (E.contents err.old) (E.contents err.new) }
    ensures told { ShowsFront (E.contents err.old) (E.contents err.new) }
{
    if write_octets(out, page.lines.as_str().as_bytes()).is_err() || out.flush().is_err() {
        return tell_unwritten(PROGRAM, err);
    }
    if page.messages.is_empty() {
        return Status::Done;
    }
    put(err, page.messages.as_str());
    Status::Refused.and(page.status)
}

/// Shows files on `out`, one after the other, and returns how that ends. If not all is shown, `err`
/// says why.
pub(crate) fn run<W: io::Write + Drop, E: io::Write>(
    alloc: Global,
    request: Request,
    inputs: &[Input<'_>],
    out: &mut BufWriter<W>,
    err: &mut E,
) -> Status
    ensures shown { result ≡ Done → ShowsLines
        (writer_contents W.contents out.old) (writer_contents W.contents out.new) }
    ensures flushed { result ≡ Done → writer_buffer out.new ≡ [] }
    ensures cut { ShowsFront
        (writer_contents W.contents out.old) (writer_contents W.contents out.new) }
    ensures silent { result ≡ Done → Keeps (E.contents err.old) (E.contents err.new) }
    ensures told { ShowsFront (E.contents err.old) (E.contents err.new) }
{
    match page_of(alloc, request, inputs) {
        Ok(page) => write_page(&page, out, err),
        Err(AllocError) => tell_no_memory(PROGRAM, err),
    }
}
