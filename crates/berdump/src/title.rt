//! The lines that name what is listed.
ghost use Rattle.std.specs.Prelude.{IfOk, OnOk, IfErr, string_bytes};
ghost use Rattle.berdump.specs.Runs.{IsTitle, Titled, IsUntitled};

use crate::list::ListError;
use bcder::NoMemory;
use bcder::encode::write_octets;
use cli::shown::{ShownOctets, line_of};
use std::alloc::Global;
use std::io;

/// Returns the line that names what follows, behind an empty line unless it is the first.
fn title_of(alloc: Global, is_first: bool, name: &[u8]) -> Result<String, NoMemory>
    ensures { IfOk result (λ title. IsTitle is_first (string_bytes title)) }
{
    let line = line_of(alloc, format_args!("{}:", ShownOctets(name)))?;
    if is_first {
        return Ok(line);
    }
    let mut title = String::new(alloc);
    write!(title, "\n{}", line.as_str())?;
    Ok(title)
}

/// Writes the line that names what follows, behind an empty line if it isn't the first. It is there
/// before any message on what follows.
pub(crate) fn write_title<W: io::Write>(
    alloc: Global,
    is_first: bool,
    name: &[u8],
    out: &mut W,
) -> Result<(), ListError>
    ensures titled { OnOk result
        (Titled is_first (W.contents out.old) (W.contents out.new)) }
    ensures untitled { IfErr result
        (IsUntitled is_first (W.contents out.old) (W.contents out.new)) }
{
    let title = match title_of(alloc, is_first, name) {
        Ok(title) => title,
        Err(NoMemory) => return Err(ListError::NoMemory),
    };
    if let Err(error) = write_octets(out, title.as_bytes()) {
        return Err(ListError::Target(error));
    }
    match out.flush() {
        Ok(()) => Ok(()),
        Err(error) => Err(ListError::Target(error)),
    }
}
