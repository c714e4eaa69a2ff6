//! Messages on standard error, and what they are about.
ghost use Rattle.std.specs.Prelude.{◌≡◌, ◌++◌};
ghost use Rattle.bcder.specs.calls.Encoders.{AppendsFront};
ghost use Rattle.cli.specs.Told.{IsProgram, Tells};
ghost use Rattle.cli.specs.declared.status.Status.TheVariants.{Failed};

use crate::shown::{Shown, ShownOctets, line_of};
use crate::status::Status;
use bcder::encode::write_octets;
use std::alloc::{AllocError, Global};
use std::{fmt, io};

/// What a message is about: a file, if it is named, and a block in it.
#[derive(Clone, Copy)]
pub struct Place<'a> {
    /// The name of the file.
    pub file: Option<&'a str>,

    /// The number of the block, counted from 1, and its label.
    pub block: Option<(usize, &'a [u8])>,
}

impl fmt::Display for Place<'_> {
    fn fmt<W: fmt::Write>(&self, f: &mut fmt::Formatter<W>) -> fmt::Result {
        if let Some(name) = self.file {
            write!(f, "{}: ", Shown(name))?;
        }
        if let Some((number, label)) = self.block {
            write!(f, "block {number} ({}): ", ShownOctets(label))?;
        }
        Ok(())
    }
}

/// Writes a message, and ignores a failure of the target.
pub fn put<E: io::Write>(err: &mut E, message: &str)
    ensures { AppendsFront (E.contents err.old) (E.contents err.new) message.now }
{
    let _ = write_octets(err, message.as_bytes());
}

/// Writes a message that begins with the name of a program, and ignores a failure of the target.
fn put_from<E: io::Write>(err: &mut E, program: &str, message: &str)
    ensures { AppendsFront (E.contents err.old) (E.contents err.new)
        (program.now ++ message.now) }
{
    if let Ok(()) = write_octets(err, program.as_bytes()) {
        put(err, message);
    }
}

/// Writes in a line what a program says of a place, and ignores a failure of the target.
pub fn tell<E: io::Write, D: fmt::Display + Drop>(
    alloc: Global,
    program: &str,
    place: Place<'_>,
    reason: D,
    err: &mut E,
)
    requires { IsProgram program.now }
    ensures { Tells (E.contents err.old) (E.contents err.new) }
{
    match line_of(alloc, format_args!("{program}: {place}{reason}")) {
        Ok(line) => put(err, line.as_str()),
        Err(AllocError) => {
            tell_no_memory(program, err);
        }
    }
}

/// Writes that memory ran out, and returns the status.
pub fn tell_no_memory<E: io::Write>(program: &str, err: &mut E) -> Status
    requires { IsProgram program.now }
    ensures told { Tells (E.contents err.old) (E.contents err.new) }
    ensures failed { result ≡ Failed }
{
    put_from(err, program, ": out of memory\n");
    Status::Failed
}

/// Writes that the output can't be written, and returns the status.
pub fn tell_unwritten<E: io::Write>(program: &str, err: &mut E) -> Status
    requires { IsProgram program.now }
    ensures told { Tells (E.contents err.old) (E.contents err.new) }
    ensures failed { result ≡ Failed }
{
    put_from(err, program, ": the output can't be written\n");
    Status::Failed
}
