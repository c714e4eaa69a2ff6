//! Messages on standard error.
ghost use Rattle.std.specs.Prelude.{◌≡◌};
ghost use Rattle.cli.specs.Told.{Tells};
ghost use Rattle.berdump.specs.Runs.{status_of};

use crate::list::ListError;
use cli::status::Status;
use cli::tell::{Place, tell, tell_no_memory, tell_unwritten};
use std::alloc::Global;
use std::io;

/// The name of the program.
pub(crate) const PROGRAM: &str = "berdump";

/// What a message is about if it is about no file and no block.
pub(crate) const NOWHERE: Place<'static> = Place {
    file: None,
    block: None,
};

/// Says why octets weren't listed, and returns the status.
pub(crate) fn tell_error<E: io::Write>(
    alloc: Global,
    place: Place<'_>,
    error: &ListError,
    err: &mut E,
) -> Status
    ensures told { Tells (E.contents err.old) (E.contents err.new) }
    ensures status { result ≡ status_of error.now }
{
    match error {
        ListError::Refused(at, reason) => {
            let why = format_args!("octet {at}: {reason}");
            tell(alloc, PROGRAM, place, why, err);
            Status::Refused
        }
        ListError::NoMemory => tell_no_memory(PROGRAM, err),
        ListError::Target(_) => tell_unwritten(PROGRAM, err),
    }
}
