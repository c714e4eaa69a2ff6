//! Lists the headings of BER, CER or DER data.
//!
//! `berlist MODE HEX` reads the octets that HEX spells as values in the encoding rules that MODE
//! names: `ber`, `cer` or `der`. It prints a line for each value, before those of the values inside
//! it: the depth, the tag, and whether the value is primitive or constructed.
#![tactic(auto)]

ghost use Rattle.std.specs.Prelude.{◌≡◌, ℕ, List, OnOk, IfErr, codes, map, string_bytes};
ghost use Rattle.bcder.specs.declared.mode.Mode.{Mode as TheMode};
ghost use Rattle.berlist.specs.Answers.{Listed, IsUnlisted};
ghost use Rattle.bcder.specs.calls.Encoders.{AppendsFront};
ghost use Rattle.berlist.specs.Requests.{Asks, AsksNothing, Tells, Ends};

mod gather;
mod request;

use bcder::encode::write_octets;
use bcder::{Mode, NoMemory};
use std::alloc::Global;
use std::error::Error;
use std::process::ExitCode;
use std::{env, fmt, io};

/// The message for arguments that ask for nothing.
const USAGE: &str = "usage: berlist ber|cer|der HEX\n";

/// The reason why octets weren't listed.
#[derive(Debug, Drop)]
pub enum ListError {
    /// The octets aren't the encodings of values in the mode. Nothing was written.
    Refused,

    /// Memory for the lines ran out. Nothing was written.
    NoMemory,

    /// The target failed. A proper prefix of the lines was written.
    Target(io::Error),
}

impl fmt::Display for ListError {
    ghost use Rattle.std.specs.Prelude.{Some};
    ghost use Rattle.berlist.specs.declared.ListError.TheVariants.{Refused, NoMemory, Target};

    ghost output = { elim [
      | Refused ↦ Some (codes "refused")
      | NoMemory ↦ Some (codes "out of memory")
      | Target e ↦ ⟦<io::Error as fmt::Display>⟧.output e
    ] };

    fn fmt<W: fmt::Write>(&self, f: &mut fmt::Formatter<W>) -> fmt::Result {
        match self {
            ListError::Refused => write!(f, "refused"),
            ListError::NoMemory => write!(f, "out of memory"),
            ListError::Target(error) => write!(f, "{error}"),
        }
    }
}

impl Error for ListError {}

impl From<NoMemory> for ListError {
    ghost use Rattle.berlist.specs.declared.ListError.TheVariants.{NoMemory};

    ghost from_gives = { λ _ e. e ≡ NoMemory };

    fn from(_error: NoMemory) -> ListError {
        ListError::NoMemory
    }
}

/// Writes a line for each value that the octets encode in the mode, and for each value inside it,
/// before those inside: the depth, the tag, and `primitive` or `constructed`.
///
/// All lines are gathered before the first is written, so nothing is written if the octets are
/// refused.
pub fn list<W: io::Write>(
    alloc: Global,
    mode: Mode,
    octets: &[u8],
    target: &mut W,
) -> Result<(), ListError>
    ensures listed { OnOk result
        (Listed mode octets.now (W.contents target.old) (W.contents target.new)) }
    ensures unlisted { IfErr result
        (IsUnlisted mode octets.now (W.contents target.old) (W.contents target.new)) }
{
    let Some(lines) = gather::lines(alloc, mode, octets)? else {
        return Err(ListError::Refused);
    };
    match write_octets(target, lines.as_bytes()) {
        Ok(()) => Ok(()),
        Err(error) => Err(ListError::Target(error)),
    }
}

/// Writes a message, and ignores a failure of the target.
fn tell<E: io::Write>(err: &mut E, message: &str)
    ensures { AppendsFront (E.contents err.old) (E.contents err.new) message.now }
{
    let _ = write_octets(err, message.as_bytes());
}

/// Lists on `out` what the arguments (without the name of the program) ask for, and returns the
/// exit status.
///
/// - 0: the lines were written.
/// - 1: the octets were refused, memory ran out, or `out` failed.
/// - 2: the arguments aren't a mode and an even number of hexadecimal digits. A usage line is
///   written on `err`.
///
/// A failure of `err` changes nothing.
pub fn run<W: io::Write, E: io::Write>(
    alloc: Global,
    args: &[String],
    out: &mut W,
    err: &mut E,
) -> u8
    ensures usage { AsksNothing (map string_bytes args.now) → (result ≡ 2)
        × Tells (codes "usage: berlist ber|cer|der HEX\n")
        (W.contents out.old) (W.contents out.new) (E.contents err.old) (E.contents err.new) }
    ensures asked { (mode : TheMode) (octets : List ℕ) →
        Asks (map string_bytes args.now) mode octets →
        Ends mode octets
        (W.contents out.old) (W.contents out.new) (E.contents err.old) (E.contents err.new)
        result }
{
    let request = match request::read(alloc, args) {
        Ok(Some(request)) => request,
        Ok(None) => {
            tell(err, USAGE);
            return 2;
        }
        Err(NoMemory) => {
            tell(err, "out of memory\n");
            return 1;
        }
    };
    match list(alloc, request.mode, &request.octets, out) {
        Ok(()) => 0,
        Err(ListError::Refused) => {
            tell(err, "refused\n");
            1
        }
        Err(ListError::NoMemory) => {
            tell(err, "out of memory\n");
            1
        }
        Err(ListError::Target(_)) => 1,
    }
}

/// Returns the arguments without the name of the program.
fn arguments(rt: &HostRuntime) -> io::Result<Vec<String>> {
    let mut args = env::args(rt)?;
    let _program = args.next();
    Ok(args.collect(rt.alloc())?)
}

fn main(rt: HostRuntime) -> ExitCode {
    let mut out = rt.stdout();
    let mut err = rt.stderr();
    let args = match arguments(&rt) {
        Ok(args) => args,
        // An argument that isn't text is neither a mode nor hexadecimal digits.
        Err(error) if error.kind() == io::ErrorKind::InvalidData => {
            tell(&mut err, USAGE);
            return ExitCode::from(2);
        }
        Err(_) => {
            tell(&mut err, "out of memory\n");
            return ExitCode::FAILURE;
        }
    };
    ExitCode::from(run(rt.alloc(), &args, &mut out, &mut err))
}
