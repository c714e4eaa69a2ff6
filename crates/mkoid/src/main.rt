//! Prints the contents octets of object identifiers.
//!
//! `mkoid ARG..` prints a line for each argument. If the argument is an object identifier, its
//! components in decimal joined by dots, the line has the octets in decimal, as `[85,29,19,]` for
//! `2.5.29.19`. For any other argument it has the argument and the reason why it is none.
#![tactic(auto)]

ghost use Rattle.std.specs.Prelude.{◌≡◌, OnOk, OnErr, IfOk, IfErr, map, string_bytes};
ghost use Rattle.std.specs.Io.KnownBytes.{Appends};
ghost use Rattle.bcder.specs.calls.Identifiers.{RefusesText, error_text};
ghost use Rattle.bcder.specs.calls.Encoders.{AppendsShorter};
ghost use Rattle.mkoid.specs.Lines.{octets_line, refusal_line, IsNamed, WritesAll, WritesSome};
ghost use Rattle.mkoid.specs.Lines.{WritesLine, WritesPart};

use bcder::encode::write_octets;
use bcder::oid::OidError;
use bcder::{NoMemory, Oid};
use std::alloc::Global;
use std::process::ExitCode;
use std::{env, io};

/// Returns the line of an identifier: its octets in decimal, each followed by a comma, in brackets.
fn octets_line(alloc: Global, octets: &[u8]) -> Result<String, NoMemory>
    ensures { IfOk result (λ line. string_bytes line ≡ octets_line octets.now) }
{
    let mut line = String::from_str(alloc, "[")?;
    for octet in octets {
        write!(line, "{octet},")?;
    }
    line.push_str("]\n")?;
    Ok(line)
}

/// Returns the line of an argument that is an identifier, or the reason why there is none.
fn line_of(alloc: Global, arg: &str) -> Result<String, OidError>
    ensures named { IfOk result (λ line. IsNamed arg.now (string_bytes line)) }
    ensures refused { IfErr result (λ e. RefusesText arg.now e) }
{
    match Oid::from_str(alloc, arg) {
        Ok(oid) => match octets_line(alloc, oid.0.as_slice()) {
            Ok(line) => Ok(line),
            Err(NoMemory) => Err(OidError::NoMemory),
        },
        Err(error) => Err(error),
    }
}

/// Returns the text of a refusal.
fn text_of(error: &OidError) -> &'static str
    ensures { result.now ≡ error_text error.now }
{
    match error {
        OidError::TooFew => "at least two components required",
        OidError::NotInteger => "only integer components allowed",
        OidError::First => "first component can only be 0, 1, or 2.",
        OidError::Second => "second component for 0. and 1. must be less than 40",
        OidError::NoMemory => "out of memory",
    }
}

/// Writes the line of an argument that is refused. It allocates nothing.
fn write_refusal<W: io::Write>(arg: &str, error: &OidError, target: &mut W) -> Result<(), io::Error>
    ensures ok { OnOk result (Appends
        (W.contents target.old) (W.contents target.new) (refusal_line arg.now error.now)) }
    ensures err { OnErr result (AppendsShorter
        (W.contents target.old) (W.contents target.new) (refusal_line arg.now error.now)) }
{
    write_octets(target, arg.as_bytes())?;
    write_octets(target, b": ".as_slice())?;
    write_octets(target, text_of(error).as_bytes())?;
    write_octets(target, b".\n".as_slice())
}

/// Writes the line of an argument. If memory runs out for an identifier, the line says so.
fn write_line<W: io::Write>(alloc: Global, arg: &str, target: &mut W) -> Result<(), io::Error>
    ensures ok { OnOk result (WritesLine arg.now (W.contents target.old) (W.contents target.new)) }
    ensures err { OnErr result
        (WritesPart arg.now (W.contents target.old) (W.contents target.new)) }
{
    match line_of(alloc, arg) {
        Ok(line) => write_octets(target, line.as_bytes()),
        Err(error) => write_refusal(arg, &error, target),
    }
}

/// Writes a line for each argument: the octets of the object identifier that it names, or why it
/// names none. If memory runs out for one that it names, the line says so.
///
/// # Errors
///
/// Returns the error of the target. A prefix of the line on which it failed may have been written.
pub fn lines<W: io::Write>(alloc: Global, args: &[String], target: &mut W) -> Result<(), io::Error>
    ensures ok { OnOk result (WritesAll (map string_bytes args.now)
        (W.contents target.old) (W.contents target.new)) }
    ensures err { OnErr result (WritesSome (map string_bytes args.now)
        (W.contents target.old) (W.contents target.new)) }
{
    for arg in args {
        write_line(alloc, arg, target)?;
    }
    Ok(())
}

/// Returns the arguments without the name of the program.
fn arguments(rt: &HostRuntime) -> io::Result<Vec<String>> {
    let mut args = env::args(rt)?;
    let _program = args.next();
    Ok(args.collect(rt.alloc())?)
}

fn main(rt: HostRuntime) -> ExitCode {
    let mut out = rt.stdout();
    match arguments(&rt) {
        Ok(args) => match lines(rt.alloc(), &args, &mut out) {
            Ok(()) => ExitCode::SUCCESS,
            Err(_) => ExitCode::FAILURE,
        },
        Err(error) => {
            let _ = eprintln!(rt; "{error}");
            ExitCode::FAILURE
        }
    }
}
