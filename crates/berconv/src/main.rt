//! Converts values between BER, CER and DER (X.690, 8 to 11).
//!
//! `berconv [OPTION ..] [FILE]` reads the file, or standard input, as values in the encoding rules
//! that `--from` names, else in BER. It writes them on standard output in those that `--to` names,
//! else in DER.
#![tactic(auto)]

mod refusal;
mod request;
mod run;

use crate::request::{Asked, Request};
use cli::program;
use std::io;
use std::process::ExitCode;

/// The name of the program.
const PROGRAM: &str = "berconv";

/// How to use the program, in a line.
const USAGE: &str = "usage: berconv [OPTION ..] [FILE]";

/// How to use the program.
const HELP: &str = "usage: berconv [OPTION ..] [FILE]

Converts values between BER, CER and DER.

  FILE           a file, or - for standard input, as if there is none
  --from RULES   the encoding rules that the octets have to follow: ber, cer or
                 der; else those of BER
  --to RULES     the rules in which the values are written; else those of DER
  --sort-sets    put the values inside each SET in order, as CER and DER want it
  --input FORM   the form of the file: hex, base64, pem or der (octets); else it
                 is found out. Each block of a PEM file is converted
  --pem LABEL    write PEM blocks with this label, one for each that is read;
                 else the octets are written, one after the other
  --             what follows is a file
  -h, --help     show this
  --version      show the version

The status is 0 if all was written, 1 if octets were refused, and 2 if the file
can't be read, or if the usage is wrong.
";

/// What `--version` writes.
const VERSION: &str = "berconv 0.7.7\n";

/// Writes a text, and returns the exit status.
fn show(rt: &HostRuntime, text: &str) -> u8 {
    run::put(text.as_bytes(), &mut rt.stdout(), &mut rt.stderr()).code()
}

/// Converts a file, and returns the exit status.
fn convert(rt: &HostRuntime, request: Request<'_>, name: &str) -> u8 {
    let input = cli::files::read(rt, name);
    let mut out = rt.stdout();
    let mut err = rt.stderr();
    run::run(rt.alloc(), request, &input, &mut out, &mut err).code()
}

/// Does what the arguments ask for, and returns the exit status.
fn answer(rt: &HostRuntime) -> io::Result<u8> {
    let words = program::words(rt)?;
    match request::read(&words) {
        Ok(Asked::Help) => Ok(show(rt, HELP)),
        Ok(Asked::Version) => Ok(show(rt, VERSION)),
        Ok(Asked::Conversion(request, name)) => Ok(convert(rt, request, name)),
        Err(misuse) => program::refuse(rt, PROGRAM, USAGE, misuse),
    }
}

fn main(rt: HostRuntime) -> ExitCode {
    program::exit(&rt, PROGRAM, answer(&rt))
}
