//! Lists the values of BER, CER or DER data.
//!
//! `berdump [OPTION ..] [FILE ..]` reads the files, or standard input, as values in the encoding
//! rules that are named, else in BER. It prints a line for each value, before those of the values
//! inside it: the offset, the depth, the lengths of the header and of the contents, the form, the
//! tag, and what the contents octets of a primitive value mean.
#![tactic(auto)]

pub mod heading;
mod held;
pub mod list;
mod note;
mod opened;
pub mod request;
mod run;
pub mod scope;
mod tell;
mod title;
mod value;

use crate::request::{Asked, Request};
use crate::tell::PROGRAM;
use cli::program;
use std::io;
use std::io::BufWriter;
use std::process::ExitCode;

/// How to use the program, in a line.
const USAGE: &str = "usage: berdump [OPTION ..] [FILE ..]";

/// How to use the program.
const HELP: &str = "
Lists the values of BER, CER or DER data: the offset, the depth, the lengths of
the header and of the contents, the form, the type and the value of each.

  FILE                 a file, or - for standard input, as if there is none
  --ber, --cer, --der  the encoding rules that the octets have to follow: else
                       those of BER
  --inside             list also the values inside OCTET STRING and BIT STRING
  --offset N           begin at octet N
  --depth N            list no values that are deeper than N
  --hex                show all octets in hexadecimal, not just the first 32
  --value N            write the contents octets of the value at offset N, and
                       no lines
  --input FORM         the form of the files: hex, base64, pem or der (octets);
                       else it is found out
  --                   what follows are files
  -h, --help           show this
  --version            show the version

The status is 0 if all was listed, 1 if octets were refused, and 2 if a file
can't be read, or if the usage is wrong.
";

/// Lists files, and returns the exit status.
fn dump(rt: &HostRuntime, request: Request, names: &[&str]) -> io::Result<u8> {
    let inputs = program::inputs(rt, names)?;
    let mut out = BufWriter::new(rt.alloc(), io::writer(rt))?;
    let mut err = rt.stderr();
    let status = match request.value {
        Some(at) => value::run(rt.alloc(), request, at, &inputs, &mut out, &mut err),
        None => run::run(rt.alloc(), request, &inputs, &mut out, &mut err),
    };
    Ok(status.code())
}

/// Does what the arguments ask for, and returns the exit status.
fn answer(rt: &HostRuntime) -> io::Result<u8> {
    let words = program::words(rt)?;
    match request::read(rt.alloc(), &words) {
        Ok(Asked::Help) => print!(rt; "{USAGE}\n{HELP}")?,
        Ok(Asked::Version) => println!(rt; "berdump 0.7.7")?,
        Ok(Asked::Files(request, names)) => return dump(rt, request, &names),
        Err(misuse) => return program::refuse(rt, PROGRAM, USAGE, misuse),
    }
    Ok(0)
}

fn main(rt: HostRuntime) -> ExitCode {
    program::exit(&rt, PROGRAM, answer(&rt))
}
