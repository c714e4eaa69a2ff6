//! Shows certificates, and what belongs to them, in words.
//!
//! `certdump [OPTION ..] [FILE ..]` reads certificates, requests, lists of revoked certificates,
//! messages of CMS and keys from files or standard input. It writes what they say, as
//! `openssl x509 -text` and its kin do.
#![tactic(auto)]

mod certificate;
mod constraints;
mod decoded;
mod extension;
mod general_name;
mod key;
mod kind;
mod list;
mod message;
mod name;
mod page;
mod points;
mod policies;
mod private_key;
mod request;
mod run;
mod shown;
mod structure;
mod text;

use crate::page::PROGRAM;
use crate::request::{Asked, Request};
use cli::program;
use std::io;
use std::io::BufWriter;
use std::process::ExitCode;

/// How to use the program, in a line.
const USAGE: &str = "usage: certdump [OPTION ..] [FILE ..]";

/// How to use the program.
const HELP: &str = "
Shows certificates, certificate requests, certificate lists, CMS messages and
keys in words.

  FILE                 a file, or - for standard input, as if there is none
  --ber, --cer, --der  the encoding rules that the octets have to follow: else
                       those of DER
  --type NAME          what the octets are: certificate, request, crl, cms,
                       public-key, private-key, encrypted-private-key,
                       rsa-public-key, rsa-private-key, ec-private-key or
                       ec-parameters; else the label of a block says it, or it
                       is found out
  --private            show the octets of private keys too
  --input FORM         the form of the files: hex, base64, pem or der (octets);
                       else it is found out
  --                   what follows are files
  -h, --help           show this
  --version            show the version

The status is 0 if all was shown, 1 if something was refused, and 2 if a file
can't be read, or if the usage is wrong.
";

/// Shows files, and returns the exit status.
fn dump(rt: &HostRuntime, request: Request, names: &[&str]) -> io::Result<u8> {
    let inputs = program::inputs(rt, names)?;
    let mut out = BufWriter::new(rt.alloc(), io::writer(rt))?;
    let mut err = rt.stderr();
    Ok(run::run(rt.alloc(), request, &inputs, &mut out, &mut err).code())
}

/// Does what the arguments ask for, and returns the exit status.
fn answer(rt: &HostRuntime) -> io::Result<u8> {
    let words = program::words(rt)?;
    match request::read(rt.alloc(), &words) {
        Ok(Asked::Help) => print!(rt; "{USAGE}\n{HELP}")?,
        Ok(Asked::Version) => println!(rt; "certdump 0.7.7")?,
        Ok(Asked::Files(request, names)) => return dump(rt, request, &names),
        Err(misuse) => return program::refuse(rt, PROGRAM, USAGE, misuse),
    }
    Ok(0)
}

fn main(rt: HostRuntime) -> ExitCode {
    program::exit(&rt, PROGRAM, answer(&rt))
}
