//! What the `main` of a program does, whatever the program is.
use crate::arguments::Misuse;
use crate::files::{Input, read};
use std::process::ExitCode;
use std::{env, io};

/// Returns the words of the command line, without the name of the program.
pub fn words(rt: &HostRuntime) -> io::Result<Vec<String>> {
    let mut args = env::args(rt)?;
    let _program = args.next();
    Ok(args.collect(rt.alloc())?)
}

/// Reads files.
pub fn inputs<'a>(rt: &HostRuntime, names: &[&'a str]) -> io::Result<Vec<Input<'a>>> {
    let mut inputs = Vec::new(rt.alloc());
    for name in names {
        inputs.push(read(rt, name))?;
    }
    Ok(inputs)
}

/// Says why arguments ask for nothing, and how to use the program unless memory ran out, and
/// returns the exit status.
pub fn refuse(rt: &HostRuntime, program: &str, usage: &str, misuse: Misuse<'_>) -> io::Result<u8> {
    eprintln!(rt; "{program}: {misuse}")?;
    if let Misuse::NoMemory = misuse {
        return Ok(1);
    }
    eprintln!(rt; "{usage}")?;
    Ok(2)
}

/// Returns what a program ends with: its status, or 2 behind a message if the system refused
/// something.
pub fn exit(rt: &HostRuntime, program: &str, ended: io::Result<u8>) -> ExitCode {
    match ended {
        Ok(status) => ExitCode::from(status),
        Err(error) => {
            let _ = eprintln!(rt; "{program}: {error}");
            ExitCode::from(2)
        }
    }
}
