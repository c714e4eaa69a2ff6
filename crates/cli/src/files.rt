//! Reads the files that are named on a command line.
ghost use Rattle.std.specs.Prelude.{◌≡◌, IfOk, map};
ghost use Rattle.cli.specs.Arguments.{names_of};

use crate::arguments::Misuse;
use std::io::Read;
use std::{fs, io};

/// The name for standard input.
pub const STDIN: &str = "-";

/// What was read of a file.
#[derive(Debug, Drop)]
pub struct Input<'a> {
    /// The name of the file, or `-` for standard input.
    pub name: &'a str,

    /// The octets of the file, or the error of the system.
    pub octets: io::Result<Vec<u8>>,
}

impl Input<'_> {
    /// Returns what messages call the file.
    pub fn title(&self) -> &str {
        if self.name == STDIN {
            "standard input"
        } else {
            self.name
        }
    }
}

/// Reads a file, or standard input to its end if the name is `-`.
pub fn read<'a>(rt: &HostRuntime, name: &'a str) -> Input<'a>
    ensures { result.name.now ≡ name.now }
{
    if name != STDIN {
        return Input {
            name,
            octets: fs::read(rt, name),
        };
    }
    let mut octets = Vec::new(rt.alloc());
    let read = rt.stdin().read_to_end(&mut octets);
    Input {
        name,
        octets: match read {
            Ok(_) => Ok(octets),
            Err(error) => Err(error),
        },
    }
}

/// Returns the names of files, or that of standard input if there is none.
pub fn or_stdin<'a>(mut names: Vec<&'a str>) -> Result<Vec<&'a str>, Misuse<'a>>
    ensures { IfOk result (λ v. map (λ f. f.now) v.items
        ≡ names_of (map (λ f. f.now) names.entry.items)) }
{
    if !names.is_empty() {
        return Ok(names);
    }
    match names.push(STDIN) {
        Ok(()) => Ok(names),
        Err(_) => Err(Misuse::NoMemory),
    }
}
