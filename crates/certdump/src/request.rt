//! Reads the arguments.
ghost use Rattle.std.specs.Prelude.{◌≤◌, OnOk, length};

use crate::kind::Kind;
use bcder::Mode;
use cli::arguments::{Argument, Arguments, Misuse, rules_of};
use cli::files::or_stdin;
use cli::form::Form;
use std::alloc::Global;

/// How files are to be shown.
#[derive(Clone, Copy, Debug)]
pub(crate) struct Request {
    /// The encoding rules.
    pub(crate) mode: Mode,

    /// What the octets are, or `None` if it is to be found out.
    pub(crate) kind: Option<Kind>,

    /// Whether the octets of private keys are shown.
    pub(crate) private: bool,

    /// The form of the files, or `None` if it is to be found out.
    pub(crate) form: Option<Form>,
}

/// What the arguments ask for.
#[derive(Drop)]
pub(crate) enum Asked<'a> {
    /// How to use the program.
    Help,

    /// Its version.
    Version,

    /// These files.
    Files(Request, Vec<&'a str>),
}

/// Returns the kind that follows an option.
fn kind_behind<'a>(option: &'a str, args: &mut Arguments<'a>) -> Result<Kind, Misuse<'a>>
    ensures less { OnOk result (length args.new.words.now ≤ length args.old.words.now) }
{
    if let Some(word) = args.value() {
        if let Some(kind) = Kind::named(word) {
            return Ok(kind);
        }
    }
    Err(Misuse::Word(option, "the name of a type has to follow"))
}

/// Goes over an option, and returns what is asked for if no files are.
fn take<'a>(
    request: &mut Request,
    option: &'a str,
    args: &mut Arguments<'a>,
) -> Result<Option<Asked<'a>>, Misuse<'a>>
    ensures less { OnOk result (length args.new.words.now ≤ length args.old.words.now) }
{
    if let Some(mode) = rules_of(option) {
        request.mode = mode;
        return Ok(None);
    }
    match option {
        "--type" => request.kind = Some(kind_behind(option, args)?),
        "--private" => request.private = true,
        "--input" => request.form = Some(args.form(option)?),
        "-h" | "--help" => return Ok(Some(Asked::Help)),
        "--version" => return Ok(Some(Asked::Version)),
        _ => return Err(Misuse::Word(option, "no such option")),
    }
    Ok(None)
}

/// Returns what the arguments ask for, or why they ask for nothing. Of options of one kind the last
/// counts.
pub(crate) fn read<'a>(alloc: Global, words: &'a [String]) -> Result<Asked<'a>, Misuse<'a>> {
    let mut args = Arguments::new(words);
    let mut files = Vec::new(alloc);
    let mut request = Request {
        mode: Mode::Der,
        kind: None,
        private: false,
        form: None,
    };
    while let Some(argument) = args.next() {
        match argument {
            Argument::File(file) => {
                if files.push(file).is_err() {
                    return Err(Misuse::NoMemory);
                }
            }
            Argument::Option(option) => {
                if let Some(asked) = take(&mut request, option, &mut args)? {
                    return Ok(asked);
                }
            }
        }
    }
    Ok(Asked::Files(request, or_stdin(files)?))
}
