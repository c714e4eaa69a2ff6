//! Reads the arguments.
ghost use Rattle.std.specs.Prelude.{◌≡◌, ◌≤◌, IfOk, OnOk, IfSome, IfNone};
ghost use Rattle.std.specs.Prelude.{length, map, string_bytes};
ghost use Rattle.bercheck.specs.Asked.{Does, IsAsked, IsOther, in_contents, read_of};

use bcder::Mode;
use cli::arguments::{Argument, Arguments, Misuse, rules_of};
use cli::files::or_stdin;
use cli::form::Form;
use std::alloc::Global;

/// How files are to be checked.
#[derive(Clone, Copy, Debug)]
pub struct Request {
    /// The encoding rules.
    pub mode: Mode,

    /// Whether contents octets are to be looked at.
    pub contents: bool,

    /// The form of the files, or `None` if it is to be found out.
    pub form: Option<Form>,
}

/// What the arguments ask for.
#[derive(Drop)]
pub(crate) enum Asked<'a> {
    /// How to use the program.
    Help,

    /// Its version.
    Version,

    /// These files.
    Files(Request, Vec<&'a str>),
}

/// What was read of the arguments.
#[derive(Drop)]
pub(crate) struct Settings<'a> {
    /// The encoding rules.
    mode: Mode,

    /// Whether contents octets are to be looked at, if an option says so.
    contents: Option<bool>,

    /// The form of the files, if an option says so.
    form: Option<Form>,

    /// The names of the files.
    files: Vec<&'a str>,
}

/// Goes over an argument, and returns what is asked for if it isn't a check.
fn take<'a>(
    settings: &mut Settings<'a>,
    argument: Argument<'a>,
    args: &mut Arguments<'a>,
) -> Result<Option<Asked<'a>>, Misuse<'a>>
    ensures does { IfOk result (λ asked. IfNone asked (Does argument.entry
        (read_of settings.old) (map string_bytes args.old.words.now)
        (read_of settings.new) (map string_bytes args.new.words.now))) }
    ensures same { args.new.only_files ≡ args.old.only_files }
    ensures other { IfOk result (λ asked. IfSome asked (IsOther argument.entry)) }
    ensures less { OnOk result (length args.new.words.now ≤ length args.old.words.now) }
{
    let option = match argument {
        Argument::File(file) => {
            return match settings.files.push(file) {
                Ok(()) => Ok(None),
                Err(_) => Err(Misuse::NoMemory),
            };
        }
        Argument::Option(option) => option,
    };
    if let Some(mode) = rules_of(option) {
        settings.mode = mode;
        return Ok(None);
    }
    match option {
        "--contents" => settings.contents = Some(true),
        "--headers" => settings.contents = Some(false),
        "--input" => settings.form = Some(args.form(option)?),
        "-h" | "--help" => return Ok(Some(Asked::Help)),
        "--version" => return Ok(Some(Asked::Version)),
        _ => return Err(Misuse::Word(option, "no such option")),
    }
    Ok(None)
}

/// Returns whether contents octets are looked at: if an option says so, or else in DER.
fn in_contents(mode: Mode, contents: Option<bool>) -> bool
    ensures { result ≡ in_contents mode contents }
{
    match contents {
        Some(contents) => contents,
        None => mode == Mode::Der,
    }
}

/// Returns what the arguments ask for, or why they ask for nothing. Of options of one kind the last
/// counts.
pub(crate) fn read<'a>(alloc: Global, words: &'a [String]) -> Result<Asked<'a>, Misuse<'a>>
    ensures { IfOk result (IsAsked (map string_bytes words.now)) }
{
    let mut args = Arguments::new(words);
    let mut settings = Settings {
        mode: Mode::Ber,
        contents: None,
        form: None,
        files: Vec::new(alloc),
    };
    while let Some(argument) = args.next() {
        match take(&mut settings, argument, &mut args) {
            Ok(None) => {}
            Ok(Some(asked)) => return Ok(asked),
            Err(misuse) => return Err(misuse),
        }
    }
    let request = Request {
        mode: settings.mode,
        contents: in_contents(settings.mode, settings.contents),
        form: settings.form,
    };
    let names = or_stdin(settings.files)?;
    Ok(Asked::Files(request, names))
}
