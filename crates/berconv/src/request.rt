//! Reads the arguments.
ghost use Rattle.std.specs.Prelude.{◌≡◌, ◌≤◌, IfOk, OnOk, IfSome, IfNone};
ghost use Rattle.std.specs.Prelude.{length, map, string_bytes};
ghost use Rattle.berconv.specs.Words.{Does, IsAsked, IsLabel, IsOther, IsRules, name_of};
ghost use Rattle.berconv.specs.Words.{read_of};

use bcder::Mode;
use cli::arguments::{Argument, Arguments, Misuse};
use cli::armor::is_label;
use cli::files::STDIN;
use cli::form::Form;

/// What is to be converted, and how.
#[derive(Clone, Copy, Debug)]
pub(crate) struct Request<'a> {
    /// The rules that the octets have to follow.
    pub from: Mode,

    /// The rules in which the values are written.
    pub to: Mode,

    /// Whether the values inside each SET are put in order, if the rules have one.
    pub sorts: bool,

    /// The form of the file, or `None` if it is to be found out.
    pub form: Option<Form>,

    /// The label of the blocks of text that are written, if they are wanted.
    pub pem: Option<&'a str>,
}

/// What the arguments ask for.
#[derive(Clone, Copy)]
pub(crate) enum Asked<'a> {
    /// How to use the program.
    Help,

    /// Its version.
    Version,

    /// The conversion of a file.
    Conversion(Request<'a>, &'a str),
}

/// Returns the rules that follow an option.
fn rules<'a>(option: &'a str, args: &mut Arguments<'a>) -> Result<Mode, Misuse<'a>>
    ensures rules { IfOk result (IsRules
        (map string_bytes args.old.words.now) (map string_bytes args.new.words.now)) }
    ensures same { args.new.only_files ≡ args.old.only_files }
{
    match args.value() {
        Some("ber") => Ok(Mode::Ber),
        Some("cer") => Ok(Mode::Cer),
        Some("der") => Ok(Mode::Der),
        _ => Err(Misuse::Word(option, "ber, cer or der has to follow")),
    }
}

/// Returns the label that follows an option.
fn label<'a>(option: &'a str, args: &mut Arguments<'a>) -> Result<&'a str, Misuse<'a>>
    ensures label { IfOk result (IsLabel
        (map string_bytes args.old.words.now) (map string_bytes args.new.words.now)) }
    ensures same { args.new.only_files ≡ args.old.only_files }
{
    if let Some(word) = args.value() {
        if is_label(word) {
            return Ok(word);
        }
    }
    Err(Misuse::Word(option, "a label has to follow"))
}

/// Returns the name of the file, or that of standard input if none is named.
fn or_stdin(file: Option<&str>) -> &str
    ensures { result.now ≡ name_of file.entry }
{
    match file {
        Some(name) => name,
        None => STDIN,
    }
}

/// Goes over an argument, and returns what is asked for if no conversion is.
fn take<'a>(
    request: &mut Request<'a>,
    file: &mut Option<&'a str>,
    argument: Argument<'a>,
    args: &mut Arguments<'a>,
) -> Result<Option<Asked<'a>>, Misuse<'a>>
    ensures does { IfOk result (λ asked. IfNone asked (Does argument.entry
        (read_of request.old file.old) (map string_bytes args.old.words.now)
        (read_of request.new file.new) (map string_bytes args.new.words.now))) }
    ensures same { args.new.only_files ≡ args.old.only_files }
    ensures other { IfOk result (λ asked. IfSome asked (IsOther argument.entry)) }
    ensures less { OnOk result (length args.new.words.now ≤ length args.old.words.now) }
{
    let option = match argument {
        Argument::File(name) => {
            if file.is_some() {
                return Err(Misuse::Word(name, "a second file"));
            }
            *file = Some(name);
            return Ok(None);
        }
        Argument::Option(option) => option,
    };
    match option {
        "--from" => request.from = rules(option, args)?,
        "--to" => request.to = rules(option, args)?,
        "--sort-sets" => request.sorts = true,
        "--input" => request.form = Some(args.form(option)?),
        "--pem" => request.pem = Some(label(option, args)?),
        "-h" | "--help" => return Ok(Some(Asked::Help)),
        "--version" => return Ok(Some(Asked::Version)),
        _ => return Err(Misuse::Word(option, "no such option")),
    }
    Ok(None)
}

/// Returns what the arguments ask for, or why they ask for nothing. Of an option that stands there
/// twice the last counts.
pub(crate) fn read(words: &[String]) -> Result<Asked<'_>, Misuse<'_>>
    ensures { IfOk result (IsAsked (map string_bytes words.now)) }
{
    let mut args = Arguments::new(words);
    let mut file = None;
    let mut request = Request {
        from: Mode::Ber,
        to: Mode::Der,
        sorts: false,
        form: None,
        pem: None,
    };
    while let Some(argument) = args.next() {
        match take(&mut request, &mut file, argument, &mut args) {
            Ok(None) => {}
            Ok(Some(asked)) => return Ok(asked),
            Err(misuse) => return Err(misuse),
        }
    }
    if request.sorts && request.to == Mode::Ber {
        return Err(Misuse::Word("--sort-sets", "in BER a SET has no order"));
    }
    Ok(Asked::Conversion(request, or_stdin(file)))
}
