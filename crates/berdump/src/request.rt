//! Reads the arguments.
ghost use Rattle.std.specs.Prelude.{◌≡◌, ◌≤◌, IfOk, OnOk, IfSome, IfNone};
ghost use Rattle.std.specs.Prelude.{length, map, string_bytes, true, false};
ghost use Rattle.berdump.specs.Asked.{Does, IsAsked, IsOther, SetsScope, read_of};

use crate::scope::Scope;
use bcder::Mode;
use cli::arguments::{Argument, Arguments, Misuse, rules_of};
use cli::files::or_stdin;
use cli::form::Form;
use std::alloc::Global;

/// How files are to be listed.
#[derive(Clone, Copy, Debug)]
pub struct Request {
    /// The encoding rules.
    pub mode: Mode,

    /// Which values have a line.
    pub scope: Scope,

    /// The form of the files, or `None` if it is to be found out.
    pub form: Option<Form>,

    /// The offset of the value whose contents octets are wanted in place of lines.
    pub value: Option<usize>,
}

/// What the arguments ask for.
#[derive(Drop)]
pub(crate) enum Asked<'a> {
    /// How to use the program.
    Help,

    /// Its version.
    Version,

    /// These files.
    Files(Request, Vec<&'a str>),
}

/// Changes which values have a line, if an option does, and returns whether it does.
fn set_scope<'a>(
    scope: &mut Scope,
    option: &'a str,
    args: &mut Arguments<'a>,
) -> Result<bool, Misuse<'a>>
    ensures sets { IfOk result (λ is. is ≡ true → SetsScope option.now
        scope.old (map string_bytes args.old.words.now)
        scope.new (map string_bytes args.new.words.now)) }
    ensures keeps { IfOk result (λ is. is ≡ false → (scope.new ≡ scope.old)
        × (map string_bytes args.new.words.now ≡ map string_bytes args.old.words.now)) }
    ensures same { args.new.only_files ≡ args.old.only_files }
    ensures less { OnOk result (length args.new.words.now ≤ length args.old.words.now) }
{
    match option {
        "--inside" => scope.inside = true,
        "--hex" => scope.whole = true,
        "--offset" => scope.from = args.number(option)?,
        "--depth" => scope.levels = Some(args.number(option)?),
        _ => return Ok(false),
    }
    Ok(true)
}

/// Goes over an argument, and returns what is asked for if no files are.
fn take<'a>(
    request: &mut Request,
    files: &mut Vec<&'a str>,
    argument: Argument<'a>,
    args: &mut Arguments<'a>,
) -> Result<Option<Asked<'a>>, Misuse<'a>>
    ensures does { IfOk result (λ asked. IfNone asked (Does argument.entry
        (read_of request.old files.old.items) (map string_bytes args.old.words.now)
        (read_of request.new files.new.items) (map string_bytes args.new.words.now))) }
    ensures same { args.new.only_files ≡ args.old.only_files }
    ensures other { IfOk result (λ asked. IfSome asked (IsOther argument.entry)) }
    ensures less { OnOk result (length args.new.words.now ≤ length args.old.words.now) }
{
    let option = match argument {
        Argument::File(file) => {
            return match files.push(file) {
                Ok(()) => Ok(None),
                Err(_) => Err(Misuse::NoMemory),
            };
        }
        Argument::Option(option) => option,
    };
    if let Some(mode) = rules_of(option) {
        request.mode = mode;
        return Ok(None);
    }
    if set_scope(&mut request.scope, option, args)? {
        return Ok(None);
    }
    match option {
        "--value" => request.value = Some(args.number(option)?),
        "--input" => request.form = Some(args.form(option)?),
        "-h" | "--help" => return Ok(Some(Asked::Help)),
        "--version" => return Ok(Some(Asked::Version)),
        _ => return Err(Misuse::Word(option, "no such option")),
    }
    Ok(None)
}

/// Returns what the arguments ask for, or why they ask for nothing. Of options of one kind the last
/// counts.
pub(crate) fn read<'a>(alloc: Global, words: &'a [String]) -> Result<Asked<'a>, Misuse<'a>>
    ensures { IfOk result (IsAsked (map string_bytes words.now)) }
{
    let mut args = Arguments::new(words);
    let mut files = Vec::new(alloc);
    let mut request = Request {
        mode: Mode::Ber,
        scope: Scope {
            inside: false,
            from: 0,
            levels: None,
            whole: false,
        },
        form: None,
        value: None,
    };
    while let Some(argument) = args.next() {
        match take(&mut request, &mut files, argument, &mut args) {
            Ok(None) => {}
            Ok(Some(asked)) => return Ok(asked),
            Err(misuse) => return Err(misuse),
        }
    }
    let names = or_stdin(files)?;
    if request.value.is_some() && names.len() > 1 {
        return Err(Misuse::Word("--value", "only one file can be read"));
    }
    Ok(Asked::Files(request, names))
}
