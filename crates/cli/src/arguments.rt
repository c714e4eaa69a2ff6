//! The arguments of a program: options, and files.
ghost use Rattle.std.specs.Prelude.{◌≡◌, ◌∷◌, [], map, string_bytes, false};
ghost use Rattle.std.specs.Prelude.{IfSome, IfNone, IfOk, OnErr};
ghost use Rattle.cli.specs.Arguments.{is_option, Comes, IsEnd, IsForm, IsNoForm};
ghost use Rattle.cli.specs.Arguments.{IsNumber, IsNoNumber, rules_option};
ghost use Rattle.bcder.specs.declared.mode.Mode.{Mode as TheMode};

use crate::form::Form;
use crate::shown::Shown;
use bcder::Mode;
use std::fmt;

/// An argument of a program.
#[derive(Clone, Copy, Debug)]
pub enum Argument<'a> {
    /// A word that begins with `-` and goes on.
    Option(&'a str),

    /// Any other word, and each word after `--`.
    File(&'a str),
}

/// Why arguments ask for nothing.
#[derive(Clone, Copy, Debug)]
pub enum Misuse<'a> {
    /// This word is wrong, for this reason.
    Word(&'a str, &'a str),

    /// Memory ran out.
    NoMemory,
}

impl fmt::Display for Misuse<'_> {
    fn fmt<W: fmt::Write>(&self, f: &mut fmt::Formatter<W>) -> fmt::Result {
        match self {
            Misuse::Word(word, reason) => write!(f, "{}: {reason}", Shown(word)),
            Misuse::NoMemory => write!(f, "out of memory"),
        }
    }
}

/// Goes over the words of a command line.
#[derive(Clone, Copy, Debug)]
pub struct Arguments<'a> {
    /// The words that are left.
    words: &'a [String],

    /// Whether `--` was passed.
    only_files: bool,
}

impl<'a> Arguments<'a> {
    /// Begins with the first word, which is behind the name of the program.
    pub fn new(words: &'a [String]) -> Arguments<'a>
        ensures words { result.words ≡ words.entry }
        ensures options { result.only_files ≡ false }
    {
        Arguments {
            words,
            only_files: false,
        }
    }

    /// Returns the next word.
    fn next_word(&mut self) -> Option<&'a str>
        ensures some { IfSome result (λ w. map string_bytes self.old.words.now
            ≡ w.now ∷ map string_bytes self.new.words.now) }
        ensures none { IfNone result (map string_bytes self.old.words.now ≡ []) }
        ensures same { self.new.only_files ≡ self.old.only_files }
    {
        let [word, words @ ..] = self.words else {
            return None;
        };
        self.words = words;
        Some(word.as_str())
    }

    /// Returns the next argument, or `None` behind the last.
    pub fn next(&mut self) -> Option<Argument<'a>>
        ensures comes { IfSome result (Comes
            self.old.only_files (map string_bytes self.old.words.now)
            self.new.only_files (map string_bytes self.new.words.now)) }
        ensures none { IfNone result
            (IsEnd self.old.only_files (map string_bytes self.old.words.now)) }
    {
        let word = self.next_word()?;
        if self.only_files || !is_option(word) {
            return Some(Argument::File(word));
        }
        if word == "--" {
            self.only_files = true;
            return match self.next_word() {
                Some(file) => Some(Argument::File(file)),
                None => None,
            };
        }
        Some(Argument::Option(word))
    }

    /// Returns the value of the option that was returned last: the word behind it.
    pub fn value(&mut self) -> Option<&'a str>
        ensures some { IfSome result (λ w. map string_bytes self.old.words.now
            ≡ w.now ∷ map string_bytes self.new.words.now) }
        ensures none { IfNone result (map string_bytes self.old.words.now ≡ []) }
        ensures same { self.new.only_files ≡ self.old.only_files }
    {
        self.next_word()
    }

    /// Returns the form that follows an option.
    pub fn form(&mut self, option: &'a str) -> Result<Form, Misuse<'a>>
        ensures form { IfOk result (IsForm
            (map string_bytes self.old.words.now) (map string_bytes self.new.words.now)) }
        ensures none { OnErr result (IsNoForm (map string_bytes self.old.words.now)) }
        ensures same { self.new.only_files ≡ self.old.only_files }
    {
        if let Some(word) = self.next_word() {
            if let Some(form) = Form::named(word) {
                return Ok(form);
            }
        }
        Err(Misuse::Word(option, "hex, base64, pem or der has to follow"))
    }

    /// Returns the number that follows an option.
    pub fn number(&mut self, option: &'a str) -> Result<usize, Misuse<'a>>
        ensures number { IfOk result (IsNumber
            (map string_bytes self.old.words.now) (map string_bytes self.new.words.now)) }
        ensures none { OnErr result (IsNoNumber (map string_bytes self.old.words.now)) }
        ensures same { self.new.only_files ≡ self.old.only_files }
    {
        if let Some(word) = self.next_word() {
            if let Ok(number) = word.parse::<usize>() {
                return Ok(number);
            }
        }
        Err(Misuse::Word(option, "a number has to follow"))
    }
}

/// Returns the encoding rules that an option names.
pub fn rules_of(option: &str) -> Option<Mode>
    ensures some { IfSome result (λ mode. option.now ≡ rules_option mode) }
    ensures none { IfNone result ((mode : TheMode) → option.now ≡ rules_option mode → ⊥) }
{
    match option {
        "--ber" => Some(Mode::Ber),
        "--cer" => Some(Mode::Cer),
        "--der" => Some(Mode::Der),
        _ => None,
    }
}

/// Returns whether a word is an option: whether it begins with `-` and goes on.
fn is_option(word: &str) -> bool
    ensures { result ≡ is_option word.now }
{
    match word.as_bytes() {
        [b'-', _, ..] => true,
        _ => false,
    }
}
