//! Text as a terminal can show it.
ghost use Rattle.std.specs.Prelude.{◌≡◌, IfOk, string_bytes, true, false};
ghost use Rattle.cli.specs.Shown.{IsLine, IsShown, are_control, begins_control, has_control};

use std::alloc::{AllocError, Global};
use std::fmt;

/// Returns whether a character doesn't show, or moves the text around it: a control character
/// (C0, C1 and DEL), a separator of lines, or one that turns the direction of text.
fn is_control(c: char) -> bool {
    let code = c as u32;
    code < 0x20
        || (0x7F <= code && code < 0xA0)
        || code == 0x61C
        || code == 0x200E
        || code == 0x200F
        || (0x2028 <= code && code <= 0x202E)
        || (0x2066 <= code && code <= 0x2069)
}

/// Returns whether such a character begins with these octets in UTF-8. Of a shorter one, those
/// that aren't there are 0.
#[tactic(auto, using(std::proofs::lemmas::Bool::Decides::nat_tests))]
fn are_control(a: u8, b: u8, c: u8) -> bool
    ensures { result ≡ are_control a b c }
{
    match a {
        0xC2 => b < 0xA0,
        0xD8 => b == 0x9C,
        0xE2 => match b {
            0x80 => c == 0x8E || c == 0x8F || (0xA8 <= c && c <= 0xAE),
            0x81 => 0xA6 <= c && c <= 0xA9,
            _ => false,
        },
        _ => a < 0x20 || a == 0x7F,
    }
}

/// Returns whether the octets of a control character in UTF-8 come first.
fn begins_control(octets: &[u8]) -> bool
    ensures { result ≡ begins_control octets.now }
{
    match octets {
        [] => false,
        [a] => are_control(*a, 0, 0),
        [a, b] => are_control(*a, *b, 0),
        [a, b, c, ..] => are_control(*a, *b, *c),
    }
}

/// Returns whether no octets of a text are those of a control character in UTF-8.
pub fn is_shown(text: &str) -> bool
    ensures shown { result ≡ true → IsShown text.now }
    ensures hidden { result ≡ false → has_control text.now ≡ true }
{
    let mut rest = text.as_bytes();
    while let [_, behind @ ..] = rest {
        if begins_control(rest) {
            return false;
        }
        rest = behind;
    }
    true
}

/// A text with `\u{..}` in place of each control character.
#[derive(Clone, Copy)]
pub struct Shown<'a>(pub &'a str);

impl fmt::Display for Shown<'_> {
    fn fmt<W: fmt::Write>(&self, f: &mut fmt::Formatter<W>) -> fmt::Result {
        for c in self.0.chars() {
            if is_control(c) {
                let code = c as u32;
                write!(f, "\\u{{{code:x}}}")?;
            } else {
                write!(f, "{c}")?;
            }
        }
        Ok(())
    }
}

/// Octets as a text, if they are one in UTF-8, and else each octet as `\xHH` that is no printable
/// character of ASCII.
#[derive(Clone, Copy)]
pub struct ShownOctets<'a>(pub &'a [u8]);

impl fmt::Display for ShownOctets<'_> {
    fn fmt<W: fmt::Write>(&self, f: &mut fmt::Formatter<W>) -> fmt::Result {
        if let Ok(text) = str::from_utf8(self.0) {
            return write!(f, "{}", Shown(text));
        }
        for octet in self.0 {
            let code = *octet;
            if 0x20 <= code && code < 0x7F {
                write!(f, "{}", code as char)?;
            } else {
                write!(f, "\\x{code:02x}")?;
            }
        }
        Ok(())
    }
}

/// Returns a text as a line. It has no control character, if its parts were shown by [`Shown`]; the
/// check for them proves that it is one line.
pub fn line_of<D: fmt::Display + Drop>(alloc: Global, text: D) -> Result<String, AllocError>
    ensures { IfOk result (λ line. IsLine (string_bytes line)) }
{
    let mut shown = String::new(alloc);
    write!(shown, "{text}")?;
    let mut line = String::new(alloc);
    if is_shown(shown.as_str()) {
        line.push_str(shown.as_str())?;
    }
    line.push_str("\n")?;
    Ok(line)
}
