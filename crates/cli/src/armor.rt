//! Octets as a block of text (RFC 7468).
ghost use Rattle.std.specs.Prelude.{◌≡◌, ◌++◌, ◌∷◌, ℕ, List, false, IfSome, IfNone, OnOk};
ghost use Rattle.cli.specs.Armor.{block_of, dashes, is_label, is_label_behind, is_label_char};
ghost use Rattle.cli.specs.Armor.{lines};

use base64::engine::general_purpose::STANDARD;
use std::alloc::AllocError;

/// The number of characters on a line (RFC 7468, 2).
const LINE: usize = 64;

/// What ends a line that begins or ends a block.
const DASHES: &[u8] = b"-----\n";

/// Returns whether a label may have a character besides those that set words apart.
fn is_label_char(character: u8) -> bool
    ensures { result ≡ is_label_char character }
{
    character > b' ' && character < 0x7F && character != b'-'
}

/// Returns whether a label that goes on with a character ends in a word, if it may: whether it
/// ended in one is known.
fn goes_on(in_word: bool, character: u8) -> Option<bool>
    ensures some { IfSome result (λ then. (w : List ℕ)
        → is_label_behind in_word (character ∷ w) ≡ is_label_behind then w) }
    ensures none { IfNone result ((w : List ℕ)
        → is_label_behind in_word (character ∷ w) ≡ false) }
{
    if is_label_char(character) {
        return Some(true);
    }
    if in_word && (character == b' ' || character == b'-') {
        return Some(false);
    }
    None
}

/// Returns whether a text may be the label of a block (RFC 7468, 3): words of printable characters
/// of ASCII, set apart by a space or a hyphen, or nothing.
pub fn is_label(text: &str) -> bool
    ensures { result ≡ is_label text.now }
{
    let mut rest = text.as_bytes();
    let mut in_word = rest.is_empty();
    while let [character, behind @ ..] = rest {
        let Some(then) = goes_on(in_word, *character) else {
            return false;
        };
        in_word = then;
        rest = behind;
    }
    in_word
}

/// Appends characters in lines of 64, but for the last.
fn append_lines(text: &mut Vec<u8>, characters: &[u8]) -> Result<(), AllocError>
    ensures { OnOk result (text.new.items ≡ text.old.items ++ lines characters.now) }
{
    let mut rest = characters;
    while !rest.is_empty() {
        let (line, behind) = rest.split_at(rest.len().min(LINE));
        text.extend_from_slice(line)?;
        text.extend_from_slice(b"\n")?;
        rest = behind;
    }
    Ok(())
}

/// Appends a line that begins or ends a block with a label.
fn append_boundary(text: &mut Vec<u8>, mark: &[u8], label: &str) -> Result<(), AllocError>
    ensures { OnOk result
        (text.new.items ≡ text.old.items ++ (mark.now ++ (label.now ++ dashes))) }
{
    text.extend_from_slice(mark)?;
    text.extend_from_slice(label.as_bytes())?;
    text.extend_from_slice(DASHES)
}

/// Appends the block of text with a label that carries octets (RFC 7468, 3).
pub fn append_block(text: &mut Vec<u8>, label: &str, octets: &[u8]) -> Result<(), AllocError>
    ensures { OnOk result
        (text.new.items ≡ text.old.items ++ block_of label.now octets.now) }
{
    let characters = STANDARD.encode(*text.allocator(), octets)?;
    append_boundary(text, b"-----BEGIN ", label)?;
    append_lines(text, characters.as_bytes())?;
    append_boundary(text, b"-----END ", label)?;
    Ok(())
}
