//! Strings of characters.
use bcder::Tag;
use bcder::string::{CharSet, RestrictedString};
use cli::shown::Shown;
use std::alloc::{AllocError, Global};

/// Returns the characters of a string, as a terminal can show them.
pub(crate) fn shown<C: CharSet>(
    alloc: Global,
    string: &RestrictedString<C>,
) -> Result<String, AllocError> {
    let text = format!(in alloc; "{string}")?;
    format!(in alloc; "{}", Shown(text.as_str()))
}

/// Returns each octet as the character of Latin-1.
pub(crate) fn latin(alloc: Global, octets: &[u8]) -> Result<String, AllocError> {
    let mut text = String::new(alloc);
    for octet in octets {
        text.push(char::from(*octet))?;
    }
    Ok(text)
}

/// Returns the characters with two octets each, if all are characters.
fn two_octet(alloc: Global, octets: &[u8]) -> Result<Option<String>, AllocError> {
    let mut text = String::new(alloc);
    let mut rest = octets;
    while let [high, low, behind @ ..] = rest {
        let Some(c) = char::from_u32(u32::from(u16::from_be_bytes([*high, *low]))) else {
            return Ok(None);
        };
        text.push(c)?;
        rest = behind;
    }
    Ok(if rest.is_empty() { Some(text) } else { None })
}

/// Returns the characters with four octets each, if all are characters.
fn four_octet(alloc: Global, octets: &[u8]) -> Result<Option<String>, AllocError> {
    let mut text = String::new(alloc);
    let mut rest = octets;
    while let [a, b, c, d, behind @ ..] = rest {
        let Some(c) = char::from_u32(u32::from_be_bytes([*a, *b, *c, *d])) else {
            return Ok(None);
        };
        text.push(c)?;
        rest = behind;
    }
    Ok(if rest.is_empty() { Some(text) } else { None })
}

/// Returns whether a tag's characters are shown as UTF-8, of which ASCII is a part.
fn is_utf8(tag: Tag) -> bool {
    tag == Tag::UTF8_STRING
        || tag == Tag::PRINTABLE_STRING
        || tag == Tag::IA5_STRING
        || tag == Tag::NUMERIC_STRING
        || tag == Tag::VISIBLE_STRING
}

/// Returns the text of a string of characters with a tag, or `None` if it is of another type or
/// octets in it are no characters.
pub(crate) fn text_of(
    alloc: Global,
    tag: Tag,
    octets: &[u8],
) -> Result<Option<String>, AllocError> {
    if is_utf8(tag) {
        match str::from_utf8(octets) {
            Ok(text) => Ok(Some(String::from_str(alloc, text)?)),
            Err(_) => Ok(None),
        }
    } else if tag == Tag::TELETEX_STRING {
        Ok(Some(latin(alloc, octets)?))
    } else if tag == Tag::BMP_STRING {
        two_octet(alloc, octets)
    } else if tag == Tag::UNIVERSAL_STRING {
        four_octet(alloc, octets)
    } else {
        Ok(None)
    }
}

/// Returns whether a character has a meaning in the text of a name (RFC 4514, section 2.4).
fn is_special(c: char) -> bool {
    match c {
        '"' | '+' | ',' | ';' | '<' | '>' | '\\' => true,
        _ => false,
    }
}

/// Returns a text as a value in the text of a name: with a backslash before each character that has
/// a meaning there, a space at an end and a number sign at the front (RFC 4514, section 2.4).
pub(crate) fn escaped(alloc: Global, text: &str) -> Result<String, AllocError> {
    let mut shown = String::new(alloc);
    let (inner, end) = match text.strip_suffix(' ') {
        Some(inner) => (inner, "\\ "),
        None => (text, ""),
    };
    let mut is_first = true;
    for c in inner.chars() {
        if is_special(c) || (is_first && (c == ' ' || c == '#')) {
            shown.push('\\')?;
        }
        shown.push(c)?;
        is_first = false;
    }
    shown.push_str(end)?;
    Ok(shown)
}
