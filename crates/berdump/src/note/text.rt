//! Strings of characters.
ghost use Rattle.std.specs.Prelude.{◌↔◌, IsTrue};
ghost use Rattle.berdump.specs.Texts.{AreVisible};

use crate::note::{Manner, add_fault, fault, hexadecimal};
use bcder::{NoMemory, Tag};
use cli::shown::Shown;
use encodings::text::{is_ia5_string, is_numeric_string, is_printable_string};

/// Returns whether octets are the characters of a VisibleString: a space, and those that print
/// (X.680, 41.1).
fn is_visible(octets: &[u8]) -> bool
    ensures { IsTrue result ↔ AreVisible octets.now }
{
    let mut rest = octets;
    while let [first, after @ ..] = rest {
        if *first < 0x20 || *first > 0x7E {
            return false;
        }
        rest = after;
    }
    true
}

/// Returns whether a tag's characters are some of ASCII alone, and octets aren't such.
fn is_outside(tag: Tag, octets: &[u8]) -> bool {
    if tag == Tag::NUMERIC_STRING {
        !is_numeric_string(octets)
    } else if tag == Tag::PRINTABLE_STRING {
        !is_printable_string(octets)
    } else if tag == Tag::IA5_STRING {
        !is_ia5_string(octets)
    } else if tag == Tag::VISIBLE_STRING || is_time(tag) {
        !is_visible(octets)
    } else {
        false
    }
}

/// Returns whether a tag is that of a time in text (X.690, 8.25, 8.26).
fn is_time(tag: Tag) -> bool {
    tag == Tag::TIME
        || tag == Tag::DATE
        || tag == Tag::TIME_OF_DAY
        || tag == Tag::DATE_TIME
        || tag == Tag::DURATION
}

/// Returns whether a tag's characters are in UTF-8.
fn is_unicode(tag: Tag) -> bool {
    tag == Tag::UTF8_STRING || tag == Tag::OID_IRI || tag == Tag::RELATIVE_OID_IRI
}

/// Returns whether a tag's characters are those of registered sets, of which ASCII is one.
fn is_registered(tag: Tag) -> bool {
    tag == Tag::GRAPHIC_STRING || tag == Tag::GENERAL_STRING || tag == Tag::OBJECT_DESCRIPTOR
}

/// Returns whether a tag's octets are shown as UTF-8, of which ASCII is a part.
fn is_text(tag: Tag) -> bool {
    tag == Tag::NUMERIC_STRING
        || tag == Tag::PRINTABLE_STRING
        || tag == Tag::IA5_STRING
        || tag == Tag::VISIBLE_STRING
        || is_time(tag)
        || is_unicode(tag)
        || is_registered(tag)
}

/// Returns each octet as the character of Latin-1.
fn latin_text(manner: Manner, octets: &[u8]) -> Result<String, NoMemory> {
    let mut text = String::new(manner.alloc);
    for octet in octets {
        text.push(*octet as char)?;
    }
    Ok(text)
}

/// Returns the characters with two octets each, if all are characters.
fn two_octet_text(manner: Manner, octets: &[u8]) -> Result<Option<String>, NoMemory> {
    let mut text = String::new(manner.alloc);
    let mut rest = octets;
    while let [high, low, behind @ ..] = rest {
        let Some(c) = char::from_u32(256 * u32::from(*high) + u32::from(*low)) else {
            return Ok(None);
        };
        text.push(c)?;
        rest = behind;
    }
    Ok(if rest.is_empty() { Some(text) } else { None })
}

/// Returns the characters with four octets each, if all are characters.
fn four_octet_text(manner: Manner, octets: &[u8]) -> Result<Option<String>, NoMemory> {
    let mut text = String::new(manner.alloc);
    let mut rest = octets;
    while let [a, b, c, d, behind @ ..] = rest {
        let code = u32::from_be_bytes([*a, *b, *c, *d]);
        let Some(c) = char::from_u32(code) else {
            return Ok(None);
        };
        text.push(c)?;
        rest = behind;
    }
    Ok(if rest.is_empty() { Some(text) } else { None })
}

/// Appends a text that was decoded, or else the octets.
fn add_decoded(
    manner: Manner,
    text: &mut String,
    octets: &[u8],
    decoded: Option<String>,
) -> Result<(), NoMemory> {
    match decoded {
        Some(decoded) => {
            write!(text, " :{}", Shown(decoded.as_str()))?;
            add_fault(text, fault::length(manner.mode, octets))
        }
        None => {
            hexadecimal::add(manner, text, octets)?;
            add_fault(text, Some("octets that are no character"))
        }
    }
}

/// Appends octets as UTF-8, if they are that.
fn add_text(manner: Manner, text: &mut String, tag: Tag, octets: &[u8]) -> Result<(), NoMemory> {
    if let Ok(spelled) = str::from_utf8(octets) {
        write!(text, " :{}", Shown(spelled))?;
        let fault = if is_outside(tag, octets) {
            Some("a character that the type doesn't have")
        } else {
            fault::length(manner.mode, octets)
        };
        return add_fault(text, fault);
    }
    hexadecimal::add(manner, text, octets)?;
    if is_registered(tag) {
        write!(text, " (not in ASCII)")?;
        return Ok(());
    }
    let fault = if is_unicode(tag) {
        "not in UTF-8"
    } else {
        "a character that the type doesn't have"
    };
    add_fault(text, Some(fault))
}

/// Appends what contents octets of a string of characters mean, or the octets of another type.
pub(crate) fn add(
    manner: Manner,
    text: &mut String,
    tag: Tag,
    octets: &[u8],
) -> Result<(), NoMemory> {
    if is_text(tag) {
        add_text(manner, text, tag, octets)
    } else if tag == Tag::TELETEX_STRING || tag == Tag::VIDEOTEX_STRING {
        let decoded = latin_text(manner, octets)?;
        add_decoded(manner, text, octets, Some(decoded))
    } else if tag == Tag::BMP_STRING {
        let decoded = two_octet_text(manner, octets)?;
        add_decoded(manner, text, octets, decoded)
    } else if tag == Tag::UNIVERSAL_STRING {
        let decoded = four_octet_text(manner, octets)?;
        add_decoded(manner, text, octets, decoded)
    } else {
        hexadecimal::add(manner, text, octets)
    }
}
