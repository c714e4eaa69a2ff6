//! Notes in text what the contents octets of a primitive value mean.
mod bits;
mod fault;
mod hexadecimal;
mod identifier;
mod integer;
mod large;
mod octets;
mod text;
mod time;

use bcder::{Mode, NoMemory, Tag};
use encodings::contents::boolean_of;
use std::alloc::Global;

/// How a value is noted: by the mode's rules, and with all octets that are shown in hexadecimal or
/// only the first of them.
#[derive(Clone, Copy)]
pub(crate) struct Manner {
    pub(crate) alloc: Global,
    pub(crate) mode: Mode,
    pub(crate) whole: bool,
}

/// Appends why contents octets are none of their type's, if they aren't.
fn add_fault(text: &mut String, fault: Option<&'static str>) -> Result<(), NoMemory> {
    if let Some(fault) = fault {
        write!(text, " (invalid: {fault})")?;
    }
    Ok(())
}

/// Appends a truth value.
fn add_boolean(manner: Manner, text: &mut String, octets: &[u8]) -> Result<(), NoMemory> {
    match boolean_of(manner.mode, octets) {
        Some(truth) => write!(text, " :{truth}")?,
        None => hexadecimal::add(manner, text, octets)?,
    }
    add_fault(text, fault::boolean(manner.mode, octets))
}

/// Appends nothing, or the octets of a null that has some.
fn add_null(manner: Manner, text: &mut String, octets: &[u8]) -> Result<(), NoMemory> {
    if octets.is_empty() {
        return Ok(());
    }
    hexadecimal::add(manner, text, octets)?;
    add_fault(text, fault::null(octets))
}

/// Appends what contents octets of a value with a universal tag mean.
fn add_universal(
    manner: Manner,
    text: &mut String,
    tag: Tag,
    octets: &[u8],
    holds: bool,
) -> Result<(), NoMemory> {
    if tag == Tag::BOOLEAN {
        add_boolean(manner, text, octets)
    } else if tag == Tag::INTEGER || tag == Tag::ENUMERATED {
        integer::add(manner, text, octets)
    } else if tag == Tag::BIT_STRING {
        bits::add(manner, text, octets, holds)
    } else if tag == Tag::OCTET_STRING {
        octets::add_string(manner, text, octets, holds)
    } else if tag == Tag::NULL {
        add_null(manner, text, octets)
    } else if tag == Tag::OID {
        identifier::add(manner, text, octets)
    } else if tag == Tag::RELATIVE_OID {
        identifier::add_relative(manner, text, octets)
    } else if tag == Tag::UTC_TIME {
        time::add_utc(manner, text, octets)
    } else if tag == Tag::GENERALIZED_TIME {
        time::add_generalized(manner, text, octets)
    } else {
        text::add(manner, text, tag, octets)
    }
}

/// Appends whether the contents octets of a primitive value hold encodings, and what they mean.
pub(crate) fn add_note(
    manner: Manner,
    text: &mut String,
    tag: Tag,
    octets: &[u8],
    holds: bool,
) -> Result<(), NoMemory> {
    if holds {
        write!(text, " holds encodings")?;
    }
    if tag.is_universal() {
        add_universal(manner, text, tag, octets, holds)
    } else if octets.is_empty() {
        Ok(())
    } else {
        octets::add(manner, text, octets)
    }
}
