//! General names (RFC 5280, section 4.2.1.6).
use crate::decoded::whole;
use crate::name::{add_value, number_of, text_of_name, title_of};
use crate::page::Page;
use crate::shown::Colons;
use crate::text::{latin, shown};
use asn1::Any;
use cli::shown::Shown;
use general_names::{DirectoryString, EdiPartyName, GeneralName, GeneralNames, Ia5Text, OtherName};
use std::alloc::{AllocError, Global};
use std::fmt;

/// An address of the Internet, with a mask behind it or without one (RFC 5280, section 4.2.1.10).
#[derive(Clone, Copy)]
struct Address<'a>(&'a [u8]);

/// Writes the parts of an address of version 6, of two octets each.
fn write_parts<W: fmt::Write>(octets: &[u8], f: &mut fmt::Formatter<W>) -> fmt::Result {
    let mut is_first = true;
    let mut rest = octets;
    while let [high, low, behind @ ..] = rest {
        let part = u16::from_be_bytes([*high, *low]);
        if !is_first {
            write!(f, ":")?;
        }
        is_first = false;
        write!(f, "{part:X}")?;
        rest = behind;
    }
    Ok(())
}

impl fmt::Display for Address<'_> {
    fn fmt<W: fmt::Write>(&self, f: &mut fmt::Formatter<W>) -> fmt::Result {
        match self.0 {
            [a, b, c, d] => write!(f, "{a}.{b}.{c}.{d}"),
            [a, b, c, d, e, g, h, i] => write!(f, "{a}.{b}.{c}.{d}/{e}.{g}.{h}.{i}"),
            octets if octets.len() == 16 => write_parts(octets, f),
            octets if octets.len() == 32 => {
                let (address, mask) = octets.split_at(16);
                write_parts(address, f)?;
                write!(f, "/")?;
                write_parts(mask, f)
            }
            octets => write!(f, "{}", Colons(octets)),
        }
    }
}

/// Returns the text of a string in a name.
fn text_of_string(alloc: Global, string: &DirectoryString) -> Result<String, AllocError> {
    match string {
        DirectoryString::TeletexString(string) => {
            let octets = whole(alloc, &string.value)?;
            let text = latin(alloc, octets.as_slice())?;
            format!(in alloc; "{}", Shown(text.as_str()))
        }
        DirectoryString::PrintableString(string) => shown(alloc, &string.0),
        DirectoryString::UniversalString(string) => shown(alloc, &string.0),
        DirectoryString::Utf8String(string) => shown(alloc, &string.0),
        DirectoryString::BmpString(string) => shown(alloc, &string.0),
    }
}

/// Returns a name of characters, behind a label.
fn labelled(alloc: Global, label: &str, name: &Ia5Text) -> Result<String, AllocError> {
    let text = shown(alloc, &name.0)?;
    format!(in alloc; "{label}:{}", text.as_str())
}

/// Returns the text of a name of another kind.
fn other_name(page: &Page, name: &OtherName) -> Result<String, AllocError> {
    let title = title_of(page.alloc, &name.type_id)?;
    let mut text = format!(in page.alloc; "othername: {}:", title.as_str())?;
    add_value(page, &mut text, &name.value.value)?;
    Ok(text)
}

/// Returns the text of an address of X.400: the octets of its parts.
fn x400_address(alloc: Global, parts: &[Any]) -> Result<String, AllocError> {
    let mut text = String::from_str(alloc, "X400Name")?;
    for part in parts {
        write!(text, ":{}", Colons(part.as_slice()))?;
    }
    Ok(text)
}

/// Returns the text of a party, behind that of who gave it the name.
fn party_name(alloc: Global, party: &EdiPartyName) -> Result<String, AllocError> {
    let name = text_of_string(alloc, &party.party_name.value)?;
    match &party.name_assigner {
        Some(assigner) => {
            let assigner = text_of_string(alloc, &assigner.value)?;
            format!(in alloc; "EdiPartyName:{}:{}", assigner.as_str(), name.as_str())
        }
        None => format!(in alloc; "EdiPartyName:{}", name.as_str()),
    }
}

/// Returns the text of a name.
pub(crate) fn text_of_general(page: &Page, name: &GeneralName) -> Result<String, AllocError> {
    let alloc = page.alloc;
    match name {
        GeneralName::OtherName(name) => other_name(page, &name.value),
        GeneralName::Rfc822Name(name) => labelled(alloc, "email", &name.value),
        GeneralName::DnsName(name) => labelled(alloc, "DNS", &name.value),
        GeneralName::X400Address(name) => x400_address(alloc, name.value.0.as_slice()),
        GeneralName::DirectoryName(name) => {
            let text = text_of_name(page, &name.value)?;
            format!(in alloc; "DirName:{}", text.as_str())
        }
        GeneralName::EdiPartyName(name) => party_name(alloc, &name.value),
        GeneralName::UniformResourceIdentifier(name) => labelled(alloc, "URI", &name.value),
        GeneralName::IpAddress(name) => {
            let octets = whole(alloc, &name.value)?;
            format!(in alloc; "IP Address:{}", Address(octets.as_slice()))
        }
        GeneralName::RegisteredId(name) => {
            let number = number_of(alloc, &name.value)?;
            format!(in alloc; "Registered ID:{}", number.as_str())
        }
    }
}

/// Shows names, each on a line.
pub(crate) fn show_each(
    page: &mut Page,
    depth: usize,
    names: &GeneralNames,
) -> Result<(), AllocError> {
    for name in names.0.iter() {
        let text = text_of_general(page, name)?;
        page.line(depth, text.as_str())?;
    }
    Ok(())
}

/// Shows names on one line.
pub(crate) fn show_names(
    page: &mut Page,
    depth: usize,
    names: &GeneralNames,
) -> Result<(), AllocError> {
    let mut line = String::new(page.alloc);
    for name in names.0.iter() {
        if !line.is_empty() {
            line.push_str(", ")?;
        }
        let text = text_of_general(page, name)?;
        line.push_str(text.as_str())?;
    }
    page.line(depth, line.as_str())
}
