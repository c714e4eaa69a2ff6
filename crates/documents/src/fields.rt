//! Fields that several documents have, as text.
use anyhow::Error;
use bcder::BitString;
use pkix::{
    AlgorithmIdentifier, AttributeTypeAndValue, Extension, Name, SubjectPublicKeyInfo, Time,
};
use std::alloc::Global;

/// Returns an algorithm and its parameters.
pub fn algorithm_text(alloc: Global, algorithm: &AlgorithmIdentifier) -> Result<String, Error> {
    match &algorithm.parameters {
        Some(parameters) => {
            let octets = hex::encode(alloc, parameters.as_slice())?;
            Ok(format!(in alloc; "{} {octets}", algorithm.algorithm.0)?)
        }
        None => Ok(format!(in alloc; "{}", algorithm.algorithm.0)?),
    }
}

/// Adds an attribute.
fn add_attribute(
    alloc: Global,
    attribute: &AttributeTypeAndValue,
    text: &mut String,
) -> Result<(), Error> {
    let octets = hex::encode(alloc, attribute.value.as_slice())?;
    text.push_str(format!(in alloc; "{}={octets}", attribute.attribute_type.0)?.as_str())?;
    Ok(())
}

/// Returns a name, with `,` between its parts and `+` between attributes of one part.
pub fn name_text(alloc: Global, name: &Name) -> Result<String, Error> {
    let mut text = String::new(alloc);
    let mut before = "";
    for part in name.rdn_sequence.0.as_slice() {
        for attribute in part.0.as_slice() {
            text.push_str(before)?;
            add_attribute(alloc, attribute, &mut text)?;
            before = "+";
        }
        before = ",";
    }
    Ok(text)
}

/// Returns a text and characters.
fn characters_text(alloc: Global, kind: &str, characters: &[u8]) -> Result<String, Error> {
    let mut text = String::from_str(alloc, kind)?;
    for character in characters {
        text.push(char::from(*character))?;
    }
    Ok(text)
}

/// Returns a time, and of which type it is.
pub fn time_text(alloc: Global, time: &Time) -> Result<String, Error> {
    match time {
        Time::UtcTime(time) => characters_text(alloc, "utc ", time.to_octets().as_slice()),
        Time::GeneralTime(time) => characters_text(alloc, "general ", time.to_octets().as_slice()),
    }
}

/// Returns how many bits there are, and the octets.
pub fn bits_text(alloc: Global, bits: &BitString) -> Result<String, Error> {
    let octets = bits.octet_bytes()?;
    Ok(format!(in alloc;
        "{} bits {}",
        bits.bit_len(),
        hex::encode(alloc, octets.as_slice())?
    )?)
}

/// Adds a line.
pub fn add_line(alloc: Global, what: &str, value: &str, text: &mut String) -> Result<(), Error> {
    text.push_str(format!(in alloc; "{what}: {value}\n")?.as_str())?;
    Ok(())
}

/// Adds an extension.
fn add_extension(
    alloc: Global,
    what: &str,
    extension: &Extension,
    text: &mut String,
) -> Result<(), Error> {
    let critical = if extension.critical.value {
        "critical"
    } else {
        "-"
    };
    let octets = extension.value.to_bytes(alloc)?;
    let line = format!(in alloc;
        "{} {critical} {} {}",
        extension.id.0,
        extension.value.len(),
        hex::encode(alloc, octets.as_slice())?
    )?;
    add_line(alloc, what, line.as_str(), text)
}

/// Adds extensions.
pub fn add_extensions(
    alloc: Global,
    what: &str,
    extensions: &[Extension],
    text: &mut String,
) -> Result<(), Error> {
    for extension in extensions {
        add_extension(alloc, what, extension, text)?;
    }
    Ok(())
}

/// Adds a key.
pub fn add_key(alloc: Global, key: &SubjectPublicKeyInfo, text: &mut String) -> Result<(), Error> {
    let algorithm = algorithm_text(alloc, &key.algorithm)?;
    add_line(alloc, "key algorithm", algorithm.as_str(), text)?;
    let bits = bits_text(alloc, &key.subject_public_key)?;
    add_line(alloc, "key", bits.as_str(), text)
}

/// Adds a signature.
pub fn add_signature(
    alloc: Global,
    algorithm: &AlgorithmIdentifier,
    signature: &BitString,
    text: &mut String,
) -> Result<(), Error> {
    let algorithm = algorithm_text(alloc, algorithm)?;
    add_line(alloc, "signature algorithm", algorithm.as_str(), text)?;
    let bits = bits_text(alloc, signature)?;
    add_line(alloc, "signature value", bits.as_str(), text)
}
