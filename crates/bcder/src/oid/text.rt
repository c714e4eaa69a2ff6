//! Object identifiers read from text.
ghost use Rattle.std.specs.Prelude.{◌≡◌, ◌<◌, ℕ, List, ◌∷◌, ◌++◌, Some};
ghost use Rattle.std.specs.Prelude.{MatchOption, IfOk, IfErr, OnOk};
ghost use Rattle.bcder.specs.declared.oid.text.OidError.TheVariants.{NoMemory as Want};
ghost use Rattle.bcder.specs.calls.Identifiers.{between_dots, IsComponentText, IsNoComponent};
ghost use Rattle.bcder.specs.calls.Identifiers.{IsTextOf, RefusesText, error_text};
ghost use Rattle.bcder.specs.steps.Pushed.{texts_of, AppendsDigits, AppendsSubidentifier};
ghost use Rattle.bcder.specs.steps.Pushed.{AppendsTexts};
ghost use Rattle.bcder.specs.steps.Pushed.{RefusesOthers};

use crate::memory::NoMemory;
use std::alloc::Global;
use std::error::Error;
use std::fmt;

/// The reason why a text is no object identifier, in the order in which the text is checked.
#[derive(Debug, Drop)]
pub enum OidError {
    /// There are fewer than two components.
    TooFew,

    /// A component isn't an optional plus and decimal digits, or is 2^32 or more.
    NotInteger,

    /// The first component is more than 2.
    First,

    /// The first component is 0 or 1, and the second is 40 or more.
    Second,

    /// The text is that of an identifier, but there is no memory for its octets.
    NoMemory,
}

impl fmt::Display for OidError {
    ghost output = { λ e. Some (error_text e) };

    fn fmt<W: fmt::Write>(&self, f: &mut fmt::Formatter<W>) -> fmt::Result {
        match self {
            OidError::TooFew => write!(f, "at least two components required"),
            OidError::NotInteger => write!(f, "only integer components allowed"),
            OidError::First => write!(f, "first component can only be 0, 1, or 2."),
            OidError::Second => { write!(f, "second component for 0. and 1. must be less than 40") }
            OidError::NoMemory => write!(f, "out of memory"),
        }
    }
}

impl Error for OidError {}

impl From<NoMemory> for OidError {
    ghost from_gives = { λ _ e. e ≡ Want };

    fn from(_error: NoMemory) -> OidError {
        OidError::NoMemory
    }
}

/// Appends the digits of a number in base 128, each with bit 8 set. The most significant digit
/// comes first and isn't 0.
fn push_digits(octets: &mut Vec<u8>, number: u64) -> Result<(), NoMemory>
    requires { 0 < number }
    ensures { OnOk result (AppendsDigits octets.old.items octets.new.items number) }
{
    if number >= 0x80 {
        push_digits(octets, number / 0x80)?;
    }
    octets.push(0x80 + (number % 0x80) as u8)?;
    Ok(())
}

/// Appends the octets of a subidentifier, as few as possible (8.19.2).
fn push_subidentifier(octets: &mut Vec<u8>, number: u64) -> Result<(), NoMemory>
    ensures { OnOk result (AppendsSubidentifier octets.old.items octets.new.items number) }
{
    if number >= 0x80 {
        push_digits(octets, number / 0x80)?;
    }
    octets.push((number % 0x80) as u8)?;
    Ok(())
}

/// Returns the text up to the first dot, and the text after it if there is a dot.
fn split_text(text: &str) -> (&str, Option<&str>)
    ensures { between_dots text.now ≡ result.0.now ∷ texts_of result.1 }
{
    match text.split_once('.') {
        Some((first, rest)) => (first, Some(rest)),
        None => (text, None),
    }
}

/// Returns the number of a component, if the text is an optional plus and decimal digits, and the
/// number is below 2^32.
fn component(text: &str) -> Option<u32>
    ensures { MatchOption result
        (IsNoComponent text.now) (λ number. IsComponentText text.now number) }
{
    text.parse::<u32>().ok()
}

/// Returns why there is no identifier if memory ran out at a component: `NotInteger` if a later
/// component is none, and otherwise `NoMemory`.
fn why_no_component(others: Option<&str>) -> OidError
    ensures { RefusesOthers (texts_of others.entry) result }
{
    let mut rest = others;
    while let Some(text) = rest {
        let (first, after) = split_text(text);
        let Some(_number) = component(first) else {
            return OidError::NotInteger;
        };
        rest = after;
    }
    OidError::NoMemory
}

/// Appends the subidentifiers of the components after the first two, if there are any.
fn push_others(octets: &mut Vec<u8>, others: Option<&str>) -> Result<(), OidError>
    ensures ok { OnOk result
        (AppendsTexts octets.old.items octets.new.items (texts_of others.entry)) }
    ensures err { IfErr result (RefusesOthers (texts_of others.entry)) }
{
    let mut rest = others;
    while let Some(text) = rest {
        let (first, after) = split_text(text);
        let Some(number) = component(first) else {
            return Err(OidError::NotInteger);
        };
        match push_subidentifier(octets, u64::from(number)) {
            Ok(()) => rest = after,
            Err(NoMemory) => return Err(why_no_component(after)),
        }
    }
    Ok(())
}

/// Returns the octets of the identifier whose components are in the text.
pub(super) fn octets_of(alloc: Global, text: &str) -> Result<Vec<u8>, OidError>
    ensures ok { IfOk result (λ octets. IsTextOf text.now octets.items) }
    ensures err { IfErr result (λ e. RefusesText text.now e) }
{
    let (first, rest) = split_text(text);
    let Some(rest) = rest else {
        return Err(OidError::TooFew);
    };
    let (second, others) = split_text(rest);
    let Some(first) = component(first) else {
        return Err(OidError::NotInteger);
    };
    if first > 2 {
        return Err(OidError::First);
    }
    let Some(second) = component(second) else {
        return Err(OidError::NotInteger);
    };
    if first < 2 && second >= 40 {
        return Err(OidError::Second);
    }
    let mut octets = Vec::new(alloc);
    match push_subidentifier(&mut octets, 40 * u64::from(first) + u64::from(second)) {
        Ok(()) => {
            push_others(&mut octets, others)?;
            Ok(octets)
        }
        Err(NoMemory) => Err(why_no_component(others)),
    }
}
