//! Reads names as text (RFC 5280, section 4.1.2.4).
ghost use Rattle.bcder.specs.calls.Views.{Moved};

use crate::lists::{Each, List, take_all, take_each};
use bcder::decode::{Constructed, DecodeError, Source, walk};
use bcder::string::{Ia5String, PrintableString, Utf8String};
use bcder::{ConstOid, Oid};
use std::alloc::Global;
use std::fmt;

/// The text of an attribute.
#[derive(Drop)]
pub enum Text {
    Utf8(Utf8String),
    Printable(PrintableString),
    Ia5(Ia5String),

    /// A value of another type, which isn't read.
    Other,
}

impl Text {
    /// Takes a value of any type.
    fn take_from<S: Source>(
        alloc: Global,
        cons: &mut Constructed<'_, S>,
    ) -> Result<Text, DecodeError<S::Error>>
        ensures { Moved S.stream cons }
    {
        if let Some(text) = Utf8String::take_opt_from(alloc, cons)? {
            return Ok(Text::Utf8(text));
        }
        if let Some(text) = PrintableString::take_opt_from(alloc, cons)? {
            return Ok(Text::Printable(text));
        }
        Text::take_another(alloc, cons)
    }

    /// Takes an IA5String, or skips a value of another type.
    fn take_another<S: Source>(
        alloc: Global,
        cons: &mut Constructed<'_, S>,
    ) -> Result<Text, DecodeError<S::Error>>
        ensures { Moved S.stream cons }
    {
        if let Some(text) = Ia5String::take_opt_from(alloc, cons)? {
            return Ok(Text::Ia5(text));
        }
        walk(cons)?;
        Ok(Text::Other)
    }
}

impl fmt::Display for Text {
    fn fmt<W: fmt::Write>(&self, f: &mut fmt::Formatter<W>) -> fmt::Result {
        match self {
            Text::Utf8(text) => write!(f, "{text}"),
            Text::Printable(text) => write!(f, "{text}"),
            Text::Ia5(text) => write!(f, "{text}"),
            Text::Other => write!(f, "?"),
        }
    }
}

/// An attribute of a name.
#[derive(Drop)]
pub struct Attribute {
    /// The kind of the attribute, such as 2.5.4.3 for a common name.
    pub kind: Oid,

    /// The text of the attribute.
    pub text: Text,
}

/// A name: its attributes, in order.
#[derive(Drop)]
pub struct Name {
    alloc: Global,
    attributes: Vec<Attribute>,
}

impl Name {
    /// Takes a SEQUENCE OF SET OF attributes, each a SEQUENCE of its kind and its text.
    pub fn take_from<S: Source>(
        alloc: Global,
        cons: &mut Constructed<'_, S>,
    ) -> Result<Name, DecodeError<S::Error>>
        ensures { Moved S.stream cons }
    {
        let mut name = Name {
            alloc,
            attributes: Vec::new(alloc),
        };
        cons.take_sequence(|cons| take_all(&mut name, cons))?;
        Ok(name)
    }

    /// Returns the attributes, in order.
    pub fn attributes(&self) -> &[Attribute] {
        self.attributes.as_slice()
    }

    /// Returns the text of the attribute of this kind, the last one if there are several.
    pub fn text_of(&self, kind: &ConstOid) -> Option<&Text> {
        let mut found = None;
        for attribute in &self.attributes {
            if attribute.kind.same_as(kind) {
                found = Some(&attribute.text);
            }
        }
        found
    }
}

/// Each value is a SET OF attributes.
impl Each for Name {
    fn take_next<S: Source>(
        &mut self,
        cons: &mut Constructed<'_, S>,
    ) -> Result<Option<()>, DecodeError<S::Error>> {
        cons.take_opt_set(|cons| take_each(self, cons))
    }
}

/// Each attribute is a SEQUENCE of its kind and its text.
impl List for Name {
    fn take_one<S: Source>(
        &mut self,
        cons: &mut Constructed<'_, S>,
    ) -> Result<(), DecodeError<S::Error>> {
        let kind = Oid::take_from(self.alloc, cons)?;
        let text = Text::take_from(self.alloc, cons)?;
        match self.attributes.push(Attribute { kind, text }) {
            Ok(()) => Ok(()),
            Err(_) => Err(DecodeError::no_memory()),
        }
    }
}
