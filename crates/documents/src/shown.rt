//! Values as the data shows them.
use asn1::{
    Choice2, Choice3, Explicit, Implicit, ObjectIdentifier, OrDefault, Sequence, SequenceOf, SetOf,
};
use bcder::string::Utf8String;
use bcder::{BitString, Integer, OctetString};
use std::alloc::{AllocError, Global};
use std::fmt::{self, Display};

/// A value that is shown as the data shows it.
pub trait Show {
    /// Adds it to a text.
    fn show(&self, alloc: Global, text: &mut String) -> Result<(), AllocError>;
}

/// A value that the data shows as `Display` does.
pub trait Plain: Display {}

impl Plain for i8 {}

impl Plain for u16 {}

impl Plain for u32 {}

impl Plain for i32 {}

impl Plain for u64 {}

impl Plain for i128 {}

impl Plain for u128 {}

impl Plain for bool {}

impl<P: Plain> Show for P {
    fn show(&self, alloc: Global, text: &mut String) -> Result<(), AllocError> {
        text.push_str(format!(in alloc; "{self}")?.as_str())
    }
}

impl Show for () {
    fn show(&self, _alloc: Global, text: &mut String) -> Result<(), AllocError> {
        text.push_str("null")
    }
}

/// Adds octets in hexadecimal.
fn show_octets(octets: &[u8], alloc: Global, text: &mut String) -> Result<(), AllocError> {
    text.push_str("#")?;
    text.push_str(hex::encode(alloc, octets)?.as_str())
}

impl Show for Integer {
    fn show(&self, alloc: Global, text: &mut String) -> Result<(), AllocError> {
        show_octets(self.as_slice(), alloc, text)
    }
}

impl Show for OctetString {
    fn show(&self, alloc: Global, text: &mut String) -> Result<(), AllocError> {
        text.push_str("#")?;
        for octets in self.iter() {
            text.push_str(hex::encode(alloc, octets)?.as_str())?;
        }
        Ok(())
    }
}

impl Show for BitString {
    fn show(&self, alloc: Global, text: &mut String) -> Result<(), AllocError> {
        self.unused().show(alloc, text)?;
        match self.octet_slice() {
            Some(octets) => show_octets(octets, alloc, text),
            None => Ok(()),
        }
    }
}

impl Plain for u8 {}

impl Show for Utf8String {
    fn show(&self, alloc: Global, text: &mut String) -> Result<(), AllocError> {
        text.push_str("'")?;
        let mut is_first = true;
        for character in self.chars() {
            if !is_first {
                text.push_str(".")?;
            }
            text.push_str(format!(in alloc; "{:x}", character as u32)?.as_str())?;
            is_first = false;
        }
        Ok(())
    }
}

impl<F: Show> Show for Sequence<F> {
    fn show(&self, alloc: Global, text: &mut String) -> Result<(), AllocError> {
        self.0.show(alloc, text)
    }
}

impl Show for ObjectIdentifier {
    fn show(&self, alloc: Global, text: &mut String) -> Result<(), AllocError> {
        text.push_str(format!(in alloc; "{}", self.0)?.as_str())
    }
}

impl<T: Show> Show for SequenceOf<T> {
    fn show(&self, alloc: Global, text: &mut String) -> Result<(), AllocError> {
        self.0.show(alloc, text)
    }
}

impl<T: Show> Show for SetOf<T> {
    fn show(&self, alloc: Global, text: &mut String) -> Result<(), AllocError> {
        self.0.show(alloc, text)
    }
}

impl<M, T: Show> Show for Explicit<M, T> {
    fn show(&self, alloc: Global, text: &mut String) -> Result<(), AllocError> {
        self.value.show(alloc, text)
    }
}

impl<M, T: Show> Show for Implicit<M, T> {
    fn show(&self, alloc: Global, text: &mut String) -> Result<(), AllocError> {
        self.value.show(alloc, text)
    }
}

impl<T: Show, D> Show for OrDefault<T, D> {
    fn show(&self, alloc: Global, text: &mut String) -> Result<(), AllocError> {
        self.value.show(alloc, text)
    }
}

impl<T: Show> Show for Option<T> {
    fn show(&self, alloc: Global, text: &mut String) -> Result<(), AllocError> {
        match self {
            Some(value) => value.show(alloc, text),
            None => text.push_str("-"),
        }
    }
}

/// Adds a value behind a text.
fn show_behind<T: Show>(
    before: &str,
    value: &T,
    alloc: Global,
    text: &mut String,
) -> Result<(), AllocError> {
    text.push_str(before)?;
    value.show(alloc, text)
}

impl<T: Show> Show for Vec<T> {
    fn show(&self, alloc: Global, text: &mut String) -> Result<(), AllocError> {
        let mut before = "[";
        for value in self.as_slice() {
            show_behind(before, value, alloc, text)?;
            before = " ";
        }
        text.push_str(if self.is_empty() { "[]" } else { "]" })
    }
}

/// Two fields.
impl<A: Show, B: Show> Show for (A, B) {
    fn show(&self, alloc: Global, text: &mut String) -> Result<(), AllocError> {
        show_behind("{", &self.0, alloc, text)?;
        show_behind(" ", &self.1, alloc, text)?;
        text.push_str("}")
    }
}

/// Three fields.
impl<A: Show, B: Show, C: Show> Show for (A, B, C) {
    fn show(&self, alloc: Global, text: &mut String) -> Result<(), AllocError> {
        show_behind("{", &self.0, alloc, text)?;
        show_behind(" ", &self.1, alloc, text)?;
        show_behind(" ", &self.2, alloc, text)?;
        text.push_str("}")
    }
}

/// Four fields.
impl<A: Show, B: Show, C: Show, D: Show> Show for (A, B, C, D) {
    fn show(&self, alloc: Global, text: &mut String) -> Result<(), AllocError> {
        show_behind("{", &self.0, alloc, text)?;
        show_behind(" ", &self.1, alloc, text)?;
        show_behind(" ", &self.2, alloc, text)?;
        show_behind(" ", &self.3, alloc, text)?;
        text.push_str("}")
    }
}

impl<A: Show, B: Show> Show for Choice2<A, B> {
    fn show(&self, alloc: Global, text: &mut String) -> Result<(), AllocError> {
        match self {
            Choice2::One(value) => show_behind("1:", value, alloc, text),
            Choice2::Two(value) => show_behind("2:", value, alloc, text),
        }
    }
}

impl<A: Show, B: Show, C: Show> Show for Choice3<A, B, C> {
    fn show(&self, alloc: Global, text: &mut String) -> Result<(), AllocError> {
        match self {
            Choice3::One(value) => show_behind("1:", value, alloc, text),
            Choice3::Two(value) => show_behind("2:", value, alloc, text),
            Choice3::Three(value) => show_behind("3:", value, alloc, text),
        }
    }
}
