//! Octets and numbers as text.
use crate::page::Page;
use bcder::Integer;
use std::alloc::AllocError;
use std::fmt;

/// How many octets a line has.
const WIDTH: usize = 18;

/// What stands in front of a line that is so deep.
#[derive(Clone, Copy)]
pub(crate) struct Indent(pub(crate) usize);

impl fmt::Display for Indent {
    fn fmt<W: fmt::Write>(&self, f: &mut fmt::Formatter<W>) -> fmt::Result {
        for _ in 0..self.0 {
            write!(f, "    ")?;
        }
        Ok(())
    }
}

/// Writes octets in hexadecimal, with colons between them.
fn write_octets<W: fmt::Write>(
    octets: &[u8],
    capitals: bool,
    f: &mut fmt::Formatter<W>,
) -> fmt::Result {
    let mut is_first = true;
    for octet in octets {
        let code = *octet;
        if !is_first {
            write!(f, ":")?;
        }
        is_first = false;
        if capitals {
            write!(f, "{code:02X}")?;
        } else {
            write!(f, "{code:02x}")?;
        }
    }
    Ok(())
}

/// Octets in hexadecimal, with colons.
#[derive(Clone, Copy)]
pub(crate) struct Colons<'a>(pub(crate) &'a [u8]);

impl fmt::Display for Colons<'_> {
    fn fmt<W: fmt::Write>(&self, f: &mut fmt::Formatter<W>) -> fmt::Result {
        write_octets(self.0, false, f)
    }
}

/// Octets in hexadecimal with capital letters and colons, as identifiers of keys are shown.
#[derive(Clone, Copy)]
pub(crate) struct Capitals<'a>(pub(crate) &'a [u8]);

impl fmt::Display for Capitals<'_> {
    fn fmt<W: fmt::Write>(&self, f: &mut fmt::Formatter<W>) -> fmt::Result {
        write_octets(self.0, true, f)
    }
}

/// Returns octets without the zero in front that only says that a number isn't negative.
pub(crate) fn magnitude(octets: &[u8]) -> &[u8] {
    match octets {
        [0, rest @ ..] if !rest.is_empty() => rest,
        _ => octets,
    }
}

/// Returns how many bits a number has that isn't negative.
pub(crate) fn bit_len(number: &Integer) -> usize {
    let octets = magnitude(number.as_slice());
    match octets {
        [first, ..] => octets
            .len()
            .saturating_mul(8)
            .saturating_sub(first.leading_zeros() as usize),
        [] => 0,
    }
}

/// A number: in decimal and hexadecimal if it has 64 bits at most, and else its octets.
#[derive(Clone, Copy)]
pub(crate) struct Number<'a>(pub(crate) &'a Integer);

impl fmt::Display for Number<'_> {
    fn fmt<W: fmt::Write>(&self, f: &mut fmt::Formatter<W>) -> fmt::Result {
        match i64::try_from(self.0) {
            Ok(number) => {
                let sign = if number < 0 { "-" } else { "" };
                write!(f, "{number} ({sign}0x{:x})", number.unsigned_abs())
            }
            Err(_) if self.0.is_negative() => {
                write!(f, "(two's complement) {}", Colons(self.0.as_slice()))
            }
            Err(_) => write!(f, "{}", Colons(magnitude(self.0.as_slice()))),
        }
    }
}

impl Page {
    /// Adds lines with octets in hexadecimal.
    pub(crate) fn octets(&mut self, depth: usize, octets: &[u8]) -> Result<(), AllocError> {
        let mut rest = octets;
        while rest.len() > WIDTH {
            let (line, behind) = rest.split_at(WIDTH);
            self.line(depth, format_args!("{}:", Colons(line)))?;
            rest = behind;
        }
        self.line(depth, Colons(rest))
    }

    /// Adds a title, and a number of octets behind it in lines of their own.
    pub(crate) fn block(
        &mut self,
        depth: usize,
        title: &str,
        octets: &[u8],
    ) -> Result<(), AllocError> {
        self.line(depth, format_args!("{title}:"))?;
        self.octets(depth.saturating_add(1), octets)
    }
}
