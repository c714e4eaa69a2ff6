//! Finds the headings of a value and of those inside it, by the plain reader's look at headers.
use bcder::plain::{end_at, front_at, skip_one};
use bcder::{Mode, Tag};
use std::alloc::{AllocError, Global};

/// The tag and the form of a value, and the number of values around it.
#[derive(Clone, Copy, PartialEq)]
pub struct Heading {
    pub tag: Tag,
    pub constructed: bool,
    pub depth: usize,
}

/// Where the contents of a value end, by the number of octets left, or `None` if end-of-contents
/// octets mark the end.
type End = Option<usize>;

/// Leaves the values that end before these octets, and returns what follows their ends.
fn leave<'a>(mode: Mode, ends: &mut Vec<End>, octets: &'a [u8]) -> &'a [u8] {
    let mut rest = octets;
    for _ in 0..ends.len() {
        match ends.last().copied() {
            Some(Some(left)) if left == rest.len() => {}
            Some(None) => match end_at(mode, rest) {
                Some(behind) => rest = behind,
                None => return rest,
            },
            _ => return rest,
        }
        ends.pop();
    }
    rest
}

/// Returns the headings of the value that these octets are.
pub fn headings_of(alloc: Global, mode: Mode, octets: &[u8]) -> Result<Vec<Heading>, AllocError> {
    let mut headings = Vec::new(alloc);
    let mut ends = Vec::new(alloc);
    let mut rest = octets;
    for _ in 0..octets.len() {
        let Some(front) = front_at(mode, rest) else {
            break;
        };
        headings.push(Heading {
            tag: front.tag,
            constructed: front.constructed,
            depth: ends.len(),
        })?;
        rest = front.rest;
        if front.constructed {
            ends.push(front.len.map(|len| rest.len().saturating_sub(len)))?;
        } else {
            rest = rest.get(front.len.unwrap_or(0)..).unwrap_or(&[]);
        }
        rest = leave(mode, &mut ends, rest);
        if ends.is_empty() {
            break;
        }
    }
    Ok(headings)
}

/// Returns how many octets the value that comes next has, by the plain reader.
pub fn size_of(mode: Mode, octets: &[u8]) -> Option<usize> {
    let rest = skip_one(mode, octets)?;
    octets.len().checked_sub(rest.len())
}
