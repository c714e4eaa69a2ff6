//! Makes octets that are values in a mode, without the library, and spoils such octets.
use crate::random::Random;
use bcder::Mode;
use std::alloc::{AllocError, Global};
use std::convert::TryFrom;

/// Values, one after the other.
#[derive(Drop)]
pub struct Made {
    octets: Vec<u8>,

    /// Where each of the values begins.
    starts: Vec<usize>,
}

/// Appends identifier octets of any class (X.690, 8.1.2), one in four in the long form.
fn put_identifier(
    random: &mut Random,
    constructed: bool,
    octets: &mut Vec<u8>,
) -> Result<(), AllocError> {
    let class = random.octet() & 0xC0;
    let form = if constructed { 0x20 } else { 0x00 };
    if !random.one_of(4) {
        let number = random.octet() % 30;
        return Ok(octets.push(class | form | number.saturating_add(1))?);
    }
    octets.push(class | form | 0x1F)?;
    let digits = random.below(3);
    let first = random.octet() % 0x7F;
    match digits {
        0 => Ok(octets.push((first % 0x60).saturating_add(0x1F))?),
        1 => octets.extend_from_slice(&[first.saturating_add(0x81), random.octet() & 0x7F]),
        _ => octets.extend_from_slice(&[
            first.saturating_add(0x81),
            random.octet() | 0x80,
            random.octet() & 0x7F,
        ]),
    }
}

/// Appends length octets of the definite form (8.1.3). In BER one in four has more octets than
/// needed.
fn put_length(
    random: &mut Random,
    mode: Mode,
    len: usize,
    octets: &mut Vec<u8>,
) -> Result<(), AllocError> {
    let fewest = match len {
        0..=0x7F => 0u8,
        0x80..=0xFF => 1,
        0x100..=0xFFFF => 2,
        _ => 3,
    };
    let more = if mode == Mode::Ber && random.one_of(4) {
        random.octet() % 4
    } else {
        0
    };
    let count = fewest.max(more);
    let bytes = u32::try_from(len).unwrap_or(0).to_be_bytes();
    if count > 0 {
        octets.push(0x80u8.saturating_add(count))?;
    }
    let from = 4usize.saturating_sub(usize::from(count.max(1)));
    for octet in bytes.get(from..).unwrap_or(&[]) {
        octets.push(*octet)?;
    }
    Ok(())
}

/// Appends end-of-contents octets (8.1.5). In BER one in eight has a length of the long form.
fn put_end(random: &mut Random, mode: Mode, octets: &mut Vec<u8>) -> Result<(), AllocError> {
    if mode != Mode::Ber || !random.one_of(8) {
        return octets.extend_from_slice(&[0x00, 0x00]);
    }
    let more = random.octet() % 4;
    octets.extend_from_slice(&[0x00, 0x81u8.saturating_add(more)])?;
    for _ in 0..=more {
        octets.push(0x00)?;
    }
    Ok(())
}

impl Made {
    fn new(alloc: Global) -> Made {
        Made {
            octets: Vec::new(alloc),
            starts: Vec::new(alloc),
        }
    }

    /// Adds a primitive value.
    fn add(&mut self, random: &mut Random, mode: Mode) -> Result<(), AllocError> {
        self.starts.push(self.octets.len())?;
        put_identifier(random, false, &mut self.octets)?;
        let most = if random.one_of(64) { 300 } else { 5 };
        let len = random.below(most);
        put_length(random, mode, len, &mut self.octets)?;
        for _ in 0..len {
            self.octets.push(random.octet())?;
        }
        Ok(())
    }

    /// Puts the last `count` values inside a constructed one.
    fn enclose(
        &mut self,
        alloc: Global,
        random: &mut Random,
        mode: Mode,
        count: usize,
    ) -> Result<(), AllocError> {
        let first = self.starts.len().saturating_sub(count);
        let start = match self.starts.get(first) {
            Some(start) => *start,
            None => self.octets.len(),
        };
        let inside = self.octets.get(start..).unwrap_or(&[]).to_vec(alloc)?;
        self.octets.truncate(start);
        self.starts.truncate(first);
        self.starts.push(start)?;
        put_identifier(random, true, &mut self.octets)?;
        let indefinite = match mode {
            Mode::Ber => random.one_of(2),
            Mode::Cer => true,
            Mode::Der => false,
        };
        if indefinite {
            self.octets.push(0x80)?;
            self.octets.extend_from_slice(&inside)?;
            return put_end(random, mode, &mut self.octets);
        }
        put_length(random, mode, inside.len(), &mut self.octets)?;
        self.octets.extend_from_slice(&inside)
    }
}

/// Returns octets that are one value or a few.
pub fn values(alloc: Global, random: &mut Random, mode: Mode) -> Result<Vec<u8>, AllocError> {
    let mut made = Made::new(alloc);
    made.add(random, mode)?;
    for _ in 0..random.below(8) {
        if random.one_of(2) {
            made.add(random, mode)?;
        } else {
            let count = random.below(made.starts.len().min(3).saturating_add(1));
            made.enclose(alloc, random, mode, count)?;
        }
    }
    Ok(made.octets)
}

/// Octets that headers are made of.
const TELLING: [u8; 8] = [0x00, 0x04, 0x1F, 0x24, 0x30, 0x7F, 0x80, 0x81];

/// Returns the octets up to `to`, then `others`, then the octets from `from` on.
fn spliced(
    alloc: Global,
    octets: &[u8],
    to: usize,
    others: &[u8],
    from: usize,
) -> Result<Vec<u8>, AllocError> {
    let mut whole = octets.get(..to).unwrap_or(octets).to_vec(alloc)?;
    whole.extend_from_slice(others)?;
    whole.extend_from_slice(octets.get(from..).unwrap_or(&[]))?;
    Ok(whole)
}

/// Returns the octets, spoiled in half of the cases: cut, with another octet or some more, or with
/// a piece of them left out or doubled.
pub fn spoiled(alloc: Global, random: &mut Random, octets: Vec<u8>) -> Result<Vec<u8>, AllocError> {
    let at = random.below(octets.len());
    let to = random.below(octets.len().saturating_add(1));
    match random.below(10) {
        0 => spliced(alloc, &octets, at, &[], octets.len()),
        1 => {
            let octet = TELLING.get(random.below(8)).copied().unwrap_or(0);
            spliced(alloc, &octets, at, &[octet], at.saturating_add(1))
        }
        2 => spliced(alloc, &octets, at, &[random.octet()], at.saturating_add(1)),
        3 => spliced(
            alloc,
            &octets,
            at,
            octets.get(at..to).unwrap_or(&[0, 0]),
            at,
        ),
        4 => spliced(alloc, &octets, at.min(to), &[], at.max(to)),
        _ => Ok(octets),
    }
}
