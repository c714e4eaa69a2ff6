//! Hashing of octet strings: by their octets, however they were cut.
ghost use Rattle.std.specs.Prelude.{◌≡◌, ◌+◌, ◌≤◌, ◌<◌, ◌++◌, [], length};
ghost use Rattle.std.specs.Cmp.Lexicographic.{bytes_decides};
ghost use Rattle.std.specs.List.{concat, fold};
ghost use Rattle.std.proofs.Common.{ap};
ghost use Rattle.bcder.specs.calls.StringOctets.{blocks, hashed};
ghost use Rattle.bcder.specs.calls.StringOctets.{octets_of};

use super::compare::front;
use super::{OctetString, OctetStringIter};
use std::hash::{Hash, Hasher};
use std::marker::Model;

/// The number of octets that a hasher gets at once.
const BLOCK: usize = 64;

/// Octets of several parts, put together for a hasher.
#[derive(Drop)]
struct Block {
    octets: [u8; 64],
    len: usize,
}

/// The clauses see the octets that it holds.
impl Model for Block {
    ghost use Rattle.std.specs.Prelude.{ℕ, List, take, ◌≤◌};

    ghost Value = { List ℕ };

    ghost view = { λ b. take b.len b.octets };

    ghost invariant = { λ b. b.len ≤ 64 };
}

impl Block {
    /// Returns an empty block.
    fn new() -> Block
        ensures { result ≡ [] }
    {
        Block {
            octets: [0; 64],
            len: 0,
        }
    }

    /// Returns the number of octets for which there is room.
    fn room(&self) -> usize
        ensures { length self.now + result ≡ 64 }
    {
        BLOCK - self.len
    }

    /// Removes all octets.
    fn clear(&mut self)
        ensures { self.new ≡ [] }
    {
        self.len = 0;
    }

    /// Appends octets.
    fn add(&mut self, octets: &[u8])
        requires { length self.old + length octets.now ≤ 64 }
        ensures { self.new ≡ self.old ++ octets.now }
    {
        let start = self.len;
        let end = start + octets.len();
        self.octets[start..end].copy_from_slice(octets);
        self.len = end;
    }

    /// Returns all octets.
    fn as_slice(&self) -> &[u8]
        ensures { result.now ≡ self.now }
    {
        &self.octets[..self.len]
    }
}

/// Writes octets in one piece to a hasher.
fn write_whole<H: Hasher>(mut octets: &[u8], state: &mut H)
    ensures { state.new ≡ fold H.write state.old (blocks octets.entry.now) }
{
    while octets.len() >= BLOCK {
        let (block, rest) = octets.split_at(BLOCK);
        state.write(block);
        octets = rest;
    }
    if !octets.is_empty() {
        state.write(octets);
    }
}

/// Fills a block from a part, which isn't empty, and from the parts after it. Returns what is left
/// of a part.
fn fill<'a>(block: &mut Block, mut part: &'a [u8], parts: &mut OctetStringIter<'a>) -> &'a [u8]
    requires empty { block.old ≡ [] }
    requires some { 0 < length part.now }
    ensures joined { block.new ++ (result.now ++ concat parts.new)
        ≡ part.entry.now ++ concat parts.old }
    ensures some { 0 < length block.new }
    ensures within { length block.new ≤ 64 }
    ensures full { length block.new < 64 → result.now ≡ [] }
    ensures all { result.now ≡ [] → concat parts.new ≡ [] }
{
    while block.room() > 0 && !part.is_empty() {
        let len = part.len().min(block.room());
        let (now, rest) = part.split_at(len);
        block.add(now);
        part = front(rest, parts);
    }
    part
}

/// Writes octets in parts to a hasher. A block within one part is written from there, any other is
/// put together first.
fn write_parts<H: Hasher>(mut parts: OctetStringIter<'_>, state: &mut H)
    ensures { state.new ≡ fold H.write state.old (blocks (concat parts.entry)) }
{
    let mut together = Block::new();
    let mut part = front(&[], &mut parts);
    while !part.is_empty() {
        if part.len() >= BLOCK {
            let (block, rest) = part.split_at(BLOCK);
            state.write(block);
            part = front(rest, &mut parts);
        } else {
            together.clear();
            part = fill(&mut together, part, &mut parts);
            state.write(together.as_slice());
        }
    }
}

/// A hasher gets the number of octets, and then the octets in blocks of 64.
impl Hash for OctetString {
    ghost hash_input = { λ s. hashed (octets_of s) };

    ghost respects_eq = { λ x y e. ap hashed ((bytes_decides (octets_of x) (octets_of y)).0 e) };

    fn hash<H: Hasher>(&self, state: &mut H) {
        state.write_usize(self.len());
        match self.as_slice() {
            Some(octets) => write_whole(octets, state),
            None => write_parts(self.iter(), state),
        }
    }
}
