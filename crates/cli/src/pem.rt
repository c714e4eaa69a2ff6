//! Blocks of text (RFC 7468, 3), among any octets, and the octets that they carry.
ghost use Rattle.std.specs.Prelude.{◌≡◌, ◌≢◌, ◌<◌, ◌≤◌, length, reverse, codes};
ghost use Rattle.std.specs.Prelude.{IfSome, IfNone, IfOk, IfErr, true, false};
ghost use Rattle.cli.specs.Pem.{
  IsSplit,
  Lacks,
  line_of,
  after_line,
  starts_line,
  IsLabelLine,
  IsOtherLine,
  IsBody,
  IsUnended,
  HasBody,
  IsBlock,
  IsNoBlock,
  IsNext,
  HasNoBlock,
  IsHeaderIn,
  HasBlocks,
  HasNoBlocks,
  HasOctets,
  HasNoOctets,
};

use crate::form::{Form, Misspelled, from_base64};
use crate::shown::ShownOctets;
use std::alloc::Global;
use std::fmt;

/// What a block begins with.
const BEGIN: &[u8] = b"-----BEGIN ";

/// What ends a block.
const END: &[u8] = b"-----END ";

/// What ends a label.
const DASHES: &[u8] = b"-----";

/// What a text may begin with that says that it is in UTF-8.
const MARK: &[u8] = b"\xEF\xBB\xBF";

/// Why a block has no end.
#[derive(Clone, Copy, Debug)]
pub enum Unended<'a> {
    /// Its end isn't there.
    Missing,

    /// What would be its end has this label.
    Label(&'a [u8]),
}

/// A block, and what follows it.
#[derive(Clone, Copy, Debug)]
pub struct Block<'a> {
    /// The label of the line that begins it.
    pub label: &'a [u8],

    /// What stands between its beginning and its end.
    pub body: Result<&'a [u8], Unended<'a>>,

    /// The octets behind its end, or behind its beginning if it has no end.
    pub rest: &'a [u8],
}

/// Why a block carries no octets.
#[derive(Clone, Copy, Debug)]
pub enum BlockError<'a> {
    /// It has no end.
    Unended(Unended<'a>),

    /// It has headers (RFC 1421, 4.6), the first of which has this name.
    Headers(&'a [u8]),

    /// What stands in it isn't in base 64.
    NotBase64,

    /// Memory ran out.
    NoMemory,
}

impl fmt::Display for BlockError<'_> {
    fn fmt<W: fmt::Write>(&self, f: &mut fmt::Formatter<W>) -> fmt::Result {
        match self {
            BlockError::Unended(Unended::Missing) => write!(f, "it has no end"),
            BlockError::Unended(Unended::Label(label)) => {
                write!(f, "it ends with another label, {}", ShownOctets(label))
            }
            BlockError::Headers(name) => {
                let name = ShownOctets(name);
                write!(f, "it has headers ({name}), as an encrypted key has")
            }
            BlockError::NotBase64 => write!(f, "it isn't in base 64"),
            BlockError::NoMemory => write!(f, "out of memory"),
        }
    }
}

/// Returns the octets before the first mark, and those behind it.
fn split_around<'a>(octets: &'a [u8], mark: &[u8]) -> Option<(&'a [u8], &'a [u8])>
    requires { 0 < length mark.now }
    ensures split { IfSome result (λ r. IsSplit mark.now octets.now r.0.now r.1.now) }
    ensures none { IfNone result (Lacks mark.now octets.now) }
{
    for at in 0..octets.len() {
        let (before, behind) = octets.split_at(at);
        if behind.len() < mark.len() {
            return None;
        }
        let (front, rest) = behind.split_at(mark.len());
        if front == mark {
            return Some((before, rest));
        }
    }
    None
}

/// Returns the octets up to the end of the line, and those from there on.
fn split_line(octets: &[u8]) -> (&[u8], &[u8])
    ensures line { result.0.now ≡ line_of octets.now }
    ensures after { result.1.now ≡ after_line octets.now }
{
    for at in 0..octets.len() {
        let octet = octets[at];
        if octet == b'\n' || octet == b'\r' {
            return octets.split_at(at);
        }
    }
    octets.split_at(octets.len())
}

/// Returns whether a line begins behind octets, but for blanks.
fn begins_line(before: &[u8]) -> bool
    ensures { result ≡ starts_line (reverse before.now) }
{
    let mut rest = before;
    while let [front @ .., last] = rest {
        if *last == b'\n' || *last == b'\r' {
            return true;
        }
        if *last != b' ' && *last != b'\t' {
            return rest == MARK;
        }
        rest = front;
    }
    true
}

/// Returns the label of a line, from the octets behind what begins a block.
fn label_of(line: &[u8]) -> Option<&[u8]>
    ensures label { IfSome result (λ label. IsLabelLine line.now label.now) }
    ensures none { IfNone result (IsOtherLine line.now) }
{
    line.trim_ascii_end().strip_suffix(DASHES)
}

/// Returns what stands in a block up to its end, and the octets behind that.
fn body_of<'a>(label: &[u8], octets: &'a [u8]) -> Result<(&'a [u8], &'a [u8]), Unended<'a>>
    ensures body { IfOk result (λ r. IsBody label.now octets.now r.0.now r.1.now) }
    ensures unended { IfErr result (IsUnended label.now octets.now) }
{
    let Some((body, behind)) = split_around(octets, END) else {
        return Err(Unended::Missing);
    };
    let Some((end, rest)) = split_around(behind, DASHES) else {
        return Err(Unended::Missing);
    };
    if end == label {
        Ok((body, rest))
    } else {
        Err(Unended::Label(end))
    }
}

/// Returns the block whose beginning, with this label, these octets follow.
fn block_at<'a>(label: &'a [u8], octets: &'a [u8]) -> Block<'a>
    ensures less { length result.rest.now ≤ length octets.now }
    ensures label { result.label.now ≡ label.now }
    ensures body { HasBody label.now octets.now result.body result.rest.now }
{
    match body_of(label, octets) {
        Ok((body, rest)) => Block {
            label,
            body: Ok(body),
            rest,
        },
        Err(error) => Block {
            label,
            body: Err(error),
            rest: octets,
        },
    }
}

/// Returns the name of the first header of a block (RFC 1421, 4.6), if it has one.
pub fn header_in(body: &[u8]) -> Option<&[u8]>
    ensures header { IfSome result (λ name. IsHeaderIn body.now name.now) }
    ensures none { IfNone result (Lacks (codes ":") body.now) }
{
    match split_around(body, b":") {
        Some((name, _)) => Some(name.trim_ascii()),
        None => None,
    }
}

/// Returns the block that begins behind the one list of octets, with `-----BEGIN `, in front of the
/// other, if one does.
fn block_between<'a>(before: &[u8], behind: &'a [u8]) -> Option<Block<'a>>
    ensures block { IfSome result (λ b. IsBlock before.now behind.now b) }
    ensures less { IfSome result (λ b. length b.rest.now ≤ length behind.now) }
    ensures none { IfNone result (IsNoBlock before.now behind.now) }
{
    if !begins_line(before) {
        return None;
    }
    let (line, after) = split_line(behind);
    let label = label_of(line)?;
    Some(block_at(label, after))
}

/// Returns the next block.
pub fn next_block(octets: &[u8]) -> Option<Block<'_>>
    ensures less { IfSome result (λ b. length b.rest.now < length octets.now) }
    ensures next { IfSome result (λ b. IsNext octets.now b) }
    ensures none { IfNone result (HasNoBlock octets.now) }
{
    let mut at = 0;
    while let Some((passed, behind)) = split_around(octets.split_at(at).1, BEGIN) {
        let start = at + passed.len();
        if let Some(block) = block_between(octets.split_at(start).0, behind) {
            return Some(block);
        }
        at = start + 1;
    }
    None
}

/// Returns whether octets are blocks of text, which is asked for by a form, or else found out: if
/// one begins there.
pub fn has_blocks(form: Option<Form>, octets: &[u8]) -> bool
    ensures yes { result ≡ true → HasBlocks form octets.now }
    ensures no { result ≡ false → HasNoBlocks form octets.now }
{
    match form {
        Some(form) => form == Form::Pem,
        None => next_block(octets).is_some(),
    }
}

/// Returns the octets that a block carries.
pub fn octets_in<'a>(alloc: Global, block: Block<'a>) -> Result<Vec<u8>, BlockError<'a>>
    ensures octets { IfOk result (λ v. HasOctets block.entry v.items) }
    ensures none { IfErr result (HasNoOctets block.entry) }
{
    let body = match block.body {
        Ok(body) => body,
        Err(why) => return Err(BlockError::Unended(why)),
    };
    if let Some(name) = header_in(body) {
        return Err(BlockError::Headers(name));
    }
    match from_base64(alloc, body) {
        Ok(octets) => Ok(octets),
        Err(Misspelled::Form) => Err(BlockError::NotBase64),
        Err(Misspelled::NoMemory) => Err(BlockError::NoMemory),
    }
}
