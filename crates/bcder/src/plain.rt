//! The plain reader: reads the values at the start of a slice of octets, without allocating (X.690,
//! 8.1.1).
//!
//! It loops over values side by side. It calls itself for values inside values of definite length,
//! down to a given depth. What the rest of the crate reads from sources is compared with it.
ghost use Rattle.std.specs.Prelude.{◌≡◌, ℕ, ◌+◌, ◌<◌, ◌≤◌, ◌↔◌, List, [], ◌∷◌, ◌++◌, length};
ghost use Rattle.std.specs.Prelude.{Bool, false, IsTrue, IsFalse};
ghost use Rattle.std.specs.Prelude.{Option, Some, None, IfSome, IfNone, MatchOption};
ghost use Rattle.bcder.specs.declared.mode.Mode.{Mode as ModeValue};
ghost use Rattle.bcder.specs.x690.Tree.{Tree, Trees};
ghost use Rattle.bcder.specs.x690.Length.{IsEndOfContents};
ghost use Rattle.bcder.specs.x690.Encoding.{IsEncoding, AreEncodings, IsHeader};
ghost use Rattle.bcder.specs.calls.Content.{length_of};
ghost use Rattle.bcder.specs.x690.Identifier.{Tag as TagValue};
ghost use Rattle.bcder.specs.x690.Identifier.{is_value_tag};
ghost use Rattle.bcder.specs.steps.Peek.{len_of};
ghost use Rattle.bcder.specs.steps.Reading.{after_tree, after_list, Leaves};
ghost use Rattle.bcder.specs.x690.Grammar.{IsOnly, BeginsWhole};

use crate::decode::header::{Form, header_at};
use crate::length::{Length, after_end};
use crate::mode::Mode;
use crate::tag::Tag;

/// Returns how many octets the first value has, if it is primitive, has one identifier octet and
/// one length octet (8.1.2.2, 8.1.3.4), and is all here. No mode refuses it.
#[inline(always)]
pub(crate) fn short_size(octets: &[u8]) -> Option<usize>
    ensures some { IfSome result (λ n. 2 ≤ n) }
    ensures fits { IfSome result (λ n. n ≤ length octets.now) }
    ensures begins { IfSome result (λ n. (mode : ModeValue) → BeginsWhole mode octets.now n) }
{
    match octets {
        [first, len, ..] => {
            let kind = *first % 64;
            let size = 2 + usize::from(*len);
            if 1 <= kind && kind <= 30 && *len < 0x80 && size <= octets.len() {
                Some(size)
            } else {
                None
            }
        }
        _ => None,
    }
}

/// Returns how many octets the first value has, if it is primitive, has one identifier octet and
/// three length octets, for a length that needs three in every mode (8.1.3.5, 10.1), and is all
/// here.
#[inline(always)]
fn long_size(octets: &[u8]) -> Option<usize>
    ensures fits { IfSome result (λ n. n ≤ length octets.now) }
    ensures begins { IfSome result (λ n. (mode : ModeValue) → BeginsWhole mode octets.now n) }
{
    match octets {
        [first, count, high, low, ..] if *count == 0x82 => {
            let kind = *first % 64;
            let len = usize::from(*high) * 0x100 + usize::from(*low);
            let size = 4 + len;
            if 1 <= kind && kind <= 30 && len >= 0x100 && size <= octets.len() {
                Some(size)
            } else {
                None
            }
        }
        _ => None,
    }
}

/// Returns the octets after the first value, of which at most `levels` levels of values of definite
/// length are read.
///
/// Each of these levels takes a level of calls. Open values of indefinite length are only counted,
/// and take none. `None` means that there is no value, or that it is deeper.
#[cycle(plain)]
#[inline(never)]
fn value_within(mode: Mode, octets: &[u8], levels: usize) -> Option<&[u8]>
    ensures read { IfSome result (λ r. after_tree mode octets.now ≡ Some r.now) }
    ensures none { IfNone result
        (length octets.now ≤ levels → after_tree mode octets.now ≡ None) }
{
    if let Some(size) = long_size(octets) {
        return Some(octets.split_at(size).1);
    }
    let Some((opened, mut rest)) = front_within(mode, octets, levels) else {
        return None;
    };
    let mut depth = usize::from(opened);
    while depth > 0 {
        match after_end(mode, rest) {
            Some(after) => {
                depth -= 1;
                rest = after;
            }
            None => match short_size(rest) {
                Some(size) => rest = rest.split_at(size).1,
                None => match front_within(mode, rest, levels) {
                    Some((opened, after)) => {
                        depth += usize::from(opened);
                        rest = after;
                    }
                    None => return None,
                },
            },
        }
    }
    Some(rest)
}

/// Returns the octets after the first value, or after its header if it has the indefinite length,
/// and whether it has.
#[cycle(plain)]
#[inline(always)]
fn front_within(mode: Mode, octets: &[u8], levels: usize) -> Option<(bool, &[u8])>
    ensures read { IfSome result (λ r. Leaves mode octets.now r.0 r.1.now) }
    ensures less { IfSome result (λ r. length r.1.now + 2 ≤ length octets.now) }
    ensures none { IfNone result
        (length octets.now ≤ levels → after_tree mode octets.now ≡ None) }
{
    let Some((header, rest)) = header_at(mode, octets) else {
        return None;
    };
    match header.form {
        Form::Primitive(len) => {
            if rest.len() < len {
                return None;
            }
            Some((false, rest.split_at(len).1))
        }
        Form::Constructed(Length::Definite(len)) => {
            if rest.len() < len {
                return None;
            }
            let (contents, after) = rest.split_at(len);
            if levels == 0 {
                return None;
            }
            if is_list_within(mode, contents, levels - 1) {
                Some((false, after))
            } else {
                None
            }
        }
        Form::Constructed(Length::Indefinite) => Some((true, rest)),
    }
}

/// Returns whether the octets are a list of values. `false` means that they aren't, or that they
/// are deeper.
#[cycle(plain)]
#[inline(always)]
fn is_list_within(mode: Mode, octets: &[u8], levels: usize) -> bool
    ensures list { IsTrue result → after_list mode false octets.now ≡ Some [] }
    ensures none { IsFalse result
        → length octets.now ≤ levels → after_list mode false octets.now ≡ None }
{
    let mut rest = octets;
    while !rest.is_empty() {
        match short_size(rest) {
            Some(size) => rest = rest.split_at(size).1,
            None => match value_within(mode, rest, levels) {
                Some(after) => rest = after,
                None => return false,
            },
        }
    }
    true
}

/// The maximum number of levels of calls for values that can be read without such calls, too.
const LEVELS: usize = 64;

/// Returns how many octets the first value has, if it is all here and no deeper than `LEVELS`.
#[inline(always)]
pub(crate) fn size_within(mode: Mode, octets: &[u8]) -> Option<usize>
    ensures { IfSome result (λ n. BeginsWhole mode octets.now n) }
{
    match value_within(mode, octets, LEVELS) {
        Some(rest) => Some(octets.len() - rest.len()),
        None => None,
    }
}

/// The header of a value: its identifier octets and length octets, with the octets that follow.
#[derive(Clone, Copy)]
pub struct Front<'a> {
    /// The tag of the value.
    pub tag: Tag,

    /// Whether the encoding is constructed.
    pub constructed: bool,

    /// The number of contents octets, or `None` if end-of-contents octets end them.
    pub len: Option<usize>,

    /// The octets after the length octets: the contents, and what follows the value.
    pub rest: &'a [u8],
}

fn number_told(form: Form) -> Option<usize>
    ensures { length_of result ≡ len_of form }
{
    match form {
        Form::Primitive(len) => Some(len),
        Form::Constructed(Length::Definite(len)) => Some(len),
        Form::Constructed(Length::Indefinite) => None,
    }
}

/// Returns the header at the start of the octets (X.690, 8.1.2, 8.1.3).
///
/// Returns `None` if no prefix of the octets is the header of a value in the mode. Whether the
/// contents are complete isn't checked.
pub fn front_at<'a>(mode: Mode, octets: &'a [u8]) -> Option<Front<'a>>
    ensures found { IfSome result
        (λ f.
        (w : List ℕ) × IsHeader mode f.tag f.constructed (length_of f.len) w
        × (octets.now ≡ w ++ f.rest.now)) }
    ensures none { IfNone result
        ((t : TagValue) (form : Bool) (n : Option ℕ) (w x : List ℕ)
        → IsHeader mode t form (length_of n) w → octets.now ≡ w ++ x → ⊥) }
{
    let Some((header, rest)) = header_at(mode, octets) else {
        return None;
    };
    Some(Front {
        tag: header.tag,
        constructed: header.form.is_constructed(),
        len: number_told(header.form),
        rest,
    })
}

/// Returns the octets after the end-of-contents octets at the start (X.690, 8.1.5).
///
/// Returns `None` if no prefix of the octets is an end in the mode.
pub fn end_at(mode: Mode, octets: &[u8]) -> Option<&[u8]>
    ensures found { IfSome result
        (λ rest. (w : List ℕ) × IsEndOfContents mode w × (octets.now ≡ w ++ rest.now)) }
    ensures none { IfNone result
        ((w x : List ℕ) → IsEndOfContents mode w → octets.now ≡ w ++ x → ⊥) }
{
    after_end(mode, octets)
}

/// Returns the octets after the first value. The stack space of the result is cleared here.
#[inline(always)]
fn value_at(mode: Mode, octets: &[u8]) -> Option<&[u8]>
    ensures read { IfSome result (λ r. after_tree mode octets.now ≡ Some r.now) }
    ensures none { IfNone result (after_tree mode octets.now ≡ None) }
{
    let rest = value_within(mode, octets, octets.len());
    rest
}

/// Returns the octets after the first value.
///
/// Returns `None` if no prefix of the octets is an encoding in the mode.
#[inline(always)]
pub fn skip_one(mode: Mode, octets: &[u8]) -> Option<&[u8]>
    ensures found { IfSome result
        (λ rest.
        (t : Tree) × (w : List ℕ) × IsEncoding mode t w × (octets.now ≡ w ++ rest.now)
        × IsOnly mode t w octets.now) }
    ensures none { IfNone result
        ((t : Tree) (w x : List ℕ) → IsEncoding mode t w → octets.now ≡ w ++ x → ⊥) }
{
    match short_size(octets) {
        Some(size) => Some(octets.split_at(size).1),
        None => value_at(mode, octets),
    }
}

/// Returns whether the octets are the encodings of a list of values in the mode, one after the
/// other.
pub fn is_list(mode: Mode, octets: &[u8]) -> bool
    ensures { IsTrue result ↔ (ts : Trees) × AreEncodings mode ts octets.now }
{
    is_list_within(mode, octets, octets.len())
}
