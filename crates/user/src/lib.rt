//! Readers as users of the library write them: a certificate, a signed message, blocks of
//! addresses, filters that hold filters, and small ones. Begin with [`validity`], which is a whole
//! reader. [`latin_1`] defines a character set.
//!
//! A function that takes from content has one clause, `Moved S.stream cons`: it moves the content.
//! A closure needs no clause, unless it has more than two steps, a loop, or a choice by the form of
//! content. Then it has the same clause (`MovedContent S.stream content` for content of either
//! form).
//!
//! Most loops are calls of [`Constructed::while_some`], which needs no further clause. Lists of
//! SEQUENCEs share one such loop (`lists`). [`count_all`] shows a `while let` loop, whose invariant
//! and measure are in a file of their own. [`Filter`] shows a function that calls itself; its
//! measures are in such a file too.
#![tactic(auto, using(bcder::specs::laws::Moved::untouched_is_moved))]

ghost use Rattle.bcder.specs.calls.Views.{Moved, MovedContent, MovedOctets};

mod addresses;
mod certificate;
mod crl;
mod extensions;
mod filter;
pub mod latin_1;
mod lent;
mod lists;
mod names;
mod parts;
mod revoked;
mod signed;
pub mod validity;

pub use addresses::{Addresses, decode_addresses};
use bcder::decode::{Constructed, Content, DecodeError, Primitive, Source};
use bcder::{Captured, Tag};
pub use certificate::{Certificate, Time, Validity, decode_certificate, decode_two};
pub use crl::Crl;
pub use extensions::{Basic, Extensions, decode_extensions};
pub use filter::{Filter, decode_filter};
pub use lent::{LentEntry, lent_entries};
pub use names::{Attribute, Name, Text};
pub use revoked::{Entry, decode_entries, take_entries, take_reason};
pub use signed::{Signed, decode_signed};
use std::alloc::Global;

/// Skips the contents octets, and returns their number.
fn take_len<S: Source>(octets: &mut Primitive<'_, S>) -> Result<usize, DecodeError<S::Error>>
    ensures { MovedOctets S.stream octets }
{
    let len = octets.remaining();
    octets.skip_all()?;
    Ok(len)
}

/// Skips a primitive value with the tag.
fn skip_octets<S: Source>(
    tag: Tag,
    cons: &mut Constructed<'_, S>,
) -> Result<(), DecodeError<S::Error>>
    ensures { Moved S.stream cons }
{
    cons.take_primitive_if(tag, |octets| octets.skip_all())
}

/// Skips a primitive value with the tag, and returns the number of its contents octets.
fn take_len_of<S: Source>(
    tag: Tag,
    cons: &mut Constructed<'_, S>,
) -> Result<usize, DecodeError<S::Error>>
    ensures { Moved S.stream cons }
{
    cons.take_primitive_if(tag, |octets| take_len(octets))
}

/// Skips the next value if it has the tag, and returns the number of its contents octets. It has to
/// be primitive then.
fn take_opt_len_of<S: Source>(
    tag: Tag,
    cons: &mut Constructed<'_, S>,
) -> Result<Option<usize>, DecodeError<S::Error>>
    ensures { Moved S.stream cons }
{
    cons.take_opt_primitive_if(tag, |octets| take_len(octets))
}

/// Takes an OCTET STRING of one octet, and returns that octet.
pub fn take_octet<S: Source>(cons: &mut Constructed<'_, S>) -> Result<u8, DecodeError<S::Error>>
    ensures { Moved S.stream cons }
{
    cons.take_primitive_if(Tag::OCTET_STRING, |octets| octets.take_u8())
}

/// Captures what is inside a SEQUENCE of primitive values, to be read later.
pub fn capture_inside<S: Source>(
    alloc: Global,
    cons: &mut Constructed<'_, S>,
) -> Result<Captured, DecodeError<S::Error>>
    ensures { Moved S.stream cons }
{
    cons.take_sequence(
        |cons|
            ensures { Moved S.stream cons }
        { cons.capture(alloc, |cons| skip_primitives(cons)) },
    )
}

/// Skips primitive values up to the end.
fn skip_primitives<S: Source>(cons: &mut Constructed<'_, S>) -> Result<(), DecodeError<S::Error>>
    ensures { Moved S.stream cons }
{
    cons.while_some(|cons| cons.take_opt_primitive(|_tag, octets| octets.skip_all()))
}

/// Counts primitive values up to the end, in a loop over them.
pub fn count_all<S: Source>(cons: &mut Constructed<'_, S>) -> Result<u64, DecodeError<S::Error>>
    ensures { Moved S.stream cons }
{
    let mut all = 0u64;
    while let Some(()) = cons.take_opt_primitive(|_tag, octets| octets.skip_all())? {
        all = all.saturating_add(1);
    }
    Ok(all)
}

/// Takes a value of either form, and returns the number of contents octets: its own if it is
/// primitive, else those of the one primitive value inside.
pub fn take_choice<S: Source>(cons: &mut Constructed<'_, S>) -> Result<usize, DecodeError<S::Error>>
    ensures { Moved S.stream cons }
{
    cons.take_value(
        |_tag, content|
            ensures { MovedContent S.stream content }
        {
            match content {
                Content::Primitive(octets) => take_len(octets),
                Content::Constructed(inner) => inner.take_primitive(|_tag, octets| take_len(
                    octets,
                )),
            }
        },
    )
}

/// Takes a value that has to be primitive, which [`Content::as_primitive`] checks, and returns the
/// number of its contents octets.
pub fn take_primitive_len<S: Source>(
    cons: &mut Constructed<'_, S>,
) -> Result<usize, DecodeError<S::Error>>
    ensures { Moved S.stream cons }
{
    cons.take_value(|_tag, content| content.as_primitive(|octets| take_len(octets)))
}
