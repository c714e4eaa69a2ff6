//! Reads search filters of LDAP (RFC 4511, section 4.5.1.7): values that hold values of their own
//! kind, to a depth that the caller allows.
#![tactic(auto, using(bcder::specs::laws::Moved::measures))]

ghost use Rattle.bcder.specs.calls.Views.{Moved, MovedContent, MovedOctets};

use bcder::decode::{Constructed, Content, ContentError, DecodeError, Primitive, Source};
use bcder::{Mode, Tag};
use bytes::Bytes;
use std::alloc::Global;
use std::convert::Infallible;

/// A filter, which says what an entry has to match.
#[derive(Drop)]
pub enum Filter {
    /// The entry matches all of these.
    And(Vec<Filter>),

    /// The entry matches at least one of these.
    Or(Vec<Filter>),

    /// The entry doesn't match this.
    Not(Box<Filter>),

    /// The entry has an attribute with this name and value.
    Equal { name: Bytes, value: Bytes },

    /// The entry has an attribute with this name.
    Present(Bytes),
}

impl Filter {
    /// Takes a filter. Filters inside it may be nested `depth` levels deep; at depth 0 it may hold
    /// none.
    ///
    /// # Errors
    ///
    /// Returns an error if there is no value, if the next value isn't a filter, or if it holds
    /// filters nested deeper than `depth`.
    pub fn take_from<S: Source>(
        alloc: Global,
        depth: u8,
        cons: &mut Constructed<'_, S>,
    ) -> Result<Filter, DecodeError<S::Error>>
        ensures { Moved S.stream cons }
    {
        match Filter::take_opt_from(alloc, depth, cons)? {
            Some(filter) => Ok(filter),
            None => Err(cons.content_err(ContentError::from_static("expected a filter"))),
        }
    }

    /// Takes the next filter, or returns `None` at the end of the content. Filters inside it may be
    /// nested `depth` levels deep.
    ///
    /// # Errors
    ///
    /// Returns an error if the next value isn't a filter, or if it holds filters nested deeper than
    /// `depth`.
    #[cycle(filter)]
    pub fn take_opt_from<S: Source>(
        alloc: Global,
        depth: u8,
        cons: &mut Constructed<'_, S>,
    ) -> Result<Option<Filter>, DecodeError<S::Error>>
        ensures { Moved S.stream cons }
    {
        cons.take_opt_value(
            |tag, content|
                ensures { MovedContent S.stream content }
            {
                match content {
                    Content::Primitive(octets) => Filter::take_name(alloc, tag, octets),
                    Content::Constructed(cons) if tag == Tag::CTX_3 => {
                        Filter::take_equal(alloc, cons)
                    }
                    Content::Constructed(cons) => {
                        let within = Filter::enter(depth, cons)?;
                        let inside = cons.collect_some(
                            alloc,
                            |cons|
                                ensures { Moved S.stream cons }
                            { Filter::take_opt_from(alloc, within, cons) },
                        )?;
                        Filter::of_filters(alloc, tag, inside, cons)
                    }
                }
            },
        )
    }

    /// Returns the depth that is left inside a filter that holds others.
    fn enter<S: Source>(depth: u8, cons: &Constructed<'_, S>) -> Result<u8, DecodeError<S::Error>> {
        match depth.checked_sub(1) {
            Some(within) => Ok(within),
            None => Err(cons.content_err(ContentError::from_static("filters nested too deep"))),
        }
    }

    /// Takes a primitive filter: the name of an attribute that has to be there.
    fn take_name<S: Source>(
        alloc: Global,
        tag: Tag,
        octets: &mut Primitive<'_, S>,
    ) -> Result<Filter, DecodeError<S::Error>>
        ensures { MovedOctets S.stream octets }
    {
        if tag != Tag::ctx(7) {
            return Err(octets.content_err(ContentError::from_static("unknown filter")));
        }
        Ok(Filter::Present(octets.take_all(alloc)?))
    }

    /// Makes a filter of the filters inside it, by its tag.
    fn of_filters<S: Source>(
        alloc: Global,
        tag: Tag,
        mut inside: Vec<Filter>,
        cons: &Constructed<'_, S>,
    ) -> Result<Filter, DecodeError<S::Error>> {
        if tag == Tag::CTX_0 {
            return Ok(Filter::And(inside));
        }
        if tag == Tag::CTX_1 {
            return Ok(Filter::Or(inside));
        }
        if tag != Tag::CTX_2 {
            return Err(cons.content_err(ContentError::from_static("unknown filter")));
        }
        match inside.pop() {
            Some(filter) if inside.is_empty() => Filter::not(alloc, filter),
            _ => Err(cons.content_err(ContentError::from_static("expected one filter"))),
        }
    }

    /// Makes a filter that negates another.
    fn not<E: Drop>(alloc: Global, filter: Filter) -> Result<Filter, DecodeError<E>> {
        match Box::new(alloc, filter) {
            Ok(filter) => Ok(Filter::Not(filter)),
            Err(_) => Err(DecodeError::no_memory()),
        }
    }

    /// Takes the name and the value of an attribute.
    fn take_equal<S: Source>(
        alloc: Global,
        cons: &mut Constructed<'_, S>,
    ) -> Result<Filter, DecodeError<S::Error>>
        ensures { Moved S.stream cons }
    {
        let name = cons.take_primitive_if(Tag::OCTET_STRING, |octets| octets.take_all(alloc))?;
        let value = cons.take_primitive_if(Tag::OCTET_STRING, |octets| octets.take_all(alloc))?;
        Ok(Filter::Equal { name, value })
    }
}

/// Decodes a filter in BER from the start of octets. Filters inside it may be nested `depth` levels
/// deep.
pub fn decode_filter(
    alloc: Global,
    depth: u8,
    octets: &[u8],
) -> Result<Filter, DecodeError<Infallible>> {
    Mode::Ber.decode(octets, |cons| Filter::take_from(alloc, depth, cons))
}
