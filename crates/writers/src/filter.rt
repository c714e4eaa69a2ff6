//! Writes search filters of LDAP (RFC 4511, section 4.5.1.7): values that hold values of their own
//! kind, built from the inside out.

use bcder::captured::CapturedBuilder;
use bcder::encode::{self, EncodeError, PrimitiveContent};
use bcder::{Captured, Mode, Tag};
use std::alloc::Global;

/// A filter, which says what an entry has to match.
#[derive(Drop)]
pub enum Filter {
    /// The entry matches all of these.
    And(Vec<Filter>),

    /// The entry matches at least one of these.
    Or(Vec<Filter>),

    /// The entry doesn't match this.
    Not(Box<Filter>),

    /// The entry has an attribute with this name and value.
    Equal { name: String, value: Vec<u8> },

    /// The entry has an attribute with this name.
    Present(String),
}

impl Filter {
    /// Adds the encoding of the filter to a builder.
    ///
    /// # Errors
    ///
    /// Returns the errors of [`CapturedBuilder::extend`].
    pub fn gather(&self, alloc: Global, target: &mut CapturedBuilder) -> Result<(), EncodeError> {
        match self {
            Filter::And(filters) => {
                let mut inside = Captured::builder(alloc, Mode::Ber);
                for filter in filters {
                    filter.gather(alloc, &mut inside)?;
                }
                target.extend(encode::set_as(Tag::CTX_0, inside.freeze()?))
            }
            Filter::Or(filters) => {
                let mut inside = Captured::builder(alloc, Mode::Ber);
                for filter in filters {
                    filter.gather(alloc, &mut inside)?;
                }
                target.extend(encode::set_as(Tag::CTX_1, inside.freeze()?))
            }
            Filter::Not(filter) => {
                let mut inside = Captured::builder(alloc, Mode::Ber);
                filter.gather(alloc, &mut inside)?;
                target.extend(encode::sequence_as(Tag::CTX_2, inside.freeze()?))
            }
            Filter::Equal { name, value } => {
                let parts = (
                    name.as_bytes().encode_as(Tag::OCTET_STRING),
                    value.as_slice().encode_as(Tag::OCTET_STRING),
                );
                target.extend(encode::sequence_as(Tag::CTX_3, &parts))
            }
            Filter::Present(name) => target.extend(name.as_bytes().encode_as(Tag::ctx(7))),
        }
    }
}
