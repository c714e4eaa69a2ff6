//! Reads the blocks of addresses that a certificate's holder may use (RFC 3779, section 2.2.3).
ghost use Rattle.bcder.specs.calls.Views.{Moved};

use crate::lists::{Each, List, take_all, take_list};
use bcder::decode::{Constructed, DecodeError, Source};
use bcder::{BitString, Mode, OctetString, Tag};
use std::alloc::Global;

/// What is read of blocks of addresses.
#[derive(Clone, Copy)]
pub struct Addresses {
    alloc: Global,

    /// The number of address families.
    pub families: u64,

    /// The number of families that inherit the issuer's addresses.
    pub inherited: u64,

    /// The number of prefixes in all families.
    pub prefixes: u64,

    /// The number of ranges, each from a smallest to a largest address.
    pub ranges: u64,

    /// The number of bits of the longest prefix.
    pub longest: usize,
}

/// Each family is a SEQUENCE of an OCTET STRING and a list of blocks, or NULL in its place.
impl List for Addresses {
    fn take_one<S: Source>(
        &mut self,
        cons: &mut Constructed<'_, S>,
    ) -> Result<(), DecodeError<S::Error>> {
        self.families = self.families.saturating_add(1);
        OctetString::take_from(self.alloc, cons)?;
        let listed = cons.take_opt_sequence(|cons| take_all(self, cons))?;
        if listed.is_some() {
            return Ok(());
        }
        self.inherited = self.inherited.saturating_add(1);
        cons.take_null()
    }
}

impl Addresses {
    /// Takes a SEQUENCE OF families.
    pub fn take_from<S: Source>(
        alloc: Global,
        cons: &mut Constructed<'_, S>,
    ) -> Result<Addresses, DecodeError<S::Error>>
        ensures { Moved S.stream cons }
    {
        let none = Addresses {
            alloc,
            families: 0,
            inherited: 0,
            prefixes: 0,
            ranges: 0,
            longest: 0,
        };
        take_list(Tag::SEQUENCE, none, cons)
    }
}

/// Each value is a block of addresses: a prefix, which is a BIT STRING, or a range.
impl Each for Addresses {
    fn take_next<S: Source>(
        &mut self,
        cons: &mut Constructed<'_, S>,
    ) -> Result<Option<()>, DecodeError<S::Error>> {
        let alloc = self.alloc;
        let prefix = cons.take_opt_value_if(Tag::BIT_STRING, |content| {
            BitString::from_content(alloc, content)
        })?;
        match prefix {
            Some(prefix) => {
                self.prefixes = self.prefixes.saturating_add(1);
                self.longest = self.longest.max(prefix.bit_len());
                Ok(Some(()))
            }
            None => {
                let range = take_range(cons)?;
                if range.is_some() {
                    self.ranges = self.ranges.saturating_add(1);
                }
                Ok(range)
            }
        }
    }
}

/// Takes a range of addresses, if one comes next: a SEQUENCE of two BIT STRINGs.
fn take_range<S: Source>(cons: &mut Constructed<'_, S>) -> Result<Option<()>, DecodeError<S::Error>>
    ensures { Moved S.stream cons }
{
    cons.take_opt_sequence(|cons| {
        BitString::skip_in(cons)?;
        BitString::skip_in(cons)
    })
}

/// Decodes blocks of addresses in DER from the start of a source.
pub fn decode_addresses<S: Source + Drop>(
    alloc: Global,
    source: S,
) -> Result<Addresses, DecodeError<S::Error>> {
    Constructed::decode(source, Mode::Der, |cons| Addresses::take_from(alloc, cons))
}
