//! Structures that octets are decoded as.
use crate::decoded::{Unshown, read};
use crate::page::Page;
use asn1::{Decode, Type};
use bcder::decode::SliceSource;
use std::alloc::AllocError;

/// A structure that is shown.
pub(crate) trait Structure: Drop {
    /// Shows it.
    fn show(&self, page: &mut Page) -> Result<(), AllocError>;
}

/// Shows octets that are a structure. If they are none, nothing is shown.
pub(crate) fn show_as<'a, T: Structure + Type + Decode<SliceSource<'a>>>(
    page: &mut Page,
    octets: &'a [u8],
) -> Result<(), Unshown> {
    let value = read::<T>(page, octets)?;
    Ok(value.show(page)?)
}
