//! The text of object identifiers (X.690, 8.19).
ghost use Rattle.encodings.specs.Buffers.{Stores};
ghost use Rattle.encodings.specs.Identifiers.{HasText};

use encodings::identifier::store_text;

/// Stores the text of an OBJECT IDENTIFIER (X.690, 8.19): its components in decimal, joined by
/// dots. It is stored at the front of a buffer that has room for it, without a zero at its end.
/// `size` is the number of its characters, also if there is no room.
///
/// A subidentifier has to be below 2^128.
#[unsafe(no_mangle)]
pub extern "C" fn bcder_oid_text(octets: &[u8], buffer: &mut [u8], size: &mut usize) -> u8
    ensures { Stores (HasText octets.now) result buffer.old buffer.new size.old size.new }
{
    store_text(octets, buffer, size)
}
