//! The octets of an integer without its sign.
ghost use Rattle.encodings.specs.Buffers.{Stores};
ghost use Rattle.encodings.specs.Contents.{IsMagnitude};

use encodings::magnitude::store_magnitude;

/// Stores the magnitude of an INTEGER of any size (X.690, 8.3): the octets of the number without
/// its sign, the most significant first, as few as there can be, none for 0. They are stored at the
/// front of a buffer that has room for them. `size` is their number, also if it has no room.
#[unsafe(no_mangle)]
pub extern "C" fn bcder_magnitude(octets: &[u8], buffer: &mut [u8], size: &mut usize) -> u8
    ensures { Stores (IsMagnitude octets.now) result buffer.old buffer.new size.old size.new }
{
    store_magnitude(octets, buffer, size)
}
