//! Octets that are stored in a buffer of the caller's.
ghost use Rattle.std.specs.Prelude.{◌≡◌, ◌+◌, ◌^◌, ◌<◌, ◌++◌, List, ℕ, length};
ghost use Rattle.encodings.specs.Buffers.{IsAtFront};

/// Appends octets to those at the front of a buffer if there is room for all of them. `at` is the
/// number of octets that were to be stored until now.
pub(crate) fn append(buffer: &mut [u8], at: &mut usize, octets: &[u8])
    requires { at.old + length octets.now < 2 ^ 64 }
    ensures stored { (first w : List ℕ) → IsAtFront w first buffer.old at.old
        → IsAtFront (w ++ octets.now) first buffer.new at.new }
    ensures at { at.new ≡ at.old + length octets.now }
{
    let start = *at;
    let end = start + octets.len();
    if end <= buffer.len() {
        buffer[start..end].copy_from_slice(octets);
    }
    *at = end;
}
