//! Octet strings, in one piece or cut into segments.
ghost use Rattle.std.specs.Prelude.{◌≡◌, ◌≢◌};
ghost use Rattle.bcder.specs.declared.mode.Mode.{Mode as ModeValue};
ghost use Rattle.bcder_c.specs.Results.{unknown_rules};
ghost use Rattle.bcder_c.specs.Rules.{AreRules, AreUnknown};
ghost use Rattle.encodings.specs.Buffers.{Stores};
ghost use Rattle.encodings.specs.Contents.{HoldsString};
ghost use Rattle.encodings.specs.Status.{no_memory};

use crate::rules::{UNKNOWN_RULES, mode_of};
use encodings::string::store_octet_string;
use std::alloc::Global;

/// Stores the octets of an OCTET STRING, or of a type that is encoded as one (X.690, 8.7, 9.2,
/// 10.2), from the contents octets of its value: in one piece, or, if the value is constructed, cut
/// into segments. They are stored at the front of a buffer that has room for them. `size` is their
/// number, also if it has no room.
#[unsafe(no_mangle)]
pub extern "C" fn bcder_string(
    alloc: Global,
    rules: u8,
    constructed: bool,
    octets: &[u8],
    buffer: &mut [u8],
    size: &mut usize,
) -> u8
    ensures unknown { AreUnknown rules
        → (result ≡ unknown_rules) × (buffer.new ≡ buffer.old) × (size.new ≡ size.old) }
    ensures stores { (mode : ModeValue) → AreRules rules mode → result ≢ no_memory
        → Stores (HoldsString mode constructed octets.now) result
        buffer.old buffer.new size.old size.new }
    ensures lacking { result ≡ no_memory
        → (buffer.new ≡ buffer.old) × (size.new ≡ size.old) }
{
    let Some(mode) = mode_of(rules) else {
        return UNKNOWN_RULES;
    };
    store_octet_string(alloc, mode, constructed, octets, buffer, size)
}
