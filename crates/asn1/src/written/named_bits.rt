//! BIT STRING with named bits, written (X.680, 22.7; X.690, 11.2.2).
ghost use Rattle.std.specs.Prelude.{◌≡◌, ◌+◌, ◌/◌};
ghost use Rattle.bcder.specs.declared.encode.error.EncodeError.TheVariants.{LongCerBitString};
ghost use Rattle.bcder.specs.calls.Meaning.{BitsMean, ValueMeans, primitive_meaning};
ghost use Rattle.bcder.specs.laws.Meanings.{BitsMean_lawful, primitive_lawful};
ghost use Rattle.bcder.specs.x690.BitString.{IsBits};
ghost use Rattle.asn1.specs.NamedBitLists.{without_zeros};

use crate::NamedBits;
use crate::clear::see_bits;
use crate::leaves::named_len;
use crate::writers::Encode;
use bcder::encode::{EncodeError, Values, WriteError};
use bcder::{BitString, Mode, Tag};
use std::io;

/// Returns the number of octets that hold so many bits.
fn octets_for(bits: usize) -> usize
    ensures { result ≡ (bits + 7) / 8 }
{
    if bits % 8 == 0 {
        bits / 8
    } else {
        bits / 8 + 1
    }
}

/// Returns the number of unused bits and the octets, up to the last bit that is one.
fn parts_of(string: &BitString) -> (u8, &[u8])
    ensures unused { result.0 ≡ (without_zeros string.now).unused }
    ensures octets { result.1.now ≡ (without_zeros string.now).octets }
    ensures bits { IsBits (without_zeros string.now) }
{
    see_bits(string);
    let len = named_len(string);
    let unused = ((8 - len % 8) % 8) as u8;
    match string.octet_slice() {
        Some(octets) => (unused, &octets[..octets_for(len)]),
        None => (unused, &[]),
    }
}

/// It is written without the zero bits at its end, in each mode. In CER one of more than 999 octets
/// is refused (X.690, 9.2).
impl Encode for NamedBits {
    ghost writes = { λ tag x mode. ValueMeans tag (primitive_meaning tag)
        (BitsMean LongCerBitString mode (without_zeros x)) };

    ghost is_clear = { λ x _. IsBits x };

    fn encoded_len_as(&self, tag: Tag, mode: Mode) -> Result<usize, EncodeError> {
        let (unused, octets) = parts_of(&self.0);
        BitString::encode_slice_as(octets, unused, tag).encoded_len(mode)
    }

    fn write_encoded_as<W: io::Write>(
        &self,
        tag: Tag,
        mode: Mode,
        target: &mut W,
    ) -> Result<(), WriteError> {
        let (unused, octets) = parts_of(&self.0);
        BitString::encode_slice_as(octets, unused, tag).write_encoded(mode, target)
    }

    fn is_read_back(_tag: Tag, _mode: Mode) {
        let _known = (_tag, _mode);
    }

    ghost lawful = { λ tag x mode. primitive_lawful tag mode
        (BitsMean_lawful LongCerBitString mode (without_zeros x)) };
}
