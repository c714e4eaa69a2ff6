//! BIT STRING with named bits (X.680, 22.7; X.690, 11.2.2).
ghost use Rattle.std.specs.Prelude.{◌≡◌, ◌↔◌, Bool, List, IsTrue};
ghost use Rattle.std.specs.Prelude.{false, get_or, length, refl, true};
ghost use Rattle.bcder.specs.calls.Views.{Moved};
ghost use Rattle.bcder.specs.x690.BitString.{bit_string_tag, bits};
ghost use Rattle.asn1.specs.Markers.{only_fixed};
ghost use Rattle.asn1.specs.NamedBitLists.{AreNamedBits, IsTrimmed, MayEnd, named_bits};
ghost use Rattle.asn1.specs.Tags.{bit_string_tagged, only_tagged};
ghost use Rattle.asn1.specs.Types.{IsLeaf, Only, TookNextTyped};

use crate::{Decode, FixedTag, Part, Trace, Type};
use bcder::decode::{Constructed, ContentError, DecodeError, Source};
use bcder::{BitString, Mode, Tag};
use std::alloc::Global;
use std::marker::Model;

/// A BIT STRING whose bits have names, by their positions (X.680, 22.7).
///
/// Zero bits at the end mean nothing: two are the same if the same bits are one. In CER and DER
/// there are none (X.690, 11.2.2). In BER there may be any number.
///
/// ```text
/// /// `KeyUsage ::= BIT STRING { digitalSignature (0), .., cRLSign (6), .. }`.
/// const CRL_SIGN: usize = 6;
///
/// let usage = decode::<NamedBits, _>(alloc, Mode::Der, octets)?;
/// if usage.has(CRL_SIGN) { .. }
/// ```
#[derive(Debug, Drop)]
pub struct NamedBits(pub BitString);

/// In clauses it is the bit string.
impl Model for NamedBits {
    ghost use Rattle.bcder.specs.x690.BitString.{Bits};

    ghost Value = { Bits };

    ghost view = { λ x. x.0 };

    ghost inverse = { λ v. record { 0 = v } };
}

impl NamedBits {
    /// Returns whether the bit at a position is one. The leading bit has position 0.
    pub fn has(&self, position: usize) -> bool
        ensures { result ≡ get_or (bits self.now) position false }
    {
        self.0.bit(position)
    }
}

/// Returns the number of bits up to the last one that is one.
pub(crate) fn named_len(string: &BitString) -> usize
    ensures { result ≡ length (named_bits string.now) }
{
    let mut len = string.bit_len();
    while len > 0 {
        if string.bit(len - 1) {
            return len;
        }
        len -= 1;
    }
    len
}

/// Returns whether the last bit is one, if there is a bit.
fn is_trimmed(string: &BitString) -> bool
    ensures { IsTrue result ↔ IsTrimmed string.now }
{
    named_len(string) == string.bit_len()
}

/// Returns whether a bit string may end so in a mode.
fn may_end(mode: Mode, string: &BitString) -> bool
    ensures { IsTrue result ↔ MayEnd mode string.now }
{
    match mode {
        Mode::Ber => true,
        Mode::Cer => is_trimmed(string),
        Mode::Der => is_trimmed(string),
    }
}

impl Type for NamedBits {
    ghost TAG = { bit_string_tag };

    #[inline(always)]
    fn tag() -> Tag {
        Tag::BIT_STRING
    }

    fn expect<P: Trace>(path: &mut P) {
        path.note(Part::Expected(Self::tag()));
    }

    ghost tags = { Only };

    ghost Key = { List Bool };

    ghost key = { named_bits };

    ghost means = { λ mode t x. IsLeaf (AreNamedBits mode) t x };

    fn values_are_one() {}

    ghost tagged = { refl };

    ghost value_tags = { only_tagged bit_string_tagged };
}

impl FixedTag for NamedBits {
    ghost fixed = { only_fixed };
}

impl<S: Source> Decode<S> for NamedBits {
    ghost may_lack = { true };

    #[inline(always)]
    fn trace_opt_if<P: Trace>(
        alloc: Global,
        cons: &mut Constructed<'_, S>,
        tag: Tag,
        path: &mut P,
    ) -> Result<Option<NamedBits>, DecodeError<S::Error>> {
        let zeros = cons.next_err(ContentError::from_static("zero bits at the end"));
        match <BitString>::trace_opt_if(alloc, cons, tag, path) {
            Ok(Some(string)) => {
                let mode = cons.mode();
                if may_end(mode, &string) {
                    Ok(Some(NamedBits(string)))
                } else {
                    cons.fail();
                    Err(zeros)
                }
            }
            Ok(None) => Ok(None),
            Err(error) => Err(error),
        }
    }
}
