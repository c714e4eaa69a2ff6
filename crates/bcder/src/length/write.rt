//! Writing length octets (X.690, 8.1.3, 10.1).
ghost use Rattle.std.specs.Prelude.{◌≡◌, ◌<◌, ◌++◌, length, true, IfOk, IfSome, ◌+◌, ◌∷◌, []};
ghost use Rattle.bcder.specs.calls.Encoders.{LengthMeans, SizeOfContents};
ghost use Rattle.bcder.specs.steps.Buffer.{buffered};
ghost use Rattle.bcder.specs.x690.Octets.{length_octets, fits_length};

use super::Length;
use crate::encode::EncodeError;
use crate::encode::buffer::Buffer;

impl Length {
    /// Returns whether four octets suffice for it.
    #[inline(always)]
    fn fits(self) -> bool
        ensures { result ≡ fits_length self }
    {
        match self {
            Length::Definite(len) => len <= 0xFFFF_FFFF,
            Length::Indefinite => true,
        }
    }

    /// Returns how many octets it has.
    #[tactic(auto, unfolding(crate::specs::x690::Octets::definite_length))]
    pub(crate) fn octet_count(self) -> usize
        requires { fits_length self ≡ true }
        ensures value { result ≡ length (length_octets self) }
        ensures limit { result < 6 }
    {
        match self {
            Length::Definite(len) => {
                if len < 0x80 {
                    1
                } else if len < 0x100 {
                    2
                } else if len < 0x1_0000 {
                    3
                } else if len < 0x100_0000 {
                    4
                } else {
                    5
                }
            }
            Length::Indefinite => 1,
        }
    }

    /// Returns how many octets it has: for a definite length, the fewest possible (10.1).
    ///
    /// # Errors
    ///
    /// Returns `LengthTooLarge` for a definite length of 2^32 or more.
    pub(crate) fn encoded_len(self) -> Result<usize, EncodeError>
        ensures size { SizeOfContents (LengthMeans self) ⊥ result }
        ensures limit { IfOk result (λ n. n < 6) }
    {
        if self.fits() {
            Ok(self.octet_count())
        } else {
            Err(EncodeError::LengthTooLarge)
        }
    }

    /// Returns the length octet, if there is only one (8.1.3.4, 8.1.3.6).
    #[tactic(auto, unfolding(crate::specs::x690::Octets::definite_length))]
    #[inline(always)]
    pub(crate) fn single_octet(self) -> Option<u8>
        ensures { IfSome result (λ octet. length_octets self ≡ octet ∷ []) }
    {
        match self {
            Length::Definite(len) => { if len < 0x80 { Some(len as u8) } else { None } }
            Length::Indefinite => Some(0x80),
        }
    }

    /// Adds its octets to those of a header. For a definite length these are the fewest possible
    /// (10.1).
    #[tactic(auto, unfolding(crate::specs::x690::Octets::definite_length))]
    #[inline(always)]
    pub(crate) fn spell(self, buffer: &mut Buffer)
        requires fits { fits_length self ≡ true }
        requires room { buffer.old.len < 5 }
        ensures octets { buffered buffer.new ≡ buffered buffer.old ++ length_octets self }
        ensures limit { buffer.new.len < buffer.old.len + 6 }
    {
        let len = match self {
            Length::Definite(len) => len,
            Length::Indefinite => return buffer.add(&[0x80]),
        };
        if len < 0x80 {
            buffer.add(&[len as u8])
        } else if len < 0x100 {
            buffer.add(&[0x81, len as u8])
        } else if len < 0x1_0000 {
            buffer.add(&[0x82, (len / 0x100) as u8, (len % 0x100) as u8])
        } else if len < 0x100_0000 {
            buffer.add(&[
                0x83,
                (len / 0x1_0000) as u8,
                (len / 0x100 % 0x100) as u8,
                (len % 0x100) as u8,
            ])
        } else {
            buffer.add(&[
                0x84,
                (len / 0x100_0000) as u8,
                (len / 0x1_0000 % 0x100) as u8,
                (len / 0x100 % 0x100) as u8,
                (len % 0x100) as u8,
            ])
        }
    }
}
