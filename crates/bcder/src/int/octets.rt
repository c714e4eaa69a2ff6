//! The contents octets of a number, shared by readers and encoders.
ghost use Rattle.std.specs.Prelude.{◌≡◌, ◌≤◌, ◌<◌, ◌+◌, ◌++◌, ◌∷◌, [], length, drop, replicate};
ghost use Rattle.std.specs.Int.{complement_if, to_be_bytes, w128};
ghost use Rattle.bcder.specs.x690.Integer.{AreInteger, IsTurned, integer_octets};

use crate::int::number::invert_if;

/// Short contents octets, such as those of a number (X.690, 8.3), at the end of a buffer that has
/// room for a header before them.
#[derive(Clone, Copy)]
pub(crate) struct Octets {
    buffer: [u8; 24],
    start: usize,
    ghost in_buffer: { start ≤ 24 },
}

/// Returns a number in 16 octets, with all bits inverted if it is negative.
#[inline(always)]
fn bits_of(negative: bool, magnitude: u128) -> u128
    ensures { IsTurned negative 16 magnitude result }
{
    if negative { !magnitude } else { magnitude }
}

/// Returns the octets of a number, after others that are all the same.
#[inline(always)]
fn behind(lead: u8, bits: u128) -> [u8; 24]
    ensures { result ≡ replicate 8 lead ++ to_be_bytes w128 bits }
{
    let [a, b, c, d, e, f, g, h, i, j, k, l, m, n, o, p] = bits.to_be_bytes();
    [
        lead, lead, lead, lead, lead, lead, lead, lead, a, b, c, d, e, f, g, h, i, j, k, l, m, n,
        o, p,
    ]
}

impl Octets {
    /// Creates the octets of `magnitude`, or of -1 minus `magnitude` if the number is negative.
    ///
    /// The low bits of the magnitude fill octets of eight bits each. An octet before them has the
    /// bits that are left over, and the sign.
    #[inline(always)]
    pub(crate) fn of(negative: bool, magnitude: u128) -> Octets
        ensures octets { drop result.start result.buffer
            ≡ integer_octets (complement_if negative magnitude) }
        ensures integer { AreInteger (complement_if negative magnitude)
            (drop result.start result.buffer) }
        ensures room { 7 ≤ result.start }
    {
        let others = (128 - magnitude.leading_zeros()) as usize / 8;
        let buffer = behind(invert_if(negative, 0), bits_of(negative, magnitude));
        Octets {
            buffer,
            start: 23 - others,
        }
    }

    /// Creates the octets of a signed integer.
    #[inline(always)]
    pub(crate) fn of_signed(x: i128) -> Octets
        ensures octets { drop result.start result.buffer ≡ integer_octets x }
        ensures integer { AreInteger x (drop result.start result.buffer) }
        ensures room { 7 ≤ result.start }
    {
        if x < 0 {
            Octets::of(true, (-1 - x) as u128)
        } else {
            Octets::of(false, x as u128)
        }
    }

    /// Adds an octet before the others.
    #[inline(always)]
    pub(crate) fn put_before(&mut self, octet: u8)
        requires { 0 < self.old.start }
        ensures octets { drop self.new.start self.new.buffer
            ≡ octet ∷ drop self.old.start self.old.buffer }
        ensures start { self.new.start + 1 ≡ self.old.start }
    {
        let before = self.start - 1;
        self.buffer[before] = octet;
        self.start = before;
    }

    /// Returns the last five octets of the buffer.
    #[inline(always)]
    pub(crate) fn last_five(&self) -> [u8; 5]
        ensures { result ≡ drop 19 self.now.buffer }
    {
        let [.., a, b, c, d, e] = self.buffer;
        [a, b, c, d, e]
    }

    /// Returns the number of octets.
    #[inline(always)]
    pub(crate) fn len(&self) -> usize
        ensures value { result ≡ length (drop self.now.start self.now.buffer) }
        ensures limit { result + self.now.start ≡ 24 }
    {
        24 - self.start
    }

    /// Returns the octets.
    #[inline(always)]
    pub(crate) fn as_slice(&self) -> &[u8]
        ensures { result.now ≡ drop self.now.start self.now.buffer }
    {
        &self.buffer[self.start..]
    }
}
