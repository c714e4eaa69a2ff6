//! Writing identifier octets (X.690, 8.1.2).
#![tactic(auto, using(crate::proofs::nat_tests), unfolding(crate::specs::x690::Identifier::identifier))]

ghost use Rattle.std.specs.Prelude.{◌≡◌, ◌<◌, ◌+◌, ◌++◌, Bool, length, OnOk, OnErr};
ghost use Rattle.std.specs.Prelude.{IfSome, IfNone, [], ◌∷◌};
ghost use Rattle.bcder.specs.calls.TagText.{class_meant};
ghost use Rattle.bcder.specs.steps.Buffer.{buffered};
ghost use Rattle.bcder.specs.x690.Identifier.{class_bits, form_bit, identifier};
ghost use Rattle.bcder.specs.x690.Identifier.{IsValueTag, end_of_contents};
ghost use Rattle.bcder.specs.calls.Encoders.{Appended, AppendedShorter};

use super::{Class, Tag};
use crate::encode::buffer::Buffer;
use crate::encode::target::write_octets;
use std::io;

impl Class {
    /// Returns bits 8 and 7 of the leading octet (8.1.2.2, table 1).
    fn bits(self) -> u8
        ensures value { result ≡ class_bits (class_meant self) }
        ensures limit { result < 193 }
    {
        match self {
            Class::Universal => 0x00,
            Class::Application => 0x40,
            Class::ContextSpecific => 0x80,
            Class::Private => 0xC0,
        }
    }
}

impl Tag {
    /// Returns how many identifier octets the tag has, in either form (8.1.2.2, 8.1.2.4): 1 to 4.
    pub fn encoded_len(self) -> usize
        ensures value { (form : Bool) → result ≡ length (identifier self form) }
        ensures limit { result < 5 }
    {
        if self.number < 31 {
            1
        } else if self.number < 128 {
            2
        } else if self.number < 16384 {
            3
        } else {
            4
        }
    }

    /// Returns how many identifier octets a value with the tag has.
    ///
    /// Returns `None` for the tag of the end-of-contents octets, which no value has. For most tags
    /// one test decides both.
    #[inline(always)]
    pub(crate) fn value_len(self) -> Option<usize>
        ensures some { IfSome result (λ n. IsValueTag self
            × ((form : Bool) → n ≡ length (identifier self form)) × (n < 5)) }
        ensures none { IfNone result (self ≡ end_of_contents) }
    {
        if self.number.wrapping_sub(1) < 30 {
            return Some(1);
        }
        if self.is_value() {
            Some(self.encoded_len())
        } else {
            None
        }
    }

    /// Returns the leading octet: class, form and five bits (8.1.2.2, 8.1.2.5).
    #[inline(always)]
    fn leading(self, constructed: bool, low: u8) -> u8
        requires { low < 32 }
        ensures { result ≡ class_bits self.class + form_bit constructed + low }
    {
        let mark = if constructed { 0x20 } else { 0x00 };
        self.class.bits() + mark + low
    }

    /// Returns the identifier octet, if there is only one (8.1.2.2).
    #[inline(always)]
    pub(crate) fn single_octet(self, constructed: bool) -> Option<u8>
        ensures { IfSome result (λ octet. identifier self constructed ≡ octet ∷ []) }
    {
        if self.number < 31 {
            Some(self.leading(constructed, self.number as u8))
        } else {
            None
        }
    }

    /// Writes the identifier octets of the tag, for a constructed or a primitive encoding (8.1.2).
    ///
    /// Those of `Tag::END_OF_VALUE` are written too.
    ///
    /// # Errors
    ///
    /// Returns the target's error, or `WriteZero` if the target accepted none of some octets. A
    /// proper prefix of the octets was then written.
    pub fn write_encoded<W: io::Write>(self, constructed: bool, target: &mut W) -> io::Result<()>
        ensures ok { OnOk result (Appended W.contents target (identifier self constructed)) }
        ensures refused { OnErr result
            (AppendedShorter W.contents target (identifier self constructed)) }
    {
        let mut buffer = Buffer::new();
        self.spell(constructed, &mut buffer);
        write_octets(target, buffer.as_slice())
    }

    /// Adds the identifier octets to those of a header.
    #[inline(always)]
    pub(crate) fn spell(self, constructed: bool, buffer: &mut Buffer)
        requires { buffer.old.len < 5 }
        ensures octets { buffered buffer.new ≡ buffered buffer.old ++ identifier self constructed }
        ensures limit { buffer.new.len < buffer.old.len + 5 }
    {
        let number = self.number;
        if number < 31 {
            return buffer.add(&[self.leading(constructed, number as u8)]);
        }
        let leading = self.leading(constructed, 31);
        if number < 128 {
            buffer.add(&[leading, number as u8])
        } else if number < 16384 {
            buffer.add(&[leading, (128 + number / 128) as u8, (number % 128) as u8])
        } else {
            buffer.add(&[
                leading,
                (128 + number / 16384) as u8,
                (128 + number / 128 % 128) as u8,
                (number % 128) as u8,
            ])
        }
    }
}
