//! Taking booleans, nulls and integers.
ghost use Rattle.bcder.specs.x690.Identifier.{boolean_tag, integer_tag, null_tag};
ghost use Rattle.bcder.specs.x690.Number.{IsNumber};
ghost use Rattle.bcder.specs.calls.Readers.{IsUnsigned, IsTruth, IsNull, IsThis, MeanAnother};
ghost use Rattle.bcder.specs.calls.Valued.{PassesNextAs, PassesNextBy, TakesNextAs, TakesOneAs};
ghost use Rattle.bcder.specs.calls.Valued.{TakesOneBy};
ghost use Rattle.bcder.specs.calls.Views.{Moved, before, of_constructed};

use super::Constructed;
use crate::decode::error::DecodeError;
use crate::decode::source::Source;
use crate::int::number::Number;
use crate::tag::Tag;

#[tactic(auto, using(crate::specs::laws::Moved::untouched_is_moved))]
impl<'a, S: Source> Constructed<'a, S> {
    /// Takes the next value, which has to be an INTEGER, as a number of type `N`.
    #[inline(always)]
    fn take_number<N: Number + Drop>(&mut self) -> Result<N, DecodeError<S::Error>>
        ensures moves { Moved S.stream self }
        ensures took { TakesOneAs integer_tag (IsNumber N.value N.in_range)
            (of_constructed S.stream self.old) result (of_constructed S.stream self.new) }
    {
        self.take_primitive_if(Tag::INTEGER, |octets| octets.read_number())
    }

    /// Takes the next value, which has to be a BOOLEAN (X.690, 8.2, 11.1).
    ///
    /// # Errors
    ///
    /// Returns the errors of [`take_opt_bool`](Self::take_opt_bool), and
    /// `ContentError::ExpectedTag` if that returns `None`. The content then stays usable.
    #[inline(always)]
    pub fn take_bool(&mut self) -> Result<bool, DecodeError<S::Error>>
        ensures moves { Moved S.stream self }
        ensures took { TakesOneAs boolean_tag (IsTruth (before S.stream self).mode)
            (of_constructed S.stream self.old) result (of_constructed S.stream self.new) }
    {
        self.take_primitive_if(Tag::BOOLEAN, |octets| octets.to_bool())
    }

    /// Takes the next value if it is a BOOLEAN (X.690, 8.2, 11.1).
    ///
    /// Returns `None` at the end of the content, and if the next value has another tag. That value
    /// is not taken.
    ///
    /// # Errors
    ///
    /// Returns an error if
    ///
    /// - octets come next that aren't identifier octets, or that have the tag BOOLEAN but aren't a
    ///   BOOLEAN that the mode allows;
    /// - an earlier value was refused;
    /// - the source fails.
    ///
    /// The content has then failed.
    #[inline(always)]
    pub fn take_opt_bool(&mut self) -> Result<Option<bool>, DecodeError<S::Error>>
        ensures moves { Moved S.stream self }
        ensures took { TakesNextAs boolean_tag (IsTruth (before S.stream self).mode)
            (of_constructed S.stream self.old) result (of_constructed S.stream self.new) }
    {
        self.take_opt_primitive_if(Tag::BOOLEAN, |octets| octets.to_bool())
    }

    /// Takes the next value, which has to be a NULL (X.690, 8.8).
    ///
    /// # Errors
    ///
    /// Returns the errors of [`take_opt_null`](Self::take_opt_null), and
    /// `ContentError::ExpectedTag` if there is no NULL. The content then stays usable.
    #[inline(always)]
    pub fn take_null(&mut self) -> Result<(), DecodeError<S::Error>>
        ensures moves { Moved S.stream self }
        ensures took { TakesOneAs null_tag IsNull (of_constructed S.stream self.old) result
            (of_constructed S.stream self.new) }
    {
        self.take_primitive_if(Tag::NULL, |octets| octets.to_null())
    }

    /// Takes the next value if it is a NULL (X.690, 8.8).
    ///
    /// Nothing is taken at the end of the content, or if the next value has another tag.
    ///
    /// # Errors
    ///
    /// Returns an error if
    ///
    /// - octets come next that aren't identifier octets, or that have the tag NULL but aren't a
    ///   NULL that the mode allows, which has no contents octets;
    /// - an earlier value was refused;
    /// - the source fails.
    ///
    /// The content has then failed.
    #[inline(always)]
    pub fn take_opt_null(&mut self) -> Result<(), DecodeError<S::Error>>
        ensures moves { Moved S.stream self }
        ensures took { PassesNextAs null_tag IsNull (of_constructed S.stream self.old) result
            (of_constructed S.stream self.new) }
    {
        match self.take_opt_primitive_if(Tag::NULL, |octets| octets.to_null()) {
            Ok(_) => Ok(()),
            Err(error) => Err(error),
        }
    }

    /// Takes the next value, which has to be an INTEGER (X.690, 8.3) that fits into a `u8`.
    ///
    /// # Errors
    ///
    /// Returns the errors of [`take_opt_u8`](Self::take_opt_u8), and `ContentError::ExpectedTag` if
    /// that returns `None`. The content then stays usable.
    #[inline(always)]
    pub fn take_u8(&mut self) -> Result<u8, DecodeError<S::Error>>
        ensures moves { Moved S.stream self }
        ensures took { TakesOneAs integer_tag (IsUnsigned 8) (of_constructed S.stream self.old)
            result (of_constructed S.stream self.new) }
    {
        self.take_number()
    }

    /// Takes the next value if it is an INTEGER (X.690, 8.3), which then has to fit into a `u8`.
    ///
    /// Returns `None` at the end of the content, and if the next value has another tag. That value
    /// is not taken.
    ///
    /// # Errors
    ///
    /// Returns an error if
    ///
    /// - octets come next that aren't identifier octets, or that have the tag INTEGER but aren't an
    ///   INTEGER that the mode allows and a `u8` holds;
    /// - an earlier value was refused;
    /// - the source fails.
    ///
    /// The content has then failed.
    #[inline(always)]
    pub fn take_opt_u8(&mut self) -> Result<Option<u8>, DecodeError<S::Error>>
        ensures moves { Moved S.stream self }
        ensures took { TakesNextAs integer_tag (IsUnsigned 8) (of_constructed S.stream self.old)
            result (of_constructed S.stream self.new) }
    {
        self.take_opt_primitive_if(Tag::INTEGER, |octets| octets.to_u8())
    }

    /// Takes the next value, which has to be an INTEGER (X.690, 8.3) that fits into a `u16`.
    ///
    /// # Errors
    ///
    /// Returns the errors of [`take_opt_u16`](Self::take_opt_u16), and `ContentError::ExpectedTag`
    /// if that returns `None`. The content then stays usable.
    #[inline(always)]
    pub fn take_u16(&mut self) -> Result<u16, DecodeError<S::Error>>
        ensures moves { Moved S.stream self }
        ensures took { TakesOneAs integer_tag (IsUnsigned 16) (of_constructed S.stream self.old)
            result (of_constructed S.stream self.new) }
    {
        self.take_number()
    }

    /// Takes the next value if it is an INTEGER (X.690, 8.3), which then has to fit into a `u16`.
    ///
    /// Returns `None` at the end of the content, and if the next value has another tag. That value
    /// is not taken.
    ///
    /// # Errors
    ///
    /// Returns the errors of [`take_opt_u8`](Self::take_opt_u8), for this type.
    #[inline(always)]
    pub fn take_opt_u16(&mut self) -> Result<Option<u16>, DecodeError<S::Error>>
        ensures moves { Moved S.stream self }
        ensures took { TakesNextAs integer_tag (IsUnsigned 16) (of_constructed S.stream self.old)
            result (of_constructed S.stream self.new) }
    {
        self.take_opt_primitive_if(Tag::INTEGER, |octets| octets.to_u16())
    }

    /// Takes the next value, which has to be an INTEGER (X.690, 8.3) that fits into a `u32`.
    ///
    /// # Errors
    ///
    /// Returns the errors of [`take_opt_u32`](Self::take_opt_u32), and `ContentError::ExpectedTag`
    /// if that returns `None`. The content then stays usable.
    #[inline(always)]
    pub fn take_u32(&mut self) -> Result<u32, DecodeError<S::Error>>
        ensures moves { Moved S.stream self }
        ensures took { TakesOneAs integer_tag (IsUnsigned 32) (of_constructed S.stream self.old)
            result (of_constructed S.stream self.new) }
    {
        self.take_number()
    }

    /// Takes the next value if it is an INTEGER (X.690, 8.3), which then has to fit into a `u32`.
    ///
    /// Returns `None` at the end of the content, and if the next value has another tag. That value
    /// is not taken.
    ///
    /// # Errors
    ///
    /// Returns the errors of [`take_opt_u8`](Self::take_opt_u8), for this type.
    #[inline(always)]
    pub fn take_opt_u32(&mut self) -> Result<Option<u32>, DecodeError<S::Error>>
        ensures moves { Moved S.stream self }
        ensures took { TakesNextAs integer_tag (IsUnsigned 32) (of_constructed S.stream self.old)
            result (of_constructed S.stream self.new) }
    {
        self.take_opt_primitive_if(Tag::INTEGER, |octets| octets.to_u32())
    }

    /// Takes the next value, which has to be an INTEGER (X.690, 8.3) that fits into a `u64`.
    ///
    /// # Errors
    ///
    /// Returns the errors of [`take_opt_u64`](Self::take_opt_u64), and `ContentError::ExpectedTag`
    /// if that returns `None`. The content then stays usable.
    #[inline(always)]
    pub fn take_u64(&mut self) -> Result<u64, DecodeError<S::Error>>
        ensures moves { Moved S.stream self }
        ensures took { TakesOneAs integer_tag (IsUnsigned 64) (of_constructed S.stream self.old)
            result (of_constructed S.stream self.new) }
    {
        self.take_number()
    }

    /// Takes the next value if it is an INTEGER (X.690, 8.3), which then has to fit into a `u64`.
    ///
    /// Returns `None` at the end of the content, and if the next value has another tag. That value
    /// is not taken.
    ///
    /// # Errors
    ///
    /// Returns the errors of [`take_opt_u8`](Self::take_opt_u8), for this type.
    #[inline(always)]
    pub fn take_opt_u64(&mut self) -> Result<Option<u64>, DecodeError<S::Error>>
        ensures moves { Moved S.stream self }
        ensures took { TakesNextAs integer_tag (IsUnsigned 64) (of_constructed S.stream self.old)
            result (of_constructed S.stream self.new) }
    {
        self.take_opt_primitive_if(Tag::INTEGER, |octets| octets.to_u64())
    }

    /// Takes the next value, which has to be the INTEGER with this value.
    ///
    /// # Errors
    ///
    /// Returns the errors of [`skip_opt_u8_if`](Self::skip_opt_u8_if), and
    /// `ContentError::ExpectedTag` if there is no INTEGER. The content then stays usable.
    #[inline(always)]
    pub fn skip_u8_if(&mut self, expected: u8) -> Result<(), DecodeError<S::Error>>
        ensures moves { Moved S.stream self }
        ensures took { TakesOneBy integer_tag (IsThis 8 expected) (MeanAnother expected)
            (of_constructed S.stream self.old) result (of_constructed S.stream self.new) }
    {
        self.take_primitive_if(Tag::INTEGER, |octets| octets.skip_u8_if(expected))
    }

    /// Takes the next value if it is an INTEGER, which then has to have this value.
    ///
    /// Nothing is taken at the end of the content, or if the next value has another tag.
    ///
    /// # Errors
    ///
    /// Returns `ContentError::ExpectedInteger` if another integer comes next that a `u8` holds.
    /// Returns the errors of [`take_opt_u8`](Self::take_opt_u8) as well. The content has then
    /// failed.
    #[inline(always)]
    pub fn skip_opt_u8_if(&mut self, expected: u8) -> Result<(), DecodeError<S::Error>>
        ensures moves { Moved S.stream self }
        ensures took { PassesNextBy integer_tag (IsThis 8 expected) (MeanAnother expected)
            (of_constructed S.stream self.old) result (of_constructed S.stream self.new) }
    {
        match self.take_opt_primitive_if(Tag::INTEGER, |octets| octets.skip_u8_if(expected)) {
            Ok(_) => Ok(()),
            Err(error) => Err(error),
        }
    }
}
