//! A value of any type, kept as its encoding.
ghost use Rattle.std.specs.Prelude.{◌≡◌, IfOk, IfErr, Option, true, [], ◌∷◌};
ghost use Rattle.bcder.specs.calls.Captured.{kept_stream};
ghost use Rattle.bcder.specs.calls.Capturing.{CapturesNext};
ghost use Rattle.bcder.specs.calls.Gathered.{KeptMeans};
ghost use Rattle.bcder.specs.calls.Views.{Moved, before, after};
ghost use Rattle.bcder.specs.laws.Gathered.{kept_lawful};
ghost use Rattle.bcder.specs.x690.Identifier.{null_tag};
ghost use Rattle.bcder.specs.x690.Tree.{Tree};
ghost use Rattle.asn1.specs.Anything.{Every, IsOneValue, KeepsValue, kept_value};
ghost use Rattle.asn1.specs.Decoded.{IsValueOf, RefusesAll};
ghost use Rattle.asn1.specs.Tags.{null_tagged};
ghost use Rattle.asn1.specs.declared.trace.Part.TheVariants.{AnyExpected};

use crate::{Decode, Encode, Part, Trace, Type, decode};
use bcder::decode::{BytesSource, Constructed, DecodeError, Source};
use bcder::encode::{EncodeError, Values, WriteError};
use bcder::{Captured, Mode, Tag};
use std::alloc::{AllocError, Global};
use std::convert::Infallible;
use std::marker::Model;
use std::{fmt, io};

/// One value of whatever type, kept as its encoding: `ANY DEFINED BY` of older modules, and the
/// open types of X.681, as the parameters of an algorithm.
///
/// [`decode_as`](Any::decode_as) reads it as a value of a type. Two are the same if they are
/// encodings of the same value. It has no tag of its own, so it can't be tagged implicitly
/// (X.680, 31.2.7).
#[derive(Drop)]
pub struct Any {
    captured: Captured,
    mode: Mode,
}

/// In clauses it is what is kept.
impl Model for Any {
    ghost use Rattle.bcder.specs.calls.Captured.{Kept};
    ghost use Rattle.asn1.specs.Anything.{KeepsOne};

    ghost Value = { Kept };

    ghost view = { λ x. x.captured };

    ghost invariant = { λ x. KeepsOne x.mode x.captured };
}

impl Any {
    /// Takes the next value, whatever its type, or returns `None` at the end of the content, whose
    /// marker it takes.
    ///
    /// This is [`Constructed::capture_opt_one`]: what is kept are the octets that come next.
    ///
    /// # Errors
    ///
    /// Those of `capture_opt_one`. The content has then failed.
    #[inline(always)]
    pub fn take_opt<S: Source>(
        alloc: Global,
        cons: &mut Constructed<'_, S>,
    ) -> Result<Option<Any>, DecodeError<S::Error>>
        ensures moves { Moved S.stream cons }
        ensures captured { CapturesNext (before S.stream cons) result (after S.stream cons) }
    {
        let mode = cons.mode();
        match cons.capture_opt_one(alloc) {
            Ok(Some(captured)) => Ok(Some(Any { captured, mode })),
            Ok(None) => Ok(None),
            Err(error) => Err(error),
        }
    }

    /// Returns the rules in which it is encoded.
    pub fn mode(&self) -> Mode
        ensures { result ≡ self.now.mode }
    {
        self.mode
    }

    /// Lends its encoding.
    pub fn as_slice(&self) -> &[u8]
        ensures octets { result.now ≡ self.now.octets }
        ensures one { IsOneValue self.now }
    {
        self.captured.as_slice()
    }

    /// Lends its encoding, as captured values, of which it is the only one.
    pub fn captured(&self) -> &Captured
        ensures captured { result.now ≡ self.now }
        ensures one { IsOneValue result.now }
    {
        &self.captured
    }

    /// Returns its encoding, as captured values.
    pub fn into_captured(self) -> Captured
        ensures captured { result ≡ self }
        ensures one { IsOneValue result }
    {
        self.captured
    }

    /// Decodes it as a value of a type, in the rules in which it is kept.
    ///
    /// # Errors
    ///
    /// Returns an error if it is no value of the type, or if memory runs out, which only a type
    /// that may lack it returns.
    pub fn decode_as<T: Type + Decode<BytesSource>>(
        self,
        alloc: Global,
    ) -> Result<T, DecodeError<Infallible>>
        ensures value { IfOk result (λ x.
            IsValueOf self.mode (T.tags T.TAG) (T.means self.mode) self.octets x) }
        ensures refused { IfErr result (λ e.
            RefusesAll self.mode (T.tags T.TAG) (T.means self.mode) T.may_lack (kept_stream self)
            e) }
    {
        let mode = self.mode;
        decode(alloc, mode, self.captured)
    }
}

/// The clone is the same encoding.
impl Clone for Any {
    ghost is_clone = { λ x copy. copy ≡ x };

    fn clone(&self) -> Result<Any, AllocError> {
        Ok(Any {
            captured: self.captured.clone()?,
            mode: self.mode,
        })
    }
}

/// Writes the octets as [`Captured`] does.
impl fmt::Debug for Any {
    fn fmt<W: fmt::Write>(&self, f: &mut fmt::Formatter<W>) -> fmt::Result {
        self.captured.fmt(f)
    }
}

/// Values of every tag, whatever tag is asked for.
impl Type for Any {
    ghost TAG = { null_tag };

    #[inline(always)]
    fn tag() -> Tag {
        Tag::NULL
    }

    ghost expects = { λ _. AnyExpected ∷ [] };

    fn expect<P: Trace>(path: &mut P) {
        path.note(Part::AnyExpected);
    }

    ghost tags = { Every };

    ghost Key = { Option Tree };

    ghost key = { kept_value };

    ghost means = { λ mode t x. KeepsValue mode t x };

    fn values_are_one() {}

    ghost tagged = { null_tagged };

    ghost value_tags = { λ t h. h };
}

impl<S: Source> Decode<S> for Any {
    ghost may_lack = { true };

    #[inline(always)]
    fn trace_opt_if<P: Trace>(
        alloc: Global,
        cons: &mut Constructed<'_, S>,
        _tag: Tag,
        _path: &mut P,
    ) -> Result<Option<Any>, DecodeError<S::Error>> {
        Any::take_opt(alloc, cons)
    }
}

/// It is written as it is kept, and also in BER, since an encoding in CER or DER is one in BER too.
impl Encode for Any {
    ghost writes = { λ _ x mode. KeptMeans x mode };

    ghost is_clear = { λ x _. IsOneValue x };

    fn encoded_len_as(&self, _tag: Tag, mode: Mode) -> Result<usize, EncodeError> {
        self.captured.encoded_len(mode)
    }

    fn write_encoded_as<W: io::Write>(
        &self,
        _tag: Tag,
        mode: Mode,
        target: &mut W,
    ) -> Result<(), WriteError> {
        self.captured.write_encoded(mode, target)
    }

    fn is_read_back(_tag: Tag, _mode: Mode) {
        let _known = (_tag, _mode);
    }

    ghost lawful = { λ _ x mode. kept_lawful x mode };
}
