//! Values that are kept as their encodings.
ghost use Rattle.std.specs.Prelude.{◌≡◌, [], IfOk, IfErr, OnErr};
ghost use Rattle.bcder.specs.calls.Captured.{AreWhole, kept_stream};
ghost use Rattle.bcder.specs.calls.Captured.{CallableOnKept, LawfulOnKept, DecodesPart};
ghost use Rattle.bcder.specs.calls.Captured.{RefusesPart};
ghost use Rattle.bcder.specs.calls.Calls.{MayBeCalledOn, IsLawfulOn};
ghost use Rattle.bcder.specs.calls.Cause.{cause_of};
ghost use Rattle.bcder.specs.calls.Decoding.{IsAllOf, Decodes, RefusesDecode};
ghost use Rattle.bcder.specs.calls.Stream.{Stream};
ghost use Rattle.bcder.specs.calls.Decoding.{DecodesWhole, RefusesWhole};
ghost use Rattle.bcder.specs.calls.Views.{of_constructed};
ghost use Rattle.bcder.specs.calls.Gathered.{none_kept, from_start, GathersValues};

mod builder;
mod values;

use crate::NoMemory;
use crate::decode::{BytesSource, Constructed, DecodeError, IntoSource, Pos, Source};
use crate::encode::{EncodeError, Values};
use crate::mode::Mode;
pub use builder::CapturedBuilder;
use bytes::Bytes;
use std::alloc::{AllocError, Global};
use std::convert::{AsRef, AsSlice, Infallible};
use std::fmt;
use std::marker::Model;
use std::ops::Deref;

/// A list of values, kept as their encodings in a mode, one after the other (X.690, 8.1.1).
///
/// The octets are shared: a clone copies none. For messages, the position is kept where they began
/// in the source that they come from.
#[derive(Drop)]
pub struct Captured {
    octets: Bytes,
    mode: Mode,
    start: Pos,
}

impl Model for Captured {
    ghost use Rattle.bcder.specs.calls.Captured.{Kept, AreWhole};

    ghost Value = { Kept };

    ghost view = { λ c. record { mode = c.mode; octets = c.octets; start = c.start } };

    ghost invariant = { λ c. AreWhole c.mode c.octets };
}

/// Returns the octets in a vector, without a copy if nothing else shares their block.
fn into_vec(alloc: Global, octets: Bytes) -> Result<Vec<u8>, NoMemory>
    ensures { IfOk result (λ v. v.items ≡ octets) }
{
    match octets.try_into_mut() {
        Ok(octets) => match octets.into_vec() {
            Ok(octets) => Ok(octets),
            Err(_) => Err(NoMemory),
        },
        Err(octets) => Ok(Vec::from_slice(alloc, octets.as_slice())?),
    }
}

impl Captured {
    /// Creates captured values from their encodings in a mode, and the position where these began.
    pub(crate) fn new(octets: Bytes, mode: Mode, start: Pos) -> Captured
        requires { AreWhole mode octets }
        ensures mode { result.mode ≡ mode }
        ensures octets { result.octets ≡ octets }
        ensures start { result.start ≡ start }
    {
        Captured {
            octets,
            mode,
            start,
        }
    }

    /// Creates a list of no values, in a mode, at position 0.
    pub fn empty(_alloc: Global, mode: Mode) -> Captured
        ensures mode { result.mode ≡ mode }
        ensures octets { result.octets ≡ [] }
        ensures start { result.start ≡ 0 }
    {
        Captured {
            octets: Bytes::new(),
            mode,
            start: Pos::default(),
        }
    }

    /// Captures the values of an encoder, in a mode, at position 0.
    ///
    /// The octets are what the encoder writes in the mode: an encoding of its values, in CER and
    /// DER the only one (X.690, 9.1, 10.1). Memory for them is requested once.
    ///
    /// # Errors
    ///
    /// Returns the errors of the encoder's `encoded_len`, and `NoMemory` if there are octets and
    /// memory runs out for them.
    pub fn from_values<V: Values + Drop>(
        alloc: Global,
        mode: Mode,
        values: V,
    ) -> Result<Captured, EncodeError>
        requires { V.can_encode values }
        ensures { GathersValues (V.means values mode) (V.may_lack values mode) mode result }
    {
        let mut builder = Captured::builder(alloc, mode);
        builder.extend(values)?;
        match builder.freeze() {
            Ok(captured) => Ok(captured),
            Err(NoMemory) => Err(EncodeError::NoMemory),
        }
    }

    /// Creates a builder without values, in a mode.
    pub fn builder(alloc: Global, mode: Mode) -> CapturedBuilder
        ensures { result ≡ none_kept mode }
    {
        CapturedBuilder::new(alloc, mode)
    }

    /// Turns this into a builder with these values, to which more can be added. It begins at
    /// position 0.
    ///
    /// The octets are copied if they are shared.
    ///
    /// # Errors
    ///
    /// Returns `NoMemory` if memory runs out for the copy.
    pub fn into_builder(self, alloc: Global) -> Result<CapturedBuilder, NoMemory>
        ensures { IfOk result (λ b. b ≡ from_start self) }
    {
        let Captured {
            octets,
            mode,
            start: _,
        } = self;
        Ok(CapturedBuilder::from_octets(into_vec(alloc, octets)?, mode))
    }

    /// Decodes the values, in the mode that they are kept in.
    ///
    /// The closure gets all of them, as with [`Mode::decode`]. Octets that it leaves aren't looked
    /// at.
    ///
    /// # Errors
    ///
    /// Returns the errors of [`Constructed::decode`].
    pub fn decode<F, T: Drop>(self, op: F) -> Result<T, DecodeError<Infallible>>
    where
        F: FnOnce(&mut Constructed<'_, BytesSource>) -> Result<T, DecodeError<Infallible>>,
        requires callable { MayBeCalledOn (of_constructed ⟦<BytesSource as Source>⟧.stream)
            (IsAllOf (kept_stream self) self.mode) (F.pre op) }
        requires lawful { IsLawfulOn (of_constructed ⟦<BytesSource as Source>⟧.stream)
            (IsAllOf (kept_stream self) self.mode) (F.post op) }
        ensures ok { IfOk result (λ x. (left : Stream)
            × Decodes (of_constructed ⟦<BytesSource as Source>⟧.stream) (F.post op)
            (kept_stream self) self.mode x left) }
        ensures refused { IfErr result (λ e. (left : Stream)
            × RefusesDecode cause_of (of_constructed ⟦<BytesSource as Source>⟧.stream) (F.post op)
            (kept_stream self) self.mode e left) }
    {
        let mode = self.mode;
        Constructed::decode(self, mode, op)
    }

    /// Decodes all values, in the mode that they are kept in. The closure has to take all of them,
    /// as for [`Mode::decode_all`].
    ///
    /// # Errors
    ///
    /// Returns the errors of [`Constructed::decode_all`].
    pub fn decode_all<F, T: Drop>(self, op: F) -> Result<T, DecodeError<Infallible>>
    where
        F: FnOnce(&mut Constructed<'_, BytesSource>) -> Result<T, DecodeError<Infallible>>,
        requires callable { MayBeCalledOn (of_constructed ⟦<BytesSource as Source>⟧.stream)
            (IsAllOf (kept_stream self) self.mode) (F.pre op) }
        requires lawful { IsLawfulOn (of_constructed ⟦<BytesSource as Source>⟧.stream)
            (IsAllOf (kept_stream self) self.mode) (F.post op) }
        ensures ok { IfOk result (λ x.
            DecodesWhole (of_constructed ⟦<BytesSource as Source>⟧.stream) (F.post op)
            (kept_stream self) self.mode x) }
        ensures refused { IfErr result (λ e.
            RefusesWhole (of_constructed ⟦<BytesSource as Source>⟧.stream) (F.post op)
            (kept_stream self) self.mode e) }
    {
        let mode = self.mode;
        Constructed::decode_all(self, mode, op)
    }

    /// Decodes the first values, and keeps the others.
    ///
    /// The closure gets all values. What it leaves is kept, in the same mode as before, and at the
    /// position where it begins in the source.
    ///
    /// # Errors
    ///
    /// Returns the errors of [`Constructed::decode_lent`], and an error if memory runs out. The
    /// values are then as they were.
    pub fn decode_partial<F, T: Drop>(&mut self, op: F) -> Result<T, DecodeError<Infallible>>
    where
        F: FnOnce(&mut Constructed<'_, &mut BytesSource>) -> Result<T, DecodeError<Infallible>>,
        requires callable { CallableOnKept ⟦<BytesSource as Source>⟧.stream self.old (F.pre op) }
        requires lawful { LawfulOnKept ⟦<BytesSource as Source>⟧.stream self.old (F.post op) }
        ensures ok { DecodesPart ⟦<BytesSource as Source>⟧.stream (F.post op) self result }
        ensures refused { RefusesPart ⟦<BytesSource as Source>⟧.stream (F.post op) self result }
        ensures unchanged { OnErr result (self.new ≡ self.old) }
    {
        let Ok(octets) = self.octets.clone() else {
            return Err(DecodeError::no_memory());
        };
        let mut source = BytesSource::with_offset(octets, self.start);
        let value = Constructed::decode_lent(&mut source, self.mode, op)?;
        self.start = source.pos();
        let left = source.into_bytes();
        self.octets = left;
        Ok(value)
    }

    /// Returns the octets.
    pub fn into_bytes(self) -> Bytes
        ensures value { result ≡ self.octets }
        ensures whole { AreWhole self.mode result }
    {
        self.octets
    }

    /// Lends the octets.
    pub fn as_slice(&self) -> &[u8]
        ensures value { result.now ≡ self.now.octets }
        ensures whole { AreWhole self.now.mode result.now }
    {
        self.octets.as_slice()
    }

    /// Returns the octets, shared.
    ///
    /// # Errors
    ///
    /// Returns `NoMemory` if memory runs out for sharing them.
    pub fn bytes(&self) -> Result<Bytes, NoMemory>
        ensures value { IfOk result (λ b. b ≡ self.now.octets) }
        ensures whole { IfOk result (λ b. AreWhole self.now.mode b) }
    {
        Ok(self.octets.clone()?)
    }
}

/// Dereferences to the octets.
impl Deref for Captured {
    type Target = Bytes;

    ghost deref_gives = { λ c b. b ≡ c.octets };

    fn deref(&self) -> &Bytes {
        &self.octets
    }
}

/// Lends the octets.
impl AsRef<Bytes> for Captured {
    fn as_ref(&self) -> &Bytes
        ensures { result.now ≡ self.now.octets }
    {
        &self.octets
    }
}

/// Lends the octets.
impl AsSlice<u8> for Captured {
    ghost items = { λ c. c.octets };

    fn as_slice(&self) -> &[u8] {
        Captured::as_slice(self)
    }
}

/// Gives the octets from the position where they began.
impl IntoSource for Captured {
    type Source = BytesSource;

    ghost gives = { kept_stream };

    fn into_source(self) -> BytesSource {
        BytesSource::with_offset(self.octets, self.start)
    }
}

/// The clone has the same octets in the same mode, from the same position.
impl Clone for Captured {
    ghost is_clone = { λ c copy. copy ≡ c };

    fn clone(&self) -> Result<Captured, AllocError> {
        Ok(Captured {
            octets: self.octets.clone()?,
            mode: self.mode,
            start: self.start,
        })
    }
}

/// Writes the octets in hexadecimal, in groups of four.
impl fmt::Debug for Captured {
    fn fmt<W: fmt::Write>(&self, f: &mut fmt::Formatter<W>) -> fmt::Result {
        write!(f, "[ ")?;
        for (index, octet) in self.as_slice().iter().enumerate() {
            write!(f, "{octet:02x} ")?;
            if index % 4 == 3 {
                write!(f, " ")?;
            }
        }
        write!(f, "]")
    }
}
