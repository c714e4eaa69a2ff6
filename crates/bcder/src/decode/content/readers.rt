//! Reading the contents octets of a primitive value as what they mean.
ghost use Rattle.std.specs.Prelude.{◌≡◌, ◌≤◌, [], false, Some, IfOk, IfErr, OnOk};
ghost use Rattle.std.specs.Int.{w8, w16, w32, w64, w128};
ghost use Rattle.bcder.specs.calls.Readers.{AreNot};
ghost use Rattle.bcder.specs.x690.Number.{IsNumber};
ghost use Rattle.bcder.specs.x690.Integer.{truth, IsSmallest, Leads};
ghost use Rattle.bcder.specs.calls.Readers.{AreNeverRefused, LooksAt, ReadBy, RefusesReading};
ghost use Rattle.bcder.specs.calls.Readers.{FindNoMemory, ReadOctets};
ghost use Rattle.bcder.specs.calls.Readers.{IsNull, IsSigned, IsTruth, IsUnsigned, Told, Untold};
ghost use Rattle.bcder.specs.calls.Readers.{ToldOf};
ghost use Rattle.bcder.specs.calls.Readers.{IsThis, MeanAnother, NoUnsigned};
ghost use Rattle.bcder.specs.calls.Cause.{cause_of, of_content};
ghost use Rattle.bcder.specs.calls.Stream.{borrowed, limited};
ghost use Rattle.bcder.specs.laws.Limits.{borrowed_sound, limited_sound};
ghost use Rattle.bcder.specs.calls.Views.{of_primitive, octets_before, octets_after, MovedOctets};
ghost use Rattle.bcder.specs.steps.Remaining.{HasAll};

mod bits;
mod characters;
mod identifier;
mod lent;
mod octets;

use super::Primitive;
use crate::NoMemory;
use crate::decode::error::{ContentError, DecodeError};
use crate::decode::source::{Pos, Source};
use crate::int::number::{Number, is_smallest, is_unsigned, number_at};
use crate::mode::Mode;
use bytes::Bytes;
use std::alloc::Global;

/// Returns the boolean that contents octets mean, if they mean one (X.690, 8.2, 11.1).
#[inline(always)]
fn truth_at(mode: Mode, octets: &[u8]) -> Option<bool>
    ensures { result ≡ truth mode octets.now }
{
    match octets {
        [0x00] => Some(false),
        [0xFF] => Some(true),
        [_] => match mode {
            Mode::Ber => Some(true),
            Mode::Cer => None,
            Mode::Der => None,
        },
        _ => None,
    }
}

#[tactic(auto, using(crate::proofs::moves), unfolding(crate::specs::calls::Views::of_primitive))]
impl<'a, S: Source> Primitive<'a, S> {
    /// Requests all octets that are owed, and returns how many they are.
    #[inline(always)]
    fn request_all(&mut self) -> Result<usize, DecodeError<S::Error>>
        ensures moves { MovedOctets S.stream self }
        ensures found { IfOk result (λ n. HasAll n (octets_before S.stream self)) }
        ensures at_hand { IfOk result (λ n. n ≤ (octets_after S.stream self).stream.avail) }
        ensures no_fault { OnOk result (
            (octets_after S.stream self).stream.faults
            ≡ (octets_before S.stream self).stream.faults) }
        ensures refused { IfErr result (λ e.
            RefusesReading AreNeverRefused (octets_before S.stream self) e
            (octets_after S.stream self)) }
        ensures rest { (octets_after S.stream self).stream.rest
            ≡ (octets_before S.stream self).stream.rest }
        ensures owed { (octets_after S.stream self).owed ≡ (octets_before S.stream self).owed }
        ensures mode { (octets_after S.stream self).mode ≡ (octets_before S.stream self).mode }
        ensures marked { (octets_after S.stream self).marked
            ≡ (octets_before S.stream self).marked }
    {
        match self.source.limit() {
            Some(owed) => match self.source.request(owed) {
                Ok(found) => {
                    if found < owed {
                        return self.refuse_too_few();
                    }
                    Ok(owed)
                }
                Err(error) => Err(DecodeError::Source(error)),
            },
            None => self.refuse_too_few(),
        }
    }

    /// Returns all octets that are owed, which have to be at hand.
    #[inline(always)]
    fn all(&self, len: usize) -> &[u8]
        requires found { HasAll len (of_primitive S.stream self.now) }
        requires at_hand { len ≤ (of_primitive S.stream self.now).stream.avail }
        ensures { result.now ≡ (of_primitive S.stream self.now).stream.rest }
    {
        &self.source.slice()[..len]
    }

    /// Returns all octets that are owed, which have to be at hand, as `Bytes`.
    fn bytes_of_all(&self, alloc: Global, len: usize) -> Result<Bytes, NoMemory>
        requires found { HasAll len (of_primitive S.stream self.now) }
        requires at_hand { len ≤ (of_primitive S.stream self.now).stream.avail }
        ensures { IfOk result (λ b. b ≡ (of_primitive S.stream self.now).stream.rest) }
    {
        self.source.bytes(alloc, 0, len)
    }

    /// Lends all octets that are owed to the closure.
    #[inline(always)]
    fn lend_all<F, T: Drop>(&self, len: usize, op: F) -> T
    where
        F: FnOnce(&[u8]) -> T,
        requires found { HasAll len (of_primitive S.stream self.now) }
        requires at_hand { len ≤ (of_primitive S.stream self.now).stream.avail }
        requires callable { (p : _) → p.now ≡ (of_primitive S.stream self.now).stream.rest
            → F.pre op p }
        ensures { ToldOf (λ p. p.now) (F.post op)
            (of_primitive S.stream self.now).stream.rest result }
    {
        op(self.all(len))
    }

    /// Passes over all octets that are owed.
    #[inline(always)]
    fn pass_all(&mut self, len: usize)
        requires found { HasAll len (of_primitive S.stream self.old) }
        requires at_hand { len ≤ (of_primitive S.stream self.old).stream.avail }
        ensures moves { MovedOctets S.stream self }
        ensures none_left { (octets_after S.stream self).stream.rest ≡ [] }
        ensures none_owed { (octets_after S.stream self).owed ≡ Some 0 }
        ensures no_fault { (octets_after S.stream self).stream.faults
            ≡ (octets_before S.stream self).stream.faults }
        ensures mode { (octets_after S.stream self).mode ≡ (octets_before S.stream self).mode }
        ensures marked { (octets_after S.stream self).marked
            ≡ (octets_before S.stream self).marked }
    {
        self.source.advance(len);
    }
}

#[tactic(auto, using(crate::proofs::moves, crate::proofs::Reading::refuses_missing))]
impl<'a, S: Source> Primitive<'a, S> {
    /// Reads all octets that are owed as a number of type `N`, and takes them.
    #[inline]
    pub(super) fn read_number<N: Number>(&mut self) -> Result<N, DecodeError<S::Error>>
        ensures moves { MovedOctets S.stream self }
        ensures read { ReadOctets S.stream self (IsNumber N.value N.in_range) result }
    {
        let len = match self.request_all() {
            Ok(len) => len,
            Err(error) => return Err(error),
        };
        let Some(number) = number_at(self.all(len)) else {
            return self.refuse("no integer of this type");
        };
        self.pass_all(len);
        Ok(number)
    }

    /// Reads all octets as a BOOLEAN (X.690, 8.2), and takes them.
    ///
    /// In BER this is one octet: 0 is false, and any other is true. In CER and DER true is `FF`
    /// (11.1).
    ///
    /// # Errors
    ///
    /// Returns an error if the octets aren't such a value, if fewer octets come than the length
    /// promises, or if the source fails. No octet is then taken.
    #[inline]
    pub fn to_bool(&mut self) -> Result<bool, DecodeError<S::Error>>
        ensures moves { MovedOctets S.stream self }
        ensures read { ReadOctets S.stream self
            (IsTruth (octets_before S.stream self).mode) result }
    {
        let len = match self.request_all() {
            Ok(len) => len,
            Err(error) => return Err(error),
        };
        match truth_at(self.mode(), self.all(len)) {
            Some(truth) => {
                self.pass_all(len);
                Ok(truth)
            }
            None => self.refuse("no boolean"),
        }
    }

    /// Checks that there are no octets, since NULL has none (X.690, 8.8).
    ///
    /// # Errors
    ///
    /// Returns an error if the length promises octets, or if no length is known. No octet is then
    /// taken.
    #[inline(always)]
    pub fn to_null(&mut self) -> Result<(), DecodeError<S::Error>>
        ensures moves { MovedOctets S.stream self }
        ensures read { ReadOctets S.stream self IsNull result }
    {
        let len = match self.request_all() {
            Ok(len) => len,
            Err(error) => return Err(error),
        };
        if len == 0 {
            self.pass_all(len);
            Ok(())
        } else {
            self.refuse("octets in a null")
        }
    }

    /// Takes all octets.
    ///
    /// # Errors
    ///
    /// Returns an error if fewer octets come than the length promises, if the source fails, or if
    /// memory runs out. No octet is then taken.
    #[inline(always)]
    pub fn take_all(&mut self, alloc: Global) -> Result<Bytes, DecodeError<S::Error>>
        ensures moves { MovedOctets S.stream self }
        ensures read { ReadBy S.stream self (λ w b. b ≡ w) FindNoMemory result }
    {
        let len = match self.request_all() {
            Ok(len) => len,
            Err(error) => return Err(error),
        };
        match self.bytes_of_all(alloc, len) {
            Ok(octets) => {
                self.pass_all(len);
                Ok(octets)
            }
            Err(_) => Err(DecodeError::no_memory()),
        }
    }

    /// Takes all octets if they are contents octets of an integer.
    #[inline(always)]
    pub(crate) fn take_integer(&mut self, alloc: Global) -> Result<Bytes, DecodeError<S::Error>>
        ensures moves { MovedOctets S.stream self }
        ensures read { ReadBy S.stream self (λ w b. (b ≡ w) × IsSmallest w) (AreNot IsSmallest) result }
    {
        let len = match self.request_all() {
            Ok(len) => len,
            Err(error) => return Err(error),
        };
        if !is_smallest(self.all(len)) {
            return self.refuse("no integer");
        }
        match self.bytes_of_all(alloc, len) {
            Ok(octets) => {
                self.pass_all(len);
                Ok(octets)
            }
            Err(_) => Err(DecodeError::no_memory()),
        }
    }

    /// Takes all octets if they are contents octets of an integer that isn't negative.
    #[inline(always)]
    pub(crate) fn take_unsigned(&mut self, alloc: Global) -> Result<Bytes, DecodeError<S::Error>>
        ensures moves { MovedOctets S.stream self }
        ensures read { ReadBy S.stream self
            (λ w b. (b ≡ w) × IsSmallest w × Leads false w) NoUnsigned result }
    {
        let len = match self.request_all() {
            Ok(len) => len,
            Err(error) => return Err(error),
        };
        if !is_unsigned(self.all(len)) {
            return self.refuse("no integer that isn't negative");
        }
        match self.bytes_of_all(alloc, len) {
            Ok(octets) => {
                self.pass_all(len);
                Ok(octets)
            }
            Err(_) => Err(DecodeError::no_memory()),
        }
    }

    /// Lends all octets to the closure, takes them if it returns `Ok`, and returns its result.
    ///
    /// # Errors
    ///
    /// Returns the closure's error. Also returns an error if fewer octets come than the length
    /// promises, or if the source fails. No octet is then taken.
    #[inline(always)]
    pub fn with_slice_all<F, T: Drop>(&mut self, op: F) -> Result<T, DecodeError<S::Error>>
    where
        F: FnOnce(&[u8]) -> Result<T, ContentError>,
        requires { (p : _) → p.now ≡ (of_primitive S.stream self.old).stream.rest → F.pre op p }
        ensures moves { MovedOctets S.stream self }
        ensures read { ReadBy S.stream self
            (Told (λ p. p.now) (F.post op)) (Untold (λ p. p.now) (F.post op)) result }
    {
        let len = match self.request_all() {
            Ok(len) => len,
            Err(error) => return Err(error),
        };
        match self.lend_all(len, op) {
            Ok(value) => {
                self.pass_all(len);
                Ok(value)
            }
            Err(error) => Err(Primitive::content_err(self, error)),
        }
    }

    /// Lends all octets to the closure, leaves them, and returns its result.
    ///
    /// # Errors
    ///
    /// Returns an error if fewer octets come than the length promises, or if the source fails. The
    /// closure is then not called.
    #[inline(always)]
    pub fn slice_all<F, T: Drop>(&mut self, op: F) -> Result<T, DecodeError<S::Error>>
    where
        F: FnOnce(&[u8]) -> T,
        requires { (p : _) → p.now ≡ (of_primitive S.stream self.old).stream.rest → F.pre op p }
        ensures moves { MovedOctets S.stream self }
        ensures looked { LooksAt (ToldOf (λ p. p.now) (F.post op)) (of_primitive S.stream self.old)
            result (of_primitive S.stream self.new) }
    {
        let len = match self.request_all() {
            Ok(len) => len,
            Err(error) => return Err(error),
        };
        Ok(self.lend_all(len, op))
    }

    /// Reads all octets as an INTEGER (X.690, 8.3) that fits into an `i8`, and takes them.
    ///
    /// # Errors
    ///
    /// Returns an error if the octets aren't the contents octets of such an integer, if fewer
    /// octets come than the length promises, or if the source fails. No octet is then taken.
    #[inline(always)]
    pub fn to_i8(&mut self) -> Result<i8, DecodeError<S::Error>>
        ensures moves { MovedOctets S.stream self }
        ensures read { ReadOctets S.stream self (IsSigned w8) result }
    {
        self.read_number()
    }

    /// Reads all octets as an INTEGER (X.690, 8.3) that fits into an `i16`, and takes them.
    ///
    /// # Errors
    ///
    /// Returns the errors of [`to_i8`](Self::to_i8), for this type.
    #[inline(always)]
    pub fn to_i16(&mut self) -> Result<i16, DecodeError<S::Error>>
        ensures moves { MovedOctets S.stream self }
        ensures read { ReadOctets S.stream self (IsSigned w16) result }
    {
        self.read_number()
    }

    /// Reads all octets as an INTEGER (X.690, 8.3) that fits into an `i32`, and takes them.
    ///
    /// # Errors
    ///
    /// Returns the errors of [`to_i8`](Self::to_i8), for this type.
    #[inline(always)]
    pub fn to_i32(&mut self) -> Result<i32, DecodeError<S::Error>>
        ensures moves { MovedOctets S.stream self }
        ensures read { ReadOctets S.stream self (IsSigned w32) result }
    {
        self.read_number()
    }

    /// Reads all octets as an INTEGER (X.690, 8.3) that fits into an `i64`, and takes them.
    ///
    /// # Errors
    ///
    /// Returns the errors of [`to_i8`](Self::to_i8), for this type.
    #[inline(always)]
    pub fn to_i64(&mut self) -> Result<i64, DecodeError<S::Error>>
        ensures moves { MovedOctets S.stream self }
        ensures read { ReadOctets S.stream self (IsSigned w64) result }
    {
        self.read_number()
    }

    /// Reads all octets as an INTEGER (X.690, 8.3) that fits into an `i128`, and takes them.
    ///
    /// # Errors
    ///
    /// Returns the errors of [`to_i8`](Self::to_i8), for this type.
    #[inline(always)]
    pub fn to_i128(&mut self) -> Result<i128, DecodeError<S::Error>>
        ensures moves { MovedOctets S.stream self }
        ensures read { ReadOctets S.stream self (IsSigned w128) result }
    {
        self.read_number()
    }

    /// Reads all octets as an INTEGER (X.690, 8.3) that fits into a `u8`, and takes them.
    ///
    /// # Errors
    ///
    /// Returns the errors of [`to_i8`](Self::to_i8), for this type.
    #[inline(always)]
    pub fn to_u8(&mut self) -> Result<u8, DecodeError<S::Error>>
        ensures moves { MovedOctets S.stream self }
        ensures read { ReadOctets S.stream self (IsUnsigned 8) result }
    {
        self.read_number()
    }

    /// Reads all octets as an INTEGER (X.690, 8.3) that fits into a `u16`, and takes them.
    ///
    /// # Errors
    ///
    /// Returns the errors of [`to_i8`](Self::to_i8), for this type.
    #[inline(always)]
    pub fn to_u16(&mut self) -> Result<u16, DecodeError<S::Error>>
        ensures moves { MovedOctets S.stream self }
        ensures read { ReadOctets S.stream self (IsUnsigned 16) result }
    {
        self.read_number()
    }

    /// Reads all octets as an INTEGER (X.690, 8.3) that fits into a `u32`, and takes them.
    ///
    /// # Errors
    ///
    /// Returns the errors of [`to_i8`](Self::to_i8), for this type.
    #[inline(always)]
    pub fn to_u32(&mut self) -> Result<u32, DecodeError<S::Error>>
        ensures moves { MovedOctets S.stream self }
        ensures read { ReadOctets S.stream self (IsUnsigned 32) result }
    {
        self.read_number()
    }

    /// Reads all octets as an INTEGER (X.690, 8.3) that fits into a `u64`, and takes them.
    ///
    /// # Errors
    ///
    /// Returns the errors of [`to_i8`](Self::to_i8), for this type.
    #[inline(always)]
    pub fn to_u64(&mut self) -> Result<u64, DecodeError<S::Error>>
        ensures moves { MovedOctets S.stream self }
        ensures read { ReadOctets S.stream self (IsUnsigned 64) result }
    {
        self.read_number()
    }

    /// Reads all octets as an INTEGER (X.690, 8.3) that fits into a `u128`, and takes them.
    ///
    /// # Errors
    ///
    /// Returns the errors of [`to_i8`](Self::to_i8), for this type.
    #[inline(always)]
    pub fn to_u128(&mut self) -> Result<u128, DecodeError<S::Error>>
        ensures moves { MovedOctets S.stream self }
        ensures read { ReadOctets S.stream self (IsUnsigned 128) result }
    {
        self.read_number()
    }

    /// Checks that the octets are the INTEGER with this value, and takes them.
    #[inline(always)]
    pub(super) fn skip_u8_if(&mut self, expected: u8) -> Result<(), DecodeError<S::Error>>
        ensures moves { MovedOctets S.stream self }
        ensures read { ReadBy S.stream self (IsThis 8 expected) (MeanAnother expected) result }
    {
        let len = match self.request_all() {
            Ok(len) => len,
            Err(error) => return Err(error),
        };
        match number_at::<u8>(self.all(len)) {
            Some(number) => {
                if number == expected {
                    self.pass_all(len);
                    Ok(())
                } else {
                    Err(self.wrong_number_error(expected))
                }
            }
            None => Err(self.refusal("no integer of this type")),
        }
    }

    /// Returns an error that refuses a number other than this one.
    #[cold]
    fn wrong_number_error(&self, expected: u8) -> DecodeError<S::Error>
        ensures { cause_of result ≡ of_content (ContentError.ExpectedInteger expected) }
    {
        self.source
            .content_err(ContentError::ExpectedInteger(u64::from(expected)))
    }
}

/// The octets of a primitive value are a source: those that the length promises and that come.
impl<'a, S: Source> Source for Primitive<'a, S> {
    type Error = S::Error;

    ghost stream = { λ p. borrowed p.source.ghost_name
        (limited p.source.now.limit (S.stream p.source.now.source)) };

    ghost sound = { λ p. borrowed_sound p.source.ghost_name
        (limited p.source.now.limit (S.stream p.source.now.source))
        (limited_sound p.source.now.limit (S.stream p.source.now.source)
        (S.sound p.source.now.source)) };

    fn pos(&self) -> Pos {
        self.source.pos()
    }

    fn request(&mut self, len: usize) -> Result<usize, S::Error> {
        self.source.request(len)
    }

    fn slice(&self) -> &[u8] {
        self.source.slice()
    }

    /// Returns the available octets from `start` up to, but not including, `end`.
    ///
    /// Returns `NoMemory` if memory runs out.
    fn bytes(&self, alloc: Global, start: usize, end: usize) -> Result<Bytes, NoMemory> {
        self.source.bytes(alloc, start, end)
    }

    fn advance(&mut self, len: usize) {
        self.source.advance(len)
    }
}
