//! Object identifiers (X.690, 8.19).
ghost use Rattle.std.specs.Prelude.{◌≡◌, ◌↔◌, IsTrue, Some, IfOk, IfErr, nat_eq};
ghost use Rattle.std.specs.Hash as fed;
ghost use Rattle.std.specs.Cmp.Lexicographic.{pointwise, nat_list_eq_equiv};
ghost use Rattle.std.specs.Cmp.{partial_equiv_from_equiv, on_per, on_equiv};
ghost use Rattle.std.specs.Cmp.Rules.{hashing};
ghost use Rattle.std.proofs.Common.{rules};
ghost use Rattle.bcder.specs.calls.Readers.{AreNot};
ghost use Rattle.bcder.specs.x690.ObjectIdentifier.{identifier_tag, IsComplete, IsMinimal};
ghost use Rattle.bcder.specs.calls.Identifiers.{component_parts};
ghost use Rattle.bcder.specs.calls.Identifiers.{parts_left};
ghost use Rattle.bcder.specs.calls.Identifiers.{text_of, IsTextOf, RefusesText};
ghost use Rattle.bcder.specs.calls.Readers.{HoldIdentifier, IsSame};
ghost use Rattle.bcder.specs.calls.Readers.{ReadBy, ReadOctets};
ghost use Rattle.bcder.specs.calls.Valued.{TakesNextAs, TakesNextBy, TakesOneAs, TakesOneBy};
ghost use Rattle.bcder.specs.calls.Views.{Moved, MovedOctets, of_constructed};

pub(crate) mod components;
mod text;

use crate::decode::{Constructed, DecodeError, Primitive, Source};
use crate::memory::NoMemory;
use crate::tag::Tag;
use bytes::Bytes;
pub use components::{Component, Iter};
use std::alloc::Global;
use std::convert::AsSlice;
use std::fmt;
use std::hash::{Hash, Hasher};
pub use text::OidError;

/// An object identifier, kept as its contents octets (8.19).
///
/// A subidentifier may begin with the octet 80, since the readers accept that although the standard
/// forbids it (8.19.2). For example, `2A 80 01` is displayed as `1.2.1` like `2A 01`, but is
/// another identifier. [`is_minimal`](Self::is_minimal) distinguishes such identifiers.
///
/// The octets need not end with a subidentifier. What follows the last complete subidentifier is
/// then part of no component.
#[derive(Clone, Copy, Debug, Drop)]
pub struct Oid<T: AsSlice<u8> = Bytes>(pub T);

/// An object identifier that is known at compile time. It is `Copy`.
pub type ConstOid = Oid<&'static [u8]>;

impl<T: AsSlice<u8>> Oid<T> {
    /// Skips the next value, which has to be this OBJECT IDENTIFIER. Its contents octets are
    /// compared in place.
    ///
    /// # Errors
    ///
    /// Returns `ContentError::ExpectedTag` at the end and at a value of another tag. The content
    /// then stays usable.
    ///
    /// Returns an error, and the content has then failed, if the value is another identifier, if
    /// the octets are no value, if an earlier value was refused, or if the source fails.
    #[tactic(auto, using(crate::specs::laws::Moved::untouched_is_moved))]
    pub fn skip_if<S: Source>(
        &self,
        cons: &mut Constructed<'_, S>,
    ) -> Result<(), DecodeError<S::Error>>
        ensures moves { Moved S.stream cons }
        ensures took { TakesOneAs identifier_tag (IsSame (T.items self.now.0))
            (of_constructed S.stream cons.old) result (of_constructed S.stream cons.new) }
    {
        let expected = self.0.as_slice();
        cons.take_primitive_if(Tag::OID, |octets| octets.skip_same(expected))
    }

    /// Returns an iterator over the components, in order.
    pub fn iter(&self) -> Iter<'_>
        ensures { parts_left result ≡ component_parts (T.items self.now.0) }
    {
        Iter::new(self.0.as_slice())
    }

    /// Returns whether each subidentifier has the fewest octets, as the standard requires (8.19.2):
    /// none begins with the octet 80. The readers accept those that do.
    ///
    /// ```text
    /// let oid = Oid::take_from(alloc, cons)?;
    /// if !oid.is_minimal() {
    ///     return Err(cons.content_err(ContentError::from_static("subidentifier begins with 80")));
    /// }
    /// ```
    pub fn is_minimal(&self) -> bool
        ensures { IsTrue result ↔ IsMinimal (T.items self.now.0) }
    {
        components::is_minimal(self.0.as_slice())
    }

    /// Returns whether another identifier has the same octets, however they are kept.
    pub fn same_as<U: AsSlice<u8>>(&self, other: &Oid<U>) -> bool
        ensures { IsTrue result ↔ (T.items self.now.0 ≡ U.items other.now.0) }
    {
        self.as_slice() == other.as_slice()
    }
}

#[tactic(auto, using(crate::specs::laws::Moved::untouched_is_moved))]
impl Oid<Bytes> {
    /// Skips the next value, which has to be an OBJECT IDENTIFIER.
    ///
    /// # Errors
    ///
    /// Returns the errors of [`skip_opt_in`](Self::skip_opt_in), and `ContentError::ExpectedTag` if
    /// that returns `None`. The content then stays usable.
    pub fn skip_in<S: Source>(cons: &mut Constructed<'_, S>) -> Result<(), DecodeError<S::Error>>
        ensures moves { Moved S.stream cons }
        ensures took { TakesOneAs identifier_tag HoldIdentifier (of_constructed S.stream cons.old)
            result (of_constructed S.stream cons.new) }
    {
        cons.take_primitive_if(Tag::OID, |octets| octets.skip_identifier())
    }

    /// Skips the next value if it is an OBJECT IDENTIFIER. Returns `None` at the end and at a value
    /// of another tag, which stays.
    ///
    /// # Errors
    ///
    /// Returns an error, and the content has then failed, if
    ///
    /// - the next value has the tag, but its contents octets don't end with a subidentifier;
    /// - the octets are no value;
    /// - an earlier value was refused;
    /// - the source fails.
    pub fn skip_opt_in<S: Source>(
        cons: &mut Constructed<'_, S>,
    ) -> Result<Option<()>, DecodeError<S::Error>>
        ensures moves { Moved S.stream cons }
        ensures took { TakesNextAs identifier_tag HoldIdentifier (of_constructed S.stream cons.old)
            result (of_constructed S.stream cons.new) }
    {
        cons.take_opt_primitive_if(Tag::OID, |octets| octets.skip_identifier())
    }

    /// Takes the next value, which has to be an OBJECT IDENTIFIER. Its octets are shared with the
    /// source if the source shares them.
    ///
    /// # Errors
    ///
    /// Returns the errors of [`take_opt_from`](Self::take_opt_from), and
    /// `ContentError::ExpectedTag` if that returns `None`. The content then stays usable.
    #[inline(always)]
    pub fn take_from<S: Source>(
        alloc: Global,
        cons: &mut Constructed<'_, S>,
    ) -> Result<Self, DecodeError<S::Error>>
        ensures moves { Moved S.stream cons }
        ensures took { TakesOneBy identifier_tag (λ w oid. (oid.0 ≡ w) × IsComplete w) (AreNot IsComplete)
            (of_constructed S.stream cons.old) result (of_constructed S.stream cons.new) }
    {
        cons.take_primitive_if(Tag::OID, |octets| Oid::from_primitive(alloc, octets))
    }

    /// Takes the next value if it is an OBJECT IDENTIFIER. Returns `None` at the end and at a value
    /// of another tag, which stays.
    ///
    /// # Errors
    ///
    /// Returns the errors of [`skip_opt_in`](Self::skip_opt_in), and an error if there is no memory
    /// for the octets.
    #[inline(always)]
    pub fn take_opt_from<S: Source>(
        alloc: Global,
        cons: &mut Constructed<'_, S>,
    ) -> Result<Option<Self>, DecodeError<S::Error>>
        ensures moves { Moved S.stream cons }
        ensures took { TakesNextBy identifier_tag (λ w oid. (oid.0 ≡ w) × IsComplete w) (AreNot IsComplete)
            (of_constructed S.stream cons.old) result (of_constructed S.stream cons.new) }
    {
        cons.take_opt_primitive_if(Tag::OID, |octets| Oid::from_primitive(alloc, octets))
    }

    /// Skips all contents octets, which have to be those of an object identifier.
    ///
    /// # Errors
    ///
    /// Returns an error, and takes no octet, if the contents octets don't end with a subidentifier,
    /// if there are fewer than the length promises, or if the source fails.
    pub fn skip_primitive<S: Source>(
        octets: &mut Primitive<'_, S>,
    ) -> Result<(), DecodeError<S::Error>>
        ensures moves { MovedOctets S.stream octets }
        ensures read { ReadOctets S.stream octets HoldIdentifier result }
    {
        octets.skip_identifier()
    }

    /// Takes all contents octets as an object identifier. They are shared with the source if the
    /// source shares them.
    ///
    /// # Errors
    ///
    /// Returns the errors of [`skip_primitive`](Self::skip_primitive), and an error if there is no
    /// memory for the octets. No octet is taken then.
    #[inline(always)]
    pub fn from_primitive<S: Source>(
        alloc: Global,
        octets: &mut Primitive<'_, S>,
    ) -> Result<Self, DecodeError<S::Error>>
        ensures moves { MovedOctets S.stream octets }
        ensures read { ReadBy S.stream octets
            (λ w oid. (oid.0 ≡ w) × IsComplete w) (AreNot IsComplete) result }
    {
        match octets.take_identifier(alloc) {
            Ok(octets) => Ok(Oid(octets)),
            Err(error) => Err(error),
        }
    }
}

impl Oid<Vec<u8>> {
    /// Reads components in decimal, joined by dots, such as `1.2.840`.
    ///
    /// Each component may have a leading plus and is below 2^32. The first is at most 2; if it is 0
    /// or 1, the second is below 40. Each subidentifier gets the fewest octets.
    ///
    /// # Errors
    ///
    /// Returns what keeps the text from being an identifier: too few components, or the first
    /// component that is wrong. Returns `NoMemory` if nothing does, but there is no memory for the
    /// octets.
    pub fn from_str(alloc: Global, text: &str) -> Result<Self, OidError>
        ensures ok { IfOk result (λ oid. IsTextOf text.now oid.0.items) }
        ensures err { IfErr result (λ e. RefusesText text.now e) }
    {
        Ok(Oid(text::octets_of(alloc, text)?))
    }

    /// Returns the same identifier, its octets shared by all clones.
    ///
    /// # Errors
    ///
    /// Returns an error if there is no memory to count the clones. The identifier is then dropped.
    pub fn into_shared(self) -> Result<Oid<Bytes>, NoMemory>
        ensures { IfOk result (λ oid. oid.0 ≡ self.0.items) }
    {
        let Oid(octets) = self;
        Ok(Oid(Bytes::from_vec(octets)?))
    }
}

impl<T: AsSlice<u8>> AsSlice<u8> for Oid<T> {
    ghost items = { λ oid. T.items oid.0 };

    fn as_slice(&self) -> &[u8] {
        let Oid(octets) = self;
        octets.as_slice()
    }
}

/// Identifiers are equal if their octets are.
impl<T: AsSlice<u8>> PartialEq for Oid<T> {
    ghost eq = { λ x y. pointwise nat_eq (T.items x.0) (T.items y.0) };

    ghost laws = { on_per (λ oid. T.items oid.0) (partial_equiv_from_equiv nat_list_eq_equiv) };

    fn eq(&self, other: &Self) -> bool {
        self.0.as_slice() == other.0.as_slice()
    }
}

impl<T: AsSlice<u8>> Eq for Oid<T> {
    ghost laws = { on_equiv (λ oid. T.items oid.0) nat_list_eq_equiv };
}

/// The hash is that of the octets.
impl<T: AsSlice<u8>> Hash for Oid<T> {
    ghost hash_input = { λ oid. fed.slice fed.u8 (T.items oid.0) };

    ghost respects_eq = { Prim.search (hashing, rules) };

    fn hash<H: Hasher>(&self, state: &mut H) {
        self.0.as_slice().hash(state);
    }
}

/// Displays the components, joined by dots.
impl<T: AsSlice<u8>> fmt::Display for Oid<T> {
    ghost output = { λ oid. Some (text_of (T.items oid.0)) };

    fn fmt<W: fmt::Write>(&self, f: &mut fmt::Formatter<W>) -> fmt::Result {
        let mut components = self.iter();
        let Some(first) = components.next() else {
            return Ok(());
        };
        write!(f, "{first}")?;
        for component in components {
            write!(f, ".{component}")?;
        }
        Ok(())
    }
}
