//! The encoding rules of X.690.
ghost use Rattle.std.specs.Prelude.{◌≡◌, ◌↔◌, ◌≤◌, ◌++◌, ℕ, List, IsTrue, IfOk, IfErr};
ghost use Rattle.bcder.specs.calls.Calls.{MayBeCalledOn, IsLawfulOn};
ghost use Rattle.bcder.specs.calls.Cause.{cause_of};
ghost use Rattle.bcder.specs.calls.Decoding.{IsAllOf, IsAllBehind, Decodes, RefusesDecode};
ghost use Rattle.bcder.specs.calls.Decoding.{DecodesWhole, RefusesWhole};
ghost use Rattle.bcder.specs.calls.Stream.{Stream, borrowed};
ghost use Rattle.bcder.specs.calls.Views.{of_constructed, lent};

use crate::decode::{Constructed, DecodeError, IntoSource, Source};

/// The encoding rules of X.690 that data is read or written by.
#[derive(Clone, Copy, Debug, Default, PartialEq, Eq)]
pub enum Mode {
    /// The Basic Encoding Rules (clause 8): a value may have several encodings.
    #[default]
    Ber,

    /// The Canonical Encoding Rules (clause 9): each value has one encoding, and constructed values
    /// have the indefinite form.
    Cer,

    /// The Distinguished Encoding Rules (clause 10): each value has one encoding, and all lengths
    /// are definite.
    Der,
}

impl Mode {
    /// Decodes values from the start of a source in this mode.
    ///
    /// See [`Constructed::decode`].
    ///
    /// # Errors
    ///
    /// Returns the errors of `Constructed::decode`.
    pub fn decode<I: IntoSource, F, T: Drop>(
        self,
        source: I,
        op: F,
    ) -> Result<T, DecodeError<<I::Source as Source>::Error>>
    where
        I::Source: Drop,
        F: FnOnce(
            &mut Constructed<'_, I::Source>,
        ) -> Result<T, DecodeError<<I::Source as Source>::Error>>,
        requires callable { MayBeCalledOn (of_constructed I.Source.stream)
            (IsAllOf (I.gives source) self) (F.pre op) }
        requires lawful { IsLawfulOn (of_constructed I.Source.stream)
            (IsAllOf (I.gives source) self) (F.post op) }
        ensures ok { IfOk result (λ x. (left : Stream)
            × Decodes (of_constructed I.Source.stream) (F.post op) (I.gives source) self x left) }
        ensures refused { IfErr result (λ e. (left : Stream)
            × RefusesDecode cause_of (of_constructed I.Source.stream) (F.post op)
            (I.gives source) self e left) }
    {
        Constructed::decode(source, self, op)
    }

    /// Decodes all values of a source in this mode.
    ///
    /// Octets that follow the values that the closure takes are refused. See
    /// [`Constructed::decode_all`].
    ///
    /// # Errors
    ///
    /// Returns the errors of `Constructed::decode_all`.
    pub fn decode_all<I: IntoSource, F, T: Drop>(
        self,
        source: I,
        op: F,
    ) -> Result<T, DecodeError<<I::Source as Source>::Error>>
    where
        I::Source: Drop,
        F: FnOnce(
            &mut Constructed<'_, I::Source>,
        ) -> Result<T, DecodeError<<I::Source as Source>::Error>>,
        requires callable { MayBeCalledOn (of_constructed I.Source.stream)
            (IsAllOf (I.gives source) self) (F.pre op) }
        requires lawful { IsLawfulOn (of_constructed I.Source.stream)
            (IsAllOf (I.gives source) self) (F.post op) }
        ensures ok { IfOk result (λ x.
            DecodesWhole (of_constructed I.Source.stream) (F.post op) (I.gives source) self x) }
        ensures refused { IfErr result (λ e.
            RefusesWhole (of_constructed I.Source.stream) (F.post op) (I.gives source) self e) }
    {
        Constructed::decode_all(source, self, op)
    }

    /// Decodes values from the start of a borrowed source in this mode.
    ///
    /// See [`Constructed::decode_lent`].
    ///
    /// # Errors
    ///
    /// Returns the errors of `Constructed::decode_lent`.
    pub fn decode_lent<S: Source, F, T: Drop>(
        self,
        source: &mut S,
        op: F,
    ) -> Result<T, DecodeError<S::Error>>
    where
        F: FnOnce(&mut Constructed<'_, &mut S>) -> Result<T, DecodeError<S::Error>>,
        requires callable { MayBeCalledOn (of_constructed (lent S.stream))
            (IsAllBehind (S.stream source.old) self) (F.pre op) }
        requires lawful { IsLawfulOn (of_constructed (lent S.stream))
            (IsAllBehind (S.stream source.old) self) (F.post op) }
        ensures ok { IfOk result (λ x. (name : ℕ)
            × Decodes (of_constructed (lent S.stream)) (F.post op)
            (borrowed name (S.stream source.old)) self x (borrowed name (S.stream source.new))) }
        ensures refused { IfErr result (λ e. (name : ℕ)
            × RefusesDecode cause_of (of_constructed (lent S.stream)) (F.post op)
            (borrowed name (S.stream source.old)) self e (borrowed name (S.stream source.new))) }
        ensures passed { (passed : List ℕ)
            × ((S.stream source.old).rest ≡ passed ++ (S.stream source.new).rest) }
        ensures faults { (S.stream source.old).faults ≤ (S.stream source.new).faults }
        ensures kept { (S.stream source.new).kept ≡ (S.stream source.old).kept }
    {
        Constructed::decode_lent(source, self, op)
    }

    /// Returns whether these are the Basic Encoding Rules.
    pub fn is_ber(self) -> bool
        ensures { IsTrue result ↔ (self ≡ Mode.Ber) }
    {
        self == Mode::Ber
    }

    /// Returns whether these are the Canonical Encoding Rules.
    pub fn is_cer(self) -> bool
        ensures { IsTrue result ↔ (self ≡ Mode.Cer) }
    {
        self == Mode::Cer
    }

    /// Returns whether these are the Distinguished Encoding Rules.
    pub fn is_der(self) -> bool
        ensures { IsTrue result ↔ (self ≡ Mode.Der) }
    {
        self == Mode::Der
    }
}
