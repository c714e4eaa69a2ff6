//! Putting values behind one another, as their octets.
ghost use Rattle.std.specs.Prelude.{◌≡◌, ◌≢◌, [], IfOk, OnErr};
ghost use Rattle.bcder.specs.calls.Captured.{AreWhole};
ghost use Rattle.bcder.specs.calls.Gathered.{none_kept, kept_from_start, ExtendsBy};

use crate::NoMemory;
use crate::captured::Captured;
use crate::decode::Pos;
use crate::encode::sizes::{First, Sizes};
use crate::encode::slot::{Failed, slot};
use crate::encode::values::measure;
use crate::encode::{EncodeError, Values, WriteError};
use crate::mode::Mode;
use bytes::Bytes;
use std::alloc::Global;
use std::marker::Model;

/// A list of values that can grow, kept as their encodings in a mode.
#[derive(Drop)]
pub struct CapturedBuilder {
    octets: Vec<u8>,
    mode: Mode,
}

/// In clauses a builder is what it would be captured as.
impl Model for CapturedBuilder {
    ghost use Rattle.bcder.specs.calls.Captured.{Kept, AreWhole};
    ghost use Rattle.bcder.specs.calls.Gathered.{kept_from_start};

    ghost Value = { Kept };

    ghost view = { λ b. kept_from_start b.mode b.octets.items };

    ghost invariant = { λ b. AreWhole b.mode b.octets.items };
}

impl CapturedBuilder {
    /// Creates a builder from encodings in a mode.
    pub(super) fn from_octets(octets: Vec<u8>, mode: Mode) -> CapturedBuilder
        requires { AreWhole mode octets.items }
        ensures { result ≡ kept_from_start mode octets.items }
    {
        CapturedBuilder { octets, mode }
    }

    /// Creates a builder without values, in a mode.
    #[tactic(auto, using(crate::proofs::Gathering::none_whole))]
    pub fn new(alloc: Global, mode: Mode) -> CapturedBuilder
        ensures { result ≡ none_kept mode }
    {
        CapturedBuilder::from_octets(Vec::new(alloc), mode)
    }

    /// Creates a builder without values, in a mode, with memory for encodings of `capacity` octets
    /// in all.
    ///
    /// # Errors
    ///
    /// Returns `NoMemory` if memory runs out.
    #[tactic(auto, using(crate::proofs::Gathering::none_whole))]
    pub fn with_capacity(
        alloc: Global,
        capacity: usize,
        mode: Mode,
    ) -> Result<CapturedBuilder, NoMemory>
        ensures { IfOk result (λ b. b ≡ none_kept mode) }
    {
        Ok(CapturedBuilder::from_octets(Vec::with_capacity(alloc, capacity)?, mode))
    }

    /// Puts the values of an encoder behind those of the builder, in the builder's mode.
    ///
    /// The octets that are added are what the encoder writes in that mode: an encoding of its
    /// values, in CER and DER the only one (X.690, 9.1, 10.1). Memory for them is requested once.
    ///
    /// # Errors
    ///
    /// Returns the errors of the encoder's `encoded_len`, and `NoMemory` if there are octets and
    /// memory runs out for them. The values are then as they were.
    pub fn extend<V: Values + Drop>(&mut self, values: V) -> Result<(), EncodeError>
        requires { V.can_encode values }
        ensures extended { ExtendsBy (V.means values self.old.mode)
            (V.may_lack values self.old.mode) self result }
        ensures unchanged { OnErr result (self.new ≡ self.old) }
    {
        let mut sizes = Sizes::new();
        let len = measure(&values, self.mode, &mut sizes)?;
        if self.octets.reserve(len).is_err() {
            return Err(EncodeError::NoMemory);
        }
        let before = self.octets.len();
        let mut why = slot();
        match values.write_known::<First, _>(
            self.mode,
            &mut sizes.left(),
            &mut self.octets,
            &mut why,
        ) {
            Ok(()) => Ok(()),
            Err(Failed) => {
                self.octets.truncate(before);
                match why {
                    WriteError::Refused(error) => Err(error),
                    WriteError::Target(_) => Err(EncodeError::NoMemory),
                }
            }
        }
    }

    /// Captures the values, at position 0. No octet is copied.
    ///
    /// # Errors
    ///
    /// Returns `NoMemory` if there are octets and memory runs out for sharing them.
    pub fn freeze(self) -> Result<Captured, NoMemory>
        ensures captured { IfOk result (λ c. c ≡ self) }
        ensures memory { OnErr result (self.octets ≢ []) }
    {
        match Bytes::from_vec(self.octets) {
            Ok(octets) => Ok(Captured::new(octets, self.mode, Pos::default())),
            Err(_) => Err(NoMemory),
        }
    }
}
