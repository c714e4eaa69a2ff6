//! Reading octets as the contents octets of a primitive value.
ghost use Rattle.std.specs.Prelude.{◌≡◌, ◌≢◌, false, IsTrue, Some, length};
ghost use Rattle.bcder.specs.calls.Decoding.{IsAllOctets, RanAlone};
ghost use Rattle.bcder.specs.declared.decode.content.State.TheVariants.{Open};
ghost use Rattle.bcder.specs.calls.Calls.{IsLawfulOn, IsOver, MayBeCalledOn};
ghost use Rattle.bcder.specs.calls.Content.{Octets};
ghost use Rattle.bcder.specs.calls.Stream.{at_hand};
ghost use Rattle.bcder.specs.calls.Views.{limited_stream, of_primitive};

use super::Primitive;
use crate::decode::error::DecodeError;
use crate::decode::source::{LimitedSource, SliceSource, Source};
use crate::mode::Mode;
use std::convert::Infallible;

impl<'a, S: Source> Primitive<'a, S> {
    /// Returns whether no more octets are owed.
    #[tactic(auto, unfolding(crate::specs::calls::Views::of_primitive))]
    fn is_used_up(&self) -> bool
        ensures yes { IsTrue result → (of_primitive S.stream self.now).owed ≡ Some 0 }
        ensures no { result ≡ false → (of_primitive S.stream self.now).owed ≢ Some 0 }
    {
        match self.source.limit() {
            Some(0) => true,
            _ => false,
        }
    }
}

/// Calls the closure on all octets up to the limit of a source, and returns an error if any are
/// left.
#[tactic(auto, unfolding(crate::specs::calls::Views::of_primitive))]
fn run_over<S: Source, F, T: Drop>(
    source: &mut LimitedSource<S>,
    len: usize,
    mode: Mode,
    op: F,
) -> Result<T, DecodeError<S::Error>>
where
    F: FnOnce(&mut Primitive<'_, S>) -> Result<T, DecodeError<S::Error>>,
    requires limit { source.old.limit ≡ Some len }
    requires callable { MayBeCalledOn (of_primitive S.stream)
        (IsOver (limited_stream S.stream source.old) (Some len) Octets Open mode)
        (F.pre op) }
    requires lawful { IsLawfulOn (of_primitive S.stream)
        (IsOver (limited_stream S.stream source.old) (Some len) Octets Open mode)
        (F.post op) }
    ensures { RanAlone (of_primitive S.stream) (F.post op)
        (S.stream source.old.source) len mode result }
{
    let mut octets = Primitive::over(&mut *source, mode);
    let value = match op(&mut octets) {
        Ok(value) => value,
        Err(error) => return Err(error),
    };
    if octets.is_used_up() {
        return Ok(value);
    }
    Err(octets.refusal("octets left in a primitive value"))
}

impl Primitive<'static, SliceSource<'static>> {
    ghost use Rattle.std.specs.Prelude.{length};

    /// Calls the closure on octets, as the contents octets of a primitive value in a mode.
    ///
    /// The closure has to take all of them. Its result is returned.
    ///
    /// # Errors
    ///
    /// Returns the closure's error unchanged. Also returns an error if the closure leaves octets.
    pub fn decode_slice<'b, F, T: Drop>(
        octets: &'b [u8],
        mode: Mode,
        op: F,
    ) -> Result<T, DecodeError<Infallible>>
    where
        F: FnOnce(&mut Primitive<'_, SliceSource<'b>>) -> Result<T, DecodeError<Infallible>>,
        requires callable { MayBeCalledOn (of_primitive ⟦<SliceSource<'b> as Source>⟧.stream)
            (IsAllOctets octets.now mode) (F.pre op) }
        requires lawful { IsLawfulOn (of_primitive ⟦<SliceSource<'b> as Source>⟧.stream)
            (IsAllOctets octets.now mode) (F.post op) }
        ensures { RanAlone (of_primitive ⟦<SliceSource<'b> as Source>⟧.stream) (F.post op)
            (at_hand octets.now) (length octets.now) mode result }
    {
        let len = octets.len();
        let mut source = LimitedSource::new(SliceSource::new(octets));
        source.set_limit(Some(len));
        run_over(&mut source, len, mode, op)
    }
}
