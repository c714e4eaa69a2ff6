//! Decoding from a borrowed source, and what its owner knows afterwards.
ghost use Rattle.std.specs.Prelude.{◌≡◌, ℕ, ◌+◌, ◌≤◌, List, ◌++◌, ◌∷◌, length, IfOk, OnOk};
ghost use Rattle.bcder.specs.calls.Views.{Moved};

use bcder::Mode;
use bcder::decode::{Constructed, DecodeError, Source};

/// Takes the next value, which has to be empty, and returns whether there was one.
#[tactic(auto, using(bcder::specs::laws::Moved::steps))]
pub fn take_empty<S: Source>(cons: &mut Constructed<'_, S>) -> Result<bool, DecodeError<S::Error>>
    ensures moves { Moved S.stream cons }
{
    Ok(cons.take_opt_value(|_tag, _content| Ok(()))?.is_some())
}

/// Takes two empty values, if there are two, from a borrowed source. Its owner goes on with it.
#[tactic(auto, using(bcder::specs::laws::Moved::untouched_is_moved))]
pub fn two_empty<S: Source>(source: &mut S, mode: Mode) -> Result<bool, DecodeError<S::Error>>
    ensures passed { (passed : List ℕ)
        × ((S.stream source.old).rest ≡ passed ++ (S.stream source.new).rest) }
    ensures faults { (S.stream source.old).faults ≤ (S.stream source.new).faults }
    ensures kept { (S.stream source.new).kept ≡ (S.stream source.old).kept }
{
    mode.decode_lent(source, |cons| Ok(take_empty(cons)? && take_empty(cons)?))
}

/// Takes two empty values, if there are two, from a source that is consumed.
#[tactic(auto, using(bcder::specs::laws::Moved::untouched_is_moved))]
pub fn two_empty_of<S: Source + Drop>(
    source: S,
    mode: Mode,
) -> Result<bool, DecodeError<S::Error>> {
    mode.decode(source, |cons| Ok(take_empty(cons)? && take_empty(cons)?))
}

/// Takes the next value, which has to be empty, and drops the error if it isn't.
#[tactic(auto, using(bcder::specs::laws::Moved::untouched_is_moved))]
pub fn drop_refusal<S: Source>(source: &mut S, mode: Mode) -> Result<(), DecodeError<S::Error>>
    ensures passed { (passed : List ℕ)
        × ((S.stream source.old).rest ≡ passed ++ (S.stream source.new).rest) }
{
    mode.decode_lent(source, |cons| {
        let _ = take_empty(cons);
        Ok(())
    })
}

/// Takes two empty values and then the octet after them.
pub fn octet_behind<S: Source>(source: &mut S, mode: Mode) -> Result<u8, DecodeError<S::Error>>
    ensures behind { IfOk result (λ octet. (passed : List ℕ)
        × ((S.stream source.old).rest ≡ passed ++ octet ∷ (S.stream source.new).rest)) }
{
    two_empty(source, mode)?;
    source.take_u8()
}
