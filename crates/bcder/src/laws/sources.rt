//! What the sources of this crate are, in terms of what they hold. Each law is the contract of a
//! function without a body.
ghost use Rattle.std.specs.Prelude.{◌≡◌, ℕ, length, drop, ◌-◌};
ghost use Rattle.bcder.specs.calls.Sources.{wrapped, limit_of, behind, passed};
ghost use Rattle.bcder.specs.calls.Sources.{slice_rest, slice_start, shared_rest, shared_start};
ghost use Rattle.bcder.specs.calls.Stream.{Stream, cut, capped, pos_after, smaller_limit};
ghost use Rattle.bcder.specs.calls.Stream.{limit_left};

use crate::decode::{BytesSource, CaptureSource, LimitedSource, SliceSource, Source};

/// A source over a slice is the octets that are left of it, all available. It never fails.
pub fn slice_is_its_octets<'a>(source: &SliceSource<'a>)
    ensures rest { (⟦<SliceSource<'a> as Source>⟧.stream source.now).rest ≡ slice_rest source.now }
    ensures avail { (⟦<SliceSource<'a> as Source>⟧.stream source.now).avail
        ≡ length (slice_rest source.now) }
    ensures faults { (⟦<SliceSource<'a> as Source>⟧.stream source.now).faults ≡ 0 }
    ensures position { (⟦<SliceSource<'a> as Source>⟧.stream source.now).position
        ≡ slice_start source.now }
{}

/// A source over shared octets is the octets that are left of them, all available. It never fails.
pub fn bytes_are_their_octets(source: &BytesSource)
    ensures rest { (⟦<BytesSource as Source>⟧.stream source.now).rest ≡ shared_rest source.now }
    ensures avail { (⟦<BytesSource as Source>⟧.stream source.now).avail
        ≡ length (shared_rest source.now) }
    ensures faults { (⟦<BytesSource as Source>⟧.stream source.now).faults ≡ 0 }
    ensures position { (⟦<BytesSource as Source>⟧.stream source.now).position
        ≡ shared_start source.now }
{}

/// A limited source is the prefix of the wrapped source up to the limit.
pub fn limited_is_a_front<S: Source>(source: &LimitedSource<S>)
    ensures rest { (⟦<LimitedSource<S> as Source>⟧.stream source.now).rest
        ≡ cut (limit_of source.now) (S.stream (wrapped source.now)).rest }
    ensures avail { (⟦<LimitedSource<S> as Source>⟧.stream source.now).avail
        ≡ capped (limit_of source.now) (S.stream (wrapped source.now)).avail }
    ensures faults { (⟦<LimitedSource<S> as Source>⟧.stream source.now).faults
        ≡ (S.stream (wrapped source.now)).faults }
    ensures position { (⟦<LimitedSource<S> as Source>⟧.stream source.now).position
        ≡ (S.stream (wrapped source.now)).position }
{}

/// A capturing source is the borrowed source after the octets that were passed over.
pub fn capturing_is_what_follows<'a, S: Source>(source: &CaptureSource<'a, S>)
    ensures rest { (⟦<CaptureSource<'a, S> as Source>⟧.stream source.now).rest
        ≡ drop (passed source.now) (S.stream (behind source.now)).rest }
    ensures avail { (⟦<CaptureSource<'a, S> as Source>⟧.stream source.now).avail
        ≡ (S.stream (behind source.now)).avail - passed source.now }
    ensures faults { (⟦<CaptureSource<'a, S> as Source>⟧.stream source.now).faults
        ≡ (S.stream (behind source.now)).faults }
    ensures position { (⟦<CaptureSource<'a, S> as Source>⟧.stream source.now).position
        ≡ pos_after (S.stream (behind source.now)).position (passed source.now) }
{}

/// A limit over a capturing source over a limited source is the plain octets after those that were
/// passed over, cut at the smaller limit.
#[tactic(auto, using(crate::proofs::Nested::limits_through))]
pub fn nested_limits_are_one<'a, S: Source>(
    source: &LimitedSource<CaptureSource<'a, LimitedSource<S>>>,
)
    ensures rest { let inner = behind (wrapped source.now) in
        let gone = passed (wrapped source.now) in
        (⟦<LimitedSource<CaptureSource<'a, LimitedSource<S>>> as Source>⟧.stream source.now).rest
        ≡ cut (smaller_limit (limit_of source.now) (limit_left (limit_of inner) gone))
        (drop gone (S.stream (wrapped inner)).rest) }
    ensures avail { let inner = behind (wrapped source.now) in
        let gone = passed (wrapped source.now) in
        (⟦<LimitedSource<CaptureSource<'a, LimitedSource<S>>> as Source>⟧.stream source.now).avail
        ≡ capped (smaller_limit (limit_of source.now) (limit_left (limit_of inner) gone))
        ((S.stream (wrapped inner)).avail - gone) }
{}
