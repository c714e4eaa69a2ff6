//! Types that are read without memory, which the checker finds out by itself. Expected values are
//! worked by hand from X.690.
ghost use Rattle.std.specs.Prelude.{◌≢◌, IfErr};
ghost use Rattle.bcder.specs.calls.Cause.{cause_of, of_memory};
ghost use Rattle.bcder.specs.calls.Views.{Moved};

use asn1::{
    Choice2, Context, Decode, DecodeDefinition, Definition, Explicit, Implicit, Sequence, decode,
};
use bcder::Mode;
use bcder::decode::{Constructed, DecodeError, IntoSource, Source};
use std::alloc::Global;

/// `Range ::= SEQUENCE { from INTEGER, until INTEGER OPTIONAL }`.
#[derive(Drop)]
struct Range {
    from: u32,
    until: Option<u32>,
}

impl Definition for Range {
    type As = Sequence<(u32, Option<u32>)>;

    ghost parts = { λ x. (x.from, x.until) };

    fn from_parts(value: Sequence<(u32, Option<u32>)>) -> Range {
        let Sequence((from, until)) = value;
        Range { from, until }
    }
}

impl<S: Source> DecodeDefinition<S> for Range {}

/// Decodes a range from any source. It never runs out of memory.
#[tactic(auto, using(asn1::specs::Memory::decodes_without))]
fn range_of<I: IntoSource>(
    alloc: Global,
    mode: Mode,
    source: I,
) -> Result<Range, DecodeError<<I::Source as Source>::Error>>
where
    I::Source: Drop,
    ensures { IfErr result (λ e. cause_of e ≢ of_memory) }
{
    decode(alloc, mode, source)
}

/// `SEQUENCE { which CHOICE { INTEGER, BOOLEAN }, [0] EXPLICIT INTEGER, [1] IMPLICIT INTEGER }`.
type Mixed = Sequence<
    (
        Choice2<u8, bool>,
        Explicit<Context<0>, i64>,
        Implicit<Context<1>, u128>,
    ),
>;

/// Takes such a value from content, if one comes next. It never runs out of memory.
#[tactic(auto, using(asn1::specs::Memory::takes_without))]
fn take_mixed<S: Source>(
    alloc: Global,
    cons: &mut Constructed<'_, S>,
) -> Result<Option<Mixed>, DecodeError<S::Error>>
    ensures moves { Moved S.stream cons }
    ensures memory { IfErr result (λ e. cause_of e ≢ of_memory) }
{
    <Mixed>::take_opt_from(alloc, cons)
}

#[cfg(test)]
mod tests {
    use super::{range_of, take_mixed};
    use bcder::Mode;
    use std::alloc::Global;

    /// Octets, and the range that they are. The second number of the second has no contents octets
    /// (X.690, 8.3.1).
    const RANGES: [(&[u8], Option<(u32, Option<u32>)>); 2] = [
        (
            &[0x30, 0x06, 0x02, 0x01, 0x05, 0x02, 0x01, 0x07],
            Some((5, Some(7))),
        ),
        (&[0x30, 0x05, 0x02, 0x01, 0x05, 0x02, 0x00], None),
    ];

    /// Returns the range that octets are.
    fn range(alloc: Global, octets: &[u8]) -> Option<(u32, Option<u32>)> {
        match range_of(alloc, Mode::Der, octets) {
            Ok(range) => Some((range.from, range.until)),
            Err(_) => None,
        }
    }

    #[test]
    fn a_range_is_read(rt: HostRuntime) {
        for (octets, wanted) in &RANGES {
            assert_eq!(rt; range(rt.alloc(), octets), *wanted, "{octets:?}");
        }
    }

    /// Returns the numbers of the mixed value that octets are.
    fn mixed(alloc: Global, octets: &[u8]) -> Option<(i64, u128)> {
        match Mode::Der.decode(octets, |cons| take_mixed(alloc, cons)) {
            Ok(Some(mixed)) => Some((mixed.0.1.value, mixed.0.2.value)),
            _ => None,
        }
    }

    #[test]
    fn a_mixed_value_is_taken(rt: HostRuntime) {
        let octets: &[u8] = &[
            0x30, 0x0B, 0x01, 0x01, 0xFF, 0xA0, 0x03, 0x02, 0x01, 0x80, 0x81, 0x01, 0x07,
        ];
        assert_eq!(rt; mixed(rt.alloc(), octets), Some((-128, 7)));
    }
}
