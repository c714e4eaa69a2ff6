//! Compares the calls that skip the next value, and the plain reader.
ghost use Rattle.bcder.specs.calls.Views.{Moved};

use crate::takes::has_left;
use anyhow::Error;
use bcder::Mode;
use bcder::decode::{BytesSource, Constructed, DecodeError, SliceSource, Source};
use bytes::Bytes;
use lines::fields::{modes_of, next, number, octets_of};
use lines::tally::{Differing, Tally, differ_in};
use std::alloc::{AllocError, Global};
use support::calls::{Answer, Call, Capture, Pass, ask};
use support::sip::Sip;

/// The calls that skip the next value, and the one that skips all.
const WALK: Call = Call::Pass(Pass::Walk);

const SKIP_ONE: Call = Call::Pass(Pass::SkipOne);

const CAPTURE_ONE: Call = Call::Capture(Capture::One);

const SKIP_ALL: Call = Call::Pass(Pass::SkipAll);

/// What was compared of each reader.
#[derive(Clone, Copy, Default)]
pub struct Tallies {
    pub plain: Tally,
    pub walk: Tally,
    pub skip_one: Tally,
    pub capture_one: Tally,
    pub skip_all: Tally,
}

impl Differing for Tallies {
    fn differ(&self) -> u64 {
        let ways = [
            self.plain,
            self.walk,
            self.skip_one,
            self.capture_one,
            self.skip_all,
        ];
        differ_in(&ways)
    }
}

/// Returns how many octets the next value has, by the plain reader.
fn plainly(mode: Mode, octets: &[u8]) -> Option<usize> {
    let rest = bcder::plain::skip_one(mode, octets)?;
    octets.len().checked_sub(rest.len())
}

/// Returns whether a value was skipped, or was captured with this number of octets. The error of a
/// capture is dropped.
#[tactic(auto, using(bcder::specs::laws::Moved::steps))]
fn passes<S: Source>(
    cons: &mut Constructed<'_, S>,
    alloc: Global,
    call: Call,
    size: Option<usize>,
) -> Result<bool, DecodeError<S::Error>>
    ensures { Moved S.stream cons }
{
    match ask(cons, alloc, call) {
        Ok(Answer::Number(len)) => Ok(size == Some(len)),
        Ok(answer) => Ok(answer == Answer::Passed),
        Err(error) => {
            if call.captures() {
                Ok(false)
            } else {
                Err(error)
            }
        }
    }
}

/// Returns whether a value of `size` octets is skipped in a source that has `count` of them, or
/// none is. A refused capture leaves all octets, and content that `decode` doesn't refuse.
fn is_passed<S: Source>(
    source: &mut S,
    alloc: Global,
    mode: Mode,
    call: Call,
    count: usize,
    size: Option<usize>,
) -> bool {
    match mode.decode_lent(source, |cons| passes(cons, alloc, call, size)) {
        Ok(passed) => {
            let found = source.request(count);
            match count.checked_sub(size.unwrap_or(0)) {
                Some(left) => passed == size.is_some() && has_left(found, left),
                None => false,
            }
        }
        Err(_) => size.is_none() && !call.captures(),
    }
}

/// Compares what is skipped, over three sources.
fn compare_way(
    alloc: Global,
    mode: Mode,
    call: Call,
    octets: &[u8],
    size: Option<usize>,
    tally: &mut Tally,
) -> Result<(), AllocError> {
    let count = octets.len();
    let mut slice = SliceSource::new(octets);
    tally.count(is_passed(&mut slice, alloc, mode, call, count, size));
    let mut shared = BytesSource::new(Bytes::copy_from_slice(alloc, octets)?);
    tally.count(is_passed(&mut shared, alloc, mode, call, count, size));
    let mut sip = Sip::new(octets.to_vec(alloc)?, 0);
    tally.count(is_passed(&mut sip, alloc, mode, call, count, size));
    Ok(())
}

/// Compares what each reader skips with the size of the value that comes next, if there is one.
pub fn compare_ways(
    alloc: Global,
    mode: Mode,
    octets: &[u8],
    size: Option<usize>,
    tallies: &mut Tallies,
) -> Result<(), AllocError> {
    tallies.plain.count(plainly(mode, octets) == size);
    compare_way(alloc, mode, WALK, octets, size, &mut tallies.walk)?;
    compare_way(alloc, mode, SKIP_ONE, octets, size, &mut tallies.skip_one)?;
    compare_way(
        alloc,
        mode,
        CAPTURE_ONE,
        octets,
        size,
        &mut tallies.capture_one,
    )
}

/// Compares what each reader skips, if the octets are no more than that value, or don't begin with
/// one.
pub fn compare_whole(
    alloc: Global,
    mode: Mode,
    octets: &[u8],
    size: Option<usize>,
    tallies: &mut Tallies,
) -> Result<(), AllocError> {
    compare_ways(alloc, mode, octets, size, tallies)?;
    compare_way(alloc, mode, SKIP_ALL, octets, size, &mut tallies.skip_all)
}

/// Compares the answers of one line of `walk.tsv`.
pub fn compare_line(alloc: Global, line: &str, tallies: &mut Tallies) -> Result<(), Error> {
    let mut fields = line.split('\t');
    let octets = octets_of(alloc, next(&mut fields)?)?;
    for mode in [Mode::Ber, Mode::Cer, Mode::Der] {
        let size = match next(&mut fields)? {
            "-" => None,
            field => Some(number(field)?),
        };
        compare_ways(alloc, mode, &octets, size, tallies)?;
    }
    Ok(())
}

/// Compares that the value of a line of `fronts.tsv` is skipped, and no proper prefix of it is.
pub fn compare_fronts(alloc: Global, line: &str, tallies: &mut Tallies) -> Result<(), Error> {
    let mut fields = line.split('\t');
    let modes = modes_of(alloc, next(&mut fields)?)?;
    let octets = octets_of(alloc, next(&mut fields)?)?;
    for mode in &modes {
        compare_whole(alloc, *mode, &octets, Some(octets.len()), tallies)?;
        for size in 1..octets.len() {
            compare_whole(alloc, *mode, &octets[..size], None, tallies)?;
        }
    }
    Ok(())
}

/// What was compared with the plain reader on short lists.
#[derive(Clone, Copy, Default)]
pub struct ListTallies {
    pub walk: Tally,
    pub skip_one: Tally,
}

/// Compares `walk` and `skip_one` with the plain reader on a list of octets, in each mode.
fn compare_list(alloc: Global, octets: &[u8], tallies: &mut ListTallies) {
    let count = octets.len();
    for mode in [Mode::Ber, Mode::Cer, Mode::Der] {
        let size = plainly(mode, octets);
        let mut slice = SliceSource::new(octets);
        let walks = is_passed(&mut slice, alloc, mode, WALK, count, size);
        tallies.walk.count(walks);
        let mut slice = SliceSource::new(octets);
        let skips = is_passed(&mut slice, alloc, mode, SKIP_ONE, count, size);
        tallies.skip_one.count(skips);
    }
}

/// The octets of which the short lists are made.
const LETTERS: [u8; 8] = [0x00, 0x01, 0x02, 0x04, 0x24, 0x30, 0x80, 0x81];

/// Compares the readers on all lists of one to five of those octets.
pub fn compare_lists(alloc: Global) -> ListTallies {
    let mut tallies = ListTallies::default();
    for a in LETTERS {
        compare_list(alloc, &[a], &mut tallies);
        for b in LETTERS {
            compare_list(alloc, &[a, b], &mut tallies);
            for c in LETTERS {
                compare_list(alloc, &[a, b, c], &mut tallies);
                for d in LETTERS {
                    compare_list(alloc, &[a, b, c, d], &mut tallies);
                    for e in LETTERS {
                        compare_list(alloc, &[a, b, c, d, e], &mut tallies);
                    }
                }
            }
        }
    }
    tallies
}
