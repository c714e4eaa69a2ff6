//! Sources that lend octets for longer than the source is borrowed.
ghost use Rattle.std.specs.Prelude.{◌≡◌, ◌≤◌, slice_range};

use super::Source;
use std::convert::AsSlice;

/// A source over octets that outlive it.
///
/// [`Source::slice`] lends the available octets while the source is borrowed. This trait lends them
/// for as long as they live, as `&'a [u8]` over a [`SliceSource<'a>`](super::SliceSource). So what
/// is read from them can be kept beside the source, and nothing is copied or counted.
pub trait LendingSource: Source {
    /// Octets that are lent.
    type Lent: AsSlice<u8> + Copy + Drop;

    /// Returns the available octets from `start` to before `end`.
    fn lent(&self, start: usize, end: usize) -> Self::Lent
        requires start_le_end { start ≤ end }
        requires in_bounds { end ≤ (Self.stream self.now).avail }
        ensures { Self.Lent.items result ≡ slice_range (Self.stream self.now).rest start end };
}

/// Lends what the borrowed source lends.
impl<T: LendingSource> LendingSource for &mut T {
    type Lent = T::Lent;

    fn lent(&self, start: usize, end: usize) -> T::Lent {
        T::lent(&**self, start, end)
    }
}
