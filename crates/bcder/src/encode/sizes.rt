//! Sizes that are noted when encoders are measured, and read when they are written.
//!
//! An encoder of many values is measured before it is written, so that nothing is written if a part
//! is refused. The size of what is inside a value is noted then, in the order in which length
//! octets need it, so that none is computed again. There is room for some sizes on the stack. A
//! value whose size isn't noted measures its inside once more, and notes the sizes there anew.
ghost use Rattle.std.specs.Prelude.{◌≡◌, ◌≢◌, ◌≤◌, ◌+◌, ℕ, List, [], ◌∷◌, ◌++◌, length, IsTrue};

/// Measures values for the first time, before any of them is written; and writes the outermost.
///
/// Such a type only tells calls of one function apart: those for [`InCer`], [`Inside`] and
/// [`Again`] do the same. Each is compiled by itself. So at each level one place measures first,
/// and one writes what a public call was given. A compiler puts these into their caller.
pub(crate) struct First;

/// Measures values for the first time in CER, where no size is noted.
pub(crate) struct InCer;

/// Writes values inside another value.
pub(crate) struct Inside;

/// Measures and writes values whose sizes weren't noted.
pub(crate) struct Again;

/// The sizes of what is inside values, in the order in which length octets need them.
#[doc(hidden)]
#[derive(Clone, Copy, Debug)]
pub struct Sizes {
    places: [usize; 16],
    count: usize,
    room: usize,
    ghost within: { count + room ≤ 16 },
}

impl Sizes {
    ghost use Rattle.bcder.specs.calls.Noted.{noted};

    /// Returns an empty list of sizes.
    #[inline(always)]
    pub(crate) fn new() -> Sizes
        ensures { noted result ≡ [] }
    {
        Sizes {
            places: [0; 16],
            count: 0,
            room: 16,
        }
    }

    /// Stops noting: from here on no size is noted.
    #[inline(always)]
    pub(crate) fn close(&mut self)
        ensures same { noted self.new ≡ noted self.old }
        ensures full { self.new.room ≡ 0 }
    {
        self.room = 0;
    }

    /// Returns whether there is no place left.
    #[inline(always)]
    pub(crate) fn is_full(&self) -> bool
        ensures { IsTrue result → self.now.room ≡ 0 }
    {
        self.room == 0
    }

    /// Reserves a place for a size that isn't known yet, if there is one, and returns its index.
    #[inline(always)]
    pub(crate) fn reserve(&mut self) -> usize
        ensures place { result ≡ length (noted self.old) }
        ensures full { self.old.room ≡ 0 → (noted self.new ≡ noted self.old) × (self.new.room ≡ 0) }
        ensures room { self.old.room ≢ 0 → noted self.new ≡ noted self.old ++ 0 ∷ [] }
    {
        let place = self.count;
        if self.room > 0 {
            self.places[place] = 0;
            self.count = place + 1;
            self.room -= 1;
        }
        place
    }

    /// Puts a size into the place that was reserved for it.
    #[inline(always)]
    pub(crate) fn fill(&mut self, place: usize, size: usize)
        ensures there { (before behind : List ℕ) (k : ℕ) → noted self.old ≡ before ++ k ∷ behind
            → place ≡ length before → noted self.new ≡ before ++ size ∷ behind }
        ensures beyond { length (noted self.old) ≤ place → noted self.new ≡ noted self.old }
        ensures room { self.new.room ≡ self.old.room }
    {
        if place < self.count {
            self.places[place] = size;
        }
    }

    /// Returns all sizes, to be read.
    #[inline(always)]
    pub(crate) fn left(&self) -> SizesLeft<'_>
        ensures { result.sizes.now ≡ noted self.now }
    {
        SizesLeft {
            sizes: &self.places[..self.count],
        }
    }
}

/// The sizes that are still to be read.
#[doc(hidden)]
#[derive(Clone, Copy, Debug)]
pub struct SizesLeft<'a> {
    sizes: &'a [usize],
}

impl SizesLeft<'_> {
    ghost use Rattle.bcder.specs.steps.Enclosing.{Takes};

    /// Returns an empty list.
    #[inline(always)]
    pub(crate) fn none() -> Self
        ensures { result.sizes.now ≡ [] }
    {
        SizesLeft { sizes: &[] }
    }

    /// Discards the sizes: from here on none is left.
    #[inline(always)]
    pub(crate) fn clear(&mut self)
        ensures { self.new.sizes.now ≡ [] }
    {
        self.sizes = &[];
    }

    /// Returns the next size.
    #[inline(always)]
    pub(crate) fn next(&mut self) -> Option<usize>
        ensures { Takes self.old.sizes.now result self.new.sizes.now }
    {
        match self.sizes {
            [size, rest @ ..] => {
                self.sizes = rest;
                Some(*size)
            }
            [] => None,
        }
    }
}
