//! What notes in which part of a value something was refused.
ghost use Rattle.std.specs.Prelude.{◌≡◌, ⊤, true, false};
ghost use Rattle.asn1.specs.declared.trace.Part.{Part as PartValue};

use bcder::Tag;

/// What an error passes on its way outwards, or what was expected where it began.
#[derive(Clone, Copy)]
pub enum Part {
    /// A value with this tag was expected.
    Expected(Tag),
    /// A value of any type was expected.
    AnyExpected,
    /// A field.
    Field,
    /// Fields that stand behind so many others.
    Behind(usize),
    /// A value of which that field is the only one, so it has no number.
    Only,
    /// This value of a list, from 0.
    Item(usize),
    /// The first type of a CHOICE of two.
    First,
    /// The second type of a CHOICE of two.
    Second,
}

/// What notes in which part of a value something was refused: a [`Path`](crate::Path), or `()`,
/// which notes nothing.
///
/// A reader calls it only if something is refused.
pub trait Trace {
    /// What it becomes when a part is noted. By default nothing is said.
    ghost noted: { Self → PartValue → Self → Type 0 } = { λ _ _ _. ⊤ };

    /// Notes what an error passes.
    fn note(&mut self, part: Part)
        ensures { noted self.old part self.new };

    /// Notes what an error passes, if there is one.
    #[inline(always)]
    final fn note_if(&mut self, is_refused: bool, part: Part)
        ensures noted { is_refused ≡ true → noted self.old part self.new }
        ensures passed { is_refused ≡ false → self.new ≡ self.old }
    {
        if is_refused {
            self.note(part);
        }
    }

    /// Names the part that it passed last: these are the names of all fields or alternatives.
    fn name_part(&mut self, names: &'static [&'static str]);
}

impl Trace for () {
    #[inline(always)]
    fn note(&mut self, _part: Part) {}

    #[inline(always)]
    fn name_part(&mut self, _names: &'static [&'static str]) {}
}
