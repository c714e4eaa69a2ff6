//! A user's own type that stands for itself, written.
ghost use Rattle.std.specs.Prelude.{◌≡◌, Result};
ghost use Rattle.bcder.specs.declared.mode.Mode.{Mode as Rules};
ghost use Rattle.bcder.specs.calls.Meaning.{Encoded, Meaning};
ghost use Rattle.bcder.specs.calls.Encoders.{SizeOfValues, Writes};
ghost use Rattle.asn1.specs.Writing.{IsReadAs};
ghost use Rattle.asn1.specs.Lawfully.{Lawfully, lawfully};
ghost use Rattle.asn1.specs.EncodeOf.{EncodeOf};

use crate::parts::Parts;
use crate::writers::Encode;
use bcder::encode::{EncodeError, WriteError};
use bcder::{Mode, Tag};
use std::io;

/// What is done with the parts of a value: they are measured, or written.
pub trait UseParts<T>: Drop + Sized {
    /// What it returns.
    type Out;

    /// The mode in which it is done.
    ghost mode: { Self → Rules };

    /// What it does to a target with parts, of which this is written, or memory may run out.
    ghost does: { Self → (Meaning → Type 0) → Type 0 → T → T → Self.Out → Type 0 };

    /// Does it with parts, which are written with the tag.
    fn use_parts<E: Encode>(self, parts: &E, tag: Tag, target: &mut T) -> Self::Out
        ensures { does self (Lawfully (mode self) (E.writes tag parts.now (mode self)))
            (E.may_lack parts.now (mode self)) target.old target.new result };

    /// Does it with a value of one type of a CHOICE, which is written with its own tag.
    final fn use_alternative<E: Encode>(self, value: &E, target: &mut T) -> Self::Out
        ensures { does self (Lawfully (mode self) (E.writes E.TAG value.now (mode self)))
            (E.may_lack value.now (mode self)) target.old target.new result }
    {
        self.use_parts(value, E::tag(), target)
    }
}

/// [`Parts`] that write themselves as the type behind the `::=` (X.680, 16.1).
pub trait EncodeParts: Parts {
    /// What that type writes: `⟦<A as Encode>⟧`, if it is `A`.
    ghost written: { EncodeOf Self.As };

    /// Gives the parts to what is done with them, in one line.
    fn give_parts<T, U: UseParts<T>>(&self, tag: Tag, to: U, target: &mut T) -> U::Out
        ensures { U.does to
            (Lawfully (U.mode to) (written.writes tag (Self.parts self.now) (U.mode to)))
            (written.may_lack (Self.parts self.now) (U.mode to)) target.old target.new result };

    /// A law: what is written is read back. It calls `is_read_back` of the type behind the `::=`.
    fn are_read_back(tag: Tag, mode: Mode)
        ensures { (v : Self.As) → written.is_clear v mode →
            IsReadAs (Self.Tags.tags tag) (Self.typed.means mode) Self.typed.key v
            (written.writes tag v mode) };

    /// The value that has these parts.
    ghost made: { (value : Self.As) → ((x : Self) × (Self.Parts.parts x ≡ value)) };
}

/// It writes what the type behind the `::=` does, and one thing at most: a law of a type can't be
/// cited by another's impl, and so is part of the meaning.
impl<D: Parts + EncodeParts> Encode for D {
    ghost writes = { λ tag x mode. Lawfully mode (D.written.writes tag (D.parts x) mode) };

    ghost may_lack = { λ x mode. D.written.may_lack (D.parts x) mode };

    ghost is_clear = { λ x mode. D.written.is_clear (D.parts x) mode };

    fn encoded_len_as(&self, tag: Tag, mode: Mode) -> Result<usize, EncodeError> {
        self.give_parts(tag, Measuring { mode }, &mut ())
    }

    fn write_encoded_as<W: io::Write>(
        &self,
        tag: Tag,
        mode: Mode,
        target: &mut W,
    ) -> Result<(), WriteError> {
        self.give_parts(tag, Writing { mode }, target)
    }

    fn is_read_back(tag: Tag, mode: Mode) {
        D::are_read_back(tag, mode);
    }

    ghost lawful = { λ tag x mode. lawfully mode (D.written.writes tag (D.parts x) mode) };
}

/// They are measured in a mode.
#[derive(Drop)]
struct Measuring {
    mode: Mode,
}

impl UseParts<()> for Measuring {
    type Out = Result<usize, EncodeError>;

    ghost mode = { λ m. m.mode };

    ghost does = { λ _ writes lacks _ _ r. SizeOfValues writes lacks r };

    fn use_parts<E: Encode>(
        self,
        parts: &E,
        tag: Tag,
        _target: &mut (),
    ) -> Result<usize, EncodeError> {
        len_parts(parts, tag, self.mode)
    }
}

/// They are written in a mode.
#[derive(Drop)]
struct Writing {
    mode: Mode,
}

impl<W: io::Write> UseParts<W> for Writing {
    type Out = Result<(), WriteError>;

    ghost mode = { λ m. m.mode };

    ghost does = { λ _ writes lacks old new r. Writes (λ (e : Encoded). e.octets) writes lacks
        (W.contents old) (W.contents new) r };

    fn use_parts<E: Encode>(self, parts: &E, tag: Tag, target: &mut W) -> Result<(), WriteError> {
        write_parts(parts, tag, self.mode, target)
    }
}

/// Returns the number of octets of the encoding of parts with the tag.
fn len_parts<E: Encode>(parts: &E, tag: Tag, mode: Mode) -> Result<usize, EncodeError>
    ensures { SizeOfValues (Lawfully mode (E.writes tag parts.now mode))
        (E.may_lack parts.now mode) result }
{
    parts.encoded_len_as(tag, mode)
}

/// Writes the encoding of parts with the tag.
fn write_parts<E: Encode, W: io::Write>(
    parts: &E,
    tag: Tag,
    mode: Mode,
    target: &mut W,
) -> Result<(), WriteError>
    ensures { Writes (λ (e : Encoded). e.octets) (Lawfully mode (E.writes tag parts.now mode))
        (E.may_lack parts.now mode) (W.contents target.old) (W.contents target.new) result }
{
    parts.write_encoded_as(tag, mode, target)
}
