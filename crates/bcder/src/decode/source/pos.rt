//! Positions in sources.
ghost use Rattle.std.specs.Prelude.{◌≡◌, ℕ};
ghost use Rattle.bcder.specs.calls.Stream.{pos_after};

use std::fmt;
use std::marker::Model;
use std::ops::Add;

/// A position in a source: the number of octets before it.
///
/// It is counted from where the innermost source began, or from the offset that this source was
/// given. It is for messages only, since it stops at `usize::MAX`.
#[derive(Clone, Copy, Debug, Default)]
pub struct Pos(usize);

impl Model for Pos {
    ghost Value = { ℕ };

    ghost view = { λ p. p.0 };

    ghost inverse = { λ n. record { 0 = n } };
}

impl From<usize> for Pos {
    ghost from_gives = { λ n p. p ≡ n };

    fn from(pos: usize) -> Pos {
        Pos(pos)
    }
}

/// The position as a number.
impl From<Pos> for usize {
    ghost from_gives = { λ p n. n ≡ p };

    fn from(pos: Pos) -> usize {
        pos.0
    }
}

/// The sum of two positions, or `usize::MAX` if that is less.
impl Add for Pos {
    type Output = Pos;

    ghost add_gives = { λ p q r. r ≡ pos_after p q };

    fn add(self, other: Pos) -> Pos {
        Pos(self.0.saturating_add(other.0))
    }
}

impl fmt::Display for Pos {
    ghost use Rattle.std.specs.Prelude.{Some};
    ghost use Rattle.std.specs.Fmt.{decimal};

    ghost output = { λ p. Some (decimal p) };

    fn fmt<W: fmt::Write>(&self, f: &mut fmt::Formatter<W>) -> fmt::Result {
        write!(f, "{}", self.0)
    }
}
