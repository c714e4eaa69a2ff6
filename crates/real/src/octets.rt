//! A few octets in an array.
ghost use Rattle.std.specs.Prelude.{◌≡◌, ◌+◌, ◌<◌, ◌≤◌, List, [], ◌∷◌, ◌++◌, length, take};

use std::marker::Model;

/// At most 35 octets, the contents octets of a REAL.
#[derive(Debug, Drop)]
pub struct Octets {
    octets: [u8; 35],
    len: usize,
}

impl Model for Octets {
    ghost use Rattle.std.specs.Prelude.{ℕ, List, ◌≤◌, take};

    ghost Value = { List ℕ };

    ghost view = { λ a. take a.len a.octets };

    ghost invariant = { λ a. a.len ≤ 35 };
}

impl Octets {
    /// Returns no octets.
    pub(crate) fn new() -> Octets
        ensures { result ≡ [] }
    {
        Octets {
            octets: [0; 35],
            len: 0,
        }
    }

    /// Appends an octet.
    pub(crate) fn push(&mut self, octet: u8)
        requires { length self.old < 35 }
        ensures { self.new ≡ self.old ++ octet ∷ [] }
    {
        self.octets[self.len] = octet;
        self.len += 1;
    }

    /// Returns the octets.
    pub fn as_slice(&self) -> &[u8]
        ensures { result.now ≡ self.now }
    {
        &self.octets[..self.len]
    }
}
