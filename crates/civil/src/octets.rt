//! A few octets in an array.
ghost use Rattle.std.specs.Prelude.{◌≡◌, ◌+◌, ◌<◌, ◌≤◌, List, [], ◌∷◌, ◌++◌, length, take, codes};

use std::marker::Model;

/// At most 25 octets, the contents octets of a time.
#[derive(Debug, Drop)]
pub struct Octets {
    octets: [u8; 25],
    len: usize,
}

impl Model for Octets {
    ghost use Rattle.std.specs.Prelude.{ℕ, List, ◌≤◌, take};

    ghost Value = { List ℕ };

    ghost view = { λ a. take a.len a.octets };

    ghost invariant = { λ a. a.len ≤ 25 };
}

impl Octets {
    /// Makes them of an array and the number of those in front that count.
    pub(crate) fn new(octets: [u8; 25], len: usize) -> Octets
        requires { len ≤ 25 }
        ensures { result ≡ take len octets }
    {
        Octets { octets, len }
    }

    /// Appends an octet.
    pub(crate) fn push(&mut self, octet: u8)
        requires { length self.old < 25 }
        ensures { self.new ≡ self.old ++ octet ∷ [] }
    {
        self.octets[self.len] = octet;
        self.len += 1;
    }

    /// Returns the octets.
    pub fn as_slice(&self) -> &[u8]
        ensures { result.now ≡ self.now }
    {
        &self.octets[..self.len]
    }
}
