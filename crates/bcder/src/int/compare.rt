//! Equality, order and hash of integers: by their numbers.
ghost use Rattle.std.specs.Prelude.{Some, pos, nat_eq};
ghost use Rattle.std.specs.Cmp.{partial_equiv_from_equiv, int_eq_equiv, int_cmp_total, signed_po};
ghost use Rattle.std.specs.Cmp.{nat_eq_equiv, nat_cmp_total, unsigned_po};
ghost use Rattle.std.specs.Cmp.Rules.{comparing, hashing};
ghost use Rattle.std.specs.Hash as fed;
ghost use Rattle.std.specs.Ordering.{int_cmp, int_eq, nat_cmp};
ghost use Rattle.std.proofs.Common.{rules};
ghost use Rattle.bcder.specs.x690.Integer.{integer_octets};

use super::{Integer, Unsigned, integer_order};
use std::cmp::Ordering;
use std::hash::{Hash, Hasher};

impl PartialEq for Integer {
    ghost eq = { int_eq };

    ghost laws = { partial_equiv_from_equiv int_eq_equiv };

    fn eq(&self, other: &Integer) -> bool {
        self.as_slice() == other.as_slice()
    }
}

impl Eq for Integer {
    ghost laws = { int_eq_equiv };
}

impl PartialOrd for Integer {
    ghost partial_cmp = { λ x y. Some (int_cmp x y) };

    ghost laws = { signed_po };

    fn partial_cmp(&self, other: &Integer) -> Option<Ordering> {
        Some(self.cmp(other))
    }
}

impl Ord for Integer {
    ghost cmp = { int_cmp };

    ghost total = { int_cmp_total };

    ghost matches_partial_cmp = { Prim.search (comparing, rules) };

    ghost matches_eq = { Prim.search (comparing, rules) };

    fn cmp(&self, other: &Integer) -> Ordering {
        integer_order(self.as_slice(), other.as_slice())
    }
}

impl Hash for Integer {
    ghost hash_input = { λ z. fed.slice fed.u8 (integer_octets z) };

    ghost respects_eq = { Prim.search (hashing, rules) };

    fn hash<H: Hasher>(&self, state: &mut H) {
        self.as_slice().hash(state);
    }
}

impl PartialEq for Unsigned {
    ghost eq = { nat_eq };

    ghost laws = { partial_equiv_from_equiv nat_eq_equiv };

    fn eq(&self, other: &Unsigned) -> bool {
        self.integer() == other.integer()
    }
}

impl Eq for Unsigned {
    ghost laws = { nat_eq_equiv };
}

impl PartialOrd for Unsigned {
    ghost partial_cmp = { λ x y. Some (nat_cmp x y) };

    ghost laws = { unsigned_po };

    fn partial_cmp(&self, other: &Unsigned) -> Option<Ordering> {
        Some(self.cmp(other))
    }
}

impl Ord for Unsigned {
    ghost cmp = { nat_cmp };

    ghost total = { nat_cmp_total };

    ghost matches_partial_cmp = { Prim.search (comparing, rules) };

    ghost matches_eq = { Prim.search (comparing, rules) };

    fn cmp(&self, other: &Unsigned) -> Ordering {
        self.integer().cmp(other.integer())
    }
}

impl Hash for Unsigned {
    ghost hash_input = { λ n. fed.slice fed.u8 (integer_octets (pos n)) };

    ghost respects_eq = { Prim.search (hashing, rules) };

    fn hash<H: Hasher>(&self, state: &mut H) {
        self.integer().hash(state);
    }
}
