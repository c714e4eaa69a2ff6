//! Equality, order and hash of restricted strings: by their octets, like octet strings.
ghost use Rattle.std.specs.Prelude.{Some, nat_eq};
ghost use Rattle.std.specs.Cmp.{partial_equiv_from_equiv, on_per, on_equiv, on_po, on_total};
ghost use Rattle.std.specs.Cmp.Lexicographic.{pointwise, slice_cmp, nat_list_eq_equiv};
ghost use Rattle.std.specs.Cmp.Lexicographic.{nat_list_cmp_total, texts_po, texts_ties};
ghost use Rattle.std.specs.Cmp.Lexicographic.{bytes_decides};
ghost use Rattle.std.specs.Cmp.Rules.{comparing};
ghost use Rattle.std.specs.Ordering.{nat_cmp};
ghost use Rattle.std.proofs.Common.{ap, rules};
ghost use Rattle.bcder.specs.calls.StringOctets.{hashed};
ghost use Rattle.bcder.specs.calls.StringOctets.{octets_of};

use super::{CharSet, RestrictedString};
use std::cmp::Ordering;
use std::hash::{Hash, Hasher};

/// Strings are equal if their octets are.
impl<L: CharSet> PartialEq for RestrictedString<L> {
    ghost eq = { λ x y. pointwise nat_eq (octets_of x) (octets_of y) };

    ghost laws = { on_per octets_of (partial_equiv_from_equiv nat_list_eq_equiv) };

    fn eq(&self, other: &RestrictedString<L>) -> bool {
        self.octets == other.octets
    }
}

impl<L: CharSet> Eq for RestrictedString<L> {
    ghost laws = { on_equiv octets_of nat_list_eq_equiv };
}

impl<L: CharSet> PartialOrd for RestrictedString<L> {
    ghost partial_cmp = { λ x y. Some (slice_cmp nat_cmp (octets_of x) (octets_of y)) };

    ghost laws = { on_po octets_of texts_po };

    fn partial_cmp(&self, other: &RestrictedString<L>) -> Option<Ordering> {
        Some(self.cmp(other))
    }
}

/// The first octets that differ decide. If there are none, the shorter string is less.
impl<L: CharSet> Ord for RestrictedString<L> {
    ghost cmp = { λ x y. slice_cmp nat_cmp (octets_of x) (octets_of y) };

    ghost total = { on_total octets_of nat_list_cmp_total };

    ghost matches_partial_cmp = { Prim.search (comparing, rules) };

    ghost matches_eq = { λ x y. texts_ties (octets_of x) (octets_of y) };

    fn cmp(&self, other: &RestrictedString<L>) -> Ordering {
        self.octets.cmp(&other.octets)
    }
}

/// The hash is that of the octet string.
impl<L: CharSet> Hash for RestrictedString<L> {
    ghost hash_input = { λ s. hashed (octets_of s) };

    ghost respects_eq = { λ x y e. ap hashed ((bytes_decides (octets_of x) (octets_of y)).0 e) };

    fn hash<H: Hasher>(&self, state: &mut H) {
        self.octets.hash(state)
    }
}
