//! Equality and order of octet strings: by their octets, however they were cut.
ghost use Rattle.std.specs.Prelude.{◌≡◌, ◌↔◌, ◌++◌, [], Some, IsTrue, nat_eq};
ghost use Rattle.std.specs.Cmp.{partial_equiv_from_equiv, on_per, on_equiv, on_po, on_total};
ghost use Rattle.std.specs.Cmp.Lexicographic.{pointwise, slice_cmp, nat_list_eq_equiv};
ghost use Rattle.std.specs.Cmp.Lexicographic.{nat_list_cmp_total, texts_po, texts_ties};
ghost use Rattle.std.specs.Cmp.Rules.{comparing};
ghost use Rattle.std.specs.List.{concat};
ghost use Rattle.std.specs.Ordering.{nat_cmp};
ghost use Rattle.std.proofs.Common.{rules};
ghost use Rattle.bcder.specs.calls.StringOctets.{octets_of};

use super::{OctetString, OctetStringIter};
use std::cmp::Ordering;

/// Returns what is left of a part, or the next part that isn't empty if nothing is left.
#[inline(always)]
pub(super) fn front<'a>(mut part: &'a [u8], parts: &mut OctetStringIter<'a>) -> &'a [u8]
    ensures joined { result.now ++ concat parts.new ≡ part.entry.now ++ concat parts.old }
    ensures all { result.now ≡ [] → concat parts.new ≡ [] }
{
    while part.is_empty() {
        let Some(next) = parts.next() else {
            return part;
        };
        part = next;
    }
    part
}

/// Compares two sequences of octets, each cut into parts. It compares as many octets at once as are
/// in one part on both sides.
fn compare(mut ones: OctetStringIter<'_>, mut others: OctetStringIter<'_>) -> Ordering
    ensures { result ≡ slice_cmp nat_cmp (concat ones.entry) (concat others.entry) }
{
    let mut one = front(&[], &mut ones);
    let mut other = front(&[], &mut others);
    loop {
        let len = one.len().min(other.len());
        if len == 0 {
            return one.len().cmp(&other.len());
        }
        let (one_front, one_rest) = one.split_at(len);
        let (other_front, other_rest) = other.split_at(len);
        if one_front != other_front {
            return one_front.cmp(other_front);
        }
        one = front(one_rest, &mut ones);
        other = front(other_rest, &mut others);
    }
}

/// Returns whether two sequences of octets, each cut into parts, are equal.
#[tactic(auto, using(crate::proofs::Comparing::equal_told))]
fn equal(ones: OctetStringIter<'_>, others: OctetStringIter<'_>) -> bool
    ensures { result ≡ pointwise nat_eq (concat ones.entry) (concat others.entry) }
{
    compare(ones, others).is_eq()
}

impl OctetString {
    /// Returns whether the octets equal those of a slice.
    #[tactic(auto, using(crate::proofs::Comparing::same_told, crate::proofs::Comparing::parts_joined, crate::proofs::Comparing::piece_joined))]
    pub fn eq_octets(&self, octets: &[u8]) -> bool
        ensures { IsTrue result ↔ (octets_of self.now ≡ octets.now) }
    {
        match self.as_slice() {
            Some(own) => own == octets,
            None => equal(self.iter(), OctetStringIter::of_piece(octets)),
        }
    }

    /// Compares the octets with others. The first octets that differ decide; if there are none, the
    /// shorter sequence is less.
    pub fn cmp_octets(&self, octets: &[u8]) -> Ordering
        ensures { result ≡ slice_cmp nat_cmp (octets_of self.now) octets.now }
    {
        match self.as_slice() {
            Some(own) => own.cmp(octets),
            None => compare(self.iter(), OctetStringIter::of_piece(octets)),
        }
    }
}

/// Strings are equal if their octets are.
impl PartialEq for OctetString {
    ghost eq = { λ x y. pointwise nat_eq (octets_of x) (octets_of y) };

    ghost laws = { on_per octets_of (partial_equiv_from_equiv nat_list_eq_equiv) };

    fn eq(&self, other: &OctetString) -> bool {
        match other.as_slice() {
            Some(octets) => self.eq_octets(octets),
            None => equal(self.iter(), other.iter()),
        }
    }
}

impl Eq for OctetString {
    ghost laws = { on_equiv octets_of nat_list_eq_equiv };
}

impl PartialOrd for OctetString {
    ghost partial_cmp = { λ x y. Some (slice_cmp nat_cmp (octets_of x) (octets_of y)) };

    ghost laws = { on_po octets_of texts_po };

    fn partial_cmp(&self, other: &OctetString) -> Option<Ordering> {
        Some(self.cmp(other))
    }
}

/// The first octets that differ decide. If there are none, the shorter string is less.
impl Ord for OctetString {
    ghost cmp = { λ x y. slice_cmp nat_cmp (octets_of x) (octets_of y) };

    ghost total = { on_total octets_of nat_list_cmp_total };

    ghost matches_partial_cmp = { Prim.search (comparing, rules) };

    ghost matches_eq = { λ x y. texts_ties (octets_of x) (octets_of y) };

    fn cmp(&self, other: &OctetString) -> Ordering {
        match other.as_slice() {
            Some(octets) => self.cmp_octets(octets),
            None => compare(self.iter(), other.iter()),
        }
    }
}
