//! The components of an object identifier (X.690, 8.19.2 to 8.19.4).
ghost use Rattle.std.specs.Prelude.{◌≡◌, ℕ, ◌^◌, [], ◌∷◌, Some, MatchOption, min, ◌↔◌, IsTrue};
ghost use Rattle.bcder.specs.x690.ObjectIdentifier.{subidentifier_number, subidentifiers};
ghost use Rattle.bcder.specs.calls.Identifiers.{component_parts, part_value};
ghost use Rattle.bcder.specs.x690.ObjectIdentifier.{IsComplete, IsMinimal};
ghost use Rattle.bcder.specs.calls.Identifiers.{part_of, parts_left, in_32_bits};
ghost use Rattle.bcder.specs.calls.Identifiers.{shown};

use std::fmt;

/// The position of a component. The first subidentifier holds the first two (8.19.4).
#[derive(Clone, Copy, Debug, PartialEq, Eq)]
enum Position {
    First,
    Second,
    Other,
}

/// A component: its position, and the octets of the subidentifier that holds it.
///
/// Two components are equal if both are equal. So octets that aren't the fewest make another
/// component of the same number.
#[derive(Clone, Copy, Debug, PartialEq, Eq)]
pub struct Component<'a> {
    position: Position,
    octets: &'a [u8],
}

/// Returns whether octets end with a subidentifier.
#[inline(always)]
pub(crate) fn is_complete(octets: &[u8]) -> bool
    ensures { IsTrue result ↔ IsComplete octets.now }
{
    match octets {
        [] => false,
        [.., last] => *last < 0x80,
    }
}

/// The number that is returned in place of any larger one.
const LARGE: u64 = 1 << 33;

/// Returns the number that the octets of a subidentifier hold, or `LARGE` if it is that or more.
fn number_to_large(octets: &[u8]) -> u64
    ensures { result ≡ min (subidentifier_number octets.now) (2 ^ 33) }
{
    let mut high = 0u64;
    for octet in octets {
        high = 0x80 * high + u64::from(*octet % 0x80);
        if high >= LARGE {
            return LARGE;
        }
    }
    high
}

impl Component<'_> {
    /// Returns the number, or `None` if it is 2^32 or more.
    pub fn to_u32(self) -> Option<u32>
        ensures { result ≡ in_32_bits (part_value (part_of self.entry)) }
    {
        let number = number_to_large(self.octets);
        let value = match self.position {
            Position::First if number < 40 => 0,
            Position::First if number < 80 => 1,
            Position::First => 2,
            Position::Second if number < 40 => number,
            Position::Second if number < 80 => number - 40,
            Position::Second => number - 80,
            Position::Other => number,
        };
        u32::try_from(value).ok()
    }
}

/// Displays the number in decimal, or `(very large component)` if it is 2^32 or more.
impl fmt::Display for Component<'_> {
    ghost output = { λ component. Some (shown (part_value (part_of component))) };

    fn fmt<W: fmt::Write>(&self, f: &mut fmt::Formatter<W>) -> fmt::Result {
        match self.to_u32() {
            Some(number) => write!(f, "{number}"),
            None => write!(f, "(very large component)"),
        }
    }
}

/// An iterator over the components of an object identifier, in order.
#[derive(Clone, Debug, Drop)]
pub struct Iter<'a> {
    position: Position,
    octets: &'a [u8],
}

/// Returns the octets of the first subidentifier, and the octets after it.
fn split_subidentifier(octets: &[u8]) -> Option<(&[u8], &[u8])>
    ensures { MatchOption result
        (subidentifiers octets.now ≡ [])
        (λ r. subidentifiers octets.now ≡ r.0.now ∷ subidentifiers r.1.now) }
{
    for (i, octet) in octets.iter().enumerate() {
        if *octet < 0x80 {
            return Some(octets.split_at(i + 1));
        }
    }
    None
}

/// Returns whether each subidentifier has the fewest octets: none begins with the octet 80.
pub(super) fn is_minimal(octets: &[u8]) -> bool
    ensures { IsTrue result ↔ IsMinimal octets.now }
{
    let mut rest = octets;
    while let Some((subidentifier, behind)) = split_subidentifier(rest) {
        if let [0x80, ..] = subidentifier {
            return false;
        }
        rest = behind;
    }
    true
}

impl<'a> Iter<'a> {
    pub(super) fn new(octets: &'a [u8]) -> Iter<'a>
        ensures { parts_left result ≡ component_parts octets.now }
    {
        Iter {
            position: Position::First,
            octets,
        }
    }
}

impl<'a> Iterator for Iter<'a> {
    ghost use Rattle.std.specs.Iterator.{YieldsFirstBy, item_count};
    ghost use Rattle.bcder.specs.calls.Identifiers.{part_of, parts_left};

    type Item = Component<'a>;

    ghost next_gives = { YieldsFirstBy part_of parts_left };

    ghost remaining = { item_count parts_left };

    fn next(&mut self) -> Option<Component<'a>> {
        let (octets, rest) = split_subidentifier(self.octets)?;
        let position = self.position;
        if position == Position::First {
            self.position = Position::Second;
        } else {
            self.position = Position::Other;
            self.octets = rest;
        }
        Some(Component { position, octets })
    }
}
