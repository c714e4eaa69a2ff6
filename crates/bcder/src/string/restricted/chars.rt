//! The characters of a restricted string.
ghost use Rattle.std.specs.Prelude.{◌≡◌, ⊤};
ghost use Rattle.bcder.specs.x690.CharSet.{Spells};
ghost use Rattle.bcder.specs.x690.Characters.{characters};
ghost use Rattle.bcder.specs.calls.StringOctets.{octets_of};

use super::{CharSet, RestrictedString};
use crate::string::octet::OctetStringOctets;
use std::alloc::AllocError;
use std::fmt;
use std::marker::{Model, PhantomData};

/// An iterator over the characters of a restricted string, in order.
#[derive(Debug, Drop)]
pub struct RestrictedStringChars<'a, L: CharSet> {
    /// What is left of a string that is at hand as a text.
    text: Option<&'a str>,

    /// What is left of any other string.
    octets: OctetStringOctets<'a>,

    set: PhantomData<L>,
}

/// The clauses see the characters that are still to come.
impl<'a, L: CharSet> Model for RestrictedStringChars<'a, L> {
    ghost use Rattle.std.specs.Prelude.{ℕ, List, IfSome};
    ghost use Rattle.std.specs.Str.{IsUtf8};
    ghost use Rattle.bcder.specs.x690.CharSet.{IsOfSet};
    ghost use Rattle.bcder.specs.calls.RestrictedString.{characters_left};

    ghost Value = { List ℕ };

    ghost view = { λ i. characters_left L.step i.text i.octets.octets };

    ghost invariant = { λ i. IfSome i.text (λ t. IsUtf8 t.now) × IsOfSet L.step i.octets.octets };
}

impl<L: CharSet> RestrictedString<L> {
    /// Returns an iterator over the characters, in order. The octets of one character may be in two
    /// segments (X.690, 8.23.6).
    pub fn chars(&self) -> RestrictedStringChars<'_, L>
        ensures { Spells L.step (octets_of self.now) result }
    {
        let octets = self.octets.octets();
        RestrictedStringChars {
            text: L::as_text(&octets),
            octets,
            set: PhantomData,
        }
    }
}

/// The clone has the same characters to come, and allocates nothing.
impl<L: CharSet> Clone for RestrictedStringChars<'_, L> {
    ghost is_clone = { λ i copy. copy ≡ i };

    ghost is_infallible = { λ _. ⊤ };

    fn clone(&self) -> Result<Self, AllocError> {
        Ok(RestrictedStringChars {
            text: self.text,
            octets: self.octets.clone()?,
            set: PhantomData,
        })
    }
}

impl<L: CharSet> Iterator for RestrictedStringChars<'_, L> {
    ghost use Rattle.std.specs.Iterator.{YieldsFirst, item_count};

    type Item = char;

    ghost next_gives = { YieldsFirst (λ chars. chars) };

    ghost remaining = { item_count (λ chars. chars) };

    #[inline(always)]
    fn next(&mut self) -> Option<char> {
        match self.text {
            Some(text) => {
                let mut chars = text.chars();
                let next = chars.next();
                self.text = Some(chars.as_str());
                next
            }
            None => match L::next_char(&mut self.octets) {
                Ok(next) => next,
                Err(_) => None,
            },
        }
    }
}

/// Displays the characters.
impl<L: CharSet> fmt::Display for RestrictedString<L> {
    ghost use Rattle.std.specs.Prelude.{Some, encode_utf8_all};

    ghost output = { λ s. Some (encode_utf8_all (characters L.step (octets_of s))) };

    fn fmt<W: fmt::Write>(&self, f: &mut fmt::Formatter<W>) -> fmt::Result {
        if let Some(text) = L::as_text(&self.octets.octets()) {
            return f.write_str(text);
        }
        for c in self.chars() {
            f.write_char(c)?;
        }
        Ok(())
    }
}
