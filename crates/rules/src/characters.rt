//! The characters of VisibleString, BMPString and UniversalString (X.690, 8.23; X.680, 41).
ghost use Rattle.std.specs.Prelude.{◌↔◌, ◌+◌, ◌*◌, ℕ, IsTrue};
ghost use Rattle.rules.specs.Characters.{AreCells, AreCodePoints, AreVisible, IsCell, IsCodePoint};

/// Returns whether the octets are those of a VisibleString (8.23.5).
pub(crate) fn is_visible_string(octets: &[u8]) -> bool
    ensures { IsTrue result ↔ AreVisible octets.now }
{
    for octet in octets {
        if *octet < 0x20 || *octet > 0x7E {
            return false;
        }
    }
    true
}

/// Returns whether two octets are a character of a BMPString.
fn is_cell(high: u8, low: u8) -> bool
    ensures { IsTrue result ↔ IsCell (high * 256 + low) }
{
    let cell = high as u32 * 256 + low as u32;
    cell < 0xD800 || (cell >= 0xE000 && cell < 0xFFFE)
}

/// Returns whether the octets are those of a BMPString (8.23.8).
pub(crate) fn is_bmp_string(octets: &[u8]) -> bool
    ensures { IsTrue result ↔ AreCells octets.now }
{
    let mut rest = octets;
    while let [high, low, behind @ ..] = rest {
        if !is_cell(*high, *low) {
            return false;
        }
        rest = behind;
    }
    rest.is_empty()
}

/// Returns whether four octets are a character of a UniversalString.
fn is_code_point(a: u8, b: u8, c: u8, d: u8) -> bool
    ensures { IsTrue result ↔ IsCodePoint (((a * 256 + b) * 256 + c) * 256 + d) }
{
    let number = ((a as u32 * 256 + b as u32) * 256 + c as u32) * 256 + d as u32;
    number < 0xD800 || (number >= 0xE000 && number <= 0x10FFFF)
}

/// Returns whether the octets are those of a UniversalString (8.23.7).
pub(crate) fn is_universal_string(octets: &[u8]) -> bool
    ensures { IsTrue result ↔ AreCodePoints octets.now }
{
    let mut rest = octets;
    while let [a, b, c, d, behind @ ..] = rest {
        if !is_code_point(*a, *b, *c, *d) {
            return false;
        }
        rest = behind;
    }
    rest.is_empty()
}
