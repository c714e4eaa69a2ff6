//! Whether octets are a string of a character set (X.690, 8.23).
ghost use Rattle.std.specs.Prelude.{◌≡◌, ◌↔◌, IsTrue};
ghost use Rattle.bcder.specs.x690.AsciiSets.{is_ia5, is_numeric, is_printable, one_octet_step};
ghost use Rattle.bcder.specs.x690.CharSet.{IsOfSet};
ghost use Rattle.bcder.specs.x690.Utf8.{utf8_step};
ghost use Rattle.encodings.specs.Text.{test_of};

/// A set of characters that are one octet each (X.680, 41).
#[derive(Clone, Copy)]
enum AsciiSet {
    Numeric,
    Printable,
    Ia5,
}

/// Returns whether the set has the octet.
fn has(set: AsciiSet, octet: u8) -> bool
    ensures { result ≡ test_of set octet }
{
    match set {
        AsciiSet::Numeric => octet.is_ascii_digit() || octet == b' ',
        AsciiSet::Printable => {
            octet.is_ascii_alphanumeric()
                || match octet {
                    b' '
                    | b'\''
                    | b'('
                    | b')'
                    | b'+'
                    | b','
                    | b'-'
                    | b'.'
                    | b'/'
                    | b':'
                    | b'='
                    | b'?' => true,
                    _ => false,
                }
        }
        AsciiSet::Ia5 => octet < 0x80,
    }
}

/// Returns whether the set has all octets.
fn are_all(set: AsciiSet, octets: &[u8]) -> bool
    ensures { IsTrue result ↔ IsOfSet (one_octet_step (test_of set)) octets.now }
{
    let mut rest = octets;
    while let [first, after @ ..] = rest {
        if !has(set, *first) {
            return false;
        }
        rest = after;
    }
    true
}

/// Returns whether the octets are UTF-8, as those of a UTF8String are (X.690, 8.23.10).
pub fn is_utf8_string(octets: &[u8]) -> bool
    ensures { IsTrue result ↔ IsOfSet utf8_step octets.now }
{
    match str::from_utf8(octets) {
        Ok(_) => true,
        Err(_) => false,
    }
}

/// Returns whether the octets are digits and spaces, as those of a NumericString are (X.680, 41.2).
pub fn is_numeric_string(octets: &[u8]) -> bool
    ensures { IsTrue result ↔ IsOfSet (one_octet_step is_numeric) octets.now }
{
    are_all(AsciiSet::Numeric, octets)
}

/// Returns whether the octets are those of a PrintableString (X.680, 41.4).
pub fn is_printable_string(octets: &[u8]) -> bool
    ensures { IsTrue result ↔ IsOfSet (one_octet_step is_printable) octets.now }
{
    are_all(AsciiSet::Printable, octets)
}

/// Returns whether the octets are below 128, as those of an IA5String are.
pub fn is_ia5_string(octets: &[u8]) -> bool
    ensures { IsTrue result ↔ IsOfSet (one_octet_step is_ia5) octets.now }
{
    are_all(AsciiSet::Ia5, octets)
}
