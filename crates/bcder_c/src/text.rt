//! Whether octets are a string of a character set (X.690, 8.23).
ghost use Rattle.std.specs.Prelude.{IsTrue};
ghost use Rattle.bcder.specs.x690.AsciiSets.{is_ia5, is_numeric, is_printable, one_octet_step};
ghost use Rattle.bcder.specs.x690.CharSet.{IsOfSet};
ghost use Rattle.bcder.specs.x690.Utf8.{utf8_step};
ghost use Rattle.bcder_c.specs.Results.{Holds};

use encodings::status::{ABSENT, DONE};
use encodings::text::{is_ia5_string, is_numeric_string, is_printable_string, is_utf8_string};

fn status_of(holds: bool) -> u8
    ensures { Holds (IsTrue holds) result }
{
    if holds { DONE } else { ABSENT }
}

/// Checks whether the octets are UTF-8, as those of a UTF8String are.
#[unsafe(no_mangle)]
pub extern "C" fn bcder_utf8(octets: &[u8]) -> u8
    ensures { Holds (IsOfSet utf8_step octets.now) result }
{
    status_of(is_utf8_string(octets))
}

/// Checks whether the octets are digits and spaces, as those of a NumericString are.
#[unsafe(no_mangle)]
pub extern "C" fn bcder_numeric(octets: &[u8]) -> u8
    ensures { Holds (IsOfSet (one_octet_step is_numeric) octets.now) result }
{
    status_of(is_numeric_string(octets))
}

/// Checks whether the octets are those of a PrintableString.
#[unsafe(no_mangle)]
pub extern "C" fn bcder_printable(octets: &[u8]) -> u8
    ensures { Holds (IsOfSet (one_octet_step is_printable) octets.now) result }
{
    status_of(is_printable_string(octets))
}

/// Checks whether the octets are below 128, as those of an IA5String are.
#[unsafe(no_mangle)]
pub extern "C" fn bcder_ia5(octets: &[u8]) -> u8
    ensures { Holds (IsOfSet (one_octet_step is_ia5) octets.now) result }
{
    status_of(is_ia5_string(octets))
}
