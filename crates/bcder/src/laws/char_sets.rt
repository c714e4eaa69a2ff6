//! Laws of character sets (X.690, 8.23; RFC 3629).
ghost use Rattle.bcder.specs.x690.TextSets.{AreTexts, AreEncoded, AreAllTexts};
ghost use Rattle.bcder.specs.x690.Utf8.{utf8_step};
ghost use Rattle.bcder.specs.x690.AsciiSets.{one_octet_step, is_numeric, is_printable, is_ia5};

/// The strings that RFC 3629, 4, defines are the texts of std's `str`: the encodings of characters,
/// and of the characters that they spell.
pub fn utf8_is_text()
    ensures encoded { AreEncoded utf8_step }
    ensures accepted { AreAllTexts utf8_step }
    ensures texts { AreTexts utf8_step }
{}

/// The octets of a NumericString, a PrintableString and an IA5String (X.680, 41) are text as they
/// are, of the characters that they spell.
pub fn ascii_is_text()
    ensures numeric { AreTexts (one_octet_step is_numeric) }
    ensures printable { AreTexts (one_octet_step is_printable) }
    ensures ia5 { AreTexts (one_octet_step is_ia5) }
{}
