//! Laws of bit strings, from their definitions (X.690, 8.6, 11.2.1).
ghost use Rattle.bcder.specs.x690.BitStrings.{WrittenBitsAreTheSame, SameBitsAreWrittenAlike};
ghost use Rattle.bcder.specs.x690.BitStrings.{ReadIsWrittenBack};

/// What is written of a bit string has its bits. Unused bits, which may be set to zero, don't count
/// among them.
pub fn written_bits_are_the_same()
    ensures { WrittenBitsAreTheSame }
{}

/// In CER and DER bit strings with the same bits are written alike (11.2.1).
pub fn same_bits_are_written_alike()
    ensures { SameBitsAreWrittenAlike }
{}

/// Contents octets that are read as a bit string in a mode are those that are written of it.
pub fn what_is_read_is_written_back()
    ensures { ReadIsWrittenBack }
{}
