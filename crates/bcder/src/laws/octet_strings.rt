//! Laws of octet strings (X.690, 8.7, 9.2, 10.2).
ghost use Rattle.bcder.specs.calls.Written.{PrimitiveInDer, PrimitiveInCer};
ghost use Rattle.bcder.specs.calls.Written.{OneString, OneStringEncoding};
ghost use Rattle.bcder.specs.calls.Written.{PartsJoin, MeansFlat, MeansSegments};

/// In DER an octet string is primitive (10.2). In CER it is primitive if it has at most 1000
/// octets, and constructed if it has more (9.2).
pub fn strict_strings_have_one_form()
    ensures der { PrimitiveInDer }
    ensures cer { PrimitiveInCer }
{}

/// In CER and DER two octet strings with the same tag and the same octets are the same value, and
/// have the same encoding (9.2, 10.2).
pub fn equal_strings_are_equal_octets()
    ensures value { OneString }
    ensures encoding { OneStringEncoding }
{}

/// The parts of an octet string are its octets, cut. What a value means has the octets of the value
/// and, if the value is constructed, its parts (8.7.3.2).
pub fn parts_are_the_octets()
    ensures join { PartsJoin }
    ensures flat { MeansFlat }
    ensures segments { MeansSegments }
{}
