//! Laws of the contents octets of integers (X.690, 8.3).
ghost use Rattle.bcder.specs.x690.Integer.{SomeInteger, OneInteger, OrderOfIntegers};

/// Each integer has contents octets, the smallest two's complement octets, and no others.
pub fn an_integer_is_its_octets()
    ensures some { SomeInteger }
    ensures one { OneInteger }
{}

/// Contents octets of integers, compared by their sign, then by their length, then octet by octet,
/// are in the order of the integers. Of negative integers, those with more octets are less.
pub fn octets_order_integers()
    ensures { OrderOfIntegers }
{}
