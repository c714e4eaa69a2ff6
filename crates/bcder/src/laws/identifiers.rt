//! Laws of object identifiers that follow from the definitions alone. Each is the contract of a
//! function without a body.
ghost use Rattle.bcder.specs.calls.Identifiers.{NoFewer, OneFewest, OneOfLength};
ghost use Rattle.bcder.specs.calls.Identifiers.{PartsAreComponents};
ghost use Rattle.bcder.specs.calls.Identifiers.{OneIdentifierRead, RefusedIsNone, TextIsHeld};
ghost use Rattle.bcder.specs.calls.Identifiers.{TextIsReadBack};

/// The octets of a subidentifier that don't begin with `80` are the fewest that it can have. No
/// others are as few, or don't begin with `80` (X.690, 8.19.2).
pub fn fewest_octets_are_one()
    ensures fewest { NoFewer }
    ensures one { OneFewest }
    ensures one_of_length { OneOfLength }
{}

/// The components that an iterator returns have the values of X.690, 8.19.4.
pub fn parts_are_components()
    ensures { PartsAreComponents }
{}

/// A text is that of at most one identifier, and of none if it is refused.
pub fn a_text_is_one_identifier()
    ensures one { OneIdentifierRead }
    ensures none { RefusedIsNone }
{}

/// What is read from a text holds the components of the text. An identifier whose subidentifiers
/// have the fewest octets, and whose components fit, is read from its text.
pub fn text_is_read_back()
    ensures held { TextIsHeld }
    ensures read { TextIsReadBack }
{}
