//! Laws of the definitions, each stated as the contract of a function without a body.
ghost use Rattle.rules.specs.Laws.{SetsAreInOrder, StringsAreSegmented};

/// In CER and DER the values inside a SET may come as they do exactly if they are in the order in
/// which [`encodings::sets`] puts them.
pub fn sets_are_in_order()
    ensures { SetsAreInOrder }
{}

/// The values inside a constructed string of octets or characters may come as they do, and end,
/// exactly if they are the segments of an octet string, as `bcder` reads it.
pub fn strings_are_segmented()
    ensures { StringsAreSegmented }
{}
