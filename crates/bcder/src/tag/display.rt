//! Displaying tags.
ghost use Rattle.std.specs.Prelude.{◌≡◌, Some, option_map};
ghost use Rattle.bcder.specs.calls.TagText.{universal_name, tag_text};

use super::{Class, Tag};
use std::fmt;

/// Returns the name of the type that a universal number stands for (X.680, 8.4).
#[tactic(auto, using(crate::proofs::nat_tests), unfolding(crate::specs::calls::TagText::universal_name))]
fn universal_name(number: u64) -> Option<&'static str>
    ensures { option_map (λ name. name.now) result ≡ universal_name number }
{
    match number {
        1 => Some("BOOLEAN"),
        2 => Some("INTEGER"),
        3 => Some("BIT STRING"),
        4 => Some("OCTET STRING"),
        5 => Some("NULL"),
        6 => Some("OBJECT IDENTIFIER"),
        7 => Some("ObjectDescriptor"),
        8 => Some("EXTERNAL"),
        9 => Some("REAL"),
        10 => Some("ENUMERATED"),
        11 => Some("EMBEDDED PDV"),
        12 => Some("UTF8String"),
        13 => Some("RELATIVE-OID"),
        14 => Some("TIME"),
        16 => Some("SEQUENCE"),
        17 => Some("SET"),
        18 => Some("NumericString"),
        19 => Some("PrintableString"),
        20 => Some("TeletexString"),
        21 => Some("VideotexString"),
        22 => Some("IA5String"),
        23 => Some("UTCTime"),
        24 => Some("GeneralizedTime"),
        25 => Some("GraphicString"),
        26 => Some("VisibleString"),
        27 => Some("GeneralString"),
        28 => Some("UniversalString"),
        29 => Some("CHARACTER STRING"),
        30 => Some("BMPString"),
        31 => Some("DATE"),
        32 => Some("TIME-OF-DAY"),
        33 => Some("DATE-TIME"),
        34 => Some("DURATION"),
        35 => Some("OID-IRI"),
        36 => Some("RELATIVE-OID-IRI"),
        _ => None,
    }
}

/// Writes the name of the type of a universal tag, if it has one. Otherwise writes the class and
/// the number in brackets, for example `[UNIVERSAL 15]`, `[APPLICATION 5]`, `[0]` or `[PRIVATE 5]`.
impl fmt::Display for Tag {
    ghost output = { λ tag. Some (tag_text tag) };

    #[tactic(auto, unfolding(crate::specs::calls::TagText::tag_text))]
    fn fmt<W: fmt::Write>(&self, f: &mut fmt::Formatter<W>) -> fmt::Result {
        match self.class {
            Class::Universal => match universal_name(self.number) {
                Some(name) => write!(f, "{name}"),
                None => write!(f, "[UNIVERSAL {}]", self.number),
            },
            Class::Application => write!(f, "[APPLICATION {}]", self.number),
            Class::ContextSpecific => write!(f, "[{}]", self.number),
            Class::Private => write!(f, "[PRIVATE {}]", self.number),
        }
    }
}
