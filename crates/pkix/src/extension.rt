//! Extensions.
ghost use Rattle.std.specs.Prelude.{false, refl};

use asn1::{
    ByRef, Decode, DecodeParts, DefaultValue, Encode, EncodeParts, ObjectIdentifier, OrDefault,
    Parts, Sequence, SequenceOf, SequenceTag, Trace, Type, UseParts,
};
use bcder::decode::{Constructed, DecodeError, Source};
use bcder::{Mode, NoMemory, OctetString, Tag};
use std::alloc::Global;

/// An extension of a certificate (RFC 5280, section 4.1).
///
///     Extension ::= SEQUENCE {
///         extnID     OBJECT IDENTIFIER,
///         critical   BOOLEAN DEFAULT FALSE,
///         extnValue  OCTET STRING }
#[derive(Debug, Drop)]
pub struct Extension {
    /// Which extension it is.
    pub id: ObjectIdentifier,

    /// Whether a certificate has to be refused by those who don't know the extension.
    pub critical: OrDefault<bool, NotCritical>,

    /// The encoding of the extension's own type.
    pub value: OctetString,
}

/// What defines [`Extension`].
type ExtensionParts = Sequence<(ObjectIdentifier, OrDefault<bool, NotCritical>, OctetString)>;

impl Parts for Extension {
    type As = ExtensionParts;

    type Tags = SequenceTag;

    const NAME: &'static str = "Extension";

    const PARTS: &'static [&'static str] = &["id", "critical", "value"];

    ghost parts = { λ x. (x.id, x.critical, x.value) };

    ghost typed = { ⟦<ExtensionParts as Type>⟧ };

    fn from_parts(value: ExtensionParts) -> Extension {
        let Sequence((id, critical, value)) = value;
        Extension {
            id,
            critical,
            value,
        }
    }

    fn parts_are_one() {
        <ExtensionParts>::values_are_one();
    }
}

impl<S: Source> DecodeParts<S> for Extension {
    fn trace_parts<P: Trace>(
        alloc: Global,
        cons: &mut Constructed<'_, S>,
        tag: Tag,
        path: &mut P,
    ) -> Result<Option<ExtensionParts>, DecodeError<S::Error>> {
        <ExtensionParts>::trace_opt_if(alloc, cons, tag, path)
    }
}

impl EncodeParts for Extension {
    ghost written = { ⟦<ExtensionParts as Encode>⟧ };

    fn give_parts<T, U: UseParts<T>>(&self, tag: Tag, to: U, target: &mut T) -> U::Out {
        to.use_parts(
            &Sequence((ByRef(&self.id), ByRef(&self.critical), ByRef(&self.value))),
            tag,
            target,
        )
    }

    fn are_read_back(tag: Tag, mode: Mode) {
        <ExtensionParts>::is_read_back(tag, mode);
    }

    ghost made = { λ v. (record { id = v.0; critical = v.1; value = v.2 }, refl) };
}

/// All extensions of a certificate.
pub type Extensions = SequenceOf<Extension>;

/// `FALSE`, if it isn't said whether an extension is critical.
#[derive(Clone, Copy, Debug, PartialEq, Eq)]
pub struct NotCritical;

impl DefaultValue<bool> for NotCritical {
    ghost default = { false };

    fn is_default(value: &bool) -> bool {
        !*value
    }

    fn make(_alloc: Global) -> Result<bool, NoMemory> {
        Ok(false)
    }
}
