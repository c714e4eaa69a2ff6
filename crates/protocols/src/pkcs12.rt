//! Files of keys and certificates (RFC 7292).
ghost use Rattle.std.specs.Prelude.{refl};

use asn1::{
    Any, ByRef, Context, Decode, DecodeParts, DefaultValue, Encode, EncodeParts, Explicit,
    ObjectIdentifier, OrDefault, Parts, Sequence, SequenceOf, SequenceTag, SetOf, Trace, Type,
    UseParts,
};
use bcder::decode::{Constructed, DecodeError, Source};
use bcder::{Mode, NoMemory, OctetString, Tag};
use cms::ContentInfo;
use pkix::{Attribute, DigestInfo};
use std::alloc::Global;

/// A file of keys and certificates (RFC 7292, section 4).
///
///     PFX ::= SEQUENCE {
///         version   INTEGER { v3(3) }(v3, ...),
///         authSafe  ContentInfo,
///         macData   MacData OPTIONAL }
///
/// Any version from 0 to 255 is read.
#[derive(Debug, Drop)]
pub struct Pfx {
    /// The version, which is 3.
    pub version: u8,

    /// The keys and certificates: an [`AuthenticatedSafe`] in a message.
    pub auth_safe: ContentInfo,

    /// A digest of them that needs the password.
    pub mac_data: Option<MacData>,
}

/// What defines [`Pfx`].
type PfxParts = Sequence<(u8, ContentInfo, Option<MacData>)>;

impl Parts for Pfx {
    type As = PfxParts;

    type Tags = SequenceTag;

    const NAME: &'static str = "Pfx";

    const PARTS: &'static [&'static str] = &["version", "auth_safe", "mac_data"];

    ghost parts = { λ x. (x.version, x.auth_safe, x.mac_data) };

    ghost typed = { ⟦<PfxParts as Type>⟧ };

    fn from_parts(value: PfxParts) -> Pfx {
        let Sequence((version, auth_safe, mac_data)) = value;
        Pfx {
            version,
            auth_safe,
            mac_data,
        }
    }

    fn parts_are_one() {
        <PfxParts>::values_are_one();
    }
}

impl<S: Source> DecodeParts<S> for Pfx {
    fn trace_parts<P: Trace>(
        alloc: Global,
        cons: &mut Constructed<'_, S>,
        tag: Tag,
        path: &mut P,
    ) -> Result<Option<PfxParts>, DecodeError<S::Error>> {
        <PfxParts>::trace_opt_if(alloc, cons, tag, path)
    }
}

impl EncodeParts for Pfx {
    ghost written = { ⟦<PfxParts as Encode>⟧ };

    fn give_parts<T, U: UseParts<T>>(&self, tag: Tag, to: U, target: &mut T) -> U::Out {
        to.use_parts(
            &Sequence((
                ByRef(&self.version),
                ByRef(&self.auth_safe),
                ByRef(&self.mac_data),
            )),
            tag,
            target,
        )
    }

    fn are_read_back(tag: Tag, mode: Mode) {
        <PfxParts>::is_read_back(tag, mode);
    }

    ghost made = { λ v. (record { version = v.0; auth_safe = v.1; mac_data = v.2 }, refl) };
}

/// A digest that needs the password (RFC 7292, section 4).
///
///     MacData ::= SEQUENCE {
///         mac         DigestInfo,
///         macSalt     OCTET STRING,
///         iterations  INTEGER DEFAULT 1 }
#[derive(Debug, Drop)]
pub struct MacData {
    /// The digest.
    pub mac: DigestInfo,

    /// The salt.
    pub mac_salt: OctetString,

    /// How many times it is computed.
    pub iterations: OrDefault<u32, OneIteration>,
}

/// What defines [`MacData`].
type MacDataParts = Sequence<(DigestInfo, OctetString, OrDefault<u32, OneIteration>)>;

impl Parts for MacData {
    type As = MacDataParts;

    type Tags = SequenceTag;

    const NAME: &'static str = "MacData";

    const PARTS: &'static [&'static str] = &["mac", "mac_salt", "iterations"];

    ghost parts = { λ x. (x.mac, x.mac_salt, x.iterations) };

    ghost typed = { ⟦<MacDataParts as Type>⟧ };

    fn from_parts(value: MacDataParts) -> MacData {
        let Sequence((mac, mac_salt, iterations)) = value;
        MacData {
            mac,
            mac_salt,
            iterations,
        }
    }

    fn parts_are_one() {
        <MacDataParts>::values_are_one();
    }
}

impl<S: Source> DecodeParts<S> for MacData {
    fn trace_parts<P: Trace>(
        alloc: Global,
        cons: &mut Constructed<'_, S>,
        tag: Tag,
        path: &mut P,
    ) -> Result<Option<MacDataParts>, DecodeError<S::Error>> {
        <MacDataParts>::trace_opt_if(alloc, cons, tag, path)
    }
}

impl EncodeParts for MacData {
    ghost written = { ⟦<MacDataParts as Encode>⟧ };

    fn give_parts<T, U: UseParts<T>>(&self, tag: Tag, to: U, target: &mut T) -> U::Out {
        to.use_parts(
            &Sequence((
                ByRef(&self.mac),
                ByRef(&self.mac_salt),
                ByRef(&self.iterations),
            )),
            tag,
            target,
        )
    }

    fn are_read_back(tag: Tag, mode: Mode) {
        <MacDataParts>::is_read_back(tag, mode);
    }

    ghost made = { λ v. (record { mac = v.0; mac_salt = v.1; iterations = v.2 }, refl) };
}

/// 1, if nothing is said.
#[derive(Clone, Copy, Debug, PartialEq, Eq)]
pub struct OneIteration;

impl DefaultValue<u32> for OneIteration {
    ghost default = { 1 };

    fn is_default(value: &u32) -> bool {
        *value == 1
    }

    fn make(_alloc: Global) -> Result<u32, NoMemory> {
        Ok(1)
    }
}

/// Messages that hold keys and certificates (RFC 7292, section 4.1).
///
///     AuthenticatedSafe ::= SEQUENCE OF ContentInfo
pub type AuthenticatedSafe = SequenceOf<ContentInfo>;

/// Keys and certificates (RFC 7292, section 4.2).
///
///     SafeContents ::= SEQUENCE OF SafeBag
pub type SafeContents = SequenceOf<SafeBag>;

/// A key, a certificate or a list (RFC 7292, section 4.2).
///
///     SafeBag ::= SEQUENCE {
///         bagId          BAG-TYPE.&id ({PKCS12BagSet}),
///         bagValue       [0] EXPLICIT BAG-TYPE.&Type({PKCS12BagSet}{@bagId}),
///         bagAttributes  SET OF PKCS12Attribute OPTIONAL }
#[derive(Debug, Drop)]
pub struct SafeBag {
    /// Which of them it is.
    pub bag_id: ObjectIdentifier,

    /// The value.
    pub bag_value: Explicit<Context<0>, Any>,

    /// What else is said of it, as a name.
    pub bag_attributes: Option<SetOf<Attribute>>,
}

/// What defines [`SafeBag`].
type SafeBagParts = Sequence<
    (
        ObjectIdentifier,
        Explicit<Context<0>, Any>,
        Option<SetOf<Attribute>>,
    ),
>;

impl Parts for SafeBag {
    type As = SafeBagParts;

    type Tags = SequenceTag;

    const NAME: &'static str = "SafeBag";

    const PARTS: &'static [&'static str] = &["bag_id", "bag_value", "bag_attributes"];

    ghost parts = { λ x. (x.bag_id, x.bag_value, x.bag_attributes) };

    ghost typed = { ⟦<SafeBagParts as Type>⟧ };

    fn from_parts(value: SafeBagParts) -> SafeBag {
        let Sequence((bag_id, bag_value, bag_attributes)) = value;
        SafeBag {
            bag_id,
            bag_value,
            bag_attributes,
        }
    }

    fn parts_are_one() {
        <SafeBagParts>::values_are_one();
    }
}

impl<S: Source> DecodeParts<S> for SafeBag {
    fn trace_parts<P: Trace>(
        alloc: Global,
        cons: &mut Constructed<'_, S>,
        tag: Tag,
        path: &mut P,
    ) -> Result<Option<SafeBagParts>, DecodeError<S::Error>> {
        <SafeBagParts>::trace_opt_if(alloc, cons, tag, path)
    }
}

impl EncodeParts for SafeBag {
    ghost written = { ⟦<SafeBagParts as Encode>⟧ };

    fn give_parts<T, U: UseParts<T>>(&self, tag: Tag, to: U, target: &mut T) -> U::Out {
        to.use_parts(
            &Sequence((
                ByRef(&self.bag_id),
                ByRef(&self.bag_value),
                ByRef(&self.bag_attributes),
            )),
            tag,
            target,
        )
    }

    fn are_read_back(tag: Tag, mode: Mode) {
        <SafeBagParts>::is_read_back(tag, mode);
    }

    ghost made = { λ v. (record { bag_id = v.0; bag_value = v.1; bag_attributes = v.2 }, refl) };
}
