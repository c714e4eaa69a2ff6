//! Objects of routing: which networks may be announced (RFC 9582, RFC 9286).
ghost use Rattle.std.specs.Prelude.{refl};

use asn1::{
    ByRef, Context, Decode, DecodeParts, Encode, EncodeParts, Explicit, OrDefault, Parts, Sequence,
    SequenceOf, SequenceTag, Trace, Type, UseParts,
};
use bcder::decode::{Constructed, DecodeError, Source};
use bcder::{BitString, Mode, OctetString, Tag};
use pkix::{Version, Version1};
use std::alloc::Global;

/// Which network may announce which addresses (RFC 9582, section 4).
///
///     RouteOriginAttestation ::= SEQUENCE {
///         version       [0] INTEGER DEFAULT 0,
///         asID          ASID,
///         ipAddrBlocks  SEQUENCE (SIZE(1..2)) OF ROAIPAddressFamily }
///
///     ASID ::= INTEGER (0..4294967295)
///
/// Any version from 0 to 255 is read, and any number of families of addresses.
#[derive(Debug, Drop)]
pub struct RouteOriginAttestation {
    /// The version, where 0 is the first.
    pub version: OrDefault<Explicit<Context<0>, Version>, Version1>,

    /// The number of the network.
    pub as_id: u32,

    /// The addresses.
    pub ip_addr_blocks: SequenceOf<RoaIpAddressFamily>,
}

/// What defines [`RouteOriginAttestation`].
type RouteOriginAttestationParts = Sequence<
    (
        OrDefault<Explicit<Context<0>, Version>, Version1>,
        u32,
        SequenceOf<RoaIpAddressFamily>,
    ),
>;

impl Parts for RouteOriginAttestation {
    type As = RouteOriginAttestationParts;

    type Tags = SequenceTag;

    const NAME: &'static str = "RouteOriginAttestation";

    const PARTS: &'static [&'static str] = &["version", "as_id", "ip_addr_blocks"];

    ghost parts = { λ x. (x.version, x.as_id, x.ip_addr_blocks) };

    ghost typed = { ⟦<RouteOriginAttestationParts as Type>⟧ };

    fn from_parts(value: RouteOriginAttestationParts) -> RouteOriginAttestation {
        let Sequence((version, as_id, ip_addr_blocks)) = value;
        RouteOriginAttestation {
            version,
            as_id,
            ip_addr_blocks,
        }
    }

    fn parts_are_one() {
        <RouteOriginAttestationParts>::values_are_one();
    }
}

impl<S: Source> DecodeParts<S> for RouteOriginAttestation {
    fn trace_parts<P: Trace>(
        alloc: Global,
        cons: &mut Constructed<'_, S>,
        tag: Tag,
        path: &mut P,
    ) -> Result<Option<RouteOriginAttestationParts>, DecodeError<S::Error>> {
        <RouteOriginAttestationParts>::trace_opt_if(alloc, cons, tag, path)
    }
}

impl EncodeParts for RouteOriginAttestation {
    ghost written = { ⟦<RouteOriginAttestationParts as Encode>⟧ };

    fn give_parts<T, U: UseParts<T>>(&self, tag: Tag, to: U, target: &mut T) -> U::Out {
        to.use_parts(
            &Sequence((
                ByRef(&self.version),
                ByRef(&self.as_id),
                ByRef(&self.ip_addr_blocks),
            )),
            tag,
            target,
        )
    }

    fn are_read_back(tag: Tag, mode: Mode) {
        <RouteOriginAttestationParts>::is_read_back(tag, mode);
    }

    ghost made = { λ v. (record { version = v.0; as_id = v.1; ip_addr_blocks = v.2 }, refl) };
}

/// Addresses of one family (RFC 9582, section 4).
///
///     ROAIPAddressFamily ::= SEQUENCE {
///         addressFamily  OCTET STRING (SIZE(2)),
///         addresses      ROAIPAddressList }
///
///     ROAIPAddressList ::= SEQUENCE OF ROAIPAddress
#[derive(Debug, Drop)]
pub struct RoaIpAddressFamily {
    /// `00 01` is IPv4, and `00 02` IPv6.
    pub address_family: OctetString,

    /// The addresses.
    pub addresses: SequenceOf<RoaIpAddress>,
}

/// What defines [`RoaIpAddressFamily`].
type RoaIpAddressFamilyParts = Sequence<(OctetString, SequenceOf<RoaIpAddress>)>;

impl Parts for RoaIpAddressFamily {
    type As = RoaIpAddressFamilyParts;

    type Tags = SequenceTag;

    const NAME: &'static str = "RoaIpAddressFamily";

    const PARTS: &'static [&'static str] = &["address_family", "addresses"];

    ghost parts = { λ x. (x.address_family, x.addresses) };

    ghost typed = { ⟦<RoaIpAddressFamilyParts as Type>⟧ };

    fn from_parts(value: RoaIpAddressFamilyParts) -> RoaIpAddressFamily {
        let Sequence((address_family, addresses)) = value;
        RoaIpAddressFamily {
            address_family,
            addresses,
        }
    }

    fn parts_are_one() {
        <RoaIpAddressFamilyParts>::values_are_one();
    }
}

impl<S: Source> DecodeParts<S> for RoaIpAddressFamily {
    fn trace_parts<P: Trace>(
        alloc: Global,
        cons: &mut Constructed<'_, S>,
        tag: Tag,
        path: &mut P,
    ) -> Result<Option<RoaIpAddressFamilyParts>, DecodeError<S::Error>> {
        <RoaIpAddressFamilyParts>::trace_opt_if(alloc, cons, tag, path)
    }
}

impl EncodeParts for RoaIpAddressFamily {
    ghost written = { ⟦<RoaIpAddressFamilyParts as Encode>⟧ };

    fn give_parts<T, U: UseParts<T>>(&self, tag: Tag, to: U, target: &mut T) -> U::Out {
        to.use_parts(
            &Sequence((ByRef(&self.address_family), ByRef(&self.addresses))),
            tag,
            target,
        )
    }

    fn are_read_back(tag: Tag, mode: Mode) {
        <RoaIpAddressFamilyParts>::is_read_back(tag, mode);
    }

    ghost made = { λ v. (record { address_family = v.0; addresses = v.1 }, refl) };
}

/// A prefix of addresses (RFC 9582, section 4).
///
///     ROAIPAddress ::= SEQUENCE {
///         address    IPAddress,
///         maxLength  INTEGER OPTIONAL }
///
///     IPAddress ::= BIT STRING
#[derive(Debug, Drop)]
pub struct RoaIpAddress {
    /// The prefix.
    pub address: BitString,

    /// How many bits a longer prefix may have that is announced.
    pub max_length: Option<u8>,
}

/// What defines [`RoaIpAddress`].
type RoaIpAddressParts = Sequence<(BitString, Option<u8>)>;

impl Parts for RoaIpAddress {
    type As = RoaIpAddressParts;

    type Tags = SequenceTag;

    const NAME: &'static str = "RoaIpAddress";

    const PARTS: &'static [&'static str] = &["address", "max_length"];

    ghost parts = { λ x. (x.address, x.max_length) };

    ghost typed = { ⟦<RoaIpAddressParts as Type>⟧ };

    fn from_parts(value: RoaIpAddressParts) -> RoaIpAddress {
        let Sequence((address, max_length)) = value;
        RoaIpAddress {
            address,
            max_length,
        }
    }

    fn parts_are_one() {
        <RoaIpAddressParts>::values_are_one();
    }
}

impl<S: Source> DecodeParts<S> for RoaIpAddress {
    fn trace_parts<P: Trace>(
        alloc: Global,
        cons: &mut Constructed<'_, S>,
        tag: Tag,
        path: &mut P,
    ) -> Result<Option<RoaIpAddressParts>, DecodeError<S::Error>> {
        <RoaIpAddressParts>::trace_opt_if(alloc, cons, tag, path)
    }
}

impl EncodeParts for RoaIpAddress {
    ghost written = { ⟦<RoaIpAddressParts as Encode>⟧ };

    fn give_parts<T, U: UseParts<T>>(&self, tag: Tag, to: U, target: &mut T) -> U::Out {
        to.use_parts(
            &Sequence((ByRef(&self.address), ByRef(&self.max_length))),
            tag,
            target,
        )
    }

    fn are_read_back(tag: Tag, mode: Mode) {
        <RoaIpAddressParts>::is_read_back(tag, mode);
    }

    ghost made = { λ v. (record { address = v.0; max_length = v.1 }, refl) };
}
