//! Names of other kinds: of hosts, mailboxes and directories.
ghost use Rattle.std.proofs.Common.{inl, rules};
ghost use Rattle.std.specs.Prelude.{⊤, refl, true};
ghost use Rattle.bcder.specs.laws.Meanings.{constructed_lawful, primitive_lawful, ExactlyOctets_lawful};
ghost use Rattle.bcder.specs.laws.StringMeanings.{StringMeans_lawful};
ghost use Rattle.asn1.specs.Choices.{either_tagged};
ghost use Rattle.asn1.specs.ChoicesWritten.{either_lawful};
ghost use Rattle.asn1.specs.Lawfully.{lawfully};
ghost use Rattle.asn1.specs.Markers.{context_tagged};
ghost use Rattle.asn1.specs.Tags.{only_tagged};
ghost use Rattle.asn1.specs.declared.choice.Choice2.TheVariants.{One, Two};

use crate::{DirectoryString, Ia5Text};
use asn1::{
    Any, ByRef, Choice2, Context, Decode, DecodeParts, Encode, EncodeParts, Explicit, Implicit,
    ObjectIdentifier, Parts, Sequence, SequenceOf, SequenceTag, Trace, Type, UseParts,
};
use bcder::decode::{Constructed, DecodeError, Source};
use bcder::encode::{EncodeError, WriteError};
use bcder::{Mode, OctetString, Tag};
use pkix::Name;
use std::alloc::Global;
use std::io;
use std::marker::Model;

/// Names of other kinds (RFC 5280, section 4.2.1.6).
///
///     GeneralNames ::= SEQUENCE SIZE (1..MAX) OF GeneralName
///
/// An empty list is read too.
pub type GeneralNames = SequenceOf<GeneralName>;

/// Other names of the subject (RFC 5280, section 4.2.1.6).
///
///     SubjectAltName ::= GeneralNames
pub type SubjectAltName = GeneralNames;

/// Other names of the issuer (RFC 5280, section 4.2.1.7).
///
///     IssuerAltName ::= GeneralNames
pub type IssuerAltName = GeneralNames;

/// Who issued an entry of an indirect list (RFC 5280, section 5.3.3).
///
///     CertificateIssuer ::= GeneralNames
pub type CertificateIssuer = GeneralNames;

/// A name of another kind (RFC 5280, section 4.2.1.6).
///
///     GeneralName ::= CHOICE {
///         otherName                  [0]  OtherName,
///         rfc822Name                 [1]  IA5String,
///         dNSName                    [2]  IA5String,
///         x400Address                [3]  ORAddress,
///         directoryName              [4]  Name,
///         ediPartyName               [5]  EDIPartyName,
///         uniformResourceIdentifier  [6]  IA5String,
///         iPAddress                  [7]  OCTET STRING,
///         registeredID               [8]  OBJECT IDENTIFIER }
///
/// Tags are implicit, except that of `directoryName`, which is a CHOICE. What a name says isn't
/// looked at.
#[derive(Debug, Drop)]
pub enum GeneralName {
    /// A name of a kind that has an identifier of its own.
    OtherName(Implicit<Context<0>, OtherName>),
    /// A mailbox, as `user@example.com`.
    Rfc822Name(Implicit<Context<1>, Ia5Text>),
    /// A host.
    DnsName(Implicit<Context<2>, Ia5Text>),
    /// An address of X.400, whose parts are kept as they are.
    X400Address(Implicit<Context<3>, SequenceOf<Any>>),
    /// A name in a directory.
    DirectoryName(Explicit<Context<4>, Name>),
    /// A party of electronic data interchange.
    EdiPartyName(Implicit<Context<5>, EdiPartyName>),
    /// A URI.
    UniformResourceIdentifier(Implicit<Context<6>, Ia5Text>),
    /// Four octets of IPv4, or 16 of IPv6; twice as many in constraints, with a mask.
    IpAddress(Implicit<Context<7>, OctetString>),
    /// An object identifier.
    RegisteredId(Implicit<Context<8>, ObjectIdentifier>),
}

ghost use Rattle.general_names.specs.declared.general_name.GeneralName.TheVariants as name;

/// What defines [`GeneralName`].
type GeneralNameParts = Choice2<
    Implicit<Context<0>, OtherName>,
    Choice2<
        Implicit<Context<1>, Ia5Text>,
        Choice2<
            Implicit<Context<2>, Ia5Text>,
            Choice2<Implicit<Context<3>, SequenceOf<Any>>, LaterName>,
        >,
    >,
>;

/// What defines [`LaterName`].
type LaterNameParts = Choice2<
    Explicit<Context<4>, Name>,
    Choice2<
        Implicit<Context<5>, EdiPartyName>,
        Choice2<
            Implicit<Context<6>, Ia5Text>,
            Choice2<Implicit<Context<7>, OctetString>, Implicit<Context<8>, ObjectIdentifier>>,
        >,
    >,
>;

impl Parts for GeneralName {
    type As = GeneralNameParts;

    type Tags = GeneralNameTags;

    const NAME: &'static str = "GeneralName";

    const PARTS: &'static [&'static str] = &[
        "other_name",
        "rfc822_name",
        "dns_name",
        "x400_address",
        "directory_name",
        "edi_party_name",
        "uniform_resource_identifier",
        "ip_address",
        "registered_id",
    ];

    ghost parts = { elim [
      | name.OtherName x ↦ One x
      | name.Rfc822Name x ↦ Two (One x)
      | name.DnsName x ↦ Two (Two (One x))
      | name.X400Address x ↦ Two (Two (Two (One x)))
      | name.DirectoryName x ↦ Two (Two (Two (Two (One x))))
      | name.EdiPartyName x ↦ Two (Two (Two (Two (Two (One x)))))
      | name.UniformResourceIdentifier x ↦ Two (Two (Two (Two (Two (Two (One x))))))
      | name.IpAddress x ↦ Two (Two (Two (Two (Two (Two (Two (One x)))))))
      | name.RegisteredId x ↦ Two (Two (Two (Two (Two (Two (Two (Two x)))))))
    ] };

    ghost typed = { ⟦<GeneralNameParts as Type>⟧ };

    fn from_parts(value: GeneralNameParts) -> GeneralName {
        match value {
            Choice2::One(value) => GeneralName::OtherName(value),
            Choice2::Two(Choice2::One(value)) => GeneralName::Rfc822Name(value),
            Choice2::Two(Choice2::Two(Choice2::One(value))) => GeneralName::DnsName(value),
            Choice2::Two(Choice2::Two(Choice2::Two(Choice2::One(value)))) =>
                GeneralName::X400Address(value),
            Choice2::Two(Choice2::Two(Choice2::Two(Choice2::Two(later)))) => match later.0 {
                Choice2::One(value) => GeneralName::DirectoryName(value),
                Choice2::Two(Choice2::One(value)) => GeneralName::EdiPartyName(value),
                Choice2::Two(Choice2::Two(Choice2::One(value))) =>
                    GeneralName::UniformResourceIdentifier(value),
                Choice2::Two(Choice2::Two(Choice2::Two(Choice2::One(value)))) =>
                    GeneralName::IpAddress(value),
                Choice2::Two(Choice2::Two(Choice2::Two(Choice2::Two(value)))) =>
                    GeneralName::RegisteredId(value),
            },
        }
    }

    fn parts_are_one() {
        <GeneralNameParts>::values_are_one();
    }
}

impl<S: Source> DecodeParts<S> for GeneralName {
    fn trace_parts<P: Trace>(
        alloc: Global,
        cons: &mut Constructed<'_, S>,
        tag: Tag,
        path: &mut P,
    ) -> Result<Option<GeneralNameParts>, DecodeError<S::Error>> {
        <GeneralNameParts>::trace_opt_if(alloc, cons, tag, path)
    }
}

impl EncodeParts for GeneralName {
    ghost written = { ⟦<GeneralNameParts as Encode>⟧ };

    fn give_parts<T, U: UseParts<T>>(&self, _tag: Tag, to: U, target: &mut T) -> U::Out {
        match self {
            GeneralName::OtherName(value) => to.use_alternative(value, target),
            GeneralName::Rfc822Name(value) => to.use_alternative(value, target),
            GeneralName::DnsName(value) => to.use_alternative(value, target),
            GeneralName::X400Address(value) => to.use_alternative(value, target),
            GeneralName::DirectoryName(value) => to.use_alternative(value, target),
            GeneralName::EdiPartyName(value) => to.use_alternative(value, target),
            GeneralName::UniformResourceIdentifier(value) => to.use_alternative(value, target),
            GeneralName::IpAddress(value) => to.use_alternative(value, target),
            GeneralName::RegisteredId(value) => to.use_alternative(value, target),
        }
    }

    fn are_read_back(tag: Tag, mode: Mode) {
        <GeneralNameParts>::is_read_back(tag, mode);
    }

    ghost made = { elim [
      | One x ↦ (name.OtherName x, refl)
      | Two (One x) ↦ (name.Rfc822Name x, refl)
      | Two (Two (One x)) ↦ (name.DnsName x, refl)
      | Two (Two (Two (One x))) ↦ (name.X400Address x, refl)
      | Two (Two (Two (Two (One x)))) ↦ (name.DirectoryName x, refl)
      | Two (Two (Two (Two (Two (One x))))) ↦ (name.EdiPartyName x, refl)
      | Two (Two (Two (Two (Two (Two (One x)))))) ↦ (name.UniformResourceIdentifier x, refl)
      | Two (Two (Two (Two (Two (Two (Two (One x))))))) ↦ (name.IpAddress x, refl)
      | Two (Two (Two (Two (Two (Two (Two (Two x))))))) ↦ (name.RegisteredId x, refl)
    ] };
}

/// The tags of a [`GeneralName`], as a type without values.
///
/// With it, a proof about a type that holds names doesn't unfold the types of their alternatives.
#[derive(Clone, Copy, Debug, Drop)]
pub struct GeneralNameTags;

impl Type for GeneralNameTags {
    ghost TAG = { ⟦<GeneralNameParts as Type>⟧.TAG };

    #[inline(always)]
    fn tag() -> Tag {
        <GeneralNameParts>::tag()
    }

    ghost expects = { ⟦<GeneralNameParts as Type>⟧.expects };

    fn expect<P: Trace>(path: &mut P) {
        <GeneralNameParts>::expect(path);
    }

    ghost tags = { ⟦<GeneralNameParts as Type>⟧.tags };

    ghost Key = { ⊤ };

    ghost key = { λ _. tt };

    ghost means = { λ _ _ _. ⊥ };

    fn values_are_one() {}

    ghost tagged = { inl refl };

    ghost value_tags = { either_tagged (only_tagged (context_tagged {n = 0} (Prim.search rules)))
        (either_tagged (only_tagged (context_tagged {n = 1} (Prim.search rules)))
        (either_tagged (only_tagged (context_tagged {n = 2} (Prim.search rules)))
        (either_tagged (only_tagged (context_tagged {n = 3} (Prim.search rules)))
        (either_tagged (only_tagged (context_tagged {n = 4} (Prim.search rules)))
        (either_tagged (only_tagged (context_tagged {n = 5} (Prim.search rules)))
        (either_tagged (only_tagged (context_tagged {n = 6} (Prim.search rules)))
        (either_tagged (only_tagged (context_tagged {n = 7} (Prim.search rules)))
        (only_tagged (context_tagged {n = 8} (Prim.search rules)))))))))) };
}

/// The last five alternatives of a [`GeneralName`].
///
/// It is a type of its own, since the compiler gives up at nine (`overflowing-bound`). It means and
/// writes what the CHOICE of the five does, so it isn't [`Parts`].
#[derive(Debug, Drop)]
pub struct LaterName(pub LaterNameParts);

/// In clauses it is that CHOICE.
impl Model for LaterName {
    ghost use Rattle.std.specs.Prelude.{List, ℕ};
    ghost use Rattle.asn1.specs.declared.choice.Choice2.{Choice2};
    ghost use Rattle.bcder.specs.calls.StringOctets.{StringOctets};
    ghost use Rattle.bcder.specs.declared.oid.Oid.{Oid};
    ghost use Rattle.general_names.specs.declared.general_name.EdiPartyName.{EdiPartyName};
    ghost use Rattle.pkix.specs.declared.name.Name.{Name};

    ghost Value = { Choice2 Name
        (Choice2 EdiPartyName (Choice2 StringOctets (Choice2 StringOctets (Oid (List ℕ))))) };

    ghost view = { λ x. x.0 };

    ghost inverse = { λ v. record { 0 = v } };
}

impl Type for LaterName {
    ghost TAG = { ⟦<LaterNameParts as Type>⟧.TAG };

    #[inline(always)]
    fn tag() -> Tag {
        <LaterNameParts>::tag()
    }

    ghost expects = { ⟦<LaterNameParts as Type>⟧.expects };

    fn expect<P: Trace>(path: &mut P) {
        <LaterNameParts>::expect(path);
    }

    ghost tags = { ⟦<LaterNameParts as Type>⟧.tags };

    ghost Key = { ⟦<LaterNameParts as Type>⟧.Key };

    ghost key = { ⟦<LaterNameParts as Type>⟧.key };

    ghost means = { ⟦<LaterNameParts as Type>⟧.means };

    ghost keeps_all = { ⟦<LaterNameParts as Type>⟧.keeps_all };

    fn values_are_one() {
        <LaterNameParts>::values_are_one();
    }

    ghost tagged = { inl refl };

    ghost value_tags = { either_tagged (only_tagged (context_tagged {n = 4} (Prim.search rules)))
        (either_tagged (only_tagged (context_tagged {n = 5} (Prim.search rules)))
        (either_tagged (only_tagged (context_tagged {n = 6} (Prim.search rules)))
        (either_tagged (only_tagged (context_tagged {n = 7} (Prim.search rules)))
        (only_tagged (context_tagged {n = 8} (Prim.search rules)))))) };
}

impl<S: Source> Decode<S> for LaterName {
    ghost may_lack = { true };

    #[inline(always)]
    fn trace_opt_if<P: Trace>(
        alloc: Global,
        cons: &mut Constructed<'_, S>,
        tag: Tag,
        path: &mut P,
    ) -> Result<Option<LaterName>, DecodeError<S::Error>> {
        match <LaterNameParts>::trace_opt_if(alloc, cons, tag, path) {
            Ok(Some(parts)) => Ok(Some(LaterName(parts))),
            Ok(None) => Ok(None),
            Err(error) => Err(error),
        }
    }
}

impl Encode for LaterName {
    ghost writes = { ⟦<LaterNameParts as Encode>⟧.writes };

    ghost may_lack = { ⟦<LaterNameParts as Encode>⟧.may_lack };

    ghost is_clear = { ⟦<LaterNameParts as Encode>⟧.is_clear };

    fn encoded_len_as(&self, tag: Tag, mode: Mode) -> Result<usize, EncodeError> {
        self.0.encoded_len_as(tag, mode)
    }

    fn write_encoded_as<W: io::Write>(
        &self,
        tag: Tag,
        mode: Mode,
        target: &mut W,
    ) -> Result<(), WriteError> {
        self.0.write_encoded_as(tag, mode, target)
    }

    fn is_read_back(tag: Tag, mode: Mode) {
        <LaterNameParts>::is_read_back(tag, mode);
    }

    ghost lawful = { λ _ x mode. either_lawful _ _
        (λ _. constructed_lawful _ (lawfully mode _)) (either_lawful _ _
        (λ _. lawfully mode _) (either_lawful _ _
        (λ y. StringMeans_lawful _ y mode) (either_lawful _ _
        (λ y. StringMeans_lawful _ y mode)
        (λ y. primitive_lawful _ mode (ExactlyOctets_lawful y.0))))) x };
}

/// A name of a kind that has an identifier of its own (RFC 5280, section 4.2.1.6).
///
///     OtherName ::= SEQUENCE {
///         type-id  OBJECT IDENTIFIER,
///         value    [0] EXPLICIT ANY DEFINED BY type-id }
#[derive(Debug, Drop)]
pub struct OtherName {
    /// Which kind it is.
    pub type_id: ObjectIdentifier,

    /// The name, of a type that depends on the kind.
    pub value: Explicit<Context<0>, Any>,
}

/// What defines [`OtherName`].
type OtherNameParts = Sequence<(ObjectIdentifier, Explicit<Context<0>, Any>)>;

impl Parts for OtherName {
    type As = OtherNameParts;

    type Tags = SequenceTag;

    const NAME: &'static str = "OtherName";

    const PARTS: &'static [&'static str] = &["type_id", "value"];

    ghost parts = { λ x. (x.type_id, x.value) };

    ghost typed = { ⟦<OtherNameParts as Type>⟧ };

    fn from_parts(value: OtherNameParts) -> OtherName {
        let Sequence((type_id, value)) = value;
        OtherName { type_id, value }
    }

    fn parts_are_one() {
        <OtherNameParts>::values_are_one();
    }
}

impl<S: Source> DecodeParts<S> for OtherName {
    fn trace_parts<P: Trace>(
        alloc: Global,
        cons: &mut Constructed<'_, S>,
        tag: Tag,
        path: &mut P,
    ) -> Result<Option<OtherNameParts>, DecodeError<S::Error>> {
        <OtherNameParts>::trace_opt_if(alloc, cons, tag, path)
    }
}

impl EncodeParts for OtherName {
    ghost written = { ⟦<OtherNameParts as Encode>⟧ };

    fn give_parts<T, U: UseParts<T>>(&self, tag: Tag, to: U, target: &mut T) -> U::Out {
        to.use_parts(
            &Sequence((ByRef(&self.type_id), ByRef(&self.value))),
            tag,
            target,
        )
    }

    fn are_read_back(tag: Tag, mode: Mode) {
        <OtherNameParts>::is_read_back(tag, mode);
    }

    ghost made = { λ v. (record { type_id = v.0; value = v.1 }, refl) };
}

/// A party of electronic data interchange (RFC 5280, section 4.2.1.6).
///
///     EDIPartyName ::= SEQUENCE {
///         nameAssigner  [0] DirectoryString OPTIONAL,
///         partyName     [1] DirectoryString }
///
/// `DirectoryString` is a CHOICE, so the tags are explicit.
#[derive(Debug, Drop)]
pub struct EdiPartyName {
    /// Who gave the name.
    pub name_assigner: Option<Explicit<Context<0>, DirectoryString>>,

    /// The name.
    pub party_name: Explicit<Context<1>, DirectoryString>,
}

/// What defines [`EdiPartyName`].
type EdiPartyNameParts = Sequence<
    (
        Option<Explicit<Context<0>, DirectoryString>>,
        Explicit<Context<1>, DirectoryString>,
    ),
>;

impl Parts for EdiPartyName {
    type As = EdiPartyNameParts;

    type Tags = SequenceTag;

    const NAME: &'static str = "EdiPartyName";

    const PARTS: &'static [&'static str] = &["name_assigner", "party_name"];

    ghost parts = { λ x. (x.name_assigner, x.party_name) };

    ghost typed = { ⟦<EdiPartyNameParts as Type>⟧ };

    fn from_parts(value: EdiPartyNameParts) -> EdiPartyName {
        let Sequence((name_assigner, party_name)) = value;
        EdiPartyName {
            name_assigner,
            party_name,
        }
    }

    fn parts_are_one() {
        <EdiPartyNameParts>::values_are_one();
    }
}

impl<S: Source> DecodeParts<S> for EdiPartyName {
    fn trace_parts<P: Trace>(
        alloc: Global,
        cons: &mut Constructed<'_, S>,
        tag: Tag,
        path: &mut P,
    ) -> Result<Option<EdiPartyNameParts>, DecodeError<S::Error>> {
        <EdiPartyNameParts>::trace_opt_if(alloc, cons, tag, path)
    }
}

impl EncodeParts for EdiPartyName {
    ghost written = { ⟦<EdiPartyNameParts as Encode>⟧ };

    fn give_parts<T, U: UseParts<T>>(&self, tag: Tag, to: U, target: &mut T) -> U::Out {
        to.use_parts(
            &Sequence((ByRef(&self.name_assigner), ByRef(&self.party_name))),
            tag,
            target,
        )
    }

    fn are_read_back(tag: Tag, mode: Mode) {
        <EdiPartyNameParts>::is_read_back(tag, mode);
    }

    ghost made = { λ v. (record { name_assigner = v.0; party_name = v.1 }, refl) };
}
