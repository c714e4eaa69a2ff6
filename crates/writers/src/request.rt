//! Writes requests for certificates (RFC 2986, section 4).
ghost use Rattle.std.specs.Prelude.{◌≡◌};
ghost use Rattle.bcder.specs.x690.Identifier.{universal, sequence_tag};
ghost use Rattle.bcder.specs.calls.Meaning.{PieceMeans};
ghost use Rattle.bcder.specs.calls.Written.{WroteConstructed};
ghost use Rattle.bcder.specs.declared.encode.error.EncodeError.TheVariants.{LongCerPrimitive};
ghost use Rattle.bcder.specs.laws.Meanings.{PieceMeans_lawful};

use bcder::encode::{
    EncodeError, PrimitiveContent, Values, WriteError, sequence, sequence_as, set, slice,
};
use bcder::laws::encoders::what_is_written_is_an_encoding;
use bcder::{Mode, Oid, Tag};
use std::io;

/// A text that is encoded as a UTF8String.
#[derive(Clone, Copy)]
pub struct Text<'a>(pub &'a str);

/// The encoder means the octets of the text, at most 1000 of them in CER (X.690, 9.2).
impl PrimitiveContent for Text<'_> {
    ghost own_tag = { record { class = universal; number = 12 } };

    ghost means = { λ x mode. PieceMeans LongCerPrimitive mode x.0.now };

    fn tag() -> Tag
        ensures { result ≡ record { class = universal; number = 12 } }
    {
        Tag::UTF8_STRING
    }

    fn encoded_len(&self, mode: Mode) -> Result<usize, EncodeError> {
        self.0.as_bytes().encoded_len(mode)
    }

    fn write_encoded<W: io::Write>(&self, mode: Mode, target: &mut W) -> Result<(), WriteError> {
        self.0.as_bytes().write_encoded(mode, target)
    }

    ghost lawful = { λ x mode. PieceMeans_lawful LongCerPrimitive mode x.0.now };
}

/// A part of a name: its kind and its text.
#[derive(Clone, Copy)]
pub struct Part<'a> {
    /// The contents octets of the object identifier that names the kind.
    pub kind: &'a [u8],

    /// The text of the part.
    pub text: Text<'a>,
}

/// What a request for a certificate asks for.
#[derive(Clone, Copy)]
pub struct Request<'a> {
    /// The organization that asks.
    pub organization: Part<'a>,

    /// The name of who asks.
    pub name: Part<'a>,

    /// The contents octets of the object identifier of the key's algorithm.
    pub algorithm: &'a [u8],

    /// The contents octets of the object identifier of the key's curve.
    pub curve: &'a [u8],

    /// The contents octets of the key, a BIT STRING.
    pub key: &'a [u8],

    /// The contents octets of the object identifier of an attribute.
    pub attribute: &'a [u8],

    /// The values of the attribute.
    pub values: &'a [Text<'a>],
}

/// Writes what a request asks for: a SEQUENCE of a version, a name, a key and attributes.
///
/// # Errors
///
/// Returns the errors of [`Values::write_encoded`].
pub fn write_request<W: io::Write>(
    request: &Request<'_>,
    mode: Mode,
    target: &mut W,
) -> Result<(), WriteError>
    ensures { WroteConstructed W.contents target sequence_tag mode result }
{
    let values = slice(request.values, |text: &Text<'_>| (*text).encode());
    let attribute = (Oid(request.attribute).encode(), set(&values));
    write_with_attributes(request, &sequence(&attribute), mode, target)
}

/// Writes the request with these attributes. The key is a SEQUENCE of an algorithm and a BIT
/// STRING.
fn write_with_attributes<A: Values, W: io::Write>(
    request: &Request<'_>,
    attributes: &A,
    mode: Mode,
    target: &mut W,
) -> Result<(), WriteError>
    requires { A.can_encode attributes.now }
    ensures { WroteConstructed W.contents target sequence_tag mode result }
{
    let algorithm = (Oid(request.algorithm).encode(), Oid(request.curve).encode());
    let key = (sequence(&algorithm), request.key.encode_as(Tag::BIT_STRING));
    write_with_key(request, &sequence(&key), attributes, mode, target)
}

/// Writes the request with this key and these attributes. The name is a SEQUENCE of SETs of one
/// part each.
fn write_with_key<K: Values, A: Values, W: io::Write>(
    request: &Request<'_>,
    key: &K,
    attributes: &A,
    mode: Mode,
    target: &mut W,
) -> Result<(), WriteError>
    requires key { K.can_encode key.now }
    requires attributes { A.can_encode attributes.now }
    ensures { WroteConstructed W.contents target sequence_tag mode result }
{
    let organization = (
        Oid(request.organization.kind).encode(),
        request.organization.text.encode(),
    );
    let name = (Oid(request.name.kind).encode(), request.name.text.encode());
    let subject = (set(sequence(&organization)), set(sequence(&name)));
    write_parts(&sequence(&subject), key, attributes, mode, target)
}

/// Writes a SEQUENCE of the version 0 and these parts.
fn write_parts<N: Values, K: Values, A: Values, W: io::Write>(
    name: &N,
    key: &K,
    attributes: &A,
    mode: Mode,
    target: &mut W,
) -> Result<(), WriteError>
    requires name { N.can_encode name.now }
    requires key { K.can_encode key.now }
    requires attributes { A.can_encode attributes.now }
    ensures { WroteConstructed W.contents target sequence_tag mode result }
{
    let parts = (0u8.encode(), name, key, sequence_as(Tag::CTX_0, attributes));
    let values = sequence(&parts);
    what_is_written_is_an_encoding(&values, mode);
    values.write_encoded(mode, target)
}
