//! Tests that write a request as `writers` does, read extensions, and write and read numbers,
//! identifiers and octets.
//!
//! For requests and extensions the expected values are what openssl wrote, and what `openssl
//! asn1parse` shows of it. The others are worked out by hand.
ghost use Rattle.bcder.specs.calls.Views.{Moved, MovedOctets};

use crate::asserts::{done, holds, same};
use bcder::decode::{Constructed, DecodeError, Primitive, SliceSource, Source};
use bcder::encode::{PrimitiveContent, Values, sequence};
use bcder::{ConstOid, Integer, Mode, Oid, Unsigned};
use std::alloc::Global;
use std::process::Abort;
use user::decode_extensions;
use writers::{
    Part, Request, Text, write_and_read, write_and_read_signed, write_chosen, write_each,
    write_numbers, write_request,
};

/// What a request asks for, made with openssl: a name of two attributes, a key on the curve
/// prime256v1, and a password.
const REQUEST: &str = "\
30819f0201003026310d300b060355040a0c04546573743115301306035504030c0c6578616d706c652e746573743059\
301306072a8648ce3d020106082a8648ce3d030107034200042e4381ade79c967d2da11600cde454b67eb64324f51b0f\
55c5c9bba9e74490db62f61bcebfcf181a77c3e69a90a312c06c71112f8dfe005cb47bf8f3d5146c77a017301506092a\
864886f70d01090731080c06736563726574";

/// The contents octets of the key.
const KEY: &str = "\
00042e4381ade79c967d2da11600cde454b67eb64324f51b0f55c5c9bba9e74490db62f61bcebfcf181a77c3e69a90a3\
12c06c71112f8dfe005cb47bf8f3d5146c77";

/// The extensions of a certificate, made with openssl.
const EXTENSIONS: &str = "\
3064301d0603551d0e041604140a1f92d3d298d07ec0ac24c8ace602aa2d0ef456301f0603551d230418301680140a1f\
92d3d298d07ec0ac24c8ace602aa2d0ef45630120603551d130101ff040830060101ff020103300e0603551d0f0101ff\
040403020106";

/// The object identifier 2.5.4.10.
const ORGANIZATION: ConstOid = Oid(&[0x55, 0x04, 0x0A]);

#[test]
fn a_request_is_that_of_openssl(rt: HostRuntime) {
    let wanted = done(&rt, hex::decode(rt.alloc(), REQUEST));
    let key = done(&rt, hex::decode(rt.alloc(), KEY));
    let request = Request {
        organization: Part {
            kind: &[0x55, 0x04, 0x0A],
            text: Text("Test"),
        },
        name: Part {
            kind: &[0x55, 0x04, 0x03],
            text: Text("example.test"),
        },
        algorithm: &[0x2A, 0x86, 0x48, 0xCE, 0x3D, 0x02, 0x01],
        curve: &[0x2A, 0x86, 0x48, 0xCE, 0x3D, 0x03, 0x01, 0x07],
        key: &key,
        attribute: &[0x2A, 0x86, 0x48, 0x86, 0xF7, 0x0D, 0x01, 0x09, 0x07],
        values: &[Text("secret")],
    };
    let mut written = Vec::new(rt.alloc());
    holds(
        &rt,
        write_request(&request, Mode::Der, &mut written).is_ok(),
    );
    holds(&rt, written.as_slice() == wanted.as_slice());
}

#[test]
fn a_number_is_read_from_what_was_written(rt: HostRuntime) {
    holds(&rt, write_and_read(rt.alloc(), 300, Mode::Cer).is_ok());
    let signed = write_and_read_signed(rt.alloc(), -129, Mode::Der);
    holds(&rt, signed.is_ok_and(|read| read == -129));
}

#[test]
fn lists_through_an_iterator(rt: HostRuntime) {
    let mut octets = Vec::new(rt.alloc());
    let numbers = [5u32.encode(), 300u32.encode()];
    holds(&rt, write_numbers(&numbers, Mode::Der, &mut octets).is_ok());
    let mut values = Vec::new(rt.alloc());
    done(&rt, values.push(true.encode()));
    done(&rt, values.push(false.encode()));
    holds(&rt, write_each(&values, Mode::Der, &mut octets).is_ok());
    let wanted = [
        0x30, 0x07, 0x02, 0x01, 0x05, 0x02, 0x02, 0x01, 0x2C, 0x01, 0x01, 0xFF, 0x01, 0x01, 0x00,
    ];
    holds(&rt, octets.as_slice() == wanted.as_slice());
}

#[test]
fn octets_that_are_chosen(rt: HostRuntime) {
    let mut octets = Vec::new(rt.alloc());
    let written = write_chosen(rt.alloc(), &[0, 5, 0, 44], Mode::Der, &mut octets);
    holds(&rt, written.is_ok());
    holds(
        &rt,
        octets.as_slice() == [0x04, 0x02, 0x05, 0x2C].as_slice(),
    );
}

#[test]
fn extensions_by_their_identifiers(rt: HostRuntime) {
    let octets = done(&rt, hex::decode(rt.alloc(), EXTENSIONS));
    let found = done(&rt, decode_extensions(rt.alloc(), &octets));
    let basic = found.basic.expect(&rt, "basic constraints");
    holds(&rt, basic.authority && basic.path == Some(3));
    holds(&rt, found.usage == Some(4) && found.others == 2);
}

/// Tries basic constraints that hold an INTEGER in place of a SEQUENCE, and some with an octet
/// behind them. The position counts all octets.
#[test]
fn other_basic_constraints_are_refused(rt: HostRuntime) {
    let other: &[u8] = &[
        0x30, 0x0C, 0x30, 0x0A, 0x06, 0x03, 0x55, 0x1D, 0x13, 0x04, 0x03, 0x02, 0x01, 0x03,
    ];
    let longer: &[u8] = &[
        0x30, 0x0C, 0x30, 0x0A, 0x06, 0x03, 0x55, 0x1D, 0x13, 0x04, 0x03, 0x30, 0x00, 0x05,
    ];
    for (octets, wanted) in [
        (other, "expected tag SEQUENCE (at position 11)"),
        (longer, "trailing data (at position 13)"),
    ] {
        let refused = decode_extensions(rt.alloc(), octets).err();
        let error = refused.expect(&rt, "a refusal");
        let shown = done(&rt, error.to_string(rt.alloc()));
        same(&rt, shown.as_str(), wanted);
    }
}

/// Takes an integer, one that isn't negative, and an object identifier, inside a SEQUENCE.
#[tactic(auto, using(bcder::specs::laws::Moved::untouched_is_moved))]
fn take_three<S: Source>(
    alloc: Global,
    cons: &mut Constructed<'_, S>,
) -> Result<(Integer, Unsigned, Oid), DecodeError<S::Error>>
    ensures { Moved S.stream cons }
{
    cons.take_sequence(
        |cons|
            ensures { Moved S.stream cons }
        {
            let integer = Integer::take_from(alloc, cons)?;
            let unsigned = Unsigned::take_from(alloc, cons)?;
            let identifier = Oid::take_from(alloc, cons)?;
            Ok((integer, unsigned, identifier))
        },
    )
}

#[test]
#[tactic(auto, using(bcder::specs::laws::Moved::untouched_is_moved))]
fn numbers_and_identifiers(rt: HostRuntime) {
    let alloc = rt.alloc();
    let integer = done(&rt, Integer::from_i16(alloc, -129));
    let unsigned = Unsigned::from_slice(alloc, &[0x00, 0x00, 0xDE, 0xAD, 0xBE, 0xEF]);
    let unsigned = done(&rt, unsigned);
    let parts = (
        integer.encode(),
        unsigned.encode(),
        ORGANIZATION.encode_ref(),
    );
    let values = sequence(&parts);
    let mut written = Vec::new(alloc);
    holds(&rt, values.write_encoded(Mode::Der, &mut written).is_ok());
    let wanted: &[u8] = &[
        0x30, 0x10, 0x02, 0x02, 0xFF, 0x7F, 0x02, 0x05, 0x00, 0xDE, 0xAD, 0xBE, 0xEF, 0x06, 0x03,
        0x55, 0x04, 0x0A,
    ];
    holds(&rt, written.as_slice() == wanted);
    holds(&rt, values.encoded_len(Mode::Der) == Ok(18));
    let source = SliceSource::new(wanted);
    let found = Constructed::decode(source, Mode::Der, |cons| take_three(alloc, cons));
    let found = done(&rt, found);
    holds(&rt, found.0 == integer && found.1 == unsigned);
    holds(&rt, found.2.same_as(&ORGANIZATION));
}

/// Returns how many octets are borrowed, and how many are left after that.
#[tactic(auto, using(bcder::specs::laws::Moved::untouched_is_moved))]
fn look_and_take<S: Source>(
    octets: &mut Primitive<'_, S>,
) -> Result<(usize, usize), DecodeError<S::Error>>
    ensures { MovedOctets S.stream octets }
{
    let count = octets.slice_all(|octets| octets.len())?;
    let left = octets.remaining();
    octets.skip_all()?;
    Ok((count, left))
}

#[test]
#[tactic(auto, using(bcder::specs::laws::Moved::untouched_is_moved))]
fn octets_are_lent_and_left(rt: HostRuntime) {
    let octets: &[u8] = &[0x01, 0x02, 0x03];
    let found = Primitive::decode_slice(octets, Mode::Der, |octets| look_and_take(octets));
    holds(&rt, done(&rt, found) == (3, 3));
}

/// Asserts that the value has these contents octets in DER.
fn is_octets<P: PrimitiveContent>(rt: &impl Abort, alloc: Global, value: &P, wanted: &[u8]) {
    let bytes = done(rt, value.to_encoded_bytes(alloc, Mode::Der));
    same(rt, bytes.as_slice(), wanted);
}

#[test]
fn contents_octets_as_bytes(rt: HostRuntime) {
    let alloc = rt.alloc();
    let integer = done(&rt, Integer::from_i16(alloc, -129));
    is_octets(&rt, alloc, &&integer, &[0xFF, 0x7F]);
    let unsigned = Unsigned::from_slice(alloc, &[0x00, 0x00, 0xDE, 0xAD, 0xBE, 0xEF]);
    let unsigned = done(&rt, unsigned);
    is_octets(&rt, alloc, &&unsigned, &[0x00, 0xDE, 0xAD, 0xBE, 0xEF]);
    is_octets(&rt, alloc, &ORGANIZATION, &[0x55, 0x04, 0x0A]);
    is_octets(&rt, alloc, &Text("Test"), &[0x54, 0x65, 0x73, 0x74]);
}
