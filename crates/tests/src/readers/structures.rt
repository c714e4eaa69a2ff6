//! Tests of certificates, signed messages and blocks of addresses. The expected values are what
//! `openssl asn1parse` shows of them.
ghost use Rattle.bcder.specs.calls.Views.{Moved};

use crate::asserts::{done, holds, same};
use bcder::decode::{Constructed, DecodeError, SliceSource, Source};
use bcder::{Mode, Oid};
use std::alloc::Global;
use std::process::Abort;
use user::{Name, Text, Time, decode_addresses, decode_certificate, decode_signed};

/// A self-signed certificate in DER, made with openssl.
pub const CERTIFICATE: &str = "\
308203473082022fa00302010202144b699c1efad639121c85a0f5d448dc8a657549ad300d06092a864886f70d01010b\
05003033310b3009060355040613024e4c310d300b060355040a0c04546573743115301306035504030c0c6578616d70\
6c652e74657374301e170d3236313132323039333135315a170d3236313132353039333135315a3033310b3009060355\
040613024e4c310d300b060355040a0c04546573743115301306035504030c0c6578616d706c652e7465737430820122\
300d06092a864886f70d01010105000382010f003082010a0282010100e8d5115fa0e5e5d17e31ad59699357c98f847d\
1813c5fa6b313ab41d403ea3da35ed0aa1ea9471030ad5e6605b8c258f0438ceec07f19ad324c1cef8804788b51e6541\
c35d2546bb48a599a049044cd554cd380969be1bd6a5cf727261c78f365de19a961eff75180059a2ae5373f47991398d\
75becb6d0f7cc779d71fdc4b62d2c39a8ca5b24b475efcd1b0201367dc0b7c230492ac33c216493449b4dd46d21f7592\
eba31c3912cda814715c064ba423b5fc81f645cac87ac55ff7c7fd359ed7f63111b14875a108f318fa5ecfe3bc63352d\
02c2493846b99811d5fbdd30b1da41292c241960062425879d91ce91d34d6bd8e1b822e4cac7dec8cad0032343020301\
0001a3533051301d0603551d0e04160414855234119b7e184090df65b95b6227c60d7c8434301f0603551d2304183016\
8014855234119b7e184090df65b95b6227c60d7c8434300f0603551d130101ff040530030101ff300d06092a864886f7\
0d01010b050003820101004ded35f233f09327ae6de46380c99301d84e7e43cf0b94d2ed96649966b2736d3eee83a11e\
f4c2b18382d2acdc3659a37083088b581113d0a15fb0e37a340464b503400c4bc2b950fee4798069eb1acfc991d58a7a\
fabfb5a093d73f4511bd115dde9067425dc80f3524110a6b1ca8efcbb7bef51b137425cfed020c47b40f854ad8ba568c\
1b3299b1ed564cdfafe4f988f6c0dfd927cff2664485561c1692b6e73819c8c4e742aa255669047cb65abe9b4ee780f1\
87ceca87364d3b0bff0392f4f46522c94b0d6671786d2448c21f5b0dc99877e6ac9f4a203a7cbf28bde2b61e8cd92d36\
6f447b2bacf2abb871e20b8bb903be7e64de405a6f7bd97e76a850";

/// A signed message in DER, made with openssl cms: `hello`, with the certificate of its signer.
const SIGNED: &str = "\
3082039d06092a864886f70d010702a082038e3082038a020101310d300b0609608648016503040201301406092a8648\
86f70d010701a007040568656c6c6fa08201bd308201b93082015fa0030201020214526b56732e64bf7b1aa0e646c394\
290d3c3f5674300a06082a8648ce3d0403023032310b3009060355040613024e4c310d300b060355040a0c0454657374\
3114301206035504030c0b7369676e65722e74657374301e170d3236313132323233333330365a170d32363132323232\
33333330365a3032310b3009060355040613024e4c310d300b060355040a0c04546573743114301206035504030c0b73\
69676e65722e746573743059301306072a8648ce3d020106082a8648ce3d03010703420004fa8cb0007583075102ce9d\
431f4600231e79c8c8067852a5602990f7a8340d0d4c215a8e7f8b2c66c8f73b97c7354334ffa2f902c0deb7c263a986\
60ab6b4775a3533051301d0603551d0e04160414850fa448a1b4b98462b11bcad47b4ae30c941395301f0603551d2304\
1830168014850fa448a1b4b98462b11bcad47b4ae30c941395300f0603551d130101ff040530030101ff300a06082a86\
48ce3d0403020348003045022100dac5c9d6e868f1c46f77b65c6c976b79f393c6a15c051c581cd35125bfbab65e0220\
1de03fdc2cb8070074b3f5bd07194fa5fbfda28eda9504066d7ac92ac3642a503182019d30820199020101304a303231\
0b3009060355040613024e4c310d300b060355040a0c04546573743114301206035504030c0b7369676e65722e746573\
740214526b56732e64bf7b1aa0e646c394290d3c3f5674300b0609608648016503040201a081e4301806092a864886f7\
0d010903310b06092a864886f70d010701301c06092a864886f70d010905310f170d3236313132323233333330365a30\
2f06092a864886f70d010904312204202cf24dba5fb0a30e26e83b2ac5b9e29e1b161e5c1fa7425e73043362938b9824\
307906092a864886f70d01090f316c306a300b060960864801650304012a300b0609608648016503040116300b060960\
8648016503040102300a06082a864886f70d0307300e06082a864886f70d030202020080300d06082a864886f70d0302\
020140300706052b0e030207300d06082a864886f70d0302020128300a06082a8648ce3d040302044830460221009c63\
31ebd135957cdfcd8f6be617793e5b56e88b3f3ba072024fc749164d408b022100efebee83c4118d0ff6b8be5f35e9dc\
251fe15bd4d840c44cce33282d2c6db4ce";

/// A signed message like `SIGNED`, without certificates and attributes, and with the identifier of
/// the signer's key.
const SIGNED_BY_KEY: &str = "\
3081b906092a864886f70d010702a081ab3081a8020103310d300b0609608648016503040201301406092a864886f70d\
010701a007040568656c6c6f317e307c0201038014e99878ffb45190c9d4ea736b64cb1c63c924998e300b0609608648\
016503040201300a06082a8648ce3d04030204483046022100bcb76fd83c45054c4bf895e6a8d41bada1458e695b5854\
5c7f867032a3f1b87b022100f7b9833480244ab1c5365ab1ff00fc1c4ec7f5d4c7a8964ba996fcdd58da1f2d";

/// A signed message in BER, made with openssl cms in a stream: `hello`. Its segment was cut into
/// two by hand; openssl still accepts its signature.
const SIGNED_IN_SEGMENTS: &str = "\
308006092a864886f70d010702a0803080020101310d300b0609608648016503040201308006092a864886f70d010701\
a08024800402686504036c6c6f0000000000003181b53081b2020101304a3032310b3009060355040613024e4c310d30\
0b060355040a0c04546573743114301206035504030c0b7369676e65722e74657374021435f973df3c71e8cb1a78d944\
5fa621c646aba1bc300b0609608648016503040201300a06082a8648ce3d04030204483046022100c51e50d1ebae7d60\
8a3424e44ba7f2c91bc1fc81412bf575b36194a2cbcb8140022100aa2f6ae4f696b533350483802baef3c46d009b7b5d\
9deb6e0ff18133a2b989b0000000000000";

/// The blocks of addresses of RFC 3779, appendix B: five of IPv4, and for IPv6 all of the issuer's.
const ADDRESSES: &str = "\
3035302b040300010130240304040a00200304000a00400303000a01300c0304040a02300304000a02400303000a0330\
06040200020500";

/// Asserts that a name has three attributes with these texts, the last of them a common name.
fn is_name(rt: &impl Abort, alloc: Global, name: &Name) {
    same(rt, name.attributes().len(), 3);
    for (attribute, text) in name.attributes().iter().zip(["NL", "Test", "example.test"]) {
        let shown = done(rt, attribute.text.to_string(alloc));
        same(rt, shown.as_str(), text);
    }
    let common = name.text_of(&Oid(&[0x55, 0x04, 0x03]));
    holds(rt, matches!(common, Some(Text::Utf8(_))));
    holds(rt, name.text_of(&Oid(&[0x55, 0x04, 0x04])).is_none());
}

#[test]
fn reads_a_certificate(rt: HostRuntime) {
    let octets = done(&rt, hex::decode(rt.alloc(), CERTIFICATE));
    let found = decode_certificate(rt.alloc(), SliceSource::new(&octets));
    let found = done(&rt, found);
    same(&rt, found.version, 3);
    same(&rt, [found.extensions, found.critical], [3, 1]);
    is_name(&rt, rt.alloc(), &found.issuer);
    is_name(&rt, rt.alloc(), &found.subject);
    same(&rt, [found.serial, found.key], [20, 271]);
    holds(&rt, matches!(found.validity.from, Time::Utc(13)));
    holds(&rt, matches!(found.validity.to, Time::Utc(13)));
}

/// Signed messages, the numbers of their digest algorithms, certificates, lists of revoked ones,
/// signers and attributes, and the number of octets that are signed.
const MESSAGES: [(&str, [u64; 5], usize); 3] = [
    (SIGNED, [1, 1, 0, 1, 4], 5),
    (SIGNED_BY_KEY, [1, 0, 0, 1, 0], 5),
    (SIGNED_IN_SEGMENTS, [1, 0, 0, 1, 0], 5),
];

#[test]
fn reads_signed_messages(rt: HostRuntime) {
    for (text, counts, len) in MESSAGES {
        let octets = done(&rt, hex::decode(rt.alloc(), text));
        let found = done(&rt, decode_signed(rt.alloc(), SliceSource::new(&octets)));
        let (lists, signers) = (found.lists, found.signers);
        let all = [
            found.digests,
            found.certificates,
            lists,
            signers,
            found.attributes,
        ];
        same(&rt, all, counts);
        same(&rt, found.message, Some(len));
    }
}

#[test]
fn reads_blocks_of_addresses(rt: HostRuntime) {
    let octets = done(&rt, hex::decode(rt.alloc(), ADDRESSES));
    let found = done(&rt, decode_addresses(rt.alloc(), SliceSource::new(&octets)));
    let all = [
        found.families,
        found.inherited,
        found.prefixes,
        found.ranges,
    ];
    same(&rt, all, [2, 1, 4, 1]);
    same(&rt, found.longest, 24);
}

/// Repeats a step that takes nothing, without an end, over the content of a SEQUENCE.
#[tactic(auto, using(bcder::specs::laws::Moved::untouched_is_moved))]
fn stay<S: Source>(cons: &mut Constructed<'_, S>) -> Result<(), DecodeError<S::Error>>
    ensures { Moved S.stream cons }
{
    cons.take_sequence(|cons| cons.while_some(|_cons| Ok(Some(()))))
}

#[test]
#[tactic(auto, using(bcder::specs::laws::Moved::untouched_is_moved))]
fn a_step_that_takes_nothing_is_refused(rt: HostRuntime) {
    let octets: &[u8] = &[0x30, 0x02, 0x05, 0x00];
    let found = Constructed::decode(SliceSource::new(octets), Mode::Ber, |cons| stay(cons));
    holds(&rt, found.is_err());
}
