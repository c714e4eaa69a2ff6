//! A leaf of a user's own.
ghost use Rattle.std.specs.Prelude.{ℕ, ◌≡◌, ◌∷◌, []};
ghost use Rattle.std.proofs.Common.{rules};
ghost use Rattle.bcder.specs.x690.Identifier.{universal};
ghost use Rattle.asn1.specs.Markers.{universal_tagged};
ghost use Rattle.bcder.specs.calls.Meaning.{PieceMeans};
ghost use Rattle.bcder.specs.declared.encode.error.EncodeError.TheVariants.{LongCerPrimitive};
ghost use Rattle.bcder.specs.laws.Meanings.{PieceMeans_lawful};

use crate::rows::{Again, Read, reads_and_come_back};
use asn1::{ClearContents, FromContents, Leaf, ToContents};
use bcder::encode::{EncodeError, PrimitiveContent, WriteError};
use bcder::{Mode, Tag};
use std::io;

/// An ENUMERATED of one octet.
#[derive(Debug, Drop)]
struct Level(u8);

impl FromContents for Level {
    ghost TAG = { record { class = universal; number = 10 } };

    fn tag() -> Tag {
        Tag::ENUMERATED
    }

    ghost Key = { ℕ };

    ghost key = { λ x. x.0 };

    ghost means = { λ _ w x. w ≡ x.0 ∷ [] };

    fn from_contents(_mode: Mode, octets: &[u8]) -> Option<Level> {
        if octets.len() == 1 {
            Some(Level(octets[0]))
        } else {
            None
        }
    }

    fn contents_are_one() {}

    ghost tagged = { universal_tagged (Prim.search rules) (Prim.search rules) };
}

impl PrimitiveContent for Level {
    ghost own_tag = { record { class = universal; number = 10 } };

    ghost means = { λ x mode. PieceMeans LongCerPrimitive mode (x.0 ∷ []) };

    fn tag() -> Tag
        ensures { result ≡ record { class = universal; number = 10 } }
    {
        Tag::ENUMERATED
    }

    fn encoded_len(&self, mode: Mode) -> Result<usize, EncodeError> {
        [self.0].as_slice().encoded_len(mode)
    }

    fn write_encoded<W: io::Write>(&self, mode: Mode, target: &mut W) -> Result<(), WriteError> {
        [self.0].as_slice().write_encoded(mode, target)
    }

    ghost lawful = { λ x mode. PieceMeans_lawful LongCerPrimitive mode (x.0 ∷ []) };
}

impl ToContents for Level {
    fn contents_are_read_back(mode: Mode) {
        match mode {
            Mode::Ber | Mode::Cer | Mode::Der => {}
        }
    }
}

impl ClearContents for Level {
    fn contents_are_clear_in(&self, _mode: Mode) -> bool {
        true
    }
}

const LEVEL: [Read; 2] = [
    (Mode::Der, &[0x0A, 0x01, 0x05], "Leaf(Level(5))"),
    (Mode::Der, &[0x0A, 0x02, 0x05, 0x06], "refused"),
];

/// In each mode it is written so, and comes back.
const AGAIN: [Again; 3] = [
    (
        Mode::Der,
        &[0x0A, 0x01, 0x05],
        Mode::Ber,
        &[0x0A, 0x01, 0x05],
    ),
    (
        Mode::Der,
        &[0x0A, 0x01, 0x05],
        Mode::Cer,
        &[0x0A, 0x01, 0x05],
    ),
    (
        Mode::Der,
        &[0x0A, 0x01, 0x05],
        Mode::Der,
        &[0x0A, 0x01, 0x05],
    ),
];

#[test]
fn one_octet_is_read_and_written(rt: HostRuntime) {
    reads_and_come_back::<Leaf<Level>>(&rt, rt.alloc(), &LEVEL, &[], &AGAIN);
}
