//! Structs of octets that are lent, inside other structs.
ghost use Rattle.std.specs.Prelude.{◌≢◌, false};
ghost use Rattle.bcder.specs.declared.mode.Mode.{Mode as Rules};
ghost use Rattle.bcder.specs.declared.mode.Mode.TheVariants.{Ber};
ghost use Rattle.asn1.specs.Types.{Only};
ghost use Rattle.asn1.specs.Keys.{IsMeantOnce, MeansOne};

use crate::rows::{Read, lends};
use asn1::{
    Decode, DecodeParts, OctetStringRef, Parts, Sequence, SequenceOf, SequenceTag, Trace, Type,
};
use bcder::decode::{Constructed, DecodeError, SliceSource};
use bcder::{Mode, Tag};
use std::alloc::Global;
use std::convert::Infallible;

/// `Entry ::= SEQUENCE { name OCTET STRING, number INTEGER (0..255) }`.
#[derive(Debug, Drop)]
struct Entry<'a> {
    name: OctetStringRef<&'a [u8]>,
    number: u8,
}

/// What defines [`Entry`].
type EntryParts<'a> = Sequence<(OctetStringRef<&'a [u8]>, u8)>;

impl<'a> Parts for Entry<'a> {
    type As = EntryParts<'a>;

    type Tags = SequenceTag;

    ghost parts = { λ x. (x.name, x.number) };

    ghost typed = { ⟦<EntryParts<'a> as Type>⟧ };

    fn from_parts(value: EntryParts<'a>) -> Entry<'a> {
        let Sequence((name, number)) = value;
        Entry { name, number }
    }

    fn parts_are_one()
        ensures one { (mode : Rules) → MeansOne (⟦<EntryParts<'a> as Type>⟧.means mode)
            ⟦<EntryParts<'a> as Type>⟧.key }
        ensures once { ⟦<EntryParts<'a> as Type>⟧.keeps_all → (mode : Rules) → mode ≢ Ber
            → IsMeantOnce mode Only (⟦<EntryParts<'a> as Type>⟧.means mode)
            ⟦<EntryParts<'a> as Type>⟧.key }
    {
        <EntryParts<'a>>::values_are_one();
    }
}

impl<'a> DecodeParts<SliceSource<'a>> for Entry<'a> {
    ghost may_lack = { false };

    fn trace_parts<P: Trace>(
        alloc: Global,
        cons: &mut Constructed<'_, SliceSource<'a>>,
        tag: Tag,
        path: &mut P,
    ) -> Result<Option<EntryParts<'a>>, DecodeError<Infallible>> {
        <EntryParts<'a>>::trace_opt_if(alloc, cons, tag, path)
    }
}

/// `Table ::= SEQUENCE { title OCTET STRING, entries SEQUENCE OF Entry }`.
#[derive(Debug, Drop)]
struct Table<'a> {
    title: OctetStringRef<&'a [u8]>,
    entries: SequenceOf<Entry<'a>>,
}

/// What defines [`Table`].
type TableParts<'a> = Sequence<(OctetStringRef<&'a [u8]>, SequenceOf<Entry<'a>>)>;

impl<'a> Parts for Table<'a> {
    type As = TableParts<'a>;

    type Tags = SequenceTag;

    ghost parts = { λ x. (x.title, x.entries) };

    ghost typed = { ⟦<TableParts<'a> as Type>⟧ };

    fn from_parts(value: TableParts<'a>) -> Table<'a> {
        let Sequence((title, entries)) = value;
        Table { title, entries }
    }

    fn parts_are_one()
        ensures one { (mode : Rules) → MeansOne (⟦<TableParts<'a> as Type>⟧.means mode)
            ⟦<TableParts<'a> as Type>⟧.key }
        ensures once { ⟦<TableParts<'a> as Type>⟧.keeps_all → (mode : Rules) → mode ≢ Ber
            → IsMeantOnce mode Only (⟦<TableParts<'a> as Type>⟧.means mode)
            ⟦<TableParts<'a> as Type>⟧.key }
    {
        <TableParts<'a>>::values_are_one();
    }
}

impl<'a> DecodeParts<SliceSource<'a>> for Table<'a> {
    fn trace_parts<P: Trace>(
        alloc: Global,
        cons: &mut Constructed<'_, SliceSource<'a>>,
        tag: Tag,
        path: &mut P,
    ) -> Result<Option<TableParts<'a>>, DecodeError<Infallible>> {
        <TableParts<'a>>::trace_opt_if(alloc, cons, tag, path)
    }
}

/// Tables.
const TABLES: [Read; 3] = [
    (
        Mode::Der,
        b"\x30\x0D\x04\x01a\x30\x08\x30\x06\x04\x01b\x02\x01\x05",
        "Table { title: OctetStringRef([97]), entries: SequenceOf([Entry { name: \
         OctetStringRef([98]), number: 5 }]) }",
    ),
    // an entry without a number, and a value behind the last
    (
        Mode::Der,
        b"\x30\x0A\x04\x01a\x30\x05\x30\x03\x04\x01b",
        "refused",
    ),
    (Mode::Der, b"\x30\x07\x04\x01a\x30\x00\x05\x00", "refused"),
];

#[test]
fn lent_structs_are_read(rt: HostRuntime) {
    lends::<Table<'_>>(&rt, rt.alloc(), &TABLES);
}
