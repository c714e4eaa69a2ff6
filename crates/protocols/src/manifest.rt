//! Lists of the files of an authority of addresses (RFC 9286).
ghost use Rattle.std.specs.Prelude.{refl};

use asn1::{
    ByRef, Context, Decode, DecodeParts, Encode, EncodeParts, Explicit, GeneralizedTime,
    ObjectIdentifier, OrDefault, Parts, Sequence, SequenceOf, SequenceTag, Trace, Type, UseParts,
};
use bcder::decode::{Constructed, DecodeError, Source};
use bcder::{BitString, Integer, Mode, Tag};
use general_names::Ia5Text;
use pkix::{Version, Version1};
use std::alloc::Global;

/// The files of an authority (RFC 9286, section 4.2).
///
///     Manifest ::= SEQUENCE {
///         version         [0] INTEGER DEFAULT 0,
///         manifestNumber  INTEGER (0..MAX),
///         thisUpdate      GeneralizedTime,
///         nextUpdate      GeneralizedTime,
///         fileHashAlg     OBJECT IDENTIFIER,
///         fileList        SEQUENCE SIZE (0..MAX) OF FileAndHash }
///
/// Any version from 0 to 255 is read, and a negative number is too.
#[derive(Debug, Drop)]
pub struct Manifest {
    /// The version, where 0 is the first.
    pub version: OrDefault<Explicit<Context<0>, Version>, Version1>,

    /// The number, which grows with each manifest.
    pub manifest_number: Integer,

    /// When it was made.
    pub this_update: GeneralizedTime,

    /// When the next one comes.
    pub next_update: GeneralizedTime,

    /// The algorithm of the digests.
    pub file_hash_alg: ObjectIdentifier,

    /// The files.
    pub file_list: SequenceOf<FileAndHash>,
}

/// What defines [`Manifest`].
type ManifestParts = Sequence<
    (
        OrDefault<Explicit<Context<0>, Version>, Version1>,
        Integer,
        GeneralizedTime,
        GeneralizedTime,
        ObjectIdentifier,
        SequenceOf<FileAndHash>,
    ),
>;

impl Parts for Manifest {
    type As = ManifestParts;

    type Tags = SequenceTag;

    const NAME: &'static str = "Manifest";

    const PARTS: &'static [&'static str] = &[
        "version",
        "manifest_number",
        "this_update",
        "next_update",
        "file_hash_alg",
        "file_list",
    ];

    ghost parts = { λ x. (
      x.version,
      x.manifest_number,
      x.this_update,
      x.next_update,
      x.file_hash_alg,
      x.file_list,
    ) };

    ghost typed = { ⟦<ManifestParts as Type>⟧ };

    fn from_parts(value: ManifestParts) -> Manifest {
        let Sequence(
            (version, manifest_number, this_update, next_update, file_hash_alg, file_list),
        ) = value;
        Manifest {
            version,
            manifest_number,
            this_update,
            next_update,
            file_hash_alg,
            file_list,
        }
    }

    fn parts_are_one() {
        <ManifestParts>::values_are_one();
    }
}

impl<S: Source> DecodeParts<S> for Manifest {
    fn trace_parts<P: Trace>(
        alloc: Global,
        cons: &mut Constructed<'_, S>,
        tag: Tag,
        path: &mut P,
    ) -> Result<Option<ManifestParts>, DecodeError<S::Error>> {
        <ManifestParts>::trace_opt_if(alloc, cons, tag, path)
    }
}

impl EncodeParts for Manifest {
    ghost written = { ⟦<ManifestParts as Encode>⟧ };

    fn give_parts<T, U: UseParts<T>>(&self, tag: Tag, to: U, target: &mut T) -> U::Out {
        to.use_parts(
            &Sequence((
                ByRef(&self.version),
                ByRef(&self.manifest_number),
                ByRef(&self.this_update),
                ByRef(&self.next_update),
                ByRef(&self.file_hash_alg),
                ByRef(&self.file_list),
            )),
            tag,
            target,
        )
    }

    fn are_read_back(tag: Tag, mode: Mode) {
        <ManifestParts>::is_read_back(tag, mode);
    }

    ghost made = { λ v. (
      record {
        version = v.0;
        manifest_number = v.1;
        this_update = v.2;
        next_update = v.3;
        file_hash_alg = v.4;
        file_list = v.5;
      },
      refl,
    ) };
}

/// A file, and its digest (RFC 9286, section 4.2).
///
///     FileAndHash ::= SEQUENCE {
///         file  IA5String,
///         hash  BIT STRING }
#[derive(Debug, Drop)]
pub struct FileAndHash {
    /// The name of the file.
    pub file: Ia5Text,

    /// Its digest.
    pub hash: BitString,
}

/// What defines [`FileAndHash`].
type FileAndHashParts = Sequence<(Ia5Text, BitString)>;

impl Parts for FileAndHash {
    type As = FileAndHashParts;

    type Tags = SequenceTag;

    const NAME: &'static str = "FileAndHash";

    const PARTS: &'static [&'static str] = &["file", "hash"];

    ghost parts = { λ x. (x.file, x.hash) };

    ghost typed = { ⟦<FileAndHashParts as Type>⟧ };

    fn from_parts(value: FileAndHashParts) -> FileAndHash {
        let Sequence((file, hash)) = value;
        FileAndHash { file, hash }
    }

    fn parts_are_one() {
        <FileAndHashParts>::values_are_one();
    }
}

impl<S: Source> DecodeParts<S> for FileAndHash {
    fn trace_parts<P: Trace>(
        alloc: Global,
        cons: &mut Constructed<'_, S>,
        tag: Tag,
        path: &mut P,
    ) -> Result<Option<FileAndHashParts>, DecodeError<S::Error>> {
        <FileAndHashParts>::trace_opt_if(alloc, cons, tag, path)
    }
}

impl EncodeParts for FileAndHash {
    ghost written = { ⟦<FileAndHashParts as Encode>⟧ };

    fn give_parts<T, U: UseParts<T>>(&self, tag: Tag, to: U, target: &mut T) -> U::Out {
        to.use_parts(
            &Sequence((ByRef(&self.file), ByRef(&self.hash))),
            tag,
            target,
        )
    }

    fn are_read_back(tag: Tag, mode: Mode) {
        <FileAndHashParts>::is_read_back(tag, mode);
    }

    ghost made = { λ v. (record { file = v.0; hash = v.1 }, refl) };
}
