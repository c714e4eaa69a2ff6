//! Primitive types of a user's own, written by their contents octets (X.690, 8.1.4).
ghost use Rattle.std.specs.Prelude.{⊤, ℕ, List, Ok};
ghost use Rattle.bcder.specs.declared.mode.Mode.{Mode as Rules};
ghost use Rattle.bcder.specs.calls.Meaning.{ValueMeans, primitive_meaning};
ghost use Rattle.bcder.specs.laws.Meanings.{primitive_lawful};

use crate::leaf::{FromContents, Leaf};
use crate::writers::Encode;
use bcder::encode::{EncodeError, PrimitiveContent, Values, WriteError};
use bcder::{Mode, Tag};
use std::io;

/// Contents octets that are written, and mean what they are written of.
///
/// With it a [`Leaf`] writes itself. The octets are those of the encoder [`PrimitiveContent`].
pub trait ToContents: FromContents + PrimitiveContent {
    /// Which values are read back. By default all.
    ghost is_clear: { Self → Rules → Type 0 } = { λ _ _. ⊤ };

    /// A law: what is written of a value means it.
    fn contents_are_read_back(mode: Mode)
        ensures { (x : Self) (w : List ℕ) → is_clear x mode
            → Self.PrimitiveContent.means x mode (Ok w) → Self.FromContents.means mode w x };
}

/// Its contents octets.
impl<V: ToContents> Encode for Leaf<V> {
    ghost writes = { λ tag x mode.
        ValueMeans tag (primitive_meaning tag) (V.PrimitiveContent.means x.0 mode) };

    ghost may_lack = { λ x mode. V.PrimitiveContent.may_lack x.0 mode };

    ghost is_clear = { λ x mode. V.is_clear x.0 mode };

    fn encoded_len_as(&self, tag: Tag, mode: Mode) -> Result<usize, EncodeError> {
        self.0.encode_ref_as(tag).encoded_len(mode)
    }

    fn write_encoded_as<W: io::Write>(
        &self,
        tag: Tag,
        mode: Mode,
        target: &mut W,
    ) -> Result<(), WriteError> {
        self.0.encode_ref_as(tag).write_encoded(mode, target)
    }

    fn is_read_back(_tag: Tag, mode: Mode) {
        V::contents_are_one();
        V::contents_are_read_back(mode);
    }

    ghost lawful = { λ tag x mode.
        primitive_lawful tag mode (V.PrimitiveContent.lawful x.0 mode) };
}
