//! Primitive types of a user's own.
ghost use Rattle.std.specs.Prelude.{Bool, true, Decides, IsTrue};
ghost use Rattle.bcder.specs.declared.mode.Mode.{Mode as Rules};
ghost use Rattle.asn1.specs.TagSets.{one_tag, only_in};

use crate::clear::Clear;
use crate::{Leaf, ToContents};
use bcder::Mode;

/// Contents octets that are read back as they were written.
///
/// With it a [`Leaf`] is [`Clear`]. If each value is read back, its function is one line:
///
/// ```text
/// impl ClearContents for Level {
///     fn contents_are_clear_in(&self, _mode: Mode) -> bool {
///         true
///     }
/// }
/// ```
pub trait ClearContents: ToContents {
    /// Whether each value is read back in a mode. By default it is, in each mode.
    ghost always_clear: { Rules → Bool } = { λ _. true };

    /// Returns whether the value is read back in a mode.
    fn contents_are_clear_in(&self, mode: Mode) -> bool
        ensures exact { Decides result (Self.is_clear self.now mode) }
        ensures always { IsTrue (always_clear mode) → IsTrue result };
}

impl<V: ClearContents> Clear for Leaf<V> {
    ghost tag_set = { one_tag V.TAG };

    ghost always_clear = { V.always_clear };

    fn is_clear_in(&self, mode: Mode) -> bool {
        self.0.contents_are_clear_in(mode)
    }

    ghost in_set = { only_in };
}
