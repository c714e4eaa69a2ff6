//! What a caller knows of tags and modes from their contracts alone.
ghost use Rattle.std.specs.Prelude.{◌≡◌, ◌↔◌, IsTrue, IfOk, string_bytes};
ghost use Rattle.bcder.specs.calls.TagText.{tag_text};

use bcder::{Mode, Tag};
use std::alloc::{AllocError, Global};

/// Returns whether two tags are equal: whether they have the same class and number.
pub fn same(one: Tag, other: Tag) -> bool
    ensures { IsTrue result ↔ (one ≡ other) }
{
    one == other
}

/// Returns the text of a tag.
pub fn shown(alloc: Global, tag: Tag) -> Result<String, AllocError>
    ensures { IfOk result (λ text. string_bytes text ≡ tag_text tag) }
{
    tag.to_string(alloc)
}

/// Returns the default mode.
pub fn usual() -> Mode
    ensures { result ≡ Mode.Ber }
{
    Mode::default()
}
