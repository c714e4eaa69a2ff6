//! Extension additions, of which none are written (X.680, 52).
ghost use Rattle.std.specs.Prelude.{◌≡◌};
ghost use Rattle.bcder.specs.x690.Tree.{no_trees};
ghost use Rattle.bcder.specs.calls.Meaning.{NoValues};
ghost use Rattle.bcder.specs.laws.Joined.{NoValues_lawful};

use crate::ExtensionAdditions;
use crate::writers::EncodeFields;
use bcder::Mode;
use bcder::encode::{EncodeError, WriteError};
use std::io;

/// None are written. They are read back if nothing follows.
impl EncodeFields for ExtensionAdditions {
    ghost lays = { λ _ _. NoValues };

    ghost may_precede = { λ _ _ us. us ≡ no_trees };

    fn len_fields(&self, _mode: Mode) -> Result<usize, EncodeError> {
        Ok(0)
    }

    fn write_fields<W: io::Write>(&self, _mode: Mode, _target: &mut W) -> Result<(), WriteError> {
        Ok(())
    }

    fn are_read_back(_mode: Mode) {}

    ghost lawful = { λ x mode. NoValues_lawful mode };
}
