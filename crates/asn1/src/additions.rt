//! What a later version adds to a SEQUENCE (X.680, 25.1, 52).
ghost use Rattle.std.specs.Prelude.{true};
ghost use Rattle.bcder.specs.calls.Views.{Moved};
ghost use Rattle.asn1.specs.Types.{TookFields, AreAll};

use crate::{DecodeFields, Fields, Part, Trace};
use bcder::decode::{Constructed, DecodeError, Source};
use std::alloc::Global;

/// The extension additions of a SEQUENCE: all values up to its end, whatever they are
/// (X.680, 25.1). They are passed over.
///
/// A reader of one version so takes what a later version adds (X.680, 52).
/// `Sequence<(u32, bool, ExtensionAdditions)>` is `SEQUENCE { a INTEGER, b BOOLEAN, ... }`.
#[derive(Clone, Copy, Debug, PartialEq, Eq, Drop)]
pub struct ExtensionAdditions;

impl Fields for ExtensionAdditions {
    ghost Keys = { Unit {0} };

    ghost keys = { λ x. tt };

    ghost takes = { λ mode ts x us. AreAll ts x us };

    ghost keep_all = { ⊥ };

    fn count() -> usize {
        1
    }

    fn fields_are_one() {}
}

impl<S: Source> DecodeFields<S> for ExtensionAdditions {
    /// Values that are passed over may be deep.
    ghost may_lack = { true };

    fn trace_fields<P: Trace>(
        alloc: Global,
        cons: &mut Constructed<'_, S>,
        path: &mut P,
    ) -> Result<ExtensionAdditions, DecodeError<S::Error>> {
        match cons.skip_one(alloc) {
            Ok(Some(())) => match cons.skip_all(alloc) {
                Ok(()) => Ok(ExtensionAdditions),
                Err(error) => {
                    path.note(Part::Field);
                    Err(error)
                }
            },
            Ok(None) => Ok(ExtensionAdditions),
            Err(error) => {
                path.note(Part::Field);
                Err(error)
            }
        }
    }
}
