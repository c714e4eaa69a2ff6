//! Values that may be left out, and then are the default, written (X.680, 25.10; X.690, 11.5).
ghost use Rattle.std.specs.Prelude.{◌≡◌};
ghost use Rattle.asn1.specs.Types.{BeginWithout};
ghost use Rattle.asn1.specs.DefaultsWritten.{WritesUnless, unless_lawful};

use crate::writers::{Encode, EncodeFields};
use crate::{DefaultValue, OrDefault};
use bcder::Mode;
use bcder::encode::{EncodeError, WriteError};
use std::io;

/// A value, or nothing if it is the default.
///
/// In CER and DER the default has to be left out (X.690, 11.5). In BER it may be (X.680, 25.10),
/// and is. It is read back if no value with one of its tags follows.
impl<T: Encode, D: DefaultValue<T>> EncodeFields for OrDefault<T, D> {
    ghost lays = { λ x mode.
        WritesUnless (T.key x ≡ T.key D.default) (T.writes T.TAG x mode) };

    ghost may_lack = { λ x mode. T.may_lack x mode };

    ghost is_clear = { λ x mode. T.is_clear x mode };

    ghost may_precede = { λ x _ us.
        T.key x ≡ T.key D.default → BeginWithout (T.tags T.TAG) us };

    fn len_fields(&self, mode: Mode) -> Result<usize, EncodeError> {
        if D::is_default(&self.value) {
            Ok(0)
        } else {
            self.value.len_fields(mode)
        }
    }

    fn write_fields<W: io::Write>(&self, mode: Mode, target: &mut W) -> Result<(), WriteError> {
        if D::is_default(&self.value) {
            Ok(())
        } else {
            self.value.write_fields(mode, target)
        }
    }

    fn are_read_back(mode: Mode) {
        T::is_read_back(T::tag(), mode);
    }

    ghost lawful = { λ x mode.
        unless_lawful (T.key x ≡ T.key D.default) (T.lawful T.TAG x mode) };
}
