//! Captured values as an encoder.
ghost use Rattle.std.specs.Prelude.{◌≡◌};
ghost use Rattle.bcder.specs.calls.Gathered.{suits, KeptMeans, MayWrite};
ghost use Rattle.bcder.specs.calls.Noted.{ReadsNone};
ghost use Rattle.bcder.specs.laws.Gathered.{kept_lawful};

use crate::captured::Captured;
use crate::encode::sizes::{Sizes, SizesLeft};
use crate::encode::slot::Failed;
use crate::encode::target::put_all;
use crate::encode::values::Encoder;
use crate::encode::{EncodeError, WriteError};
use crate::mode::Mode;
use std::io;

/// Encodes the captured values, with their octets as they are.
///
/// They are written in their own mode, and in BER, since an encoding in CER or DER is one in BER
/// too. In CER and DER, values of another mode are refused with `CapturedMode`, even if there are
/// none.
impl Encoder for Captured {
    ghost all = { KeptMeans };

    ghost takes = { λ _ _. ReadsNone };

    #[inline(always)]
    #[tactic(auto, using(crate::proofs::Noting::nothing_noted))]
    fn measured<Pass>(&self, mode: Mode, _sizes: &mut Sizes) -> Result<usize, EncodeError> {
        self.check_mode(mode)?;
        Ok(self.octets.len())
    }

    #[tactic(auto, using(crate::proofs::Noting::none_read))]
    fn put<Pass, W: io::Write>(
        &self,
        _mode: Mode,
        _sizes: &mut SizesLeft<'_>,
        target: &mut W,
        why: &mut WriteError,
    ) -> Result<(), Failed> {
        put_all(target, self.octets.as_slice(), why)
    }

    ghost one = { λ c mode can. kept_lawful c mode };
}

impl Captured {
    /// Refuses a mode that the values may not be written in.
    #[tactic(auto, using(crate::proofs::Gathering::may_write))]
    fn check_mode(&self, mode: Mode) -> Result<(), EncodeError>
        ensures { MayWrite self.now mode result }
    {
        if suits(self.mode, mode) {
            Ok(())
        } else {
            Err(EncodeError::CapturedMode)
        }
    }
}

/// Returns whether values that are kept in one mode may be written in another.
fn suits(own: Mode, mode: Mode) -> bool
    ensures { result ≡ suits own mode }
{
    match mode {
        Mode::Ber => true,
        Mode::Cer | Mode::Der => own == mode,
    }
}
