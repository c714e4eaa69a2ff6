//! Octets whose meaning isn't known, and octet strings.
ghost use Rattle.std.specs.Prelude.{◌≡◌, ◌≢◌, [], IfSome, IfNone};
ghost use Rattle.std.specs.Str.{IsUtf8};
ghost use Rattle.cli.specs.Shown.{IsShown};

use crate::note::{Manner, add_fault, fault, hexadecimal};
use bcder::NoMemory;
use cli::shown::is_shown;

/// The number of octets of a text that are shown in hexadecimal too.
const FEW: usize = 4;

/// Returns octets as a text, if they are one that a terminal shows as it is.
fn text_in(octets: &[u8]) -> Option<&str>
    ensures some { IfSome result
        (λ text. (text.now ≡ octets.now) × IsShown text.now × (text.now ≢ [])) }
    ensures none { IfNone result (IsUtf8 octets.now → IsShown octets.now → octets.now ≡ []) }
{
    if octets.is_empty() {
        return None;
    }
    let Ok(text) = str::from_utf8(octets) else {
        return None;
    };
    if is_shown(text) { Some(text) } else { None }
}

/// Appends octets: as a text in quotation marks if they are one, else in hexadecimal. A short text
/// is shown in both ways, since it may be one by chance.
pub(crate) fn add(manner: Manner, text: &mut String, octets: &[u8]) -> Result<(), NoMemory> {
    let Some(spelled) = text_in(octets) else {
        return hexadecimal::add(manner, text, octets);
    };
    if octets.len() > FEW {
        write!(text, " :\"{spelled}\"")?;
        return Ok(());
    }
    hexadecimal::add(manner, text, octets)?;
    write!(text, " \"{spelled}\"")?;
    Ok(())
}

/// Appends what contents octets of an OCTET STRING mean.
pub(crate) fn add_string(
    manner: Manner,
    text: &mut String,
    octets: &[u8],
    holds: bool,
) -> Result<(), NoMemory> {
    if holds {
        hexadecimal::add(manner, text, octets)?;
    } else {
        add(manner, text, octets)?;
    }
    add_fault(text, fault::length(manner.mode, octets))
}
