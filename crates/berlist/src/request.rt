//! Reads the arguments.
ghost use Rattle.std.specs.Prelude.{◌≡◌, ◌↔◌, ℕ, List, Ok, Some, None, IfOk, IsErr, MatchOption};
ghost use Rattle.std.specs.Prelude.{IsTrue, map, string_bytes};
ghost use Rattle.bcder.specs.declared.mode.Mode.{Mode as TheMode};
ghost use Rattle.hex.specs.Hex.{decode_of};
ghost use Rattle.berlist.specs.Requests.{Asks, AsksNothing, mode_word};

use bcder::{Mode, NoMemory};
use std::alloc::Global;

/// Octets, and the mode in which they are to be read.
#[derive(Drop)]
pub(crate) struct Request {
    pub(crate) mode: Mode,
    pub(crate) octets: Vec<u8>,
}

fn mode_named(word: &str) -> Option<Mode>
    ensures { MatchOption result
        ((mode : TheMode) → word.now ≡ mode_word mode → ⊥)
        (λ mode. word.now ≡ mode_word mode) }
{
    match word {
        "ber" => Some(Mode::Ber),
        "cer" => Some(Mode::Cer),
        "der" => Some(Mode::Der),
        _ => None,
    }
}

/// Returns whether a text is an even number of hexadecimal digits, in either case.
fn is_hex(text: &str) -> bool
    ensures { IsTrue result ↔ (octets : List ℕ) × (decode_of text.now ≡ Ok octets) }
{
    text.len() % 2 == 0
        && text
            .as_bytes()
            .iter()
            .all(|digit| digit.is_ascii_hexdigit())
}

/// Returns the mode and the octets that the arguments name, or `None` if they aren't `ber`, `cer`
/// or `der` and an even number of hexadecimal digits.
pub(crate) fn read(alloc: Global, args: &[String]) -> Result<Option<Request>, NoMemory>
    ensures asked { IfOk result (λ r. MatchOption r
        (AsksNothing (map string_bytes args.now))
        (λ q. Asks (map string_bytes args.now) q.mode q.octets.items)) }
    ensures no_memory { IsErr result →
        (mode : TheMode) × (octets : List ℕ) × Asks (map string_bytes args.now) mode octets }
{
    let [word, text] = args else {
        return Ok(None);
    };
    let Some(mode) = mode_named(word) else {
        return Ok(None);
    };
    if !is_hex(text) {
        return Ok(None);
    }
    match hex::decode(alloc, text.as_str()) {
        Ok(octets) => Ok(Some(Request { mode, octets })),
        Err(_) => Err(NoMemory),
    }
}
