//! Why something isn't converted, and how it is said.
ghost use Rattle.std.specs.Prelude.{◌≡◌, IfOk, string_bytes};
ghost use Rattle.berconv.specs.Refusals.{message, reason_of, status_of};
ghost use Rattle.berconv.specs.Refusals.{RefusedWith};

use bcder::NoMemory;
use cli::status::Status;
use cli::tell::put;
use encodings::status::{BEYOND, ENDED};
use std::alloc::Global;
use std::io;

/// The reason if a value isn't converted.
const UNCONVERTED: &str = "a value isn't converted to these rules. Those that aren't:
  BOOLEANs that are constructed, or haven't one octet
  BIT STRINGs that are constructed or malformed, or have unused bits that aren't zero
  to CER, BIT STRINGs of more than 1000 octets
  constructed strings with values in them that aren't OCTET STRINGs
  to DER, values of 2^32 contents octets or more";

/// The message if memory ran out.
const OUT_OF_MEMORY: &str = "berconv: out of memory\n";

/// The reason why something isn't converted.
#[derive(Clone, Copy, Debug)]
pub(crate) enum Refusal {
    /// The octets are no values: how many were passed, and why no value begins behind them.
    NoValues(usize, u8),

    /// A value becomes nothing in the other rules.
    NotConverted,

    /// Memory ran out.
    NoMemory,

    /// The text has no block.
    NoBlock,

    /// A block has no end.
    Unended,

    /// A block ends with another label.
    OtherLabel,

    /// A block has headers (RFC 1421).
    Headers,

    /// A block isn't in base 64.
    NotBase64,

    /// The file isn't in the form that is asked for.
    Misspelled,
}

impl Refusal {
    /// Returns how a conversion ends for this reason.
    pub(crate) fn status(self) -> Status
        ensures { result ≡ status_of self }
    {
        match self {
            Refusal::NoMemory => Status::Failed,
            _ => Status::Refused,
        }
    }

    /// Returns the reason in words, but for the place.
    fn reason(self) -> &'static str
        ensures { result.now ≡ reason_of self }
    {
        match self {
            Refusal::NoValues(_, BEYOND) => "the contents of this value aren't all here",
            Refusal::NoValues(_, ENDED) => "the octets end before a value does",
            Refusal::NoValues(_, _) => "no value of these rules begins here, and none ends",
            Refusal::NotConverted => UNCONVERTED,
            Refusal::NoMemory => "out of memory",
            Refusal::NoBlock => "there is no block",
            Refusal::Unended => "it has no end",
            Refusal::OtherLabel => "it ends with another label",
            Refusal::Headers => "it has headers, as an encrypted key has",
            Refusal::NotBase64 => "it isn't in base 64",
            Refusal::Misspelled => "it isn't in the form that is asked for",
        }
    }
}

/// Returns the message of a refusal: in the block of this number, or in a file without blocks if it
/// is 0.
fn message_of(alloc: Global, block: usize, refusal: Refusal) -> Result<String, NoMemory>
    ensures { IfOk result (λ text. string_bytes text ≡ message block refusal) }
{
    let mut text = String::new(alloc);
    write!(text, "berconv: ")?;
    if block != 0 {
        write!(text, "block {block}: ")?;
    }
    if let Refusal::NoValues(at, _) = refusal {
        write!(text, "octet {at}: ")?;
    }
    let reason = refusal.reason();
    write!(text, "{reason}\n")?;
    Ok(text)
}

/// Says why something isn't converted, and returns how the conversion ends.
pub(crate) fn refuse<E: io::Write>(
    alloc: Global,
    block: usize,
    refusal: Refusal,
    err: &mut E,
) -> Status
    ensures told { RefusedWith block refusal (E.contents err.old) (E.contents err.new) }
    ensures status { result ≡ status_of refusal }
{
    match message_of(alloc, block, refusal) {
        Ok(text) => put(err, text.as_str()),
        Err(NoMemory) => put(err, OUT_OF_MEMORY),
    }
    refusal.status()
}
