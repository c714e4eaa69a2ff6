//! What octets begin with.
ghost use Rattle.std.specs.Prelude.{◌≡◌, option_map, MatchOption};
ghost use Rattle.encodings.specs.Open.{Closes, NotAtEnd};
ghost use Rattle.rules.specs.Begun.{BeginsAs};

use bcder::plain::{end_at, front_at};
use bcder::{Mode, Tag};

/// The header of a value, and the octets behind it.
#[derive(Clone, Copy)]
pub(crate) struct Begun<'a> {
    pub(crate) tag: Tag,
    pub(crate) constructed: bool,

    /// The number of octets of the header.
    pub(crate) size: usize,

    /// The contents octets, or, with the indefinite form, all octets behind the header.
    pub(crate) contents: &'a [u8],

    /// The octets behind the contents octets, unless the form is indefinite.
    pub(crate) behind: Option<&'a [u8]>,
}

/// What octets begin with.
#[derive(Clone, Copy)]
pub(crate) enum Front<'a> {
    /// A value, or the header of one of indefinite length.
    Value(Begun<'a>),

    /// The header of a value with more contents octets than are there.
    Beyond,

    /// No header.
    Nothing,
}

/// Returns what octets begin with.
pub(crate) fn begin(mode: Mode, rest: &[u8]) -> Front<'_>
    ensures { BeginsAs mode rest.now result }
{
    let Some(front) = front_at(mode, rest) else {
        return Front::Nothing;
    };
    let size = rest.len() - front.rest.len();
    match front.len {
        Some(len) => {
            if front.rest.len() < len {
                return Front::Beyond;
            }
            let (contents, behind) = front.rest.split_at(len);
            Front::Value(Begun {
                tag: front.tag,
                constructed: front.constructed,
                size,
                contents,
                behind: Some(behind),
            })
        }
        None => Front::Value(Begun {
            tag: front.tag,
            constructed: front.constructed,
            size,
            contents: front.rest,
            behind: None,
        }),
    }
}

/// Returns the octets behind the end of the innermost open value, if that comes next.
pub(crate) fn close<'a>(
    mode: Mode,
    innermost: Option<&'a [u8]>,
    rest: &'a [u8],
) -> Option<(usize, &'a [u8])>
    ensures { MatchOption result
        (NotAtEnd mode (option_map (λ s. s.now) innermost.entry) rest.now)
        (λ r. Closes mode (option_map (λ s. s.now) innermost.entry) rest.now r.1.now r.0) }
{
    match innermost {
        Some(behind) => {
            if rest.is_empty() {
                Some((0, behind))
            } else {
                None
            }
        }
        None => match end_at(mode, rest) {
            Some(after) => Some((rest.len() - after.len(), after)),
            None => None,
        },
    }
}
