//! The values that are open, and which of them end.
ghost use Rattle.std.specs.Prelude.{◌≡◌, ◌+◌, ◌<◌, ℕ, ◌++◌, List, length, IfSome, IfNone};
ghost use Rattle.berdump.specs.declared.scope.Scope.{Scope};
ghost use Rattle.berdump.specs.Opened.{behind_all, Goes, Fits, GoesOn};

use bcder::Mode;
use bcder::plain::end_at;
use std::collections::VecDeque;

/// A value whose contents are being listed, by how they end.
#[derive(Clone, Copy)]
pub(crate) enum Open<'a> {
    /// The contents end after a number of octets. These octets follow them.
    Definite(&'a [u8]),

    /// The contents end at end-of-contents octets.
    Indefinite,
}

/// Closes the innermost value if it ends where these octets begin. Returns the number of its
/// end-of-contents octets, and the octets after it.
pub(crate) fn close<'a>(
    mode: Mode,
    opened: &mut VecDeque<Open<'a>>,
    rest: &'a [u8],
) -> Option<(usize, &'a [u8])>
    ensures goes { IfSome result (λ r. (scope : Scope) (at : ℕ) →
        Goes scope mode opened.old.items rest.now at opened.new.items r.1.now (at + r.0)) }
    ensures passed { IfSome result (λ r. (passed : List ℕ) × (length passed ≡ r.0)
        × (rest.now ++ behind_all opened.old.items
        ≡ passed ++ (r.1.now ++ behind_all opened.new.items))) }
    ensures fewer { IfSome result
        (λ _. length opened.new.items + 1 ≡ length opened.old.items) }
    ensures fits { IfSome result
        (λ r. Fits mode opened.old.items rest.now → Fits mode opened.new.items r.1.now) }
    ensures goes_on { IfNone result (GoesOn mode opened.old.items rest.now) }
    ensures same { IfNone result (opened.new.items ≡ opened.old.items) }
{
    match opened.front() {
        Some(&Open::Definite(behind)) if rest.is_empty() => {
            let _closed = opened.pop_front();
            Some((0, behind))
        }
        Some(&Open::Indefinite) => {
            let Some(after) = end_at(mode, rest) else {
                return None;
            };
            let _closed = opened.pop_front();
            Some((rest.len() - after.len(), after))
        }
        _ => None,
    }
}
