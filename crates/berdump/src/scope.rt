//! Which values are listed, and how.
ghost use Rattle.std.specs.Prelude.{◌≡◌};
ghost use Rattle.berdump.specs.Scopes.{is_shown};

/// Which values are listed, and how much of them is shown.
#[derive(Clone, Copy, Debug)]
pub struct Scope {
    /// Whether the values whose encodings a string holds are inside it.
    pub inside: bool,

    /// The offset of the first octet that is listed.
    pub from: usize,

    /// The depth of the deepest values that have a line, or `None` if all have one.
    pub levels: Option<usize>,

    /// Whether all contents octets are shown where they are shown in hexadecimal.
    pub whole: bool,
}

/// Returns whether values at a depth have a line.
pub(crate) fn is_shown(scope: Scope, depth: usize) -> bool
    ensures { result ≡ is_shown scope depth }
{
    match scope.levels {
        Some(most) => depth <= most,
        None => true,
    }
}
