//! The line for a violation.
use bcder::Mode;
use cli::tell::Place;
use rules::Breach;
use std::fmt;

/// How many octets a line shows.
const SHOWN: usize = 6;

/// A line that tells a violation: where it is, which rule is broken, what stands there, and what
/// the rule wants.
#[derive(Clone, Copy)]
pub(crate) struct Line<'a> {
    pub(crate) place: Place<'a>,
    pub(crate) mode: Mode,
    pub(crate) octets: &'a [u8],
    pub(crate) breach: Breach,
}

/// Octets in hexadecimal, the first `SHOWN` of them.
#[derive(Clone, Copy)]
struct Here<'a>(&'a [u8]);

impl fmt::Display for Here<'_> {
    fn fmt<W: fmt::Write>(&self, f: &mut fmt::Formatter<W>) -> fmt::Result {
        if self.0.is_empty() {
            return write!(f, "nothing");
        }
        for (place, octet) in self.0.iter().take(SHOWN).enumerate() {
            let number = *octet;
            if place > 0 {
                write!(f, " ")?;
            }
            write!(f, "{number:02X}")?;
        }
        if self.0.len() > SHOWN {
            write!(f, " ..")?;
        }
        Ok(())
    }
}

impl fmt::Display for Line<'_> {
    fn fmt<W: fmt::Write>(&self, f: &mut fmt::Formatter<W>) -> fmt::Result {
        let at = self.breach.at;
        let rule = self.breach.rule;
        let here = self.octets.split_at(at.min(self.octets.len())).1;
        write!(
            f,
            "{}octet {at}: {} (X.690, {}): found {}, expected {}",
            self.place,
            rule.title(),
            rule.clause(self.mode),
            Here(here),
            rule.wanted()
        )
    }
}
