//! Times as text (ISO 8601).
use crate::date_time::DateTime;
use crate::generalized_time::{GeneralizedTime, put_fraction};
use crate::octets::Octets;
use crate::utc_time::UtcTime;
use std::fmt;
use std::fmt::Write;

/// Writes `2026-11-29T10:23:49`, and `.5` behind it for half a second.
impl fmt::Display for DateTime {
    fn fmt<W: fmt::Write>(&self, f: &mut fmt::Formatter<W>) -> fmt::Result {
        let (year, month, day) = (self.year(), self.month(), self.day());
        write!(f, "{year:04}-{month:02}-{day:02}")?;
        let (hour, minute, second) = (self.hour(), self.minute(), self.second());
        write!(f, "T{hour:02}:{minute:02}:{second:02}")?;
        let mut fraction = Octets::new([0; 25], 0);
        put_fraction(&mut fraction, self.nanosecond());
        for octet in fraction.as_slice() {
            f.write_char(char::from(*octet))?;
        }
        Ok(())
    }
}

/// Writes what `Display` does.
impl fmt::Debug for DateTime {
    fn fmt<W: fmt::Write>(&self, f: &mut fmt::Formatter<W>) -> fmt::Result {
        fmt::Display::fmt(self, f)
    }
}

/// Writes `2026-11-29T10:23:49Z`.
impl fmt::Display for UtcTime {
    fn fmt<W: fmt::Write>(&self, f: &mut fmt::Formatter<W>) -> fmt::Result {
        let time = self.date_time();
        write!(f, "{time}Z")
    }
}

/// Writes what `Display` does.
impl fmt::Debug for UtcTime {
    fn fmt<W: fmt::Write>(&self, f: &mut fmt::Formatter<W>) -> fmt::Result {
        fmt::Display::fmt(self, f)
    }
}

/// Writes `2026-11-29T10:23:49.5Z`.
impl fmt::Display for GeneralizedTime {
    fn fmt<W: fmt::Write>(&self, f: &mut fmt::Formatter<W>) -> fmt::Result {
        let time = self.date_time();
        write!(f, "{time}Z")
    }
}

/// Writes what `Display` does.
impl fmt::Debug for GeneralizedTime {
    fn fmt<W: fmt::Write>(&self, f: &mut fmt::Formatter<W>) -> fmt::Result {
        fmt::Display::fmt(self, f)
    }
}
