//! A buffer for the octets of a header, and for a few contents octets after them, so that they are
//! written at once.
ghost use Rattle.std.specs.Prelude.{◌≡◌, ◌+◌, ◌≤◌, ◌<◌, [], ◌++◌, length, Some};

use std::io;
use std::io::Write;

/// The first octets of a value: its header, which has at most nine, and up to 64 more.
#[derive(Clone, Copy)]
pub(crate) struct Buffer {
    octets: [u8; 73],
    len: usize,
    ghost within: { len ≤ 73 },
}

impl Buffer {
    ghost use Rattle.bcder.specs.steps.Buffer.{buffered};

    /// Returns an empty buffer.
    #[inline(always)]
    pub(crate) fn new() -> Buffer
        ensures none { buffered result ≡ [] }
        ensures len { result.len ≡ 0 }
    {
        Buffer {
            octets: [0; 73],
            len: 0,
        }
    }

    /// Appends octets.
    #[inline(always)]
    pub(crate) fn add(&mut self, octets: &[u8])
        requires { self.old.len + length octets.now ≤ 73 }
        ensures octets { buffered self.new ≡ buffered self.old ++ octets.now }
        ensures len { self.new.len ≡ self.old.len + length octets.now }
    {
        let start = self.len;
        let end = start + octets.len();
        self.octets[start..end].copy_from_slice(octets);
        self.len = end;
    }

    /// Returns all octets.
    #[inline(always)]
    pub(crate) fn as_slice(&self) -> &[u8]
        ensures { result.now ≡ buffered self.now }
    {
        &self.octets[..self.len]
    }
}

/// Appends what is written while there is room.
impl Write for Buffer {
    ghost use Rattle.bcder.specs.steps.Buffer.{buffered};

    ghost contents = { λ buffer. Some (buffered buffer) };

    fn write(&mut self, octets: &[u8]) -> io::Result<usize> {
        let count = octets.len().min(73 - self.len);
        self.add(&octets[..count]);
        Ok(count)
    }

    fn flush(&mut self) -> io::Result<()> {
        Ok(())
    }
}
