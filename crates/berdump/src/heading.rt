//! Formats what a line shows of a value.
ghost use Rattle.std.specs.Prelude.{Some};

use bcder::Tag;
use std::fmt;

/// What was read of a value's header: the tag, the form, the depth, where the header is, and the
/// lengths of the header and of the contents.
#[derive(Clone, Copy, Debug)]
pub struct Heading {
    /// The tag of the value.
    pub tag: Tag,

    /// Whether the encoding is constructed.
    pub constructed: bool,

    /// The number of values around it.
    pub depth: usize,

    /// The number of octets before its header.
    pub offset: usize,

    /// The number of its identifier octets and length octets.
    pub header: usize,

    /// The number of its contents octets, or `None` if end-of-contents octets end them.
    pub len: Option<usize>,
}

/// Writes the offset, the depth, the two lengths, the form and the tag, aligned as `openssl
/// asn1parse -i` does. The tag is indented by the depth, up to 64 columns.
impl fmt::Display for Heading {
    ghost use Rattle.std.specs.Prelude.{Some};
    ghost use Rattle.berdump.specs.Lines.{heading_text};

    ghost output = { λ h. Some (heading_text h) };

    fn fmt<W: fmt::Write>(&self, f: &mut fmt::Formatter<W>) -> fmt::Result {
        write!(f, "{} {}", Place(*self), Name(*self))
    }
}

/// The offset, the depth and the length of the header.
#[derive(Clone, Copy)]
struct Place(Heading);

impl fmt::Display for Place {
    ghost use Rattle.std.specs.Prelude.{Some};
    ghost use Rattle.berdump.specs.Lines.{place_text};

    ghost output = { λ p. Some (place_text p.0) };

    fn fmt<W: fmt::Write>(&self, f: &mut fmt::Formatter<W>) -> fmt::Result {
        let heading = self.0;
        write!(
            f,
            "{}:d={} hl={}",
            Right(heading.offset),
            Left(heading.depth),
            heading.header
        )
    }
}

/// The number of contents octets, the form and the tag.
#[derive(Clone, Copy)]
struct Name(Heading);

impl fmt::Display for Name {
    ghost use Rattle.std.specs.Prelude.{Some};
    ghost use Rattle.berdump.specs.Lines.{name_text};

    ghost output = { λ n. Some (name_text n.0) };

    fn fmt<W: fmt::Write>(&self, f: &mut fmt::Formatter<W>) -> fmt::Result {
        let heading = self.0;
        let form = if heading.constructed { "cons" } else { "prim" };
        let indent = Indent(heading.depth.min(64));
        write!(
            f,
            "l={} {form}: {indent}{}",
            Length(heading.len),
            heading.tag
        )
    }
}

/// A number, aligned to the right in five columns.
#[derive(Clone, Copy)]
struct Right(usize);

impl fmt::Display for Right {
    ghost use Rattle.std.specs.Prelude.{Some};
    ghost use Rattle.berdump.specs.Lines.{right};

    ghost output = { λ r. Some (right 5 r.0) };

    fn fmt<W: fmt::Write>(&self, f: &mut fmt::Formatter<W>) -> fmt::Result {
        let number = self.0;
        write!(f, "{number:5}")
    }
}

/// A number, aligned to the left in two columns.
#[derive(Clone, Copy)]
struct Left(usize);

impl fmt::Display for Left {
    ghost use Rattle.std.specs.Prelude.{Some};
    ghost use Rattle.berdump.specs.Lines.{left};

    ghost output = { λ l. Some (left 2 l.0) };

    fn fmt<W: fmt::Write>(&self, f: &mut fmt::Formatter<W>) -> fmt::Result {
        let number = self.0;
        write!(f, "{number:<2}")
    }
}

/// A number of contents octets, or `inf`.
#[derive(Clone, Copy)]
struct Length(Option<usize>);

impl fmt::Display for Length {
    ghost use Rattle.std.specs.Prelude.{Some};
    ghost use Rattle.berdump.specs.Lines.{length_text};

    ghost output = { λ l. Some (length_text l.0) };

    fn fmt<W: fmt::Write>(&self, f: &mut fmt::Formatter<W>) -> fmt::Result {
        match self.0 {
            Some(len) => write!(f, "{len:4}"),
            None => write!(f, "inf "),
        }
    }
}

/// This number of spaces.
#[derive(Clone, Copy)]
struct Indent(usize);

impl fmt::Display for Indent {
    ghost use Rattle.std.specs.Prelude.{Some};
    ghost use Rattle.berdump.specs.Lines.{spaces};

    ghost output = { λ i. Some (spaces i.0) };

    fn fmt<W: fmt::Write>(&self, f: &mut fmt::Formatter<W>) -> fmt::Result {
        let width = self.0;
        write!(f, "{:width$}", "")
    }
}
