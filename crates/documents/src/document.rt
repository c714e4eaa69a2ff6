//! Documents: what is read of them, as text, and what is written.
use crate::values::{is_written, read};
use anyhow::Error;
use asn1::{Decode, Encode};
use bcder::Mode;
use bcder::decode::BytesSource;
use lines::fields::{next, octets_of};
use lines::tally::{Differing, Tally, differ_in};
use std::alloc::Global;

/// A document that is shown by its fields.
pub trait Document: Decode<BytesSource> + Encode {
    /// Adds each field, on a line.
    fn add_fields(&self, alloc: Global, text: &mut String) -> Result<(), Error>;
}

/// What was read and compared.
#[derive(Drop)]
pub struct Report {
    /// The fields of the documents, each on a line.
    pub text: String,

    /// Documents that were written.
    pub written: Tally,

    /// Documents that were cut.
    pub cut: Tally,
}

impl Report {
    /// Nothing yet.
    pub fn new(alloc: Global) -> Report {
        Report {
            text: String::new(alloc),
            written: Tally::default(),
            cut: Tally::default(),
        }
    }
}

impl Differing for Report {
    fn differ(&self) -> u64 {
        differ_in(&[self.written, self.cut])
    }
}

/// Reads, writes and cuts the document of a line.
pub fn compare_line<D: Document>(
    alloc: Global,
    line: &str,
    report: &mut Report,
) -> Result<(), Error> {
    let mut fields = line.split('\t');
    let name = next(&mut fields)?;
    let all = octets_of(alloc, next(&mut fields)?)?;
    let octets = all.as_slice();
    report
        .text
        .push_str(format!(in alloc; "{name}\n")?.as_str())?;
    match read::<D>(alloc, Mode::Der, octets)? {
        Some(document) => {
            document.add_fields(alloc, &mut report.text)?;
            report
                .written
                .count(is_written(alloc, Mode::Der, &document, octets));
        }
        None => report.written.count(false),
    }
    for end in 0..octets.len() {
        let cut = read::<D>(alloc, Mode::Der, &octets[..end])?;
        report.cut.count(cut.is_none());
    }
    Ok(())
}
