//! Compares what types of `asn1` read and write with what openssl and pyasn1 say.
//!
//! First it reads certificates, lists of revoked ones and requests by the types of `pkix`,
//! and prints each field on a line. The output that is wanted was written by openssl. It writes
//! each of them, and cuts it before each octet. It does the same with other structures, of which it
//! prints no fields.
//!
//! Then it reads random values, which pyasn1 encoded in BER, CER and DER, and writes them in each
//! mode. Last it changes each octet of some values. What is taken then was written by another
//! reader of DER.
//!
//! The heads of the files of `data/` say what their columns mean. The scripts beside them made the
//! data and the output.
#![tactic(auto, using(bcder::specs::laws::Moved::untouched_is_moved))]

mod certificate;
mod compared;
mod document;
mod extension_values;
mod fields;
mod list;
mod named;
mod request;
mod shown;
mod structures;
mod turned;
mod types;
mod values;

use crate::document::{Report, compare_line};
use anyhow::Error;
use lines::replay::{print, replay};
use lines::tally::Tally;
use pkix::{Certificate, CertificateList, CertificationRequest};

/// Prints what was compared of documents.
fn print_report(rt: &HostRuntime, what: &str, report: &Report) -> Result<(), Error> {
    print!(rt; "{}", report.text)?;
    let written = format!(in rt.alloc(); "{what} written")?;
    print(rt, written.as_str(), report.written)?;
    let cut = format!(in rt.alloc(); "{what} cut")?;
    print(rt, cut.as_str(), report.cut)
}

/// Replays `certificates.tsv`, `lists.tsv` and `requests.tsv`.
fn replay_documents(rt: &HostRuntime) -> Result<(), Error> {
    let mut report = Report::new(rt.alloc());
    let compare = compare_line::<Certificate>;
    replay(rt, "certificates.tsv", &mut report, compare)?;
    print_report(rt, "certificates", &report)?;
    let mut report = Report::new(rt.alloc());
    let compare = compare_line::<CertificateList>;
    replay(rt, "lists.tsv", &mut report, compare)?;
    print_report(rt, "lists", &report)?;
    let mut report = Report::new(rt.alloc());
    let compare = compare_line::<CertificationRequest>;
    replay(rt, "requests.tsv", &mut report, compare)?;
    print_report(rt, "requests", &report)
}

/// Replays `structures.tsv`.
fn replay_structures(rt: &HostRuntime) -> Result<(), Error> {
    let mut tallies = structures::Tallies::default();
    replay(rt, "structures.tsv", &mut tallies, structures::compare_line)?;
    print(rt, "structures read or refused", tallies.read)?;
    print(rt, "structures written", tallies.written)?;
    print(rt, "structures cut", tallies.cut)
}

/// Replays `values.tsv` and `turned.tsv`.
fn replay_values(rt: &HostRuntime) -> Result<(), Error> {
    let mut tallies = values::Tallies::default();
    replay(rt, "values.tsv", &mut tallies, values::compare_line)?;
    print(rt, "values read", tallies.read)?;
    print(rt, "values written", tallies.written)?;
    let mut tallies = values::Tallies::default();
    replay(rt, "turned.tsv", &mut tallies, turned::compare_line)?;
    print(rt, "values cut and turned, read", tallies.read)?;
    print(rt, "values cut and turned, written", tallies.written)
}

fn main(rt: HostRuntime) -> Result<(), Error> {
    replay_documents(&rt)?;
    replay_structures(&rt)?;
    replay_values(&rt)
}
