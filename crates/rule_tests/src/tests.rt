//! What octets break, in rows.
ghost use Rattle.std.specs.Prelude.{◌<◌};

use crate::rows::ROWS;
use bcder::Mode;
use rules::{Breach, breaches};
use std::alloc::Global;
use std::fmt::Debug;
use std::process::Abort;

/// Returns the result of a call that must not be refused.
fn done<T, E: Debug>(rt: &impl Abort, outcome: Result<T, E>) -> T {
    outcome.expect(rt, "refused")
}

/// Returns the number that a hexadecimal digit is.
fn digit(octet: u8) -> u8
    ensures { result < 16 }
{
    match octet {
        b'0'..=b'9' => octet - b'0',
        b'A'..=b'F' => octet - b'A' + 10,
        _ => 0,
    }
}

/// Returns the octets that hexadecimal digits spell.
fn octets_of(rt: &impl Abort, alloc: Global, digits: &str) -> Vec<u8> {
    let mut octets = Vec::new(alloc);
    for pair in digits.as_bytes().chunks(2) {
        if let [high, low] = pair {
            done(rt, octets.push(digit(*high) * 16 + digit(*low)));
        }
    }
    octets
}

/// Returns how violations are written in a row.
fn shown(rt: &impl Abort, alloc: Global, mode: Mode, found: &[Breach]) -> String {
    let mut text = String::new(alloc);
    for breach in found {
        let at = breach.at;
        let rule = breach.rule;
        let clause = rule.clause(mode);
        if !text.is_empty() {
            done(rt, write!(text, "; "));
        }
        done(rt, write!(text, "{at} {rule:?} {clause}"));
    }
    text
}

/// Asserts that the octets of a row break what it says.
fn breaks(rt: &impl Abort, alloc: Global, mode: Mode, digits: &str, wanted: &str) {
    let octets = octets_of(rt, alloc, digits);
    let found = done(rt, breaches(alloc, mode, true, &octets));
    let text = shown(rt, alloc, mode, &found);
    assert_eq!(rt; text.as_str(), wanted, "{digits} in {mode:?}");
}

/// Returns the encoding rules that a row names.
fn mode_of(word: &str) -> Mode {
    match word {
        "ber" => Mode::Ber,
        "cer" => Mode::Cer,
        _ => Mode::Der,
    }
}

#[test]
fn octets_break_rules(rt: HostRuntime) {
    for row in ROWS.lines() {
        let (word, rest) = row.split_once(' ').expect(&rt, row);
        let (digits, wanted) = rest.split_once(':').expect(&rt, row);
        breaks(&rt, rt.alloc(), mode_of(word), digits, wanted.trim_start());
    }
}
