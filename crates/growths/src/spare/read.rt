//! Calls on content that read.
use anyhow::Error;
use bcder::decode::{DecodeError, SliceSource};
use std::alloc::Global;
use support::calls::{
    Answer, CAPTURES, CONTENTS, Call, KEPT, Kept, Line, OCTETS, PASSES, Pass, Reader, STRINGS,
    TAKES, TYPED, Text, ask,
};

/// How calls ended: as they should, out of memory, or otherwise.
#[derive(Clone, Copy)]
pub struct Tally {
    name: &'static str,
    answered: usize,
    memory: usize,
    wrong: usize,
}

impl Tally {
    fn new(name: &'static str) -> Tally {
        Tally {
            name,
            answered: 0,
            memory: 0,
            wrong: 0,
        }
    }

    /// Counts a call that ended in this way.
    fn count<E: Drop>(&mut self, found: Result<Answer, DecodeError<E>>, wanted: Answer) {
        let right = match found {
            Ok(found) => found == wanted,
            Err(error) if error.is_memory() => {
                self.memory = self.memory.saturating_add(1);
                return;
            }
            Err(_) => matches!(wanted, Answer::Lacking | Answer::Refused),
        };
        if right {
            self.answered = self.answered.saturating_add(1);
        } else {
            self.wrong = self.wrong.saturating_add(1);
        }
    }

    pub fn tell(&self, rt: &HostRuntime) -> Result<(), Error> {
        println!(rt;
            "{}: {} answered, {} out of memory, {} wrong",
            self.name, self.answered, self.memory, self.wrong
        )?;
        Ok(())
    }
}

/// Returns whether a call that takes a value allocates for its octets, which are borrowed.
fn keeps(call: Call) -> bool {
    match call {
        Call::Capture(_) => true,
        Call::Pass(pass) => matches!(pass, Pass::CaptureOpt),
        Call::Read(reader) => matches!(
            reader,
            Reader::TakeAll | Reader::Integer | Reader::UnsignedInteger | Reader::Identifier
        ),
        Call::Kept(kept) => matches!(
            kept,
            Kept::Integer | Kept::Unsigned | Kept::Identifier | Kept::OptIdentifier
        ),
        Call::Text(text) => !matches!(text, Text::SkipBits | Text::SkipBitsOfContent),
        _ => false,
    }
}

/// Returns whether a call ends without a value that it would keep.
fn keeps_nothing(wanted: Answer) -> bool {
    matches!(wanted, Answer::Absent | Answer::Lacking)
}

/// Returns whether values are nested more than four levels deep.
fn is_deep(octets: &[u8]) -> bool {
    octets.starts_with(&[0x30, 0x0A])
}

/// Counts the calls of some lines that don't allocate.
fn count_lines(alloc: Global, name: &'static str, lines: &[Line]) -> Tally {
    let mut tally = Tally::new(name);
    for (mode, octets, calls, wanted, _) in lines {
        for call in *calls {
            if is_deep(*octets) || keeps(*call) && !keeps_nothing(*wanted) {
                continue;
            }
            let mut source = SliceSource::new(*octets);
            let found = mode.decode_lent(&mut source, |cons| ask(cons, alloc, *call));
            tally.count(found, *wanted);
        }
    }
    tally
}

/// Returns the counts of the calls that don't allocate.
pub fn tallies(alloc: Global) -> [Tally; 7] {
    [
        count_lines(alloc, "takes by a closure", &TAKES),
        count_lines(alloc, "booleans, nulls and integers", &TYPED),
        count_lines(alloc, "values that are passed over", &PASSES),
        count_lines(alloc, "octets of a primitive value", &OCTETS),
        count_lines(alloc, "content of either form", &CONTENTS),
        count_lines(alloc, "integers and identifiers", &KEPT),
        count_lines(alloc, "strings", &STRINGS),
    ]
}

/// Counts the calls of some lines that keep octets, if there are any octets.
fn control_lines(alloc: Global, lines: &[Line], tally: &mut Tally) {
    for (mode, octets, calls, wanted, _) in lines {
        for call in *calls {
            if keeps(*call) && matches!(wanted, Answer::Number(1..)) {
                let mut source = SliceSource::new(*octets);
                let found = mode.decode_lent(&mut source, |cons| ask(cons, alloc, *call));
                tally.count(found, *wanted);
            }
        }
    }
}

/// Returns the counts of calls that allocate.
pub fn control(alloc: Global) -> Tally {
    let mut tally = Tally::new("control");
    control_lines(alloc, &CAPTURES, &mut tally);
    control_lines(alloc, &OCTETS, &mut tally);
    control_lines(alloc, &KEPT, &mut tally);
    control_lines(alloc, &STRINGS, &mut tally);
    tally
}
