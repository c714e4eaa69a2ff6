//! Counts answers that were compared.

/// The result of comparing one kind of data.
pub trait Differing {
    /// Returns how many answers differ in all.
    fn differ(&self) -> u64;
}

/// How many answers were compared, and how many of them differ.
#[derive(Clone, Copy, Default)]
pub struct Tally {
    pub compared: u64,
    pub differ: u64,
}

impl Tally {
    /// Counts an answer, which is the wanted one or isn't.
    pub fn count(&mut self, same: bool) {
        self.compared = self.compared.saturating_add(1);
        if !same {
            self.differ = self.differ.saturating_add(1);
        }
    }

    /// Adds the counts of another tally.
    pub fn join(&mut self, other: Tally) {
        self.compared = self.compared.saturating_add(other.compared);
        self.differ = self.differ.saturating_add(other.differ);
    }
}

impl Differing for Tally {
    fn differ(&self) -> u64 {
        self.differ
    }
}

/// Returns how many answers differ in several tallies.
pub fn differ_in(tallies: &[Tally]) -> u64 {
    let mut all = Tally::default();
    for tally in tallies {
        all.join(*tally);
    }
    all.differ
}
