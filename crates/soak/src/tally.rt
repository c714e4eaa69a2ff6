//! Counts answers that were compared.

/// How many answers were compared, of how many values, and whether one differs.
#[derive(Clone, Copy, Default)]
pub struct Tally {
    pub values: u64,
    pub refused: u64,
    pub compared: u64,
    pub differ: u64,
}

impl Tally {
    /// Counts an answer, which is the wanted one or isn't.
    pub fn count(&mut self, same: bool) {
        self.compared = self.compared.saturating_add(1);
        if !same {
            self.differ = self.differ.saturating_add(1);
        }
    }
}
