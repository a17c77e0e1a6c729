//! What is asked for.

/// So many sessions of one pad, of which the first so many type so many edits each.
#[derive(Clone, Copy, Debug)]
pub struct Plan {
    pub sessions: u64,
    pub typists: u64,
    pub edits: u64,
}

impl Plan {
    /// What a word asks for, where it asks for anything.
    pub fn of(work: &str, sessions: u64, edits: u64) -> Option<Plan> {
        let typists = match work {
            "typed" => sessions,
            "heard" => 1,
            _ => return None,
        };
        Some(Plan {
            sessions,
            typists,
            edits,
        })
    }

    /// The revision with all edits.
    pub fn last(&self) -> u64 {
        self.typists.saturating_mul(self.edits)
    }

    /// How many edits the session of a number types.
    pub fn edits_of(&self, number: u64) -> u64 {
        if number < self.typists { self.edits } else { 0 }
    }
}
