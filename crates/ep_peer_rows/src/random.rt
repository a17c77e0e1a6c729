//! Lines that a seed gives.

use ep_units::NoMemory;
use std::alloc::Global;

/// Texts to insert, each as a line spells it and as it is. Each of their characters is one unit.
const TEXTS: [(&str, &str); 7] = [
    ("a", "a"),
    ("bc", "bc"),
    ("def", "def"),
    ("é", "é"),
    ("\\n", "\n"),
    ("g h", "g h"),
    ("ij\\nkl", "ij\nkl"),
];

/// How many units a line deletes or formats at most.
const MOST: usize = 9;

/// A script of edits of an empty pad, each of which fits and leaves the newline at the end.
pub struct Lines {
    pub script: String,
    /// How many of its lines alter something.
    pub altering: u64,
    /// What the text is behind it.
    text: Vec<char>,
}

impl Drop for Lines {
    fn drop(self) {
        let Lines {
            script: _,
            altering: _,
            text: _,
        } = self;
    }
}

/// Numbers that a seed gives.
#[derive(Drop)]
struct Numbers {
    state: u64,
}

impl Numbers {
    /// The next of them, below a limit; 0 where that is 0.
    fn below(&mut self, limit: usize) -> usize {
        self.state = self
            .state
            .wrapping_mul(6_364_136_223_846_793_005)
            .wrapping_add(1_442_695_040_888_963_407);
        let high = usize::try_from(self.state >> 32).unwrap_or(0);
        high.checked_rem(limit).unwrap_or(0)
    }
}

/// A text with another in place of so many of its characters from a place on.
fn replaced(
    alloc: Global,
    old: &[char],
    at: usize,
    count: usize,
    text: &str,
) -> Result<Vec<char>, NoMemory> {
    let front = old.iter().copied().take(at);
    let rest = old.iter().copied().skip(at.saturating_add(count));
    Ok(front.chain(text.chars()).chain(rest).collect(alloc)?)
}

impl Lines {
    fn push(&mut self, line: &str, alters: bool) -> Result<(), NoMemory> {
        self.script.push_str(line)?;
        self.script.push_str("\n")?;
        self.altering = self.altering.saturating_add(u64::from(alters));
        Ok(())
    }

    // A place before the last newline, and how many units from there on are altered, perhaps none.
    fn stretch(&self, numbers: &mut Numbers) -> (usize, usize) {
        let at = numbers.below(self.text.len());
        let most = self.text.len().saturating_sub(1).saturating_sub(at);
        (at, numbers.below(most.min(MOST).saturating_add(1)))
    }

    fn insert(&mut self, alloc: Global, numbers: &mut Numbers) -> Result<(), NoMemory> {
        let at = numbers.below(self.text.len());
        if let Some((spelled, text)) = TEXTS.get(numbers.below(TEXTS.len())) {
            self.text = replaced(alloc, &self.text, at, 0, text)?;
            let line = format!(in alloc; "insert {at} {spelled}")?;
            self.push(&line, true)?;
        }
        Ok(())
    }

    fn delete(&mut self, alloc: Global, numbers: &mut Numbers) -> Result<(), NoMemory> {
        let (at, units) = self.stretch(numbers);
        self.text = replaced(alloc, &self.text, at, units, "")?;
        let line = format!(in alloc; "delete {at} {units}")?;
        self.push(&line, units > 0)
    }

    fn format(&mut self, alloc: Global, numbers: &mut Numbers) -> Result<(), NoMemory> {
        let (at, units) = self.stretch(numbers);
        let value = if numbers.below(2) == 0 { "true" } else { "" };
        let line = format!(in alloc; "format {at} {units} bold {value}")?;
        self.push(&line, units > 0)
    }

    /// What the text is behind all lines.
    pub fn text(&self, alloc: Global) -> Result<String, NoMemory> {
        Ok(self.text.iter().copied().collect(alloc)?)
    }
}

/// So many lines that a seed gives: of ten about six insert, two delete and two format.
pub fn drawn(alloc: Global, seed: u64, count: u64) -> Result<Lines, NoMemory> {
    let mut numbers = Numbers { state: seed };
    let text = Vec::from_slice(alloc, &['\n'])?;
    let mut lines = Lines {
        script: String::new(alloc),
        altering: 0,
        text,
    };
    for _ in 0..count {
        match numbers.below(10) {
            0..=5 => lines.insert(alloc, &mut numbers)?,
            6..=7 => lines.delete(alloc, &mut numbers)?,
            _ => lines.format(alloc, &mut numbers)?,
        }
    }
    Ok(lines)
}
