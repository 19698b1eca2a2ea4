//! The lines of a table that a run is about.
use std::alloc::Global;

/// A file of a table, and the lines of the questions that are asked; all if there are none.
#[derive(Drop)]
pub struct Lines<'a> {
    pub path: &'a str,
    pub numbers: Vec<u64>,
}

fn numbers_in(alloc: Global, text: &str) -> Option<Vec<u64>> {
    let mut numbers = Vec::new(alloc);
    for number in text.split(",") {
        numbers.push(number.parse::<u64>().ok()?).ok()?;
    }
    Some(numbers)
}

/// What a word says: `FILE`, or `FILE:LINE,LINE..`.
pub fn lines_in(alloc: Global, word: &str) -> Lines<'_> {
    if let Some((path, numbers)) = word.rsplit_once(":") {
        if let Some(numbers) = numbers_in(alloc, numbers) {
            return Lines { path, numbers };
        }
    }
    Lines {
        path: word,
        numbers: Vec::new(alloc),
    }
}

impl Lines<'_> {
    /// Whether the question at a line is asked.
    pub fn has(&self, line: u64) -> bool {
        self.numbers.is_empty() || self.numbers.contains(&line)
    }
}
