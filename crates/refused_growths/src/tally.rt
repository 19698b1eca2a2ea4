//! What was found.
use std::alloc::{AllocError, Global};

/// What was found.
#[derive(Drop)]
pub struct Tally {
    alloc: Global,
    /// How many growths were refused.
    pub growths: u64,
    /// How many differences there are, and each as a line.
    pub differences: u64,
    pub lines: String,
}

impl Tally {
    /// Nothing was tried.
    pub fn new(alloc: Global) -> Tally {
        Tally {
            alloc,
            growths: 0,
            differences: 0,
            lines: String::new(alloc),
        }
    }

    /// Adds a growth that was refused.
    pub fn add_growth(&mut self) {
        self.growths = self.growths.saturating_add(1);
    }

    /// Adds a difference.
    pub fn differ(&mut self, line: &str, growth: u16, what: &str) -> Result<(), AllocError> {
        self.differences = self.differences.saturating_add(1);
        let difference = format!(in self.alloc; "{line}\n  growth {growth}: {what}\n")?;
        self.lines.push_str(difference.as_str())
    }
}
