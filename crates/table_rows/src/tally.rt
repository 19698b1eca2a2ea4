//! What was compared so far.
ghost use Rattle.std.specs.Prelude.{◌≡◌, ◌≢◌, ◌<◌, ◌↔◌, [], true, IsTrue, OnOk, string_bytes};

use std::alloc::{AllocError, Global};

/// What was compared so far.
#[derive(Drop)]
pub struct Tally {
    alloc: Global,
    /// How many answers were compared.
    pub answers: u64,
    /// The answers that are not as expected, and the lines that no table has, for a reader.
    pub differences: String,
}

impl Tally {
    /// Nothing was compared.
    pub fn new(alloc: Global) -> Tally
        ensures answers { result.answers ≡ 0 }
        ensures differences { string_bytes result.differences ≡ [] }
    {
        Tally {
            alloc,
            answers: 0,
            differences: String::new(alloc),
        }
    }

    /// Whether there were answers, and all are as expected.
    pub fn is_as_expected(&self) -> bool
        ensures { IsTrue result
            ↔ (0 < self.now.answers) × (string_bytes self.now.differences ≡ []) }
    {
        self.answers > 0 && self.differences.is_empty()
    }

    /// Adds a difference at a place.
    pub fn differ(&mut self, place: &str, difference: &str) -> Result<(), AllocError>
        ensures answers { self.new.answers ≡ self.old.answers }
        ensures differences { OnOk result (string_bytes self.new.differences ≢ []) }
    {
        self.differences.push_str(place)?;
        self.differences.push_str(": ")?;
        self.differences.push_str(difference)?;
        self.differences.push_str("\n")
    }

    /// Compares the answer to the question at a place with what is expected.
    pub fn compare(
        &mut self,
        place: &str,
        question: &str,
        expected: &str,
        answer: &str,
    ) -> Result<(), AllocError>
        ensures counted { OnOk result (0 < self.new.answers) }
        ensures same { OnOk result (answer.now ≡ expected.now
            → self.new.differences ≡ self.old.differences) }
        ensures different { OnOk result (answer.now ≢ expected.now
            → string_bytes self.new.differences ≢ []) }
    {
        self.answers = self.answers.saturating_add(1);
        if answer == expected {
            return Ok(());
        }
        let difference = format!(in self.alloc;
            "{question}\n  expected: {expected}\n  answered: {answer}"
        )?;
        self.differ(place, difference.as_str())
    }
}
