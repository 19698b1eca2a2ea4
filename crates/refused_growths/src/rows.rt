//! The lines of a file of steps.
use crate::each_growth::Case;
use crate::feeding::{Feeding, request_of};
use crate::step::Step;
use crate::tally::Tally;
use std::alloc::Global;

/// What the lines so far say.
#[derive(Drop)]
pub struct Rows {
    alloc: Global,
    /// The operations whose runs are compared.
    operations: Vec<String>,
    /// The steps on a registry.
    steps: Vec<Step>,
    /// The requests to a service.
    requests: Vec<String>,
    pub tally: Tally,
}

impl Rows {
    pub fn new(alloc: Global) -> Rows {
        Rows {
            alloc,
            operations: Vec::new(alloc),
            steps: Vec::new(alloc),
            requests: Vec::new(alloc),
            tally: Tally::new(alloc),
        }
    }

    /// Begins anew, with these operations.
    fn begin(&mut self, names: &str) -> Option<()> {
        self.steps = Vec::new(self.alloc);
        self.requests = Vec::new(self.alloc);
        self.operations = Vec::new(self.alloc);
        for name in names.split(" ") {
            self.operations
                .push(String::from_str(self.alloc, name).ok()?)
                .ok()?;
        }
        Some(())
    }

    /// Adds a step, and refuses each of its growths in turn.
    fn add_step(&mut self, line: &str) -> Option<()> {
        let (text, expected) = line.split_once(" => ")?;
        self.steps.push(Step::read(self.alloc, text)?).ok()?;
        let case = Case {
            alloc: self.alloc,
            steps: self.steps.as_slice(),
            operations: self.operations.as_slice(),
        };
        case.each_growth_refused(line, expected, &mut self.tally)
    }

    /// Feeds the last requests in one piece, and refuses each growth in turn.
    fn feed(&mut self, line: &str, count: &str) -> Option<()> {
        let count = count.parse::<usize>().ok()?;
        let first = self.requests.len().checked_sub(count)?;
        let requests = self.requests.as_slice();
        let feeding = Feeding {
            alloc: self.alloc,
            before: requests.get(..first)?,
            piece: requests.get(first..)?,
            operations: self.operations.as_slice(),
        };
        feeding.each_growth_refused(line, &mut self.tally)
    }

    /// What a line says: `begin NAMES`, a step with ` => ` and what it gives, `request METHOD TARGET
    /// BODY`, or `feed COUNT`. `None` if it is not well written.
    fn read(&mut self, line: &str) -> Option<()> {
        if line.is_empty() || line.starts_with("#") {
            return Some(());
        }
        let (word, rest) = line.split_once(" ")?;
        match word {
            "begin" => self.begin(rest),
            "request" => self.requests.push(request_of(self.alloc, rest)?).ok(),
            "feed" => self.feed(line, rest),
            _ => self.add_step(line),
        }
    }

    /// Reads a line. One that is not well written is a difference.
    pub fn add(&mut self, line: &str) -> Option<()> {
        match self.read(line) {
            Some(()) => Some(()),
            None => self
                .tally
                .differ(line, 0, "this is no line of a file of steps")
                .ok(),
        }
    }
}
