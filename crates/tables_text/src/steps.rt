//! Answers to a question that has several steps.

use std::alloc::Global;
use table_rows::join;

/// What is asked step after step.
pub trait Stepped {
    /// What a step answers; `None` if there is no such step.
    fn step(&mut self, alloc: Global, step: &str) -> Option<String>;
}

/// The answers to steps that commas separate.
pub fn steps_answer<S: Stepped>(alloc: Global, stepped: &mut S, steps: &str) -> Option<String> {
    let mut answers = String::new(alloc);
    for step in steps.split(", ") {
        let answer = stepped.step(alloc, step)?;
        join(&mut answers, ", ", answer.as_str()).ok()?;
    }
    Some(answers)
}

/// A step as its word and the text after it.
pub fn parts_of(step: &str) -> (&str, &str) {
    step.split_once(" ").unwrap_or((step, ""))
}

/// An answer of a step.
pub fn yes_or_no(alloc: Global, holds: bool) -> Option<String> {
    String::from_str(alloc, if holds { "yes" } else { "no" }).ok()
}
