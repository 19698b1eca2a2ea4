//! What a row has, and what answers its questions.
use std::alloc::{AllocError, Global};

/// A text with a name: of a line `NAME| TEXT`, of a whole file, or `s` if none is given. A request
/// of a line `> REQUEST` has the name `>`.
#[derive(Drop)]
pub struct NamedText {
    pub name: String,
    pub text: String,
}

/// What the lines of a row say before a question.
#[derive(Drop)]
pub struct Given {
    /// The texts, in their order.
    pub texts: Vec<NamedText>,
    /// The document that the next question is about, from lines `d| TEXT`.
    pub document: String,
    /// The answers that are expected of requests, each on a line.
    pub answers: String,
}

/// What answers the questions of a row.
pub trait Row: Drop {
    /// What answers the questions of a new row.
    fn new(alloc: Global) -> Self;

    /// The answer to a question about what the lines of the row say.
    fn answer(
        &mut self,
        rt: &HostRuntime,
        given: &Given,
        question: &str,
    ) -> Result<String, AllocError>;
}
