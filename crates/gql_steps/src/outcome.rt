//! What the execution of an operation comes to.
ghost use Rattle.std.specs.Prelude.{◌≡◌};

use gql_stored::Effect;
use gql_text::Place;

/// A step of the path to a value of an answer: a response name, or the index of an item.
#[derive(Clone, Copy)]
pub enum Step<'d> {
    Key(&'d str),
    Index(usize),
}

/// An error of an answer (GraphQL specification, 7.1.2). The place is the start of the first node
/// of its field; a request error has that of its variable, and no path.
pub struct ResponseError<'d> {
    pub message: String,
    pub place: Place,
    pub path: Option<Vec<Step<'d>>>,
}

impl Drop for ResponseError<'_> {
    fn drop(self) {
        let ResponseError {
            message: _,
            place: _,
            path: _,
        } = self;
    }
}

/// What the execution of an operation comes to: the text of its data, which a request error does
/// not have, the errors in their order, and what is to be added to the stored data, in order. Only
/// a mutation adds something.
pub struct Outcome<'d> {
    pub data: Option<Vec<u8>>,
    pub errors: Vec<ResponseError<'d>>,
    pub effects: Vec<Effect>,
}

impl Drop for Outcome<'_> {
    fn drop(self) {
        let Outcome {
            data: _,
            errors: _,
            effects: _,
        } = self;
    }
}

impl Outcome<'_> {
    /// What is to be added to the stored data, in order.
    pub fn into_effects(self) -> Vec<Effect>
        ensures { result ≡ self.entry.effects }
    {
        let Outcome {
            data: _,
            errors: _,
            effects,
        } = self;
        effects
    }
}
