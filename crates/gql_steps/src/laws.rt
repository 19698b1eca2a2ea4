//! The law of the text of data. The function does nothing; its contract holds.
ghost use Rattle.gql_steps.specs.Laws as laws;

/// Data without doubles has the text that `serde_json` writes.
pub fn text_of_integers()
    ensures { laws.TextOfIntegers }
{}
