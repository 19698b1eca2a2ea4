//! The law of texts and doubles. The function does nothing; its contract holds.
ghost use Rattle.gql_numbers.specs.Laws as laws;

/// Where a text with 17 digits or fewer is read as a double, the text that is written for it is read
/// as it, too, and has no more digits.
pub fn fewest_digits()
    ensures { laws.FewestAreRead }
{}
