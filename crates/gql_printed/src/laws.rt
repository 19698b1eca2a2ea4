//! Laws of the text of a literal: contracts of functions that do nothing.
ghost use Rattle.gql_printed.specs.Laws as laws;

/// The text of a literal parses to the same value, and to no other. This holds of each literal
/// whose names are names, whose numbers are numbers and whose enum values are not `true`, `false`
/// or `null`, unless the text is longer than a text may be (GraphQL specification, 2.9).
pub fn written_is_parsed()
    ensures parsed { laws.WrittenIsParsed }
    ensures no_other { laws.OnlySameValue }
{}

/// Each literal that tokens of a text derive is one that a document can write.
pub fn found_is_written()
    ensures { laws.FoundIsWritten }
{}

/// The text of each literal that tokens of a text derive parses to the same value, unless it is
/// longer than a text may be.
pub fn found_is_parsed()
    ensures { laws.FoundIsParsed }
{}

/// The text of a literal opens no more levels at one time than the text in which the literal is
/// found. So it has at most 100 if that text has at most 100.
pub fn levels_are_kept()
    ensures { laws.LevelsAreKept }
{}
