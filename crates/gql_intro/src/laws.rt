//! The law of introspection. The function does nothing; its contract holds.
ghost use Rattle.gql_intro.specs.Laws as laws;

/// For schema files that have what introspection needs, a field of a node of the schema resolves to
/// an answer of the field's type, whose nodes are again nodes of the schema.
pub fn answers_have_their_types()
    ensures { laws.AnswersHaveTheirTypes }
{}
