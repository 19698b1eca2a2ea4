//! Laws of faults: contracts of functions that do nothing.
ghost use Rattle.std.specs.Prelude.{◌≡◌};
ghost use Rattle.gql_text.specs.Numbers.{number_of as lexer_number};
ghost use Rattle.gql_text.specs.declared.token.LexRefusal.{LexRefusal};
ghost use Rattle.gql_grammar.specs.Files.{number_of, refusal_of};

/// A refusal of the lexer has the same number here as in `gql_text`.
pub fn one_numbering()
    ensures { (refusal : LexRefusal) → number_of (refusal_of refusal) ≡ lexer_number refusal }
{}
