//! Laws of tokens and faults: contracts of functions that do nothing.
ghost use Rattle.std.specs.Prelude.{◌↔◌, ◌≡◌, ◌≢◌, ◌<◌, ◌≤◌, ℕ, List, All, length, take, Some};
ghost use Rattle.gql_text.specs.Grammar.{IsName, IsInteger, IsFloat, mark_text};
ghost use Rattle.gql_text.specs.Ignored.{IsIgnored};
ghost use Rattle.gql_text.specs.Lexeme.{Lexeme};
ghost use Rattle.gql_text.specs.Lexis.{Stands, IsLexed, LexFails};
ghost use Rattle.gql_text.specs.Laws.{HasReading, IsSliceOf, IsToken};
ghost use Rattle.gql_text.specs.Strings.{IsBlockString, IsString};
ghost use Rattle.gql_text.specs.Values.{between, string_value, block_value, text_value};
ghost use Rattle.gql_text.specs.declared.place.Place.{Place};
ghost use Rattle.gql_text.specs.declared.token.Kind.{Kind};
ghost use Rattle.gql_text.specs.declared.token.Kind.TheVariants.{EndOfText, Name, IntValue, FloatValue, StringValue, BlockString};
ghost use Rattle.gql_text.specs.declared.token.LexRefusal.{LexRefusal};
ghost use Rattle.gql_text.specs.declared.front.Part.TheVariants.{Dropped, Taken};

/// A text has tokens or a fault, never both, and no two token lists or two faults, whatever the
/// limit.
pub fn one_reading()
    ensures some { (limit : ℕ) (source : List ℕ) → HasReading limit source }
    ensures one_list { (limit : ℕ) (source : List ℕ) (tokens others : List Lexeme)
        → IsLexed limit source tokens → IsLexed limit source others → tokens ≡ others }
    ensures one_fault { (limit : ℕ) (source : List ℕ) (refusal other : LexRefusal)
        (place elsewhere : Place)
        → LexFails limit source refusal place → LexFails limit source other elsewhere
        → (refusal ≡ other) × (place ≡ elsewhere) }
    ensures not_both { (limit : ℕ) (source : List ℕ) (tokens : List Lexeme) (refusal : LexRefusal)
        (place : Place)
        → IsLexed limit source tokens → LexFails limit source refusal place → ⊥ }
{}

/// Each token's text is the part of the source at its place, and no token has the kind of the
/// text's end.
pub fn tokens_of_a_text()
    ensures slices { (limit : ℕ) (source : List ℕ) (tokens : List Lexeme)
        → IsLexed limit source tokens → All (IsSliceOf source) tokens }
    ensures kinds { (limit : ℕ) (source : List ℕ) (tokens : List Lexeme)
        → IsLexed limit source tokens → All (λ token. token.kind ≢ EndOfText) tokens }
{}

/// A token is as long as it can be: its text alone is that token, and no longer start of the text
/// is a token.
pub fn longest_match()
    ensures alone { (rest : List ℕ) (kind : Kind) (n : ℕ)
        → Stands rest (Taken kind n) → IsToken kind (take n rest) }
    ensures no_longer { (rest : List ℕ) (kind other : Kind) (n m : ℕ)
        → Stands rest (Taken kind n) → n < m → m ≤ length rest → IsToken other (take m rest) → ⊥ }
{}

/// Punctuators, names and numbers are those of the grammar (2.1.8, 2.1.9, 2.9.1, 2.9.2).
pub fn grammar_of_tokens()
    ensures punctuators { (kind : Kind) (marks text : List ℕ)
        → mark_text kind ≡ Some marks → (IsToken kind text ↔ (text ≡ marks)) }
    ensures names { (text : List ℕ) → IsToken Name text ↔ IsName text }
    ensures integers { (text : List ℕ) → IsToken IntValue text ↔ IsInteger text }
    ensures floats { (text : List ℕ) → IsToken FloatValue text ↔ IsFloat text }
{}

/// What is dropped between tokens is what the grammar ignores (2.1.7).
pub fn ignored_of_the_grammar()
    ensures { (text : List ℕ) → Stands text (Dropped (length text)) ↔ IsIgnored text }
{}

/// Strings are those of the grammar, each with its value (2.9.4).
pub fn strings_of_the_grammar()
    ensures strings { (text value : List ℕ)
        → ((IsToken StringValue text) × (text_value text ≡ value)) ↔ IsString text value }
    ensures block_strings { (text value : List ℕ)
        → ((IsToken BlockString text) × (text_value text ≡ value)) ↔ IsBlockString text value }
{}

/// The value of a string token, and of a block string token, is that of the text between its
/// quotes. Any other token is its own value (2.9.4).
pub fn values_of_tokens()
    ensures strings { (text : List ℕ)
        → IsToken StringValue text → text_value text ≡ string_value (between 1 text) }
    ensures blocks { (text : List ℕ)
        → IsToken BlockString text → text_value text ≡ block_value (between 3 text) }
    ensures others { (text : List ℕ) (kind : Kind)
        → kind ≢ StringValue → kind ≢ BlockString → IsToken kind text → text_value text ≡ text }
{}
