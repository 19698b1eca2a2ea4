//! Laws of the grammar's recursive symbols: contracts of functions that do nothing.
ghost use Rattle.std.specs.Prelude.{◌↔◌, Bool, List};
ghost use Rattle.gql_text.specs.Lexeme.{Lexeme};
ghost use Rattle.gql_ast.specs.declared.executable.Selection.{Selection};
ghost use Rattle.gql_ast.specs.declared.literal.Literal.{Literal};
ghost use Rattle.gql_ast.specs.declared.type_ref.TypeRef.{TypeRef};
ghost use Rattle.gql_grammar.specs.Symbol.{Derives, Fails};
ghost use Rattle.gql_parse.specs.Selections.{set, set_of};
ghost use Rattle.gql_parse.specs.Types.{type_ref, type_ref_of};
ghost use Rattle.gql_parse.specs.Values.{value, value_of};

/// A value derives exactly what its rule derives, and fails exactly where its rule fails, if the
/// inner values of the rule are values (GraphQL specification, 2.9).
pub fn values()
    ensures derived { (constant : Bool) (tokens rest : List Lexeme) (literal : Literal)
        → Derives (value constant) tokens literal rest
        ↔ Derives (value_of constant (value constant)) tokens literal rest }
    ensures refused { (constant : Bool) (tokens rest : List Lexeme)
        → Fails (value constant) tokens rest
        ↔ Fails (value_of constant (value constant)) tokens rest }
{}

/// A type derives exactly what its rule derives, and fails exactly where its rule fails, if the
/// inner types of the rule are types (GraphQL specification, 2.11).
pub fn types()
    ensures derived { (tokens rest : List Lexeme) (reference : TypeRef)
        → Derives type_ref tokens reference rest
        ↔ Derives (type_ref_of type_ref) tokens reference rest }
    ensures refused { (tokens rest : List Lexeme)
        → Fails type_ref tokens rest ↔ Fails (type_ref_of type_ref) tokens rest }
{}

/// A selection set derives exactly what its rule derives, and fails exactly where its rule fails,
/// if the inner sets of the rule are selection sets (GraphQL specification, 2.4).
pub fn selection_sets()
    ensures derived { (tokens rest : List Lexeme) (selections : List Selection)
        → Derives set tokens selections rest ↔ Derives (set_of set) tokens selections rest }
    ensures refused { (tokens rest : List Lexeme)
        → Fails set tokens rest ↔ Fails (set_of set) tokens rest }
{}
