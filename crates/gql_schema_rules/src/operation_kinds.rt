//! Kinds of operations: whether two are the same, and their words.
ghost use Rattle.std.specs.Prelude.{◌≡◌};
ghost use Rattle.gql_types.specs.Kinds.{same_operation};
ghost use Rattle.gql_schema_rules.specs.OperationKinds as spec;

use gql_ast::OperationKind;

/// Whether two kinds of operations are the same.
#[tactic(auto, unfolding(gql_types::specs::Kinds::same_operation))]
pub fn is_same(kind: OperationKind, other: OperationKind) -> bool
    ensures { result ≡ same_operation kind other }
{
    kind == other
}

/// The word for a kind of operations.
pub fn kind_word(kind: OperationKind) -> &'static str
    ensures { result.now ≡ spec.kind_word kind }
{
    match kind {
        OperationKind::Query => "query",
        OperationKind::Mutation => "mutation",
        OperationKind::Subscription => "subscription",
    }
}
