//! The literal `null`.
ghost use Rattle.std.specs.Prelude.{◌≡◌};
ghost use Rattle.gql_rules.specs.Literals as spec;

use gql_ast::Literal;

/// Whether a literal is `null` (GraphQL specification, 2.9.5).
#[tactic(auto, using(crate::proofs::NullLiterals::null_is, crate::proofs::NullLiterals::variable_is_not, crate::proofs::NullLiterals::int_is_not, crate::proofs::NullLiterals::float_is_not, crate::proofs::NullLiterals::string_is_not, crate::proofs::NullLiterals::boolean_is_not, crate::proofs::NullLiterals::enum_is_not, crate::proofs::NullLiterals::list_is_not, crate::proofs::NullLiterals::object_is_not))]
pub fn is_null(literal: &Literal) -> bool
    ensures { result ≡ spec.is_null literal.now }
{
    match literal {
        Literal::Null { .. } => true,
        Literal::Variable { .. }
        | Literal::Int { .. }
        | Literal::Float { .. }
        | Literal::String { .. }
        | Literal::Boolean { .. }
        | Literal::Enum { .. }
        | Literal::List { .. }
        | Literal::Object { .. } => false,
    }
}
