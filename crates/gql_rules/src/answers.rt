//! What an answer says.
ghost use Rattle.std.specs.Prelude.{◌≡◌};
ghost use Rattle.std.specs.Option.{option_copied};
ghost use Rattle.gql_rules.specs.Answers as spec;

use gql_ast::Text;
use gql_facts::{DirectiveFact, Fact, FieldFact, FragmentFact, InputFact};
use gql_types::{Named, TypeKind, Wrapper};

/// The kind that an answer gives.
pub fn kind_in(fact: &Fact) -> Option<TypeKind>
    ensures { result ≡ spec.kind_in fact.now }
{
    match fact {
        Fact::Kind(kind) => Some(*kind),
        _ => None,
    }
}

/// The field that an answer gives.
pub fn field_in(fact: &Fact) -> Option<&FieldFact>
    ensures { option_copied result ≡ spec.field_in fact.now }
{
    match fact {
        Fact::Field(field) => Some(field.get()),
        _ => None,
    }
}

/// The possible types of a composite type, as an answer gives them.
pub fn possible_in(fact: &Fact) -> Option<&Named<Text>>
    ensures { option_copied result ≡ spec.possible_in fact.now }
{
    match fact {
        Fact::Possible(names) => Some(names.get()),
        _ => None,
    }
}

/// The directive that an answer gives.
pub fn directive_in(fact: &Fact) -> Option<&DirectiveFact>
    ensures { option_copied result ≡ spec.directive_in fact.now }
{
    match fact {
        Fact::Directive(directive) => Some(directive.get()),
        _ => None,
    }
}

/// The fragment that an answer gives.
pub fn fragment_in(fact: &Fact) -> Option<&FragmentFact>
    ensures { option_copied result ≡ spec.fragment_in fact.now }
{
    match fact {
        Fact::Fragment(fragment) => Some(fragment),
        _ => None,
    }
}

/// Whether the type is Non-Null (GraphQL specification, 3.12).
fn starts_non_null(steps: &[Wrapper]) -> bool
    ensures { result ≡ spec.starts_non_null steps.now }
{
    match steps.first() {
        Some(Wrapper::NonNull) => true,
        _ => false,
    }
}

/// Whether an argument is required (3.6.1).
pub fn is_required(input: &InputFact) -> bool
    ensures { result ≡ spec.is_required input.now }
{
    starts_non_null(input.of_type.wrappers.as_slice()) && !input.has_default
}
