//! Answers that a removal leaves as they are. These tests take no memory, so that what is not touched is
//! soon found.
ghost use Rattle.std.specs.Prelude.{◌≡◌, IsTrue, bytes_eq};
ghost use Rattle.std.specs.List.{list_any};
ghost use Rattle.gql_facts.specs.declared.fact.Fact.TheVariants as told;
ghost use Rattle.gql_facts.specs.declared.fact.InputFact.{InputFact as AnInput};
ghost use Rattle.gql_facts.specs.declared.key.Key.TheVariants as asked;
ghost use Rattle.gql_removal.specs.Removals as spec;

use crate::left::{is_directive, is_enum_of, is_input_of};
use crate::named::{is_about, is_among, is_field_of};
use crate::removal::Removal;
use gql_ast::Text;
use gql_facts::{Fact, FieldFact, InputFact, Key};

/// Whether one of these inputs is of this type.
fn is_type_of_one(name: &Text, inputs: &[InputFact]) -> bool
    ensures { result ≡ list_any (λ (i : AnInput). bytes_eq name.now i.of_type.name) inputs.now }
{
    for input in inputs {
        if name.as_str() == input.of_type.name.as_str() {
            return true;
        }
    }
    false
}

/// Whether a field and its arguments are of other types than this one.
fn is_field_spared(name: &Text, field: &FieldFact) -> bool
    ensures { IsTrue result → spec.field_left name.now field.now ≡ told.Field field.now }
{
    name.as_str() != field.of_type.name.as_str()
        && !is_type_of_one(name, field.arguments.as_slice())
}

/// Whether an answer that is not about the type of this name stays as it is once the type is removed.
fn is_spared_by_type(name: &Text, fact: &Fact) -> bool
    ensures { IsTrue result → spec.without_type name.now fact.now ≡ fact.now }
{
    match fact {
        Fact::Field(field) => is_field_spared(name, field.get()),
        Fact::Possible(names) => !is_among(name, names.get().as_slice()),
        Fact::Input(fields) => !is_type_of_one(name, fields.get().as_slice()),
        Fact::Directive(directive) => {
            !is_type_of_one(name, directive.get().arguments.as_slice())
        }
        Fact::Root(root) => name.as_str() != root.get().as_str(),
        Fact::Absent | Fact::Kind(_) | Fact::Enum(_) | Fact::Fragment(_) => true,
    }
}

/// Whether the answer to a key stays as it is. It may, too, where this is false.
pub fn is_spared(removal: &Removal, key: &Key, fact: &Fact) -> bool
    ensures { IsTrue result → spec.left removal.now key.now fact.now ≡ fact.now }
{
    match removal {
        Removal::Type(name) => !is_about(name, key) && is_spared_by_type(name, fact),
        Removal::Field { types, name } => !is_field_of(types.as_slice(), name, key),
        Removal::Argument {
            types,
            field,
            name: _,
        } => !is_field_of(types.as_slice(), field, key),
        Removal::InputField { of_type, name: _ } => !is_input_of(of_type, key),
        Removal::EnumValue { of_type, name: _ } => !is_enum_of(of_type, key),
        Removal::Directive(name) => !is_directive(name, key),
        Removal::DirectiveArgument { directive, name: _ } => !is_directive(directive, key),
    }
}

/// Whether the answers to the four keys about the type of this name stay as they are: those to its kind,
/// its possible types, its input fields and its values. They may, too, where this is false.
pub fn is_type_spared(
    removal: &Removal,
    of_type: &Text,
    kind: &Fact,
    possible: &Fact,
    input: &Fact,
    values: &Fact,
) -> bool
    ensures kind { IsTrue result
        → spec.left removal.now (asked.KindOf of_type.now) kind.now ≡ kind.now }
    ensures possible { IsTrue result
        → spec.left removal.now (asked.PossibleOf of_type.now) possible.now ≡ possible.now }
    ensures input { IsTrue result
        → spec.left removal.now (asked.InputOf of_type.now) input.now ≡ input.now }
    ensures values { IsTrue result
        → spec.left removal.now (asked.EnumOf of_type.now) values.now ≡ values.now }
{
    match removal {
        Removal::Type(name) => {
            name.as_str() != of_type.as_str()
                && is_spared_by_type(name, kind)
                && is_spared_by_type(name, possible)
                && is_spared_by_type(name, input)
                && is_spared_by_type(name, values)
        }
        Removal::InputField {
            of_type: owner,
            name: _,
        } => owner.as_str() != of_type.as_str(),
        Removal::EnumValue {
            of_type: owner,
            name: _,
        } => owner.as_str() != of_type.as_str(),
        Removal::Field { .. }
        | Removal::Argument { .. }
        | Removal::Directive(_)
        | Removal::DirectiveArgument { .. } => true,
    }
}
