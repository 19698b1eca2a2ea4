//! The uses of variables in values, in arguments and in directives.
ghost use Rattle.std.specs.Prelude.{◌≡◌, ◌++◌, map, flat_map, OnOk};
ghost use Rattle.gql_ast.specs.declared.literal.ObjectField.{ObjectField as AField};
ghost use Rattle.gql_vars.specs.Lists.{use_of};
ghost use Rattle.gql_vars.specs.Uses as spec;

use gql_ast::{Argument, Directive, FileName, Literal, ObjectField, Text};
use gql_text::Place;
use std::alloc::AllocError;

/// A use of a variable: its file, the place of its `$`, and the variable's name.
#[derive(Clone, Copy)]
pub struct VariableUse<'t> {
    pub file: &'t FileName,
    pub place: Place,
    pub name: &'t Text,
}

/// Adds the uses in a value.
#[cycle(values)]
#[tactic(auto, using(crate::proofs::LiteralUses::in_variable, crate::proofs::LiteralUses::in_int, crate::proofs::LiteralUses::in_float, crate::proofs::LiteralUses::in_string, crate::proofs::LiteralUses::in_boolean, crate::proofs::LiteralUses::in_null, crate::proofs::LiteralUses::in_enum, crate::proofs::LiteralUses::in_list, crate::proofs::LiteralUses::in_object, crate::proofs::LiteralUses::no_uses))]
fn add_value_uses<'t>(
    file: &'t FileName,
    value: &'t Literal,
    uses: &mut Vec<VariableUse<'t>>,
) -> Result<(), AllocError>
    ensures { OnOk result (map use_of uses.new.items ≡ map use_of uses.old.items
        ++ spec.literal_uses file.now value.now) }
{
    match value {
        Literal::Variable { place, name } => {
            uses.push(VariableUse {
                file,
                place: *place,
                name,
            })?;
            Ok(())
        }
        Literal::List { items, .. } => add_uses_of_items(file, items.as_slice(), uses),
        Literal::Object { fields, .. } => add_uses_of_fields(file, fields.as_slice(), uses),
        Literal::Int { .. }
        | Literal::Float { .. }
        | Literal::String { .. }
        | Literal::Boolean { .. }
        | Literal::Null { .. }
        | Literal::Enum { .. } => Ok(()),
    }
}

#[cycle(values)]
fn add_uses_of_items<'t>(
    file: &'t FileName,
    items: &'t [Literal],
    uses: &mut Vec<VariableUse<'t>>,
) -> Result<(), AllocError>
    ensures { OnOk result (map use_of uses.new.items ≡ map use_of uses.old.items
        ++ flat_map (spec.literal_uses file.now) items.now) }
{
    for item in items {
        add_value_uses(file, item, uses)?;
    }
    Ok(())
}

#[cycle(values)]
fn add_uses_of_fields<'t>(
    file: &'t FileName,
    fields: &'t [ObjectField],
    uses: &mut Vec<VariableUse<'t>>,
) -> Result<(), AllocError>
    ensures { OnOk result (map use_of uses.new.items ≡ map use_of uses.old.items
        ++ flat_map (λ (f : AField). spec.literal_uses file.now f.value) fields.now) }
{
    for field in fields {
        add_value_uses(file, &field.value, uses)?;
    }
    Ok(())
}

/// Adds the uses in the arguments of a field or a directive.
pub fn add_argument_uses<'t>(
    file: &'t FileName,
    arguments: &'t [Argument],
    uses: &mut Vec<VariableUse<'t>>,
) -> Result<(), AllocError>
    ensures { OnOk result (map use_of uses.new.items ≡ map use_of uses.old.items
        ++ spec.argument_uses file.now arguments.now) }
{
    for argument in arguments {
        add_value_uses(file, &argument.value, uses)?;
    }
    Ok(())
}

/// Adds the uses in directives that are applied.
pub fn add_directive_uses<'t>(
    file: &'t FileName,
    directives: &'t [Directive],
    uses: &mut Vec<VariableUse<'t>>,
) -> Result<(), AllocError>
    ensures { OnOk result (map use_of uses.new.items ≡ map use_of uses.old.items
        ++ spec.directive_uses file.now directives.now) }
{
    for directive in directives {
        add_argument_uses(file, directive.arguments.as_slice(), uses)?;
    }
    Ok(())
}
