//! The interfaces that types implement, and the fields that both have (GraphQL 3.6 and 3.7).
ghost use Rattle.std.specs.Prelude.{◌≡◌, ◌++◌, OnOk, map};
ghost use Rattle.std.specs.Option.{option_copied};
ghost use Rattle.gql_iface_rules.specs.Borrowed.{implements, pair};
ghost use Rattle.gql_iface_rules.specs.Implementing as spec;

use gql_ast::{FieldDefinition, Name, Shared};
use gql_built_in::Sited;
use gql_types::{HasName, Named, Schema, SchemaType, TypeKind};
use std::alloc::{AllocError, Global};

/// The interface of a name, if there is one.
pub fn interface_named<'s>(schema: &'s Schema, name: &str) -> Option<&'s SchemaType>
    ensures { option_copied result ≡ spec.interface_named schema.now name.now }
{
    match schema.get(name) {
        Some(of_type) => {
            if of_type.kind.is(TypeKind::Interface) {
                Some(of_type)
            } else {
                None
            }
        }
        None => None,
    }
}

/// A type, a name in its list of interfaces, and the interface of that name.
#[derive(Clone, Copy)]
pub struct Implementation<'s> {
    pub of_type: &'s SchemaType,
    pub name: &'s Sited<Name>,
    pub interface: &'s SchemaType,
}

/// A type's own field, and the interface's field of that name.
#[derive(Clone, Copy)]
pub struct FieldPair<'s> {
    pub own: &'s Sited<Shared<FieldDefinition>>,
    pub expected: &'s Sited<Shared<FieldDefinition>>,
}

/// The first field of that name that the type has.
pub fn field_in<'s>(
    fields: &'s Named<Sited<Shared<FieldDefinition>>>,
    name: &str,
) -> Option<&'s Sited<Shared<FieldDefinition>>>
    ensures { option_copied result ≡ spec.field_in fields.now name.now }
{
    fields.get(name)
}

/// Adds a field of an interface with the type's field of its name, if there is one.
fn add_paired<'s>(
    of_type: &'s SchemaType,
    expected: &'s Sited<Shared<FieldDefinition>>,
    pairs: &mut Vec<FieldPair<'s>>,
) -> Result<(), AllocError>
    ensures { OnOk result (map pair pairs.new.items ≡ map pair pairs.old.items
        ++ spec.paired of_type.now.fields expected.now) }
{
    if let Some(own) = field_in(&of_type.fields, expected.name()) {
        pairs.push(FieldPair { own, expected })?;
    }
    Ok(())
}

/// Adds the pairs of fields of a type and an interface.
pub fn add_pairs<'s>(
    implementation: &Implementation<'s>,
    pairs: &mut Vec<FieldPair<'s>>,
) -> Result<(), AllocError>
    ensures { OnOk result (map pair pairs.new.items ≡ map pair pairs.old.items
        ++ spec.pairs_of (implements implementation.now)) }
{
    for expected in implementation.interface.fields.as_slice() {
        add_paired(implementation.of_type, expected, pairs)?;
    }
    Ok(())
}
