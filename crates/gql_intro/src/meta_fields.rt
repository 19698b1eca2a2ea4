//! The definitions of the three fields that no type lists (GraphQL specification, 4.1, 4.2).
ghost use Rattle.std.specs.Prelude.{◌≡◌, IfOk};
ghost use Rattle.std.specs.Option.{option_copied};
ghost use Rattle.gql_intro.specs.MetaFields as spec;

use gql_ast::{Boxed, FieldDefinition, InputValueDefinition, Items, Name, Shared, Text, TypeRef};
use gql_text::Place;
use std::alloc::{AllocError, Global};

/// The place of what is in no file. Places in files have lines from 1.
const NOWHERE: Place = Place {
    line: 0,
    column: 0,
    offset: 0,
};

/// The definitions of `__typename`, `__schema` and `__type`.
#[derive(Drop)]
pub struct MetaFields {
    typename: FieldDefinition,
    schema: FieldDefinition,
    of_type: FieldDefinition,
}

fn word(alloc: Global, text: &str) -> Result<Name, AllocError>
    ensures { IfOk result (λ name. name ≡ spec.word text.now) }
{
    Ok(Name {
        place: NOWHERE,
        text: Text::from_str(alloc, text)?,
    })
}

fn named(alloc: Global, name: &str) -> Result<TypeRef, AllocError>
    ensures { IfOk result (λ t. t ≡ spec.named name.now) }
{
    Ok(TypeRef::Named(word(alloc, name)?))
}

fn required(alloc: Global, name: &str) -> Result<TypeRef, AllocError>
    ensures { IfOk result (λ t. t ≡ spec.required name.now) }
{
    Ok(TypeRef::NonNull(Boxed::new(alloc, named(alloc, name)?)?))
}

fn argument(alloc: Global, name: &str, of_type: TypeRef) -> Result<InputValueDefinition, AllocError>
    ensures { IfOk result (λ d. d ≡ spec.argument name.now of_type) }
{
    Ok(InputValueDefinition {
        description: None,
        name: word(alloc, name)?,
        of_type,
        default: None,
        directives: Items::new(alloc),
    })
}

fn field(
    alloc: Global,
    name: &str,
    arguments: Items<Shared<InputValueDefinition>>,
    of_type: TypeRef,
) -> Result<FieldDefinition, AllocError>
    ensures { IfOk result (λ f. f ≡ spec.field name.now arguments of_type) }
{
    Ok(FieldDefinition {
        description: None,
        name: word(alloc, name)?,
        arguments,
        of_type,
        directives: Items::new(alloc),
    })
}

impl MetaFields {
    /// The three fields.
    pub(crate) fn new(alloc: Global) -> Result<MetaFields, AllocError>
        ensures { IfOk result (λ fields. fields ≡ spec.meta_fields) }
    {
        let none = Items::new(alloc);
        let typename = field(alloc, "__typename", none, required(alloc, "String")?)?;
        let none = Items::new(alloc);
        let schema = field(alloc, "__schema", none, required(alloc, "__Schema")?)?;
        let mut arguments = Items::new(alloc);
        let name = argument(alloc, "name", required(alloc, "String")?)?;
        arguments.push(Shared::new(alloc, name)?)?;
        let of_type = field(alloc, "__type", arguments, named(alloc, "__Type")?)?;
        Ok(MetaFields {
            typename,
            schema,
            of_type,
        })
    }

    /// The field of that name among the three.
    pub(crate) fn get(&self, name: &str) -> Option<&FieldDefinition>
        ensures { option_copied result ≡ spec.meta_field self.now name.now }
    {
        if name == "__typename" {
            Some(&self.typename)
        } else if name == "__schema" {
            Some(&self.schema)
        } else if name == "__type" {
            Some(&self.of_type)
        } else {
            None
        }
    }
}
