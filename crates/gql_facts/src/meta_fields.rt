//! The facts of the three fields that no type lists (GraphQL specification, 4.1 and 4.2).
ghost use Rattle.std.specs.Prelude.{◌≡◌, ◌∷◌, [], ℕ, List, IfOk, codes};
ghost use Rattle.gql_facts.specs.Facts as spec;
ghost use Rattle.gql_types.specs.declared.written_type.Wrapper.TheVariants.{NonNull as non_null};

use crate::fact::{FieldFact, InputFact};
use gql_ast::{Items, Shared, Text};
use gql_types::{DefinedInputs, Wrapper, WrittenType};
use std::alloc::{AllocError, Global};

/// The three fields that no type lists.
#[derive(Drop)]
pub struct MetaFields {
    /// `__typename: String!` of every composite type (4.1).
    pub typename: Shared<FieldFact>,
    /// `__schema: __Schema!` of the query root (4.2).
    pub schema: Shared<FieldFact>,
    /// `__type(name: String!): __Type` of the query root (4.2).
    pub of_type: Shared<FieldFact>,
}

/// The type of that name.
fn named(alloc: Global, name: &str) -> Result<WrittenType, AllocError>
    ensures { IfOk result (λ t. t ≡ record { wrappers = []; name = name.now }) }
{
    Ok(WrittenType {
        wrappers: Items::new(alloc),
        name: Text::from_str(alloc, name)?,
    })
}

/// The Non-Null type of that name.
fn required(alloc: Global, name: &str) -> Result<WrittenType, AllocError>
    ensures { IfOk result (λ t. t
        ≡ record { wrappers = non_null ∷ []; name = name.now }) }
{
    let mut wrappers = Items::new(alloc);
    wrappers.push(Wrapper::NonNull)?;
    Ok(WrittenType {
        wrappers,
        name: Text::from_str(alloc, name)?,
    })
}

fn typename_field(alloc: Global) -> Result<FieldFact, AllocError>
    ensures { IfOk result (λ f. f ≡ spec.typename_field) }
{
    Ok(FieldFact {
        of_type: required(alloc, "String")?,
        arguments: DefinedInputs::new(alloc, Vec::new(alloc))?,
    })
}

fn schema_field(alloc: Global) -> Result<FieldFact, AllocError>
    ensures { IfOk result (λ f. f ≡ spec.schema_field) }
{
    Ok(FieldFact {
        of_type: required(alloc, "__Schema")?,
        arguments: DefinedInputs::new(alloc, Vec::new(alloc))?,
    })
}

fn type_field(alloc: Global) -> Result<FieldFact, AllocError>
    ensures { IfOk result (λ f. f ≡ spec.type_field) }
{
    let mut arguments = Vec::new(alloc);
    arguments.push(InputFact {
        name: Text::from_str(alloc, "name")?,
        of_type: required(alloc, "String")?,
        has_default: false,
    })?;
    Ok(FieldFact {
        of_type: named(alloc, "__Type")?,
        arguments: DefinedInputs::new(alloc, arguments)?,
    })
}

impl MetaFields {
    /// The three fields.
    pub fn new(alloc: Global) -> Result<MetaFields, AllocError>
        ensures { IfOk result (λ fields. fields ≡ spec.meta_fields) }
    {
        Ok(MetaFields {
            typename: Shared::new(alloc, typename_field(alloc)?)?,
            schema: Shared::new(alloc, schema_field(alloc)?)?,
            of_type: Shared::new(alloc, type_field(alloc)?)?,
        })
    }
}
