//! The definitions of a schema (GraphQL specification, 3.1) that are not of types, by their forms.
ghost use Rattle.std.specs.Prelude.{◌≡◌, IfOk};
ghost use Rattle.gql_types.specs.Definitions as spec;

use gql_ast::{
    DirectiveDefinition, Items, SchemaDefinition, SchemaExtension, Shared, Tree, TypeExtension,
};
use gql_built_in::{Sited, same_source};
use std::alloc::{AllocError, Global};

/// The extensions of types.
pub fn type_extensions(
    alloc: Global,
    definitions: &[Sited<Tree>],
) -> Result<Items<Sited<Shared<TypeExtension>>>, AllocError>
    ensures { IfOk result (λ found. found ≡ spec.type_extensions definitions.now) }
{
    let mut found = Items::new(alloc);
    for definition in definitions {
        if let Tree::TypeExtension(node) = &definition.node {
            found.push(Sited {
                file: same_source(&definition.file)?,
                node: node.clone()?,
            })?;
        }
    }
    Ok(found)
}

/// The definitions of directives.
pub fn directive_definitions(
    alloc: Global,
    definitions: &[Sited<Tree>],
) -> Result<Vec<Sited<Shared<DirectiveDefinition>>>, AllocError>
    ensures { IfOk result (λ found. found.items ≡ spec.directive_definitions definitions.now) }
{
    let mut found = Vec::new(alloc);
    for definition in definitions {
        if let Tree::Directive(node) = &definition.node {
            found.push(Sited {
                file: same_source(&definition.file)?,
                node: node.clone()?,
            })?;
        }
    }
    Ok(found)
}

/// The definitions of the schema.
pub fn schema_definitions(
    alloc: Global,
    definitions: &[Sited<Tree>],
) -> Result<Items<Sited<Shared<SchemaDefinition>>>, AllocError>
    ensures { IfOk result (λ found. found ≡ spec.schema_definitions definitions.now) }
{
    let mut found = Items::new(alloc);
    for definition in definitions {
        if let Tree::Schema(node) = &definition.node {
            found.push(Sited {
                file: same_source(&definition.file)?,
                node: node.clone()?,
            })?;
        }
    }
    Ok(found)
}

/// The extensions of the schema.
pub fn schema_extensions(
    alloc: Global,
    definitions: &[Sited<Tree>],
) -> Result<Items<Sited<Shared<SchemaExtension>>>, AllocError>
    ensures { IfOk result (λ found. found ≡ spec.schema_extensions definitions.now) }
{
    let mut found = Items::new(alloc);
    for definition in definitions {
        if let Tree::SchemaExtension(node) = &definition.node {
            found.push(Sited {
                file: same_source(&definition.file)?,
                node: node.clone()?,
            })?;
        }
    }
    Ok(found)
}
