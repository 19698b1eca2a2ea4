//! The description of the schema, by what each schema file gives to it.
ghost use Rattle.std.specs.Prelude.{◌≡◌, IfOk};
ghost use Rattle.std.specs.Option.{option_copied};
ghost use Rattle.gql_ast.specs.declared.files.Files.{Files as TheFiles};
ghost use Rattle.gql_intro.specs.Made.{description_of};
ghost use Rattle.gql_intro.specs.Outlined as spec;
ghost use Rattle.gql_types.specs.Outlines.{IsOutline};

use crate::made::copied;
use gql_ast::{FileMap, SchemaDefinition, Shared, Text, Tree};
use gql_types::{FileOutline, Outline, Sited};
use std::alloc::AllocError;

/// The first schema definition among these.
fn schema_among(definitions: &[Sited<Tree>]) -> Option<&SchemaDefinition>
    ensures { option_copied result ≡ spec.schema_among definitions.now }
{
    for definition in definitions {
        if let Tree::Schema(found) = &definition.node {
            return Some(found.get());
        }
    }
    None
}

/// The first schema definition among what these files give.
fn first_outlined(files: &FileMap<Shared<FileOutline>>) -> Option<&SchemaDefinition>
    ensures { option_copied result ≡ spec.first_outlined files.now }
{
    for (_file, outline) in files.entries().iter() {
        if let Some(found) = schema_among(outline.get().others.as_slice()) {
            return Some(found);
        }
    }
    None
}

/// The description of the schema of files that have this outline.
pub fn outlined_description(outline: &Outline) -> Result<Option<Text>, AllocError>
    ensures { (files : TheFiles) → IsOutline files outline.now
        → IfOk result (λ text. text ≡ description_of files.schema) }
{
    match first_outlined(&outline.files) {
        Some(definition) => copied(&definition.description),
        None => Ok(None),
    }
}
