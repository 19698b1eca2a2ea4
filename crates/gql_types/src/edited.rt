//! The types that an edit of a schema file may change.
ghost use Rattle.std.specs.Prelude.{◌≡◌, ◌++◌, IfOk, OnOk};
ghost use Rattle.std.specs.Option.{option_copied};
ghost use Rattle.gql_types.specs.Edits as spec;

use crate::named::Named;
use gql_ast::{Definition, Document, Text, Tree};
use std::alloc::{AllocError, Global};

/// Adds the name of a definition that defines or extends a type.
fn add_name(definition: &Definition, names: &mut Vec<Text>) -> Result<(), AllocError>
    ensures { OnOk result (names.new.items ≡ names.old.items
        ++ spec.type_name_in definition.now.tree) }
{
    match &definition.tree {
        Tree::Type(node) => names.push(node.get().name.text.copy()?)?,
        Tree::TypeExtension(node) => names.push(node.get().name.text.copy()?)?,
        _ => {}
    }
    Ok(())
}

/// Adds the names of the types that these definitions define or extend.
fn add_names(definitions: &[Definition], names: &mut Vec<Text>) -> Result<(), AllocError>
    ensures { OnOk result (names.new.items ≡ names.old.items ++ spec.names_in definitions.now) }
{
    for definition in definitions {
        add_name(definition, names)?;
    }
    Ok(())
}

/// Adds the names of the types that a file defines or extends, if there is one.
fn add_file(document: Option<&Document>, names: &mut Vec<Text>) -> Result<(), AllocError>
    ensures { OnOk result (names.new.items ≡ names.old.items
        ++ spec.type_names (option_copied document.entry)) }
{
    if let Some(document) = document {
        add_names(document.definitions.as_slice(), names)?;
    }
    Ok(())
}

/// The names of the types that an edit of a schema file may change: those that the file defines or
/// extends, before the edit or after it.
pub fn edited_names(
    alloc: Global,
    before: Option<&Document>,
    after: Option<&Document>,
) -> Result<Named<Text>, AllocError>
    ensures { IfOk result (λ names. names
        ≡ spec.edited_names (option_copied before.entry) (option_copied after.entry)) }
{
    let mut names = Vec::new(alloc);
    add_file(before, &mut names)?;
    add_file(after, &mut names)?;
    Named::new(alloc, names)
}
