//! Schema files without a part.
ghost use Rattle.std.specs.Prelude.{◌≡◌, ◌++◌, IfOk, OnOk};
ghost use Rattle.gql_cut.specs.Cuts as spec;

use crate::trees::tree_left;
use gql_ast::{Definition, Document, Items};
use gql_removal::Subject;
use std::alloc::{AllocError, Global};

/// Adds what is left of a definition without a part.
fn add_left(
    alloc: Global,
    subject: &Subject,
    definition: &Definition,
    left: &mut Vec<Definition>,
) -> Result<(), AllocError>
    ensures { OnOk result (left.new.items
        ≡ left.old.items ++ spec.definition_left subject.now definition.now) }
{
    if let Some(tree) = tree_left(alloc, subject, &definition.tree)? {
        left.push(Definition {
            file: definition.file.copy()?,
            tree,
        })?;
    }
    Ok(())
}

/// A schema file without a part. Nothing that refers to the part goes with it.
pub fn document_left(
    alloc: Global,
    subject: &Subject,
    document: &Document,
) -> Result<Document, AllocError>
    ensures { IfOk result (λ left. left ≡ spec.document_left subject.now document.now) }
{
    let mut left = Vec::new(alloc);
    for definition in document.definitions.as_slice() {
        add_left(alloc, subject, definition, &mut left)?;
    }
    Ok(Document {
        definitions: Items::from_vec(left),
    })
}
