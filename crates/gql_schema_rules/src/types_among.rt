//! The types of a schema that have some names.
ghost use Rattle.std.specs.Prelude.{◌≡◌, ◌++◌, ◌∷◌, [], Bool, IfOk, OnOk, Some, filter, if◌then◌else◌, slice_get};
ghost use Rattle.gql_node_rules.specs.SchemaChanges.{is_among};
ghost use Rattle.gql_types.specs.Possible.{name_of};

use gql_ast::Text;
use gql_types::{Batched, Named, Schema, SchemaType};
use std::alloc::{AllocError, Global};

/// Whether the type at a place is marked.
fn is_marked(marks: &[bool], place: usize) -> bool
    ensures { (mark : Bool) → slice_get marks.now place ≡ Some mark → result ≡ mark }
{
    match marks.get(place) {
        Some(mark) => *mark,
        None => true,
    }
}

/// Adds a type, if it is marked.
fn add_if(
    is_marked: bool,
    of_type: &Batched<SchemaType>,
    found: &mut Vec<Batched<SchemaType>>,
) -> Result<(), AllocError>
    ensures { OnOk result (found.new.items ≡ found.old.items
        ++ (if is_marked then of_type.now ∷ [] else [])) }
{
    if is_marked {
        found.push(of_type.clone()?)?;
    }
    Ok(())
}

/// The types of a schema whose names are among these.
pub fn types_among(
    alloc: Global,
    schema: &Schema,
    names: &Named<Text>,
) -> Result<Vec<Batched<SchemaType>>, AllocError>
    ensures { IfOk result (λ found. found.items
        ≡ filter (λ t. is_among names.now (name_of t)) schema.now.types) }
{
    let marks = schema.named_types().are_among(alloc, names)?;
    let types = schema.types();
    let mut found = Vec::new(alloc);
    for place in 0..types.len() {
        add_if(
            is_marked(marks.as_slice(), place),
            &types[place],
            &mut found,
        )?;
    }
    Ok(found)
}
