//! What the definitions of a schema file give to the rules that are checked for all files together.
ghost use Rattle.std.specs.Prelude.{◌≡◌, ◌++◌, ◌∷◌, [], IfOk, OnOk, filter, length};
ghost use Rattle.gql_types.specs.Definitions.{in_order_of, of_file};
ghost use Rattle.gql_node_rules.specs.FileDefinitions.{AreDefinitionsOf};
ghost use Rattle.gql_node_rules.specs.OtherTrees as spec;

use gql_ast::{Definition, Document, Items, Tree};
use std::alloc::{AllocError, Global};

/// What the definitions of a schema file give to the rules that are checked for all files together.
#[derive(Drop)]
pub struct FileDefinitions {
    /// How many of them define a type. One of Float counts too.
    pub types: usize,
    /// Those that define no type. They share their trees with the file.
    pub others: Items<Definition>,
}

/// Whether a definition defines a type.
fn defines_type(tree: &Tree) -> bool
    ensures { result ≡ spec.defines_type tree.now }
{
    match tree {
        Tree::Type(_) => true,
        _ => false,
    }
}

/// How many of these definitions define a type.
fn count_types(definitions: &[Definition]) -> usize
    ensures { result ≡ length (filter (λ d. spec.defines_type d.tree) definitions.now) }
{
    definitions
        .iter()
        .filter(|definition| defines_type(&definition.tree))
        .count()
}

/// Adds an equal definition, which shares its tree, if it defines no type.
fn add_other(definition: &Definition, found: &mut Items<Definition>) -> Result<(), AllocError>
    ensures { OnOk result (in_order_of found.new ≡ in_order_of found.old
        ++ spec.others (of_file definition.now ∷ [])) }
{
    if !defines_type(&definition.tree) {
        found.push(definition.copy()?)?;
    }
    Ok(())
}

/// Those of these definitions that define no type. They share their trees.
fn others(alloc: Global, definitions: &[Definition]) -> Result<Items<Definition>, AllocError>
    ensures { IfOk result (λ found. in_order_of found
        ≡ spec.others (in_order_of definitions.now)) }
{
    let mut found = Items::new(alloc);
    for definition in definitions {
        add_other(definition, &mut found)?;
    }
    Ok(found)
}

impl FileDefinitions {
    /// What the definitions of this file give.
    pub fn of(alloc: Global, document: &Document) -> Result<FileDefinitions, AllocError>
        ensures { IfOk result (AreDefinitionsOf document.now) }
    {
        let definitions = document.definitions.as_slice();
        Ok(FileDefinitions {
            types: count_types(definitions),
            others: others(alloc, definitions)?,
        })
    }
}
