//! The definitions of schema files, by their forms (GraphQL 3).
ghost use Rattle.std.specs.Prelude.{◌≡◌, ◌++◌, IfOk, OnOk, map};
ghost use Rattle.gql_types.specs.Definitions.{of_files, in_order_of};
ghost use Rattle.gql_node_rules.specs.Borrowed.{one};
ghost use Rattle.gql_node_rules.specs.Nodes as spec;

use crate::node::{Holds, Node};
use gql_ast::{
    Definition, DirectiveDefinition, Document, Files, SchemaDefinition, SchemaExtension, Tree,
    TypeDefinition, TypeExtension,
};
use std::alloc::{AllocError, Global};

/// Adds these definitions of a file.
pub fn add_file<'t>(
    definitions: &'t [Definition],
    found: &mut Vec<Node<'t, Tree>>,
) -> Result<(), AllocError>
    ensures { OnOk result (map one found.new.items ≡ map one found.old.items
        ++ in_order_of definitions.now) }
{
    for definition in definitions {
        found.push(Node {
            file: &definition.file,
            node: &definition.tree,
        })?;
    }
    Ok(())
}

/// The definitions of a schema file.
pub fn trees_of(alloc: Global, document: &Document) -> Result<Vec<Node<'_, Tree>>, AllocError>
    ensures { IfOk result (λ found. map one found.items ≡ in_order_of document.now.definitions) }
{
    let mut found = Vec::new(alloc);
    add_file(document.definitions.as_slice(), &mut found)?;
    Ok(found)
}

/// The definitions of the schema files.
pub fn trees(alloc: Global, files: &Files) -> Result<Vec<Node<'_, Tree>>, AllocError>
    ensures { IfOk result (λ found. map one found.items ≡ of_files files.now.schema) }
{
    let mut found = Vec::new(alloc);
    for (_name, document) in files.schema.entries().iter() {
        add_file(document.get().definitions.as_slice(), &mut found)?;
    }
    Ok(found)
}

impl Holds<TypeDefinition> for Tree {
    ghost held = { spec.type_of };

    fn add_held<'t>(
        holder: &Node<'t, Tree>,
        found: &mut Vec<Node<'t, TypeDefinition>>,
    ) -> Result<(), AllocError> {
        if let Tree::Type(node) = holder.node {
            found.push(Node {
                file: holder.file,
                node: node.get(),
            })?;
        }
        Ok(())
    }
}

impl Holds<TypeExtension> for Tree {
    ghost held = { spec.type_extension_of };

    fn add_held<'t>(
        holder: &Node<'t, Tree>,
        found: &mut Vec<Node<'t, TypeExtension>>,
    ) -> Result<(), AllocError> {
        if let Tree::TypeExtension(node) = holder.node {
            found.push(Node {
                file: holder.file,
                node: node.get(),
            })?;
        }
        Ok(())
    }
}

impl Holds<DirectiveDefinition> for Tree {
    ghost held = { spec.directive_of };

    fn add_held<'t>(
        holder: &Node<'t, Tree>,
        found: &mut Vec<Node<'t, DirectiveDefinition>>,
    ) -> Result<(), AllocError> {
        if let Tree::Directive(node) = holder.node {
            found.push(Node {
                file: holder.file,
                node: node.get(),
            })?;
        }
        Ok(())
    }
}

impl Holds<SchemaDefinition> for Tree {
    ghost held = { spec.schema_of };

    fn add_held<'t>(
        holder: &Node<'t, Tree>,
        found: &mut Vec<Node<'t, SchemaDefinition>>,
    ) -> Result<(), AllocError> {
        if let Tree::Schema(node) = holder.node {
            found.push(Node {
                file: holder.file,
                node: node.get(),
            })?;
        }
        Ok(())
    }
}

impl Holds<SchemaExtension> for Tree {
    ghost held = { spec.schema_extension_of };

    fn add_held<'t>(
        holder: &Node<'t, Tree>,
        found: &mut Vec<Node<'t, SchemaExtension>>,
    ) -> Result<(), AllocError> {
        if let Tree::SchemaExtension(node) = holder.node {
            found.push(Node {
                file: holder.file,
                node: node.get(),
            })?;
        }
        Ok(())
    }
}
