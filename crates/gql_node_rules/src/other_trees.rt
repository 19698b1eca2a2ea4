//! The definitions of schema files that define no type, and how many define one, by the checks of
//! the files. Nothing of a type is visited.
ghost use Rattle.std.specs.Prelude.{◌≡◌, ◌+◌, ℕ, List, IfOk, IfSome, IsTrue, length, map};
ghost use Rattle.gql_ast.specs.declared.definition.Document.{Document};
ghost use Rattle.gql_types.specs.Definitions.{of_files};
ghost use Rattle.gql_node_rules.specs.Borrowed.{lists, one};
ghost use Rattle.gql_node_rules.specs.FileDefinitions as spec;
ghost use Rattle.gql_node_rules.specs.FileFaults.{without_types};
ghost use Rattle.gql_node_rules.specs.Nodes.{nodes_of, types};

use crate::file_check::FileCheck;
use crate::node::Node;
use crate::nodes::{Nodes, nodes_of_others};
use crate::trees::add_file;
use gql_ast::{FileMap, Shared, Tree};
use std::alloc::{AllocError, Global};

/// The definitions that define no type, of the files of these checks.
fn other_trees(
    alloc: Global,
    checks: &FileMap<Shared<FileCheck>>,
) -> Result<Vec<Node<'_, Tree>>, AllocError>
    ensures { IfOk result (λ found. map one found.items ≡ spec.others_held checks.now) }
{
    let mut found = Vec::new(alloc);
    for (_name, check) in checks.entries().iter() {
        add_file(check.get().definitions().others.as_slice(), &mut found)?;
    }
    Ok(found)
}

/// The extensions of the files of these checks, and the definitions of directives and of the
/// schema, without their parts.
pub fn other_nodes(
    alloc: Global,
    checks: &FileMap<Shared<FileCheck>>,
) -> Result<Nodes<'_>, AllocError>
    ensures { IfOk result (λ nodes. (files : List (List ℕ × Document))
        → spec.HoldDefinitionsOf files checks.now
        → lists nodes ≡ without_types (nodes_of (of_files files))) }
{
    let trees = other_trees(alloc, checks)?;
    let nodes = nodes_of_others(alloc, trees.as_slice())?;
    Ok(nodes)
}

/// A count without the definitions of types in the files of these checks; none if there are more of
/// them.
fn without_counted(checks: &FileMap<Shared<FileCheck>>, count: usize) -> Option<usize>
    ensures { IfSome result (λ left. left + spec.types_counted checks.now ≡ count) }
{
    let mut left = count;
    for (_name, check) in checks.entries().iter() {
        left = left.checked_sub(check.get().definitions().types)?;
    }
    Some(left)
}

/// Whether the files of these checks define so many types. One of Float counts too.
pub fn define_types(checks: &FileMap<Shared<FileCheck>>, count: usize) -> bool
    ensures { IsTrue result → (files : List (List ℕ × Document))
        → spec.HoldDefinitionsOf files checks.now → length (types (of_files files)) ≡ count }
{
    match without_counted(checks, count) {
        Some(left) => left == 0,
        None => false,
    }
}
