//! S01, Duplicate Types: two type definitions have the same name.
//! <https://spec.graphql.org/October2021/#sec-Schema>
//!
//! At fault: `type Query { a: A } type A { b: Int } enum A { C }`
//! No fault: `type Query { a: A } type A { b: Int }`
ghost use Rattle.std.specs.Prelude.{◌≡◌, ◌++◌, OnOk};
ghost use Rattle.gql_node_rules.specs.Borrowed.{lists};
ghost use Rattle.gql_schema_rules.specs.S01DuplicateTypes as spec;

use crate::distinct_names::are_distinct;
use gql_ast::{Fault, Rule};
use gql_faults::add_repeated;
use gql_node_rules::{Nodes, names_of};
use std::alloc::{AllocError, Global};

/// Adds the faults by S01.
pub fn check(alloc: Global, nodes: &Nodes<'_>, faults: &mut Vec<Fault>) -> Result<(), AllocError>
    ensures { OnOk result (faults.new.items ≡ faults.old.items ++ spec.faults (lists nodes.now)) }
{
    let names = names_of(alloc, nodes.types.as_slice())?;
    if are_distinct(alloc, names.as_slice())? {
        return Ok(());
    }
    add_repeated(alloc, Rule::S01, names.as_slice(), faults)?;
    Ok(())
}
