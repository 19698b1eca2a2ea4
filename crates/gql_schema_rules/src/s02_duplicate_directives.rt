//! S02, Duplicate Directives: two directive definitions have the same name.
//! <https://spec.graphql.org/October2021/#sec-Schema>
//!
//! At fault: `type Query { a: Int } directive @d on FIELD directive @d on QUERY`
//! No fault: `type Query { a: Int } directive @d on FIELD | QUERY`
ghost use Rattle.std.specs.Prelude.{◌≡◌, ◌++◌, OnOk};
ghost use Rattle.gql_node_rules.specs.Borrowed.{lists};
ghost use Rattle.gql_schema_rules.specs.S02DuplicateDirectives as spec;

use gql_ast::{Fault, Rule};
use gql_faults::add_repeated;
use gql_node_rules::{Nodes, names_of};
use std::alloc::{AllocError, Global};

/// Adds the faults by S02.
pub fn check(alloc: Global, nodes: &Nodes<'_>, faults: &mut Vec<Fault>) -> Result<(), AllocError>
    ensures { OnOk result (faults.new.items ≡ faults.old.items ++ spec.faults (lists nodes.now)) }
{
    let names = names_of(alloc, nodes.directives.as_slice())?;
    add_repeated(alloc, Rule::S02, names.as_slice(), faults)?;
    Ok(())
}
