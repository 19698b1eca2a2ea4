//! S23, Missing Query Root: the schema has no query root operation type.
//! <https://spec.graphql.org/October2021/#sec-Root-Operation-Types>
//!
//! At fault: `type A { b: Int }`
//! No fault: `schema { query: A } type A { b: Int }`
ghost use Rattle.std.specs.Prelude.{◌≡◌, ◌++◌, IfOk, OnOk};
ghost use Rattle.gql_schema_rules.specs.S23MissingQueryRoot as spec;

use gql_ast::{Fault, Items, OperationKind, Rule, Text};
use gql_types::Schema;
use std::alloc::{AllocError, Global};

/// The fault of a schema without a query root.
fn missing_query_root(alloc: Global) -> Result<Fault, AllocError>
    ensures { IfOk result (λ fault. fault ≡ spec.missing_query_root) }
{
    Ok(Fault {
        rule: Rule::S23,
        about: Text::from_str(alloc, "query")?,
        places: Items::new(alloc),
        owner: None,
    })
}

/// Adds the faults by S23.
pub fn check(alloc: Global, schema: &Schema, faults: &mut Vec<Fault>) -> Result<(), AllocError>
    ensures { OnOk result (faults.new.items ≡ faults.old.items ++ spec.faults schema.now) }
{
    if schema.root(OperationKind::Query).is_none() {
        faults.push(missing_query_root(alloc)?)?;
    }
    Ok(())
}
