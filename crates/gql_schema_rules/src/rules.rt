//! The rules that are checked for all files together, in groups by what each group visits.
ghost use Rattle.std.specs.Prelude.{◌≡◌, ◌++◌, IfOk, OnOk};
ghost use Rattle.gql_node_rules.specs.Borrowed.{lists};
ghost use Rattle.gql_schema_rules.specs.RuleGroups as spec;

use crate::{
    p02_subscription_roots, s01_duplicate_types, s02_duplicate_directives, s04_built_in_names,
    s05_empty_types, s06_duplicate_fields, s07_duplicate_values, s08_duplicate_arguments,
    s18_bad_default_values, s23_missing_query_root, s24_non_object_roots, s25_shared_root_types,
    s27_extensions_of_unknown_types, s28_extensions_of_another_kind, s34_duplicate_schemas,
};
use gql_ast::{Fault, Files};
use gql_node_rules::Nodes;
use gql_types::{Batched, Schema, SchemaType};
use std::alloc::{AllocError, Global};

/// S01, S02, S04, S27 and S28.
pub fn add_definition_faults(
    alloc: Global,
    schema: &Schema,
    nodes: &Nodes<'_>,
    faults: &mut Vec<Fault>,
) -> Result<(), AllocError>
    ensures { OnOk result (faults.new.items ≡ faults.old.items
        ++ spec.definition_faults (lists nodes.now) schema.now) }
{
    s01_duplicate_types::check(alloc, nodes, faults)?;
    s02_duplicate_directives::check(alloc, nodes, faults)?;
    s04_built_in_names::check(alloc, nodes, faults)?;
    s27_extensions_of_unknown_types::check(alloc, schema, nodes, faults)?;
    s28_extensions_of_another_kind::check(alloc, schema, nodes, faults)?;
    Ok(())
}

/// S05, S06, S07 and S08 on some types, S18 on others, and both on all directives.
pub fn type_faults(
    alloc: Global,
    schema: &Schema,
    types: &[Batched<SchemaType>],
    defaulted: &[Batched<SchemaType>],
) -> Result<Vec<Fault>, AllocError>
    ensures { IfOk result (λ found. found.items
        ≡ spec.type_faults_on schema.now types.now defaulted.now) }
{
    let mut faults = Vec::new(alloc);
    s05_empty_types::check(alloc, types, &mut faults)?;
    s06_duplicate_fields::check(alloc, types, &mut faults)?;
    s07_duplicate_values::check(alloc, types, &mut faults)?;
    s08_duplicate_arguments::check(alloc, schema, types, &mut faults)?;
    s18_bad_default_values::check(alloc, schema, defaulted, &mut faults)?;
    Ok(faults)
}

/// S23, S24, S25, S34 and P02.
pub fn add_root_faults(
    alloc: Global,
    files: &Files,
    schema: &Schema,
    nodes: &Nodes<'_>,
    faults: &mut Vec<Fault>,
) -> Result<(), AllocError>
    ensures { OnOk result (faults.new.items ≡ faults.old.items
        ++ spec.root_faults files.now (lists nodes.now) schema.now) }
{
    s23_missing_query_root::check(alloc, schema, faults)?;
    s24_non_object_roots::check(alloc, schema, faults)?;
    s25_shared_root_types::check(alloc, schema, faults)?;
    s34_duplicate_schemas::check(alloc, schema, nodes, faults)?;
    p02_subscription_roots::check(alloc, files, schema, faults)?;
    Ok(())
}

/// Moves faults to the end of others.
pub fn add_all(faults: &mut Vec<Fault>, more: Vec<Fault>) -> Result<(), AllocError>
    ensures { OnOk result (faults.new.items ≡ faults.old.items ++ more.items) }
{
    for fault in more {
        faults.push(fault)?;
    }
    Ok(())
}
