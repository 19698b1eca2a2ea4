//! The definitions of schema files that the rules for all files together visit.
ghost use Rattle.std.specs.Prelude.{◌≡◌, ◌+◌, IfOk, IfSome, IsTrue, length};
ghost use Rattle.gql_ast.specs.declared.files.Files.{Files as TheFiles};
ghost use Rattle.gql_built_in.specs.BuiltIn.{built_in};
ghost use Rattle.gql_node_rules.specs.Borrowed.{lists};
ghost use Rattle.gql_schema_rules.specs.ChecksOfFiles.{AreChecksOf};
ghost use Rattle.gql_schema_rules.specs.NodesToCheck as spec;
ghost use Rattle.gql_schema_rules.specs.SchemaFaults.{nodes_in};
ghost use Rattle.gql_types.specs.Definitions.{type_definitions};
ghost use Rattle.gql_types.specs.Schemas.{schema_of};

use gql_ast::{FileMap, Files, Shared};
use gql_node_rules::{FileCheck, Nodes, define_types, definition_nodes, other_nodes};
use gql_types::Schema;
use std::alloc::{AllocError, Global};

/// How many types are built in: scalars, with Float or without it, and the types of introspection.
#[tactic(auto, using(crate::proofs::DefinedOnce::count_with_float, crate::proofs::DefinedOnce::count_without_float))]
fn built_in_count(floats: bool) -> usize
    ensures { result ≡ length (type_definitions (built_in floats)) }
{
    if floats { 13 } else { 12 }
}

/// How many types of a schema are not built in; none if there are too few.
fn own_types(schema: &Schema, floats: bool) -> Option<usize>
    ensures { IfSome result (λ own. own + length (type_definitions (built_in floats))
        ≡ length schema.now.types) }
{
    let all = schema.types().len();
    let others = built_in_count(floats);
    if all >= others {
        Some(all - others)
    } else {
        None
    }
}

/// Whether it is seen by the number of types that the names of all type definitions differ, also from
/// those of built-in types: a schema has as many types as its files define, and as are built in, as
/// the first definition of each name alone makes a type. The checks of the files count what these
/// define. `floats` says whether Float is built in.
fn are_once(checks: &FileMap<Shared<FileCheck>>, schema: &Schema, floats: bool) -> bool
    ensures { IsTrue result → (files : TheFiles) → files.profile.floats ≡ floats
        → schema.now ≡ schema_of files → AreChecksOf schema.now files.schema checks.now
        → spec.AreOnce (nodes_in files) }
{
    match own_types(schema, floats) {
        Some(own) => define_types(checks, own),
        None => false,
    }
}

/// The definitions and extensions of the files, without their parts; the definitions of types only if
/// one of them may be at fault by its name. Otherwise the checks of the files have all that is
/// needed.
pub fn nodes_to_check<'t>(
    alloc: Global,
    files: &'t Files,
    checks: &'t FileMap<Shared<FileCheck>>,
    schema: &Schema,
) -> Result<Nodes<'t>, AllocError>
    ensures { IfOk result (λ nodes. schema.now ≡ schema_of files.now
        → AreChecksOf schema.now files.now.schema checks.now
        → spec.FindsSame schema.now (lists nodes) (nodes_in files.now)) }
{
    if are_once(checks, schema, files.profile.floats) {
        let others = other_nodes(alloc, checks)?;
        return Ok(others);
    }
    let all = definition_nodes(alloc, files)?;
    Ok(all)
}
