//! What the rules on nodes found in one schema file, kept over edits of other files.
ghost use Rattle.std.specs.Prelude.{◌≡◌, ◌&&◌, ◌||◌, ℕ, List, [], false, IfOk, IsTrue, bytes_eq};
ghost use Rattle.std.specs.HashSet.{contains};
ghost use Rattle.std.specs.List.{list_any};
ghost use Rattle.gql_ast.specs.declared.definition.Document.{Document as TheDocument};
ghost use Rattle.gql_types.specs.declared.schema.Schema.{Schema as TheSchema};
ghost use Rattle.gql_node_rules.specs.Borrowed.{lists};
ghost use Rattle.gql_node_rules.specs.DirectiveUses.{FitsAsBefore};
ghost use Rattle.gql_node_rules.specs.FileChecks as spec;
ghost use Rattle.gql_node_rules.specs.SchemaChanges.{IsChange};

use crate::directive_use::DirectiveUse;
use crate::file_definitions::FileDefinitions;
use crate::file_faults::{check_directives, check_references};
use crate::nodes::{Nodes, nodes_of_file};
use crate::rules::{check_built_in_directives, check_names};
use crate::s36_misplaced_appends::{check_definitions, check_extensions};
use crate::schema_change::SchemaChange;
use gql_ast::{Document, Fault, Shared, Text};
use gql_types::Schema;
use std::alloc::{AllocError, Global};
use std::collections::HashSet;

/// The faults that a schema file has by itself, and what of the schema they depend on; and what the
/// file gives to the rules that are checked for all files together.
#[derive(Drop)]
pub struct FileCheck {
    faults: Vec<Shared<Fault>>,
    /// The names of the types that the file refers to.
    types: HashSet<Text>,
    directives: DirectiveUse,
    /// Whether `@append` is on a field.
    has_appends: bool,
    definitions: FileDefinitions,
}

/// These faults, so that they can be shared.
fn shared_faults(alloc: Global, faults: Vec<Fault>) -> Result<Vec<Shared<Fault>>, AllocError>
    ensures { IfOk result (λ shared. shared.items ≡ faults.items) }
{
    let mut shared = Vec::with_capacity(alloc, faults.len())?;
    for fault in faults {
        shared.push(Shared::new(alloc, fault)?)?;
    }
    Ok(shared)
}

/// Whether `@append` is on a field of these nodes: S36 reports each of them if there is no mutation
/// root type.
fn has_appends(alloc: Global, nodes: &Nodes<'_>) -> Result<bool, AllocError>
    ensures { IfOk result (λ has. has ≡ false → spec.appends (lists nodes.now) ≡ []) }
{
    let mut faults = Vec::new(alloc);
    check_definitions(alloc, None, nodes.types.as_slice(), &mut faults)?;
    check_extensions(alloc, None, nodes.type_extensions.as_slice(), &mut faults)?;
    let all = faults.as_slice();
    Ok(!all.is_empty())
}

fn are_both(first: bool, second: bool) -> bool
    ensures { result ≡ (first && second) }
{
    first && second
}

fn is_either(first: bool, second: bool) -> bool
    ensures { result ≡ (first || second) }
{
    first || second
}

/// Whether one of these names is in the set.
fn has_one(names: &[Text], set: &HashSet<Text>) -> bool
    ensures { result ≡ list_any (contains bytes_eq set.now) names.now }
{
    names.iter().any(|name| set.contains(name))
}

impl FileCheck {
    /// Checks a schema file by the rules on nodes.
    pub fn of(alloc: Global, document: &Document, schema: &Schema) -> Result<FileCheck, AllocError>
        ensures { IfOk result (spec.IsCheckOf schema.now document.now) }
    {
        let nodes = nodes_of_file(alloc, document)?;
        let mut faults = Vec::new(alloc);
        check_names(alloc, &nodes, &mut faults)?;
        let types = check_references(alloc, schema, &nodes, &mut faults)?;
        let directives = check_directives(alloc, schema, &nodes, &mut faults)?;
        check_built_in_directives(alloc, schema, &nodes, &mut faults)?;
        let has_appends = has_appends(alloc, &nodes)?;
        let faults = shared_faults(alloc, faults)?;
        let definitions = FileDefinitions::of(alloc, document)?;
        Ok(FileCheck {
            faults,
            types,
            directives,
            has_appends,
            definitions,
        })
    }

    /// The faults that the file has by itself.
    pub fn faults(&self) -> &[Shared<Fault>]
        ensures { result.now ≡ self.now.faults.items }
    {
        self.faults.as_slice()
    }

    /// What the file gives to the rules that are checked for all files together.
    pub(crate) fn definitions(&self) -> &FileDefinitions
        ensures { result.now ≡ self.now.definitions }
    {
        &self.definitions
    }

    /// Whether the values that the file's directives give may fit their types in another way.
    fn has_other_inputs(&self, change: &SchemaChange) -> bool
        ensures { result ≡ false → FitsAsBefore change.now self.now.directives }
    {
        let inputs = change.inputs.as_slice();
        let is_changed = has_one(inputs, &self.directives.values);
        let may_differ = is_either(self.directives.has_input_objects, is_changed);
        is_either(change.floats, are_both(!inputs.is_empty(), may_differ))
    }

    /// Whether the check is still that of the file after this change of the schema.
    pub fn is_kept(&self, change: &SchemaChange) -> bool
        ensures { IsTrue result → (d : TheDocument) → (s t : TheSchema)
            → spec.IsCheckOf s d self.now → IsChange change.now s t
            → spec.IsCheckOf t d self.now }
    {
        let directives = are_both(change.directives, self.directives.has_directives);
        let appends = are_both(change.mutation_root, self.has_appends);
        let types = has_one(change.kinds.as_slice(), &self.types);
        let values = self.has_other_inputs(change);
        !is_either(is_either(directives, appends), is_either(types, values))
    }
}
