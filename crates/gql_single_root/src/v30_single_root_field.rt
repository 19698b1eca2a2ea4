//! V30, Single Root Field: a subscription has no root field, root fields of several response names,
//! or one that is an introspection field.
//! <https://spec.graphql.org/October2021/#sec-Single-root-field>
//!
//! `subscriptions.txt` of tables_rules has examples.
ghost use Rattle.std.specs.Prelude.{◌≡◌, ◌≢◌, IfOk};
ghost use Rattle.std.specs.List.{AllPairs};
ghost use Rattle.gql_ast.specs.declared.definition.Tree.TheVariants as trees;
ghost use Rattle.gql_ast.specs.declared.executable.OperationKind.TheVariants as kinds;
ghost use Rattle.gql_facts.specs.Members.{Lists};
ghost use Rattle.gql_facts.specs.Nodes.{root_in};
ghost use Rattle.gql_facts.specs.Reads.{Reaches};
ghost use Rattle.gql_facts.specs.declared.key.Key.TheVariants as keys;
ghost use Rattle.gql_single_root.specs.V30SingleRootField.{IsFault, IsSingleRootFault};
ghost use Rattle.gql_single_root.specs.Walks.{HasAll, IsFaultOf};

use crate::fault::RootFault;
use crate::faults::{are_several, check_fields, fault_of_none};
use crate::walk::{RootField, root_fields};
use gql_ast::{Definition, FileName, Operation, OperationKind, Text, Tree};
use gql_facts::{Fact, FragmentFact, Key, World};
use indexmap::IndexSet;
use std::alloc::{AllocError, Global};

/// The faults of an operation of this file with these root fields.
fn faults_of(
    alloc: Global,
    file: &FileName,
    operation: &Operation,
    fields: &[RootField<'_>],
) -> Result<IndexSet<RootFault>, AllocError>
    ensures found { IfOk result (λ found. Lists found.keys
        (IsFaultOf fields.now file.now operation.now)) }
    ensures once { IfOk result (λ found. AllPairs (λ x y. x ≢ y) found.keys) }
{
    let several = are_several(fields);
    let mut faults = IndexSet::new(alloc);
    check_fields(fields, several, &mut faults)?;
    if !fields.is_empty() {
        return Ok(faults);
    }
    let fault = fault_of_none(alloc, file, operation)?;
    faults.insert(fault)?;
    Ok(faults)
}

/// The faults of a subscription of this file, with this root.
fn root_faults<W: World>(
    alloc: Global,
    world: &mut W,
    root: &Text,
    file: &FileName,
    operation: &Operation,
    members: &[FragmentFact],
) -> Result<IndexSet<RootFault>, AllocError>
    requires { HasAll (W.facts world.old) root.now operation.now.selections members.now }
    ensures facts { W.facts world.new ≡ W.facts world.old }
    ensures names { W.names world.new ≡ W.names world.old }
    ensures lent { W.lent world.new ≡ W.lent world.old }
    ensures found { IfOk result (λ found. Lists found.keys
        (IsFault (W.facts world.old) root.now file.now operation.now)) }
    ensures once { IfOk result (λ found. AllPairs (λ x y. x ≢ y) found.keys) }
{
    let set = operation.selections.as_slice();
    let fields = root_fields(alloc, world, root, file, set, members)?;
    let faults = faults_of(alloc, file, operation, fields.as_slice())?;
    Ok(faults)
}

/// The name of the subscription root, if it is known.
fn subscription_root<W: World>(alloc: Global, world: &mut W) -> Result<Option<Text>, AllocError>
    ensures facts { W.facts world.new ≡ W.facts world.old }
    ensures names { W.names world.new ≡ W.names world.old }
    ensures lent { W.lent world.new ≡ W.lent world.old }
    ensures root { IfOk result (λ root. root
        ≡ root_in (W.facts world.old (keys.RootOf kinds.Subscription))) }
{
    let root = world.fact(alloc, &Key::RootOf(OperationKind::Subscription))?;
    match &root {
        Fact::Root(name) => Ok(Some(name.get().copy()?)),
        _ => Ok(None),
    }
}

/// The faults of a subscription, which is the definition.
fn subscription_faults<W: World>(
    alloc: Global,
    world: &mut W,
    definition: &Definition,
    operation: &Operation,
    members: &[FragmentFact],
) -> Result<IndexSet<RootFault>, AllocError>
    requires members { Lists members.now (Reaches (W.facts world.old) definition.now) }
    requires tree { definition.now.tree ≡ trees.Operation operation.now }
    requires kind { operation.now.kind ≡ kinds.Subscription }
    ensures facts { W.facts world.new ≡ W.facts world.old }
    ensures names { W.names world.new ≡ W.names world.old }
    ensures lent { W.lent world.new ≡ W.lent world.old }
    ensures found { IfOk result (λ found.
        Lists found.keys (IsSingleRootFault (W.facts world.old) definition.now)) }
    ensures once { IfOk result (λ found. AllPairs (λ x y. x ≢ y) found.keys) }
{
    let root = subscription_root(alloc, world)?;
    match &root {
        Some(root) => {
            let file = &definition.file;
            let faults = root_faults(alloc, world, root, file, operation, members)?;
            Ok(faults)
        }
        None => Ok(IndexSet::new(alloc)),
    }
}

/// The faults of an operation, which is the definition.
fn operation_faults<W: World>(
    alloc: Global,
    world: &mut W,
    definition: &Definition,
    operation: &Operation,
    members: &[FragmentFact],
) -> Result<IndexSet<RootFault>, AllocError>
    requires members { Lists members.now (Reaches (W.facts world.old) definition.now) }
    requires tree { definition.now.tree ≡ trees.Operation operation.now }
    ensures facts { W.facts world.new ≡ W.facts world.old }
    ensures names { W.names world.new ≡ W.names world.old }
    ensures lent { W.lent world.new ≡ W.lent world.old }
    ensures found { IfOk result (λ found.
        Lists found.keys (IsSingleRootFault (W.facts world.old) definition.now)) }
    ensures once { IfOk result (λ found. AllPairs (λ x y. x ≢ y) found.keys) }
{
    match operation.kind {
        OperationKind::Subscription => {
            let faults = subscription_faults(alloc, world, definition, operation, members)?;
            Ok(faults)
        }
        OperationKind::Query => Ok(IndexSet::new(alloc)),
        OperationKind::Mutation => Ok(IndexSet::new(alloc)),
    }
}

/// The faults of a definition by V30 (GraphQL specification, 5.2.3.1), each once: those of a
/// subscription. Another definition has none, nor has a subscription where the root is not known.
/// The caller has the fragments that the definition reaches. The world answers as before, also if an
/// allocation fails.
pub fn single_root_faults<W: World>(
    alloc: Global,
    world: &mut W,
    definition: &Definition,
    members: &[FragmentFact],
) -> Result<IndexSet<RootFault>, AllocError>
    requires { Lists members.now (Reaches (W.facts world.old) definition.now) }
    ensures facts { W.facts world.new ≡ W.facts world.old }
    ensures names { W.names world.new ≡ W.names world.old }
    ensures lent { W.lent world.new ≡ W.lent world.old }
    ensures found { IfOk result (λ found.
        Lists found.keys (IsSingleRootFault (W.facts world.old) definition.now)) }
    ensures once { IfOk result (λ found. AllPairs (λ x y. x ≢ y) found.keys) }
{
    match &definition.tree {
        Tree::Operation(operation) => {
            let operation = operation.get();
            let faults = operation_faults(alloc, world, definition, operation, members)?;
            Ok(faults)
        }
        _ => Ok(IndexSet::new(alloc)),
    }
}
