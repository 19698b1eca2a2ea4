//! The parent types of selection sets.
ghost use Rattle.std.specs.Prelude.{◌≡◌, IfOk, Some};
ghost use Rattle.gql_facts.specs.Nodes as nodes;
ghost use Rattle.gql_facts.specs.OwnReads.{selected_root, root_parent as the_root_parent};
ghost use Rattle.gql_rules.specs.Answers.{composite_by};

use gql_ast::{Name, OperationKind, Text};
use gql_facts::{Fact, Key, World};
use gql_rules::kind_of;
use gql_types::TypeKind;
use std::alloc::{AllocError, Global};

/// The type of this name, if its kind is composite.
pub fn composite_by_kind(of_type: &Text, kind: Option<TypeKind>) -> Result<Option<Text>, AllocError>
    ensures { IfOk result (λ t. t ≡ composite_by of_type.now kind) }
{
    let Some(kind) = kind else {
        return Ok(None);
    };
    if kind.is_composite() {
        Ok(Some(of_type.copy()?))
    } else {
        Ok(None)
    }
}

/// The type of this name, if it is composite.
pub fn composite<W: World>(
    alloc: Global,
    world: &mut W,
    of_type: &Text,
) -> Result<Option<Text>, AllocError>
    ensures facts { W.facts world.new ≡ W.facts world.old }
    ensures names { W.names world.new ≡ W.names world.old }
    ensures lent { W.lent world.new ≡ W.lent world.old }
    ensures answer { IfOk result (λ t. t
        ≡ nodes.composite (W.facts world.old) (Some of_type.now)) }
{
    let kind = kind_of(alloc, world, of_type)?;
    composite_by_kind(of_type, kind)
}

/// A copy of the name, if there is one.
fn copied(name: &Option<Text>) -> Result<Option<Text>, AllocError>
    ensures { IfOk result (λ t. t ≡ name.now) }
{
    match name {
        Some(name) => Ok(Some(name.copy()?)),
        None => Ok(None),
    }
}

/// The parent type within an inline fragment with this condition.
pub fn parent_within<W: World>(
    alloc: Global,
    world: &mut W,
    parent: &Option<Text>,
    condition: &Option<Name>,
) -> Result<Option<Text>, AllocError>
    ensures facts { W.facts world.new ≡ W.facts world.old }
    ensures names { W.names world.new ≡ W.names world.old }
    ensures lent { W.lent world.new ≡ W.lent world.old }
    ensures answer { IfOk result (λ t. t
        ≡ nodes.parent_within (W.facts world.old) parent.now condition.now) }
{
    match condition {
        Some(condition) => composite(alloc, world, &condition.text),
        None => copied(parent),
    }
}

/// The name of the root operation type that an answer gives.
fn root_in(fact: &Fact) -> Result<Option<Text>, AllocError>
    ensures { IfOk result (λ t. t ≡ nodes.root_in fact.now) }
{
    match fact {
        Fact::Root(name) => Ok(Some(name.get().copy()?)),
        _ => Ok(None),
    }
}

/// The name of the type that an operation of this kind selects from.
fn selected_type<W: World>(
    alloc: Global,
    world: &mut W,
    kind: OperationKind,
) -> Result<Option<Text>, AllocError>
    ensures facts { W.facts world.new ≡ W.facts world.old }
    ensures names { W.names world.new ≡ W.names world.old }
    ensures lent { W.lent world.new ≡ W.lent world.old }
    ensures answer { IfOk result (λ t. t ≡ selected_root (W.facts world.old) kind) }
{
    let fact = world.fact(alloc, &Key::RootOf(kind))?;
    root_in(&fact)
}

/// The parent type of the fields of an operation of this kind.
pub fn root_parent<W: World>(
    alloc: Global,
    world: &mut W,
    kind: OperationKind,
) -> Result<Option<Text>, AllocError>
    ensures facts { W.facts world.new ≡ W.facts world.old }
    ensures names { W.names world.new ≡ W.names world.old }
    ensures lent { W.lent world.new ≡ W.lent world.old }
    ensures answer { IfOk result (λ t. t ≡ the_root_parent (W.facts world.old) kind) }
{
    let name = selected_type(alloc, world, kind)?;
    match &name {
        Some(name) => composite(alloc, world, name),
        None => Ok(None),
    }
}
