//! The parent types of selection sets.
ghost use Rattle.std.specs.Prelude.{◌≡◌, IfOk, option_map};
ghost use Rattle.std.specs.Option.{option_copied};
ghost use Rattle.gql_facts.specs.Nodes as spec;
ghost use Rattle.gql_facts.specs.OwnReads.{root_parent};
ghost use Rattle.gql_facts.specs.declared.fact.FieldFact.{FieldFact as AField};

use gql_ast::{Name, OperationKind, Text};
use gql_facts::{Fact, FieldFact, Key, World};
use gql_rules::kind_of;
use std::alloc::{AllocError, Global};

/// A type, if it is known and composite.
#[tactic(auto, using(gql_rules::proofs::Parents::composite_is))]
pub fn composite<W: World>(
    alloc: Global,
    world: &mut W,
    of_type: Option<&Text>,
) -> Result<Option<Text>, AllocError>
    ensures facts { W.facts world.new ≡ W.facts world.old }
    ensures names { W.names world.new ≡ W.names world.old }
    ensures lent { W.lent world.new ≡ W.lent world.old }
    ensures parent { IfOk result (λ t. t
        ≡ spec.composite (W.facts world.old) (option_copied of_type.entry)) }
{
    let Some(of_type) = of_type else {
        return Ok(None);
    };
    let Some(kind) = kind_of(alloc, world, of_type)? else {
        return Ok(None);
    };
    if kind.is_composite() {
        Ok(Some(of_type.copy()?))
    } else {
        Ok(None)
    }
}

/// The named type of a field, if it is known.
pub fn type_of(known: Option<&FieldFact>) -> Option<&Text>
    ensures { option_copied result
        ≡ option_map (λ (f : AField). f.of_type.name) (option_copied known.entry) }
{
    match known {
        Some(known) => Some(&known.of_type.name),
        None => None,
    }
}

/// The parent type within an inline fragment.
pub fn parent_within<W: World>(
    alloc: Global,
    world: &mut W,
    parent: &Option<Text>,
    condition: &Option<Name>,
) -> Result<Option<Text>, AllocError>
    ensures facts { W.facts world.new ≡ W.facts world.old }
    ensures names { W.names world.new ≡ W.names world.old }
    ensures lent { W.lent world.new ≡ W.lent world.old }
    ensures parent { IfOk result (λ t. t
        ≡ spec.parent_within (W.facts world.old) parent.now condition.now) }
{
    match condition {
        Some(condition) => composite(alloc, world, Some(&condition.text)),
        None => match parent {
            Some(parent) => Ok(Some(parent.copy()?)),
            None => Ok(None),
        },
    }
}

/// The name of the type that an operation selects from, by the answer for the root operation type of
/// its kind.
fn selected_root(root: &Fact) -> Option<&Text>
    ensures { option_copied result ≡ spec.root_in root.now }
{
    match root {
        Fact::Root(name) => Some(name.get()),
        _ => None,
    }
}

/// The parent type of the fields of an operation.
pub fn parent_of_operation<W: World>(
    alloc: Global,
    world: &mut W,
    kind: OperationKind,
) -> Result<Option<Text>, AllocError>
    ensures facts { W.facts world.new ≡ W.facts world.old }
    ensures names { W.names world.new ≡ W.names world.old }
    ensures lent { W.lent world.new ≡ W.lent world.old }
    ensures parent { IfOk result (λ t. t ≡ root_parent (W.facts world.old) kind) }
{
    let root = world.fact(alloc, &Key::RootOf(kind))?;
    composite(alloc, world, selected_root(&root))
}
