//! The faults of a field, without what it selects.
ghost use Rattle.std.specs.Prelude.{◌≡◌, ◌++◌, IfOk, OnOk};
ghost use Rattle.std.specs.Option.{option_copied};
ghost use Rattle.gql_facts.specs.Nodes as nodes;
ghost use Rattle.gql_rules.specs.Answers as answers;
ghost use Rattle.gql_rules.specs.LocalFaults as spec;

use crate::answers::field_in;
use crate::asking::{ask_field, kind_of};
use crate::parts::start_of;
use crate::{
    arguments, directives, v04_field_selections, v07_leaf_field_selections, v18_to_v21_values,
};
use gql_ast::{DirectiveLocation, Fault, Field, FilePlace, Text};
use gql_facts::{FieldFact, InputFact, World};
use gql_types::{DefinedInputs, TypeKind};
use std::alloc::{AllocError, Global};

/// The arguments that a field defines, if it is known.
fn arguments_of(known: Option<&FieldFact>) -> Option<&DefinedInputs<InputFact>>
    ensures { option_copied result ≡ spec.of_field (option_copied known.entry) }
{
    match known {
        Some(known) => Some(&known.arguments),
        None => None,
    }
}

/// The kind of a field's type, if it is known.
fn kind_of_field<W: World>(
    alloc: Global,
    world: &mut W,
    known: Option<&FieldFact>,
) -> Result<Option<TypeKind>, AllocError>
    ensures facts { W.facts world.new ≡ W.facts world.old }
    ensures names { W.names world.new ≡ W.names world.old }
    ensures lent { W.lent world.new ≡ W.lent world.old }
    ensures answer { IfOk result (λ k. k
        ≡ answers.kind_of_field (W.facts world.old) (option_copied known.entry)) }
{
    match known {
        Some(known) => kind_of(alloc, world, &known.of_type.name),
        None => Ok(None),
    }
}

/// The parent type of what a field selects.
fn selected_type(
    known: Option<&FieldFact>,
    kind: Option<TypeKind>,
) -> Result<Option<Text>, AllocError>
    ensures { IfOk result (λ t. t ≡ answers.selected_type (option_copied known.entry) kind) }
{
    let Some(known) = known else {
        return Ok(None);
    };
    let Some(kind) = kind else {
        return Ok(None);
    };
    if kind.is_composite() {
        Ok(Some(known.of_type.name.copy()?))
    } else {
        Ok(None)
    }
}

/// The faults of a field by what is known of it.
fn check_known(
    alloc: Global,
    owner: &FilePlace,
    parent: &Option<Text>,
    field: &Field,
    known: Option<&FieldFact>,
    kind: Option<TypeKind>,
    faults: &mut Vec<Fault>,
) -> Result<(), AllocError>
    ensures { OnOk result (faults.new.items ≡ faults.old.items
        ++ spec.field_faults_by owner.now (nodes.field_node parent.now field.now)
        (option_copied known.entry) kind) }
{
    let given = field.arguments.as_slice();
    v04_field_selections::check(alloc, owner, parent, field, known, faults)?;
    v07_leaf_field_selections::check(alloc, owner, parent, field, kind, faults)?;
    arguments::check(
        alloc,
        owner,
        start_of(field),
        arguments_of(known),
        given,
        faults,
    )?;
    Ok(())
}

/// Adds the faults of a field. The result is the parent type of what it selects.
pub fn check<W: World>(
    alloc: Global,
    world: &mut W,
    owner: &FilePlace,
    parent: &Option<Text>,
    field: &Field,
    faults: &mut Vec<Fault>,
) -> Result<Option<Text>, AllocError>
    ensures facts { W.facts world.new ≡ W.facts world.old }
    ensures names { W.names world.new ≡ W.names world.old }
    ensures lent { W.lent world.new ≡ W.lent world.old }
    ensures below { IfOk result (λ t. t
        ≡ nodes.parent_below (W.facts world.old) parent.now field.now.name.text) }
    ensures found { OnOk result (faults.new.items ≡ faults.old.items
        ++ spec.node_faults (W.facts world.old) owner.now
        (nodes.field (nodes.field_node parent.now field.now))) }
{
    let fact = ask_field(alloc, world, parent, &field.name.text)?;
    let known = field_in(&fact);
    let kind = kind_of_field(alloc, world, known)?;
    check_known(alloc, owner, parent, field, known, kind, faults)?;
    let given = field.arguments.as_slice();
    v18_to_v21_values::check(alloc, world, owner, arguments_of(known), given, faults)?;
    let applied = field.directives.as_slice();
    directives::check(
        alloc,
        world,
        owner,
        DirectiveLocation::Field,
        applied,
        faults,
    )?;
    let below = selected_type(known, kind)?;
    Ok(below)
}
