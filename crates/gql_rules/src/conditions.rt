//! The faults of type conditions and spreads, without what they select.
ghost use Rattle.std.specs.Prelude.{◌≡◌, ◌++◌, IfOk, OnOk, Some};
ghost use Rattle.std.specs.Option.{option_copied};
ghost use Rattle.gql_facts.specs.Nodes as nodes;
ghost use Rattle.gql_rules.specs.Answers as answers;
ghost use Rattle.gql_rules.specs.LocalFaults as spec;
ghost use Rattle.gql_rules.specs.V17FragmentSpreadIsPossible as v17;

use crate::answers::{fragment_in, possible_in};
use crate::asking::{ask_fragment, ask_possible, kind_of};
use crate::{
    directives, v12_fragment_spread_type_existence, v13_fragments_on_composite_types,
    v15_fragment_spread_target_defined, v17_fragment_spread_is_possible,
};
use gql_ast::{DirectiveLocation, Fault, FilePlace, InlineFragment, Name, Spread, Text};
use gql_facts::{FragmentFact, World};
use gql_text::Place;
use gql_types::TypeKind;
use std::alloc::{AllocError, Global};

/// A type of this kind, if the kind is composite.
pub fn composite_by(of_type: &Text, kind: Option<TypeKind>) -> Result<Option<Text>, AllocError>
    ensures { IfOk result (λ t. t ≡ answers.composite_by of_type.now kind) }
{
    let Some(kind) = kind else {
        return Ok(None);
    };
    if kind.is_composite() {
        Ok(Some(of_type.copy()?))
    } else {
        Ok(None)
    }
}

/// Adds the faults of a type condition. The result is the type, if it is composite.
pub fn check_condition<W: World>(
    alloc: Global,
    world: &mut W,
    owner: &FilePlace,
    condition: &Name,
    faults: &mut Vec<Fault>,
) -> Result<Option<Text>, AllocError>
    ensures facts { W.facts world.new ≡ W.facts world.old }
    ensures names { W.names world.new ≡ W.names world.old }
    ensures lent { W.lent world.new ≡ W.lent world.old }
    ensures within { IfOk result (λ t. t
        ≡ nodes.composite (W.facts world.old) (Some condition.now.text)) }
    ensures found { OnOk result (faults.new.items ≡ faults.old.items
        ++ spec.condition_faults (W.facts world.old) owner.now condition.now) }
{
    let kind = kind_of(alloc, world, &condition.text)?;
    v12_fragment_spread_type_existence::check(alloc, owner, condition, kind, faults)?;
    v13_fragments_on_composite_types::check(alloc, owner, condition, kind, faults)?;
    composite_by(&condition.text, kind)
}

/// Adds the fault of a type condition at a place within a parent type, if it is impossible.
fn check_possible<W: World>(
    alloc: Global,
    world: &mut W,
    owner: &FilePlace,
    parent: &Option<Text>,
    condition: &Text,
    place: Place,
    faults: &mut Vec<Fault>,
) -> Result<(), AllocError>
    ensures facts { W.facts world.new ≡ W.facts world.old }
    ensures names { W.names world.new ≡ W.names world.old }
    ensures lent { W.lent world.new ≡ W.lent world.old }
    ensures found { OnOk result (faults.new.items ≡ faults.old.items
        ++ v17.faults_at (W.facts world.old) owner.now parent.now condition.now place) }
{
    let of_type = Some(condition.copy()?);
    let possible = ask_possible(alloc, world, &of_type)?;
    let around = ask_possible(alloc, world, parent)?;
    let (these, those) = (possible_in(&possible), possible_in(&around));
    v17_fragment_spread_is_possible::check(alloc, owner, condition, place, these, those, faults)?;
    Ok(())
}

/// Adds the faults of the type condition of an inline fragment. The result is the parent type
/// within.
fn check_within<W: World>(
    alloc: Global,
    world: &mut W,
    owner: &FilePlace,
    parent: &Option<Text>,
    condition: &Option<Name>,
    faults: &mut Vec<Fault>,
) -> Result<Option<Text>, AllocError>
    ensures facts { W.facts world.new ≡ W.facts world.old }
    ensures names { W.names world.new ≡ W.names world.old }
    ensures lent { W.lent world.new ≡ W.lent world.old }
    ensures within { IfOk result (λ t. t
        ≡ nodes.parent_within (W.facts world.old) parent.now condition.now) }
    ensures found { OnOk result (faults.new.items ≡ faults.old.items
        ++ spec.inline_faults (W.facts world.old) owner.now parent.now condition.now) }
{
    match condition {
        Some(condition) => {
            let within = check_condition(alloc, world, owner, condition, faults)?;
            let (text, place) = (&condition.text, condition.place);
            check_possible(alloc, world, owner, parent, text, place, faults)?;
            Ok(within)
        }
        None => match parent {
            Some(parent) => Ok(Some(parent.copy()?)),
            None => Ok(None),
        },
    }
}

/// Adds the faults of an inline fragment. The result is the parent type within.
pub fn check_inline<W: World>(
    alloc: Global,
    world: &mut W,
    owner: &FilePlace,
    parent: &Option<Text>,
    inline: &InlineFragment,
    faults: &mut Vec<Fault>,
) -> Result<Option<Text>, AllocError>
    ensures facts { W.facts world.new ≡ W.facts world.old }
    ensures names { W.names world.new ≡ W.names world.old }
    ensures lent { W.lent world.new ≡ W.lent world.old }
    ensures within { IfOk result (λ t. t
        ≡ nodes.parent_within (W.facts world.old) parent.now inline.now.condition) }
    ensures found { OnOk result (faults.new.items ≡ faults.old.items
        ++ spec.node_faults (W.facts world.old) owner.now
        (nodes.inline (nodes.inline_node parent.now inline.now))) }
{
    let within = check_within(alloc, world, owner, parent, &inline.condition, faults)?;
    let applied = inline.directives.as_slice();
    directives::check(
        alloc,
        world,
        owner,
        DirectiveLocation::InlineFragment,
        applied,
        faults,
    )?;
    Ok(within)
}

/// Adds the fault of a spread whose fragment is known, if its condition is impossible.
fn check_target<W: World>(
    alloc: Global,
    world: &mut W,
    owner: &FilePlace,
    parent: &Option<Text>,
    spread: &Spread,
    known: Option<&FragmentFact>,
    faults: &mut Vec<Fault>,
) -> Result<(), AllocError>
    ensures facts { W.facts world.new ≡ W.facts world.old }
    ensures names { W.names world.new ≡ W.names world.old }
    ensures lent { W.lent world.new ≡ W.lent world.old }
    ensures found { OnOk result (faults.new.items ≡ faults.old.items
        ++ v17.faults_by_target (W.facts world.old) owner.now parent.now spread.now
        (option_copied known.entry)) }
{
    if let Some(known) = known {
        let condition = &known.fragment.get().condition.text;
        check_possible(
            alloc,
            world,
            owner,
            parent,
            condition,
            spread.name.place,
            faults,
        )?;
    }
    Ok(())
}

/// Adds the faults of a spread.
pub fn check_spread<W: World>(
    alloc: Global,
    world: &mut W,
    owner: &FilePlace,
    parent: &Option<Text>,
    spread: &Spread,
    faults: &mut Vec<Fault>,
) -> Result<(), AllocError>
    ensures facts { W.facts world.new ≡ W.facts world.old }
    ensures names { W.names world.new ≡ W.names world.old }
    ensures lent { W.lent world.new ≡ W.lent world.old }
    ensures found { OnOk result (faults.new.items ≡ faults.old.items
        ++ spec.node_faults (W.facts world.old) owner.now (nodes.spread parent.now spread.now)) }
{
    let fact = ask_fragment(alloc, world, &spread.name.text)?;
    let known = fragment_in(&fact);
    v15_fragment_spread_target_defined::check(alloc, owner, spread, known, faults)?;
    check_target(alloc, world, owner, parent, spread, known, faults)?;
    let applied = spread.directives.as_slice();
    directives::check(
        alloc,
        world,
        owner,
        DirectiveLocation::FragmentSpread,
        applied,
        faults,
    )?;
    Ok(())
}
