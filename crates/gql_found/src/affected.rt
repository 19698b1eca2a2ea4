//! Which operations are not served: those that own a fault, and those that reach a fragment that
//! owns one.

ghost use Rattle.std.specs.Prelude.{◌≡◌, ◌++◌, IfOk, OnOk, map};
ghost use Rattle.gql_found.specs.Affected.{AreAffected, definition_of};
ghost use Rattle.gql_found.specs.Owners.{is_owner};
ghost use Rattle.gql_found.specs.Steps.{AddsAffected, IsAgainst, IsAgainstBy, against_in, owns};

use crate::finding::name_of;
use crate::owners::Owners;
use crate::sources::{Sources, start_of};
use gql_ast::{Definition, Fault, Operation, Shared, Text, Tree};
use gql_facts::{FragmentFact, World, walk_reads};
use gql_findings::{Affected, Spot};
use std::alloc::{AllocError, Global};

/// What stands against a definition: nothing, a fault of its own, or one of a fragment that it
/// reaches.
#[derive(Drop)]
pub enum Against {
    Nothing,
    Own,
    Fragment(Text),
}

/// Whether a fragment owns a fault.
fn owns_fault(owners: &Owners, fragment: &FragmentFact) -> Result<bool, AllocError>
    ensures { IfOk result (λ is. is ≡ owns owners.now (definition_of fragment.now)) }
{
    let definition = Definition {
        file: fragment.file.copy()?,
        tree: Tree::Fragment(fragment.fragment.clone()?),
    };
    let has = owners.has(&definition)?;
    Ok(has)
}

/// The first of these fragments that owns a fault, if a definition owns none.
fn faulty_fragment(owners: &Owners, members: &[FragmentFact]) -> Result<Against, AllocError>
    ensures { IfOk result (IsAgainstBy (owns owners.now) members.now) }
{
    for member in members {
        if owns_fault(owners, member)? {
            return Ok(Against::Fragment(member.fragment.get().name.text.copy()?));
        }
    }
    Ok(Against::Nothing)
}

/// What stands against a definition.
fn find_against<W: World>(
    alloc: Global,
    world: &mut W,
    owners: &Owners,
    definition: &Definition,
) -> Result<Against, AllocError>
    ensures facts { W.facts world.new ≡ W.facts world.old }
    ensures against { IfOk result
        (IsAgainst (W.facts world.old) (owns owners.now) definition.now) }
{
    let has = owners.has(definition)?;
    if has {
        return Ok(Against::Own);
    }
    let walk = walk_reads(alloc, world, definition)?;
    let found = faulty_fragment(owners, walk.members.as_slice())?;
    Ok(found)
}

/// Adds an operation that is not served.
fn add_against(
    operation: &Operation,
    spot: Spot,
    against: Against,
    affected: &mut Vec<Affected>,
) -> Result<(), AllocError>
    ensures { OnOk result (affected.new.items
        ≡ affected.old.items ++ against_in operation.now spot against) }
{
    let through = match against {
        Against::Nothing => return Ok(()),
        Against::Own => None,
        Against::Fragment(name) => Some(name),
    };
    affected.push(Affected {
        kind: operation.kind,
        name: name_of(operation)?,
        spot,
        through,
    })?;
    Ok(())
}

/// Adds a definition, if it is an operation that is not served.
fn add_affected<W: World>(
    alloc: Global,
    world: &mut W,
    sources: &Sources,
    owners: &Owners,
    definition: &Definition,
    affected: &mut Vec<Affected>,
) -> Result<(), AllocError>
    ensures facts { W.facts world.new ≡ W.facts world.old }
    ensures added { OnOk result (AddsAffected sources.now (W.facts world.old) (owns owners.now)
        definition.now affected.old.items affected.new.items) }
{
    let Tree::Operation(operation) = &definition.tree else {
        return Ok(());
    };
    let against = find_against(alloc, world, owners, definition)?;
    let start = start_of(definition)?;
    let spot = sources.spot(&start);
    add_against(operation.get(), spot, against, affected)
}

/// The operations among these definitions that are not served.
fn affected_among<W: World>(
    alloc: Global,
    world: &mut W,
    sources: &Sources,
    owners: &Owners,
    definitions: &[&Definition],
) -> Result<Vec<Affected>, AllocError>
    ensures { IfOk result (λ affected. AreAffected sources.now (W.facts world.old) (owns owners.now)
        (map (λ d. d.now) definitions.now) affected.items) }
{
    let mut affected = Vec::new(alloc);
    for definition in definitions {
        add_affected(alloc, world, sources, owners, definition, &mut affected)?;
    }
    Ok(affected)
}

/// The operations among these definitions that are not served in a world, by the faults of its report.
pub fn affected_of<W: World>(
    alloc: Global,
    world: &mut W,
    definitions: &[&Definition],
    sources: &Sources,
    faults: &[Shared<Fault>],
) -> Result<Vec<Affected>, AllocError>
    ensures { IfOk result (λ affected. AreAffected sources.now (W.facts world.old)
        (is_owner faults.now) (map (λ d. d.now) definitions.now) affected.items) }
{
    let owners = Owners::new(alloc, faults)?;
    if owners.is_empty() {
        return Ok(Vec::new(alloc));
    }
    let affected = affected_among(alloc, world, sources, &owners, definitions)?;
    Ok(affected)
}
