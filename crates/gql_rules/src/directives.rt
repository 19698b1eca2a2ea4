//! The faults of applied directives.
ghost use Rattle.std.specs.Prelude.{◌≡◌, ◌++◌, List, OnOk};
ghost use Rattle.std.specs.Option.{option_copied};
ghost use Rattle.gql_ast.specs.declared.literal.Directive.{Directive as ADirective};
ghost use Rattle.gql_rules.specs.LocalFaults as spec;
ghost use Rattle.gql_rules.specs.Parts as parts;

use crate::answers::directive_in;
use crate::asking::ask_directive;
use crate::counts::{counts, is_repeated};
use crate::{
    arguments, v18_to_v21_values, v22_directives_are_defined, v23_directives_in_valid_locations,
    v24_directives_unique_per_location,
};
use gql_ast::{Directive, DirectiveLocation, Fault, FilePlace};
use gql_facts::{DirectiveFact, InputFact, World};
use gql_types::DefinedInputs;
use std::alloc::{AllocError, Global};

/// The arguments that a directive defines, if it is known.
fn arguments_of(known: Option<&DirectiveFact>) -> Option<&DefinedInputs<InputFact>>
    ensures { option_copied result ≡ spec.of_directive (option_copied known.entry) }
{
    match known {
        Some(known) => Some(&known.arguments),
        None => None,
    }
}

fn check_known(
    alloc: Global,
    owner: &FilePlace,
    location: DirectiveLocation,
    directive: &Directive,
    is_repeated: bool,
    known: Option<&DirectiveFact>,
    faults: &mut Vec<Fault>,
) -> Result<(), AllocError>
    ensures { OnOk result ((all : List ADirective)
        → parts.is_repeated parts.directive_name all directive.now.name.text ≡ is_repeated
        → faults.new.items ≡ faults.old.items
        ++ spec.directive_faults_by owner.now location all directive.now
        (option_copied known.entry)) }
{
    let given = directive.arguments.as_slice();
    v22_directives_are_defined::check(alloc, owner, directive, known, faults)?;
    v23_directives_in_valid_locations::check(alloc, owner, location, directive, known, faults)?;
    v24_directives_unique_per_location::check(alloc, owner, directive, is_repeated, known, faults)?;
    arguments::check(
        alloc,
        owner,
        directive.place,
        arguments_of(known),
        given,
        faults,
    )?;
    Ok(())
}

fn check_directive<W: World>(
    alloc: Global,
    world: &mut W,
    owner: &FilePlace,
    location: DirectiveLocation,
    directive: &Directive,
    is_repeated: bool,
    faults: &mut Vec<Fault>,
) -> Result<(), AllocError>
    ensures facts { W.facts world.new ≡ W.facts world.old }
    ensures names { W.names world.new ≡ W.names world.old }
    ensures lent { W.lent world.new ≡ W.lent world.old }
    ensures found { OnOk result ((all : List ADirective)
        → parts.is_repeated parts.directive_name all directive.now.name.text ≡ is_repeated
        → faults.new.items ≡ faults.old.items
        ++ spec.directive_faults (W.facts world.old) owner.now location all directive.now) }
{
    let fact = ask_directive(alloc, world, &directive.name.text)?;
    let known = directive_in(&fact);
    check_known(
        alloc,
        owner,
        location,
        directive,
        is_repeated,
        known,
        faults,
    )?;
    let given = directive.arguments.as_slice();
    v18_to_v21_values::check(alloc, world, owner, arguments_of(known), given, faults)?;
    Ok(())
}

/// Adds the faults of the directives that are applied at a location.
pub fn check<W: World>(
    alloc: Global,
    world: &mut W,
    owner: &FilePlace,
    location: DirectiveLocation,
    all: &[Directive],
    faults: &mut Vec<Fault>,
) -> Result<(), AllocError>
    ensures facts { W.facts world.new ≡ W.facts world.old }
    ensures names { W.names world.new ≡ W.names world.old }
    ensures lent { W.lent world.new ≡ W.lent world.old }
    ensures found { OnOk result (faults.new.items ≡ faults.old.items
        ++ spec.directives_faults (W.facts world.old) owner.now location all.now) }
{
    let counts = counts(alloc, all)?;
    for directive in all {
        let is_repeated = is_repeated(&counts, directive.name.as_str());
        check_directive(
            alloc,
            world,
            owner,
            location,
            directive,
            is_repeated,
            faults,
        )?;
    }
    Ok(())
}
