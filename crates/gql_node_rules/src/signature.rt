//! The definitions of directives (GraphQL 3.13), with look-up of their arguments and locations.
ghost use Rattle.std.specs.Prelude.{◌≡◌, ◌++◌, ◌∷◌, [], IfOk, OnOk, map, filter, find, bytes_eq, option_map, if◌then◌else◌};
ghost use Rattle.std.specs.Option.{option_copied};
ghost use Rattle.gql_ast.specs.declared.type_system.DirectiveLocation.{DirectiveLocation as TheLocation};
ghost use Rattle.gql_faults.specs.TypeNames.{is_required};
ghost use Rattle.gql_node_rules.specs.Applied.{is_listed};
ghost use Rattle.gql_node_rules.specs.S32BadArguments as spec;
ghost use Rattle.gql_node_rules.specs.S33BadArgumentValues.{argument_named};

use crate::locations::{distinct, is_listed};
use gql_ast::{DirectiveDefinition, DirectiveLocation, InputValueDefinition, Shared};
use gql_faults::is_required;
use gql_types::{HasName, Named, Schema, Sited};
use std::alloc::{AllocError, Global};

/// An argument that a directive defines.
#[derive(Drop)]
pub struct DefinedArgument<'s> {
    pub definition: &'s InputValueDefinition,
}

impl<'s> HasName for DefinedArgument<'s> {
    ghost name = { λ a. a.definition.now.name.text };

    fn name(&self) -> &str {
        self.definition.name.as_str()
    }
}

/// The definition of a directive with its arguments, those of them that are required, and its
/// locations, each once.
#[derive(Drop)]
pub struct Signature<'s> {
    pub definition: &'s Sited<Shared<DirectiveDefinition>>,
    pub arguments: Named<DefinedArgument<'s>>,
    pub required: Vec<&'s InputValueDefinition>,
    pub locations: Vec<DirectiveLocation>,
    ghost all: { map (λ a. a.definition.now) arguments ≡ definition.now.node.arguments },
    ghost all_required: { map (λ v. v.now) required.items
        ≡ filter is_required definition.now.node.arguments },
    ghost all_locations: { (l : TheLocation)
        → is_listed l locations.items ≡ is_listed l definition.now.node.locations },
}

impl<'s> HasName for Signature<'s> {
    ghost name = { λ g. g.definition.now.node.name.text };

    fn name(&self) -> &str {
        self.definition.node.get().name.as_str()
    }
}

fn arguments<'s>(
    alloc: Global,
    definitions: &'s [Shared<InputValueDefinition>],
) -> Result<Vec<DefinedArgument<'s>>, AllocError>
    ensures { IfOk result (λ found. map (λ a. a.definition.now) found.items ≡ definitions.now) }
{
    let mut found = Vec::with_capacity(alloc, definitions.len())?;
    for definition in definitions {
        found.push(DefinedArgument {
            definition: definition.get(),
        })?;
    }
    Ok(found)
}

fn add_if_required<'s>(
    definition: &'s InputValueDefinition,
    found: &mut Vec<&'s InputValueDefinition>,
) -> Result<(), AllocError>
    ensures { OnOk result (map (λ v. v.now) found.new.items ≡ map (λ v. v.now) found.old.items
        ++ (if is_required definition.now then definition.now ∷ [] else [])) }
{
    if is_required(definition) {
        found.push(definition)?;
    }
    Ok(())
}

fn required<'s>(
    alloc: Global,
    definitions: &'s [Shared<InputValueDefinition>],
) -> Result<Vec<&'s InputValueDefinition>, AllocError>
    ensures { IfOk result (λ found. map (λ v. v.now) found.items
        ≡ filter is_required definitions.now) }
{
    let mut found = Vec::new(alloc);
    for definition in definitions {
        add_if_required(definition.get(), &mut found)?;
    }
    Ok(found)
}

fn signature_of<'s>(
    alloc: Global,
    definition: &'s Sited<Shared<DirectiveDefinition>>,
) -> Result<Signature<'s>, AllocError>
    ensures { IfOk result (λ g. g.definition.now ≡ definition.now) }
{
    let definitions = definition.node.get().arguments.as_slice();
    let arguments = Named::new(alloc, arguments(alloc, definitions)?)?;
    let required = required(alloc, definitions)?;
    let locations = distinct(alloc, definition.node.get().locations.as_slice())?;
    Ok(Signature {
        definition,
        arguments,
        required,
        locations,
    })
}

fn all_signatures<'s>(
    alloc: Global,
    definitions: &'s [Sited<Shared<DirectiveDefinition>>],
) -> Result<Vec<Signature<'s>>, AllocError>
    ensures { IfOk result (λ found. map (λ g. g.definition.now) found.items ≡ definitions.now) }
{
    let mut found = Vec::new(alloc);
    for definition in definitions {
        found.push(signature_of(alloc, definition)?)?;
    }
    Ok(found)
}

/// The directives of a schema, with look-up of their arguments.
pub fn signatures(alloc: Global, schema: &Schema) -> Result<Named<Signature<'_>>, AllocError>
    ensures { IfOk result (λ found. map (λ g. g.definition.now) found ≡ schema.now.directives) }
{
    let found = all_signatures(alloc, schema.directives())?;
    Named::new(alloc, found)
}

/// The directive of that name.
pub fn signature_named<'a, 's>(
    signatures: &'a Named<Signature<'s>>,
    name: &str,
) -> Option<&'a Signature<'s>>
    ensures { option_map (λ g. g.now.definition.now) result
        ≡ find (λ d. bytes_eq name.now d.node.name.text)
        (map (λ g. g.definition.now) signatures.now) }
{
    signatures.get(name)
}

impl<'s> Signature<'s> {
    /// The first argument of that name.
    pub fn argument(&self, name: &str) -> Option<&'s InputValueDefinition>
        ensures { option_copied result
            ≡ argument_named self.now.definition.now.node.arguments name.now }
    {
        match self.arguments.get(name) {
            Some(argument) => Some(argument.definition),
            None => None,
        }
    }

    /// Whether an argument of that name is defined.
    pub fn defines(&self, name: &str) -> bool
        ensures { result ≡ spec.is_defined self.now.definition.now.node.arguments name.now }
    {
        self.arguments.get(name).is_some()
    }

    /// Whether the directive lists that location.
    pub fn lists(&self, location: DirectiveLocation) -> bool
        ensures { result ≡ is_listed location self.now.definition.now.node.locations }
    {
        is_listed(location, self.locations.as_slice())
    }
}
