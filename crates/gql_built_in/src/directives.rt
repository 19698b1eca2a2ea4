//! The directives of every schema (GraphQL specification, 3.13), and `@append`, which is this
//! registry's own.
ghost use Rattle.std.specs.Prelude.{◌≡◌, map, IfOk};
ghost use Rattle.gql_built_in.specs.BuiltIn as spec;
ghost use Rattle.gql_built_in.specs.BuiltInWords.{a_directive as a_directive_of};

use crate::sited::Sited;
use crate::words::{a_directive, directive, named, one_argument, required_named, string_value};
use gql_ast::{DirectiveDefinition, DirectiveLocation, InputValueDefinition, Items, Shared, Tree};
use std::alloc::{AllocError, Global};

/// The locations of selections.
const SELECTIONS: [DirectiveLocation; 3] = [
    DirectiveLocation::Field,
    DirectiveLocation::FragmentSpread,
    DirectiveLocation::InlineFragment,
];

/// (if: Boolean!)
#[tactic(auto, unfolding(crate::specs::BuiltIn::condition))]
fn condition(alloc: Global) -> Result<Items<Shared<InputValueDefinition>>, AllocError>
    ensures { IfOk result (λ xs. xs ≡ spec.condition) }
{
    one_argument(alloc, "if", required_named(alloc, "Boolean")?, None)
}

/// (reason: String = "No longer supported")
#[tactic(auto, unfolding(crate::specs::BuiltIn::reason))]
fn reason(alloc: Global) -> Result<Items<Shared<InputValueDefinition>>, AllocError>
    ensures { IfOk result (λ xs. xs ≡ spec.reason) }
{
    let default = string_value(alloc, "No longer supported")?;
    one_argument(alloc, "reason", named(alloc, "String")?, Some(default))
}

/// (url: String!)
#[tactic(auto, unfolding(crate::specs::BuiltIn::url))]
fn url(alloc: Global) -> Result<Items<Shared<InputValueDefinition>>, AllocError>
    ensures { IfOk result (λ xs. xs ≡ spec.url) }
{
    one_argument(alloc, "url", required_named(alloc, "String")?, None)
}

/// (to: String!)
#[tactic(auto, unfolding(crate::specs::BuiltIn::to))]
fn to(alloc: Global) -> Result<Items<Shared<InputValueDefinition>>, AllocError>
    ensures { IfOk result (λ xs. xs ≡ spec.to) }
{
    one_argument(alloc, "to", required_named(alloc, "String")?, None)
}

/// `@skip` (GraphQL specification, 3.13.1)
#[tactic(auto, unfolding(crate::specs::BuiltIn::skip))]
fn skip(alloc: Global) -> Result<DirectiveDefinition, AllocError>
    ensures { IfOk result (λ x. x ≡ spec.skip) }
{
    directive(alloc, "skip", condition(alloc)?, &SELECTIONS)
}

/// `@include` (GraphQL specification, 3.13.2)
#[tactic(auto, unfolding(crate::specs::BuiltIn::include))]
fn include(alloc: Global) -> Result<DirectiveDefinition, AllocError>
    ensures { IfOk result (λ x. x ≡ spec.include) }
{
    directive(alloc, "include", condition(alloc)?, &SELECTIONS)
}

/// `@deprecated` (GraphQL specification, 3.13.3), on arguments and input fields too, as editions
/// after October 2021 have it.
#[tactic(auto, unfolding(crate::specs::BuiltIn::deprecated))]
fn deprecated(alloc: Global) -> Result<DirectiveDefinition, AllocError>
    ensures { IfOk result (λ x. x ≡ spec.deprecated) }
{
    let locations = [
        DirectiveLocation::FieldDefinition,
        DirectiveLocation::EnumValue,
        DirectiveLocation::ArgumentDefinition,
        DirectiveLocation::InputFieldDefinition,
    ];
    directive(alloc, "deprecated", reason(alloc)?, &locations)
}

/// `@specifiedBy` (GraphQL specification, 3.13.4)
#[tactic(auto, unfolding(crate::specs::BuiltIn::specified_by))]
fn specified_by(alloc: Global) -> Result<DirectiveDefinition, AllocError>
    ensures { IfOk result (λ x. x ≡ spec.specified_by) }
{
    let locations = [DirectiveLocation::Scalar];
    directive(alloc, "specifiedBy", url(alloc)?, &locations)
}

/// `@append`, which is this registry's own: a mutation's field with it adds its arguments, as an
/// object, to the list of this name.
#[tactic(auto, unfolding(crate::specs::BuiltIn::append))]
fn append(alloc: Global) -> Result<DirectiveDefinition, AllocError>
    ensures { IfOk result (λ x. x ≡ spec.append) }
{
    let locations = [DirectiveLocation::FieldDefinition];
    directive(alloc, "append", to(alloc)?, &locations)
}

/// The directives of every schema (GraphQL specification, 3.13), and `@append`.
#[tactic(auto, unfolding(crate::specs::BuiltIn::directives))]
pub fn directives(alloc: Global) -> Result<Items<Sited<Tree>>, AllocError>
    ensures { IfOk result (λ ds. ds ≡ map a_directive_of spec.directives) }
{
    let mut found = Items::new(alloc);
    a_directive(alloc, &mut found, skip(alloc)?)?;
    a_directive(alloc, &mut found, include(alloc)?)?;
    a_directive(alloc, &mut found, deprecated(alloc)?)?;
    a_directive(alloc, &mut found, specified_by(alloc)?)?;
    a_directive(alloc, &mut found, append(alloc)?)?;
    Ok(found)
}
