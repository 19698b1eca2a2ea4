//! What every schema has: scalars (GraphQL specification, 3.5), the types of introspection (4.2)
//! and directives (3.13). Their definitions are in no file.
#![tactic(auto)]

ghost use Rattle.std.specs.Prelude.{◌≡◌, map, IfOk};
ghost use Rattle.gql_built_in.specs.BuiltIn as spec;
ghost use Rattle.gql_built_in.specs.BuiltInWords.{a_type as a_type_of};

mod directives;
mod introspection;
mod sited;
mod tables;
mod words;

use crate::directives::directives;
use crate::introspection::introspection;
use crate::words::{a_type, scalar};
use gql_ast::{Items, Tree};
pub use sited::{Sited, SourceFile, name_of_source, same_source};
use std::alloc::{AllocError, Global};

/// The scalars of every schema (GraphQL specification, 3.5), with Float or without it.
#[tactic(auto, unfolding(crate::specs::BuiltIn::scalars))]
fn scalars(alloc: Global, floats: bool) -> Result<Items<Sited<Tree>>, AllocError>
    ensures { IfOk result (λ ds. ds ≡ map a_type_of (spec.scalars floats)) }
{
    let mut found = Items::new(alloc);
    a_type(alloc, &mut found, scalar(alloc, "Int")?)?;
    a_type(alloc, &mut found, scalar(alloc, "String")?)?;
    a_type(alloc, &mut found, scalar(alloc, "Boolean")?)?;
    a_type(alloc, &mut found, scalar(alloc, "ID")?)?;
    if floats {
        a_type(alloc, &mut found, scalar(alloc, "Float")?)?;
    }
    Ok(found)
}

/// The definitions that every schema has: scalars, the types of introspection and directives. Float
/// is among the scalars if it is served.
#[tactic(auto, unfolding(crate::specs::BuiltIn::built_in))]
pub fn built_in_definitions(alloc: Global, floats: bool) -> Result<Items<Sited<Tree>>, AllocError>
    ensures { IfOk result (λ ds. ds ≡ spec.built_in floats) }
{
    let mut definitions = scalars(alloc, floats)?;
    definitions.append(introspection(alloc)?)?;
    definitions.append(directives(alloc)?)?;
    Ok(definitions)
}
