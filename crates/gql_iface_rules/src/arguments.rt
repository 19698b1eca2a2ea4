//! The arguments of fields, with look-up.
ghost use Rattle.std.specs.Prelude.{◌≡◌, ◌++◌, IfOk, OnOk};
ghost use Rattle.std.specs.Option.{option_copied};
ghost use Rattle.gql_iface_rules.specs.Implementing as spec;
ghost use Rattle.gql_types.specs.Parts.{sited};

use gql_ast::{FieldDefinition, InputValueDefinition, Shared};
use gql_built_in::{Sited, SourceFile, same_source};
use gql_types::Named;
use std::alloc::{AllocError, Global};

/// The arguments of a field, with look-up.
pub type Arguments = Named<Sited<Shared<InputValueDefinition>>>;

/// These arguments of a file.
fn sited_arguments(
    alloc: Global,
    file: &SourceFile,
    arguments: &[Shared<InputValueDefinition>],
) -> Result<Vec<Sited<Shared<InputValueDefinition>>>, AllocError>
    ensures { IfOk result (λ found. found.items ≡ sited file.now arguments.now) }
{
    let mut found = Vec::with_capacity(alloc, arguments.len())?;
    for argument in arguments {
        found.push(Sited {
            file: same_source(file)?,
            node: argument.clone()?,
        })?;
    }
    Ok(found)
}

/// The arguments of a field (GraphQL 3.6.1).
pub fn arguments_of(
    alloc: Global,
    field: &Sited<Shared<FieldDefinition>>,
) -> Result<Arguments, AllocError>
    ensures { IfOk result (λ found. found ≡ spec.arguments_of field.now) }
{
    let arguments = field.node.get().arguments.as_slice();
    Named::new(alloc, sited_arguments(alloc, &field.file, arguments)?)
}

/// The first argument of that name.
pub fn argument_in<'a>(
    arguments: &'a Arguments,
    name: &str,
) -> Option<&'a Sited<Shared<InputValueDefinition>>>
    ensures { option_copied result ≡ spec.argument_in arguments.now name.now }
{
    arguments.get(name)
}
