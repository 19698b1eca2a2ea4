//! The types of definitions, each with all its extensions (GraphQL specification, 3.4).
ghost use Rattle.std.specs.Prelude.{◌≡◌, ◌++◌, ◌∷◌, [], ℕ, List, IfOk, OnOk, map, filter, bytes_eq};
ghost use Rattle.std.specs.Option.{option_map_or};
ghost use Rattle.std.specs.HashMap as hash;
ghost use Rattle.gql_types.specs.EditedTypes.{type_by};
ghost use Rattle.gql_types.specs.Kinds.{same_kind};
ghost use Rattle.gql_types.specs.Parts.{kind_of};
ghost use Rattle.gql_types.specs.Sites.{site};
ghost use Rattle.gql_types.specs.Types as spec;

use crate::batched::{BatchList, Batched};
use crate::by_name::{ByName, by_name};
use crate::defined_inputs::DefinedInputs;
use crate::first_definitions::first_definitions;
use crate::kind::TypeKind;
use crate::named::Named;
use crate::parts::{all_held, interfaces, members, parts_in};
use crate::schema_type::SchemaType;
use crate::type_site::TypeSite;
use gql_ast::{Items, Shared, TypeDefinition, TypeExtension};
use gql_built_in::{Sited, same_source};
use std::alloc::{AllocError, Global};

fn is_of_kind(kind: TypeKind, extension: &Sited<Shared<TypeExtension>>) -> bool
    ensures { result ≡ same_kind kind (kind_of extension.now.node.parts) }
{
    kind.is(TypeKind::of(&extension.node.get().parts))
}

fn of_kind(
    alloc: Global,
    kind: TypeKind,
    extensions: &[&Sited<Shared<TypeExtension>>],
) -> Result<Items<Sited<Shared<TypeExtension>>>, AllocError>
    ensures { IfOk result (λ found.
        found ≡ filter (λ e. same_kind kind (kind_of e.node.parts))
        (map (λ e. e.now) extensions.now)) }
{
    let mut found = Items::new(alloc);
    for extension in extensions {
        if is_of_kind(kind, extension) {
            found.push(Sited {
                file: same_source(&extension.file)?,
                node: extension.node.clone()?,
            })?;
        }
    }
    Ok(found)
}

fn extensions_of(
    alloc: Global,
    definition: &Sited<Shared<TypeDefinition>>,
    extensions: &ByName<'_, Sited<Shared<TypeExtension>>>,
) -> Result<Items<Sited<Shared<TypeExtension>>>, AllocError>
    ensures { IfOk result (λ found.
        found ≡ filter (λ e. same_kind (kind_of definition.now.node.parts) (kind_of e.node.parts))
        (option_map_or (λ group. map (λ x. x.now) group.items)
        (hash.get_by_text extensions.now definition.now.node.name.text) [])) }
{
    let definition = definition.node.get();
    match extensions.get(definition.name.as_str()) {
        Some(group) => of_kind(alloc, TypeKind::of(&definition.parts), group.as_slice()),
        None => Ok(Items::new(alloc)),
    }
}

fn assembled(
    alloc: Global,
    definition: &Sited<Shared<TypeDefinition>>,
    extensions: Items<Sited<Shared<TypeExtension>>>,
) -> Result<SchemaType, AllocError>
    ensures { IfOk result (λ t. t ≡ spec.assembled definition.now extensions) }
{
    let parts = parts_in(alloc, definition, extensions.as_slice())?;
    let interfaces = interfaces(alloc, parts.as_slice())?;
    let fields = Named::new(alloc, all_held(alloc, parts.as_slice())?)?;
    let members = members(alloc, parts.as_slice())?;
    let values = Named::new(alloc, all_held(alloc, parts.as_slice())?)?;
    let input_fields = DefinedInputs::new(alloc, all_held(alloc, parts.as_slice())?)?;
    drop(parts);
    Ok(SchemaType {
        definition: Sited {
            file: same_source(&definition.file)?,
            node: definition.node.clone()?,
        },
        extensions,
        kind: TypeKind::of(&definition.node.get().parts),
        interfaces,
        fields,
        members,
        values,
        input_fields,
    })
}

/// The type of a definition, with the extensions of its name and kind.
fn with_extensions(
    alloc: Global,
    definition: &Sited<Shared<TypeDefinition>>,
    extensions: &ByName<'_, Sited<Shared<TypeExtension>>>,
) -> Result<SchemaType, AllocError>
    ensures { IfOk result (λ t.
        t ≡ spec.assembled definition.now
        (filter (λ e. same_kind (kind_of definition.now.node.parts) (kind_of e.node.parts))
        (option_map_or (λ group. map (λ x. x.now) group.items)
        (hash.get_by_text extensions.now definition.now.node.name.text) []))) }
{
    let found = extensions_of(alloc, definition, extensions)?;
    let of_type = assembled(alloc, definition, found)?;
    Ok(of_type)
}

/// The type of a definition, with the extensions of its name and kind.
pub(crate) fn made_type(
    alloc: Global,
    definition: &TypeSite<'_>,
    extensions: &ByName<'_, Sited<Shared<TypeExtension>>>,
) -> Result<SchemaType, AllocError>
    ensures { IfOk result (λ t.
        t ≡ type_by (λ q. option_map_or (λ group. map (λ x. x.now) group.items)
        (hash.get_by_text extensions.now q) []) (site definition.now)) }
{
    let definition = definition.shared()?;
    let of_type = with_extensions(alloc, &definition, extensions)?;
    Ok(of_type)
}

fn all_with_extensions(
    alloc: Global,
    definitions: &[TypeSite<'_>],
    extensions: &ByName<'_, Sited<Shared<TypeExtension>>>,
) -> Result<Vec<Batched<SchemaType>>, AllocError>
    ensures { IfOk result (λ types.
        types.items ≡ map (type_by (λ q. option_map_or (λ group. map (λ x. x.now) group.items)
        (hash.get_by_text extensions.now q) [])) (map site definitions.now)) }
{
    let mut types = BatchList::with_capacity(alloc, definitions.len())?;
    for definition in definitions {
        let of_type = made_type(alloc, definition, extensions)?;
        types.add(of_type)?;
    }
    let types = types.finish(alloc)?;
    Ok(types)
}

/// The types of these definitions, each with the extensions of its name and kind.
pub fn types_of(
    alloc: Global,
    definitions: &[TypeSite<'_>],
    extensions: &[Sited<Shared<TypeExtension>>],
) -> Result<Vec<Batched<SchemaType>>, AllocError>
    ensures { IfOk result (λ types.
        types.items ≡ spec.types_of (map site definitions.now) extensions.now) }
{
    let groups = by_name(alloc, extensions)?;
    let firsts = first_definitions(alloc, definitions)?;
    let types = all_with_extensions(alloc, firsts.as_slice(), &groups)?;
    Ok(types)
}
