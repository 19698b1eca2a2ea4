//! The parts of the definition of a type and of its extensions (GraphQL specification, 3.4).
ghost use Rattle.std.specs.Prelude.{◌≡◌, ◌++◌, ◌∷◌, [], ℕ, List, IfOk, OnOk, map, unwrap_or};
ghost use Rattle.std.specs.Option.{option_copied};
ghost use Rattle.gql_ast.specs.declared.type_system.TypeParts.{TypeParts as TheParts};
ghost use Rattle.gql_types.specs.Parts as spec;
ghost use Rattle.gql_types.specs.Types.{parts_in};
ghost use Rattle.gql_types.specs.Held.{one};

use gql_ast::{
    EnumValueDefinition, FieldDefinition, InputValueDefinition, Items, Name, Shared,
    TypeDefinition, TypeExtension, TypeParts,
};
use gql_built_in::{Sited, SourceFile, same_source};
use std::alloc::{AllocError, Global};

/// The parts of a definition or an extension, with their file.
#[derive(Clone, Copy)]
pub struct Part<'s> {
    pub file: &'s SourceFile,
    pub parts: &'s TypeParts,
}

/// The parts of a definition, then those of the extensions.
pub fn parts_in<'s>(
    alloc: Global,
    definition: &'s Sited<Shared<TypeDefinition>>,
    extensions: &'s [Sited<Shared<TypeExtension>>],
) -> Result<Vec<Part<'s>>, AllocError>
    ensures { IfOk result (λ parts. map one parts.items ≡ parts_in definition.now extensions.now) }
{
    let mut parts = Vec::with_capacity(alloc, 1)?;
    parts.push(Part {
        file: &definition.file,
        parts: &definition.node.get().parts,
    })?;
    for extension in extensions {
        parts.push(Part {
            file: &extension.file,
            parts: &extension.node.get().parts,
        })?;
    }
    Ok(parts)
}

/// A kind of node that types have.
pub trait Held {
    ghost held: { TheParts → List Self };

    /// The nodes of this form; none if types of this kind have no such nodes.
    fn held(parts: &TypeParts) -> Option<&Items<Shared<Self>>>
        ensures { unwrap_or (option_copied result) [] ≡ held parts.now };
}

impl Held for FieldDefinition {
    ghost held = { spec.fields_of };

    fn held(parts: &TypeParts) -> Option<&Items<Shared<FieldDefinition>>> {
        match parts {
            TypeParts::Object { fields, .. } | TypeParts::Interface { fields, .. } => Some(fields),
            _ => None,
        }
    }
}

impl Held for EnumValueDefinition {
    ghost held = { spec.values_of };

    fn held(parts: &TypeParts) -> Option<&Items<Shared<EnumValueDefinition>>> {
        match parts {
            TypeParts::Enum { values } => Some(values),
            _ => None,
        }
    }
}

impl Held for InputValueDefinition {
    ghost held = { spec.input_fields_of };

    fn held(parts: &TypeParts) -> Option<&Items<Shared<InputValueDefinition>>> {
        match parts {
            TypeParts::InputObject { fields } => Some(fields),
            _ => None,
        }
    }
}

fn add_nodes<T: Drop>(
    file: &SourceFile,
    nodes: &[Shared<T>],
    found: &mut Vec<Sited<Shared<T>>>,
) -> Result<(), AllocError>
    ensures { OnOk result (found.new.items ≡ found.old.items ++ spec.sited file.now nodes.now) }
{
    if found.is_empty() {
        found.reserve_exact(nodes.len())?;
    }
    for node in nodes {
        found.push(Sited {
            file: same_source(file)?,
            node: node.clone()?,
        })?;
    }
    Ok(())
}

fn add_held<T: Held + Drop>(
    part: &Part<'_>,
    found: &mut Vec<Sited<Shared<T>>>,
) -> Result<(), AllocError>
    ensures { OnOk result (found.new.items
        ≡ found.old.items ++ spec.in_all T.held (one part.now ∷ [])) }
{
    match T::held(part.parts) {
        Some(nodes) => add_nodes(part.file, nodes.as_slice(), found),
        None => Ok(()),
    }
}

/// All nodes of a form, in their order.
pub fn all_held<T: Held + Drop>(
    alloc: Global,
    parts: &[Part<'_>],
) -> Result<Vec<Sited<Shared<T>>>, AllocError>
    ensures { IfOk result (λ found. found.items ≡ spec.in_all T.held (map one parts.now)) }
{
    let mut found = Vec::new(alloc);
    for part in parts {
        add_held(part, &mut found)?;
    }
    Ok(found)
}

fn add_names(
    file: &SourceFile,
    names: &[Name],
    found: &mut Vec<Sited<Name>>,
) -> Result<(), AllocError>
    ensures { OnOk result (found.new.items ≡ found.old.items ++ spec.sited file.now names.now) }
{
    if found.is_empty() {
        found.reserve_exact(names.len())?;
    }
    for name in names {
        found.push(Sited {
            file: same_source(file)?,
            node: name.copy()?,
        })?;
    }
    Ok(())
}

fn add_interfaces(part: &Part<'_>, found: &mut Vec<Sited<Name>>) -> Result<(), AllocError>
    ensures { OnOk result (found.new.items
        ≡ found.old.items ++ spec.in_all spec.interfaces_of (one part.now ∷ [])) }
{
    match part.parts {
        TypeParts::Object { interfaces, .. } | TypeParts::Interface { interfaces, .. } => {
            add_names(part.file, interfaces.as_slice(), found)
        }
        _ => Ok(()),
    }
}

/// The interfaces that the type implements.
pub fn interfaces(alloc: Global, parts: &[Part<'_>]) -> Result<Items<Sited<Name>>, AllocError>
    ensures { IfOk result (λ found. found ≡ spec.in_all spec.interfaces_of (map one parts.now)) }
{
    let mut found = Vec::new(alloc);
    for part in parts {
        add_interfaces(part, &mut found)?;
    }
    Ok(Items::from_vec(found))
}

fn add_members(part: &Part<'_>, found: &mut Vec<Sited<Name>>) -> Result<(), AllocError>
    ensures { OnOk result (found.new.items
        ≡ found.old.items ++ spec.in_all spec.members_of (one part.now ∷ [])) }
{
    match part.parts {
        TypeParts::Union { members } => add_names(part.file, members.as_slice(), found),
        _ => Ok(()),
    }
}

/// The members of the union.
pub fn members(alloc: Global, parts: &[Part<'_>]) -> Result<Items<Sited<Name>>, AllocError>
    ensures { IfOk result (λ found. found ≡ spec.in_all spec.members_of (map one parts.now)) }
{
    let mut found = Vec::new(alloc);
    for part in parts {
        add_members(part, &mut found)?;
    }
    Ok(Items::from_vec(found))
}
