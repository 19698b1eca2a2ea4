//! The root operation types of a schema (GraphQL specification, 3.3.1).
ghost use Rattle.std.specs.Prelude.{◌≡◌, ◌++◌, OnOk, IfOk};
ghost use Rattle.gql_types.specs.Roots as spec;

use crate::batched::Batched;
use crate::named::Named;
use crate::schema_type::SchemaType;
use gql_ast::{
    Items, Name, OperationKind, RootOperation, SchemaDefinition, SchemaExtension, Shared,
};
use gql_built_in::{Sited, SourceFile, same_source};
use gql_text::Place;
use std::alloc::{AllocError, Global};

/// A root operation type: the kind of its operations, where its entry begins, and its name in the
/// entry. If the schema has no definition, a type named Query, Mutation or Subscription is one
/// without an entry, and the name is that of the type's definition.
pub struct Root {
    pub kind: OperationKind,
    pub entry: Option<Place>,
    pub name: Sited<Name>,
}

impl Drop for Root {
    fn drop(self) {
        let Root {
            kind: _,
            entry: _,
            name: _,
        } = self;
    }
}

fn add_entries(
    alloc: Global,
    file: &SourceFile,
    entries: &[RootOperation],
    roots: &mut Items<Root>,
) -> Result<(), AllocError>
    ensures { OnOk result (roots.new ≡ roots.old ++ spec.entries file.now entries.now) }
{
    for entry in entries {
        roots.push(Root {
            kind: entry.kind,
            entry: Some(entry.place),
            name: Sited {
                file: same_source(file)?,
                node: entry.name.copy()?,
            },
        })?;
    }
    Ok(())
}

fn add_implied(
    alloc: Global,
    types: &Named<Batched<SchemaType>>,
    kind: OperationKind,
    name: &str,
    roots: &mut Items<Root>,
) -> Result<(), AllocError>
    ensures { OnOk result (roots.new ≡ roots.old ++ spec.implied types.now kind name.now) }
{
    match types.get(name) {
        Some(of_type) => {
            let definition = &of_type.get().definition;
            roots.push(Root {
                kind,
                entry: None,
                name: Sited {
                    file: same_source(&definition.file)?,
                    node: definition.node.get().name.copy()?,
                },
            })?;
            Ok(())
        }
        None => Ok(()),
    }
}

fn add_all_implied(
    alloc: Global,
    types: &Named<Batched<SchemaType>>,
    roots: &mut Items<Root>,
) -> Result<(), AllocError>
    ensures { OnOk result (roots.new ≡ roots.old ++ spec.all_implied types.now) }
{
    add_implied(alloc, types, OperationKind::Query, "Query", roots)?;
    add_implied(alloc, types, OperationKind::Mutation, "Mutation", roots)?;
    add_implied(
        alloc,
        types,
        OperationKind::Subscription,
        "Subscription",
        roots,
    )?;
    Ok(())
}

fn add_defined(
    alloc: Global,
    types: &Named<Batched<SchemaType>>,
    definitions: &[Sited<Shared<SchemaDefinition>>],
    roots: &mut Items<Root>,
) -> Result<(), AllocError>
    ensures { OnOk result (roots.new ≡ roots.old ++ spec.defined types.now definitions.now) }
{
    match definitions.first() {
        Some(definition) => add_entries(
            alloc,
            &definition.file,
            definition.node.get().roots.as_slice(),
            roots,
        ),
        None => add_all_implied(alloc, types, roots),
    }
}

/// The root operation types: those of the first definition of the schema, or else those that are
/// implied, then those of the extensions.
pub fn roots_of(
    alloc: Global,
    types: &Named<Batched<SchemaType>>,
    definitions: &[Sited<Shared<SchemaDefinition>>],
    extensions: &[Sited<Shared<SchemaExtension>>],
) -> Result<Items<Root>, AllocError>
    ensures { IfOk result (λ roots.
        roots ≡ spec.roots_of types.now definitions.now extensions.now) }
{
    let mut roots = Items::new(alloc);
    add_defined(alloc, types, definitions, &mut roots)?;
    for extension in extensions {
        add_entries(
            alloc,
            &extension.file,
            extension.node.get().roots.as_slice(),
            &mut roots,
        )?;
    }
    Ok(roots)
}
