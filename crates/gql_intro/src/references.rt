//! Whether the schema files refer to a type (GraphQL specification, 2.11, 3.3).
ghost use Rattle.std.specs.Prelude.{◌≡◌};
ghost use Rattle.std.specs.List.{list_any};
ghost use Rattle.gql_types.specs.Written.{written};
ghost use Rattle.gql_intro.specs.References as spec;
ghost use Rattle.gql_ast.specs.declared.definition.Definition.{Definition as ADefinition};

use gql_ast::{
    Definition, Document, FieldDefinition, FileMap, InputValueDefinition, Name, RootOperation,
    Shared, Tree, TypeParts, TypeRef,
};

/// The name within the lists and Non-Nulls of a type.
#[tactic(auto, using(crate::specs::References::name_in_named, crate::specs::References::name_in_list, crate::specs::References::name_in_non_null))]
fn name_in(of_type: &TypeRef) -> &str
    ensures { result.now ≡ spec.name_in (written of_type.now) }
{
    match of_type {
        TypeRef::Named(name) => name.as_str(),
        TypeRef::List { item, .. } => name_in(item.get()),
        TypeRef::NonNull(nullable) => name_in(nullable.get()),
    }
}

fn names_refer(name: &str, names: &[Name]) -> bool
    ensures { result ≡ list_any (spec.is_named name.now) names.now }
{
    for other in names {
        if name == other.as_str() {
            return true;
        }
    }
    false
}

fn inputs_refer(name: &str, inputs: &[Shared<InputValueDefinition>]) -> bool
    ensures { result ≡ list_any (spec.input_refers name.now) inputs.now }
{
    for input in inputs {
        if name == name_in(&input.get().of_type) {
            return true;
        }
    }
    false
}

fn field_refers(name: &str, field: &FieldDefinition) -> bool
    ensures { result ≡ spec.field_refers name.now field.now }
{
    name == name_in(&field.of_type) || inputs_refer(name, field.arguments.as_slice())
}

fn fields_refer(name: &str, fields: &[Shared<FieldDefinition>]) -> bool
    ensures { result ≡ list_any (spec.field_refers name.now) fields.now }
{
    for field in fields {
        if field_refers(name, field.get()) {
            return true;
        }
    }
    false
}

fn roots_refer(name: &str, roots: &[RootOperation]) -> bool
    ensures { result ≡ list_any (spec.root_refers name.now) roots.now }
{
    for root in roots {
        if name == root.name.as_str() {
            return true;
        }
    }
    false
}

fn parts_refer(name: &str, parts: &TypeParts) -> bool
    ensures { result ≡ spec.parts_refer name.now parts.now }
{
    match parts {
        TypeParts::Scalar => false,
        TypeParts::Object { interfaces, fields } => {
            names_refer(name, interfaces.as_slice()) || fields_refer(name, fields.as_slice())
        }
        TypeParts::Interface { interfaces, fields } => {
            names_refer(name, interfaces.as_slice()) || fields_refer(name, fields.as_slice())
        }
        TypeParts::Union { members } => names_refer(name, members.as_slice()),
        TypeParts::Enum { .. } => false,
        TypeParts::InputObject { fields } => inputs_refer(name, fields.as_slice()),
    }
}

fn tree_refers(name: &str, tree: &Tree) -> bool
    ensures { result ≡ spec.tree_refers name.now tree.now }
{
    match tree {
        Tree::Operation(_) => false,
        Tree::Fragment(_) => false,
        Tree::Schema(definition) => roots_refer(name, definition.get().roots.as_slice()),
        Tree::Type(definition) => parts_refer(name, &definition.get().parts),
        Tree::Directive(definition) => inputs_refer(name, definition.get().arguments.as_slice()),
        Tree::SchemaExtension(extension) => roots_refer(name, extension.get().roots.as_slice()),
        Tree::TypeExtension(extension) => parts_refer(name, &extension.get().parts),
    }
}

fn file_refers(name: &str, definitions: &[Definition]) -> bool
    ensures { result
        ≡ list_any (λ (d : ADefinition). spec.tree_refers name.now d.tree) definitions.now }
{
    for definition in definitions {
        if tree_refers(name, &definition.tree) {
            return true;
        }
    }
    false
}

/// Whether one of these files refers to the type of that name.
pub fn refer(files: &FileMap<Shared<Document>>, name: &str) -> bool
    ensures { result ≡ spec.refer files.now name.now }
{
    for (_file, document) in files.entries().iter() {
        if file_refers(name, document.get().definitions.as_slice()) {
            return true;
        }
    }
    false
}
