//! The schema of all schema files (GraphQL specification, 3.3).
ghost use Rattle.std.specs.Prelude.{◌≡◌, IfOk, Some, map, option_and_then, slice_get};
ghost use Rattle.std.specs.Option.{option_copied};
ghost use Rattle.gql_types.specs.Definitions.{type_extensions};
ghost use Rattle.gql_types.specs.Names.{AreOnce};
ghost use Rattle.gql_types.specs.Possible.{name_of};
ghost use Rattle.gql_types.specs.Roles.{role_of};
ghost use Rattle.gql_types.specs.Schemas as spec;
ghost use Rattle.gql_types.specs.Sites as sites;
ghost use Rattle.gql_types.specs.Sites.{site};
ghost use Rattle.gql_types.specs.Types.{types_of};
ghost use Rattle.gql_types.specs.declared.schema_type.SchemaType.{SchemaType as TheType};

use crate::all_possible::AllPossible;
use crate::applied::append_in;
use crate::batched::Batched;
use crate::defined_inputs::DefinedInputs;
use crate::definitions::{
    directive_definitions, schema_definitions, schema_extensions, type_extensions,
};
use crate::gathered::{Gathered, gather};
use crate::kind::{TypeKind, is_operation};
use crate::made_types::types_of;
use crate::named::{HasName, Named};
use crate::role::Role;
use crate::roots::{Root, roots_of};
use crate::schema_type::SchemaType;
use crate::types::Types;
use gql_ast::{
    DirectiveDefinition, EnumValueDefinition, FieldDefinition, Files, InputValueDefinition, Items,
    OperationKind, Shared, Text, Tree,
};
use gql_built_in::{Sited, built_in_definitions};
use std::alloc::{AllocError, Global};

/// All schema files as one schema. Look-ups borrow what `assemble` made, and allocate nothing.
pub struct Schema {
    types: Types,
    directives: Named<Sited<Shared<DirectiveDefinition>>>,
    roots: Items<Root>,
    possible: AllPossible,
}

impl Drop for Schema {
    fn drop(self) {
        let Schema {
            types: _,
            directives: _,
            roots: _,
            possible: _,
        } = self;
    }
}

impl HasName for Sited<Shared<DirectiveDefinition>> {
    ghost name = { λ d. d.node.name.text };

    fn name(&self) -> &str {
        self.node.get().name.as_str()
    }
}

/// The types of gathered definitions.
fn types(alloc: Global, definitions: &Gathered<'_>) -> Result<Types, AllocError>
    ensures { IfOk result (λ types. types ≡ types_of
        (map site definitions.now.types.items) (type_extensions definitions.now.others)) }
{
    let extensions = type_extensions(alloc, definitions.others.as_slice())?;
    let types = types_of(alloc, definitions.types.as_slice(), extensions.as_slice())?;
    Types::new(alloc, types)
}

fn roots(
    alloc: Global,
    others: &[Sited<Tree>],
    types: &Named<Batched<SchemaType>>,
) -> Result<Items<Root>, AllocError>
    ensures { IfOk result (λ roots. roots ≡ spec.roots_in others.now types.now) }
{
    let schemas = schema_definitions(alloc, others)?;
    let extensions = schema_extensions(alloc, others)?;
    roots_of(alloc, types, schemas.as_slice(), extensions.as_slice())
}

/// The schema with these types, by the definitions that are not of types.
pub fn schema_with(
    alloc: Global,
    types: Types,
    others: &[Sited<Tree>],
) -> Result<Schema, AllocError>
    requires { AreOnce (map name_of types) }
    ensures { IfOk result (λ schema. schema ≡ sites.schema_with types others.now) }
{
    let roots = roots(alloc, others, types.named())?;
    let directives = Named::new(alloc, directive_definitions(alloc, others)?)?;
    let possible = AllPossible::new(alloc, &types)?;
    Ok(Schema {
        types,
        directives,
        roots,
        possible,
    })
}

/// The schema of all schema files, with the built-in definitions. The first definition of a name
/// counts, with the extensions of its kind in their order. Built-in definitions come before the
/// files, and these come in the order of their names.
pub fn assemble(alloc: Global, files: &Files) -> Result<Schema, AllocError>
    ensures { IfOk result (λ schema. schema ≡ spec.schema_of files.now) }
{
    let built_in = built_in_definitions(alloc, files.profile.floats)?;
    let definitions = gather(alloc, built_in.as_slice(), files)?;
    let types = types(alloc, &definitions)?;
    let schema = schema_with(alloc, types, definitions.others.as_slice())?;
    Ok(schema)
}

impl Schema {
    /// The types, in the order of their first definitions.
    pub fn types(&self) -> &[Batched<SchemaType>]
        ensures { result.now ≡ self.now.types }
    {
        self.types.named().as_slice()
    }

    /// The types, with a look-up by their names.
    pub fn named_types(&self) -> &Named<Batched<SchemaType>>
        ensures { result.now ≡ self.now.types }
    {
        self.types.named()
    }

    /// The role of the type at this place.
    pub(crate) fn role_at(&self, place: Option<usize>) -> Role
        ensures { (t : TheType) → option_and_then (λ i. slice_get self.now.types i) place ≡ Some t
            → result ≡ role_of t }
    {
        self.types.role_at(place)
    }

    /// The directives, in their order. The first of each name counts.
    pub fn directives(&self) -> &[Sited<Shared<DirectiveDefinition>>]
        ensures { result.now ≡ self.now.directives }
    {
        self.directives.as_slice()
    }

    /// The root operation types, in their order. The first of each kind counts.
    pub fn roots(&self) -> &[Root]
        ensures { result.now ≡ self.now.roots }
    {
        self.roots.as_slice()
    }

    /// The type of that name, which can be shared.
    pub fn shared(&self, name: &str) -> Option<&Batched<SchemaType>>
        ensures { option_copied result ≡ spec.type_named self.now name.now }
    {
        self.types.named().get(name)
    }

    /// The type of that name.
    pub fn get(&self, name: &str) -> Option<&SchemaType>
        ensures { option_copied result ≡ spec.type_named self.now name.now }
    {
        match self.shared(name) {
            Some(of_type) => Some(of_type.get()),
            None => None,
        }
    }

    /// The kind of the type of that name (3.4).
    pub fn kind(&self, name: &str) -> Option<TypeKind>
        ensures { result ≡ spec.kind_named self.now name.now }
    {
        match self.get(name) {
            Some(of_type) => Some(of_type.kind),
            None => None,
        }
    }

    /// The field of an object or an interface (3.6, 3.7).
    pub fn field(&self, of_type: &str, name: &str) -> Option<&Sited<Shared<FieldDefinition>>>
        ensures { option_copied result ≡ spec.field_named self.now of_type.now name.now }
    {
        match self.get(of_type) {
            Some(of_type) => of_type.fields.get(name),
            None => None,
        }
    }

    /// The name of the list to which a field of an object appends, if `@append` is on it.
    pub fn append_of(&self, of_type: &str, field: &str) -> Option<&str>
        ensures { option_copied result ≡ spec.append_of self.now of_type.now field.now }
    {
        match self.field(of_type, field) {
            Some(found) => append_in(found.node.get().directives.as_slice()),
            None => None,
        }
    }

    /// The names of the objects that a value of a composite type may be, each once, in the order of
    /// their bytes (3.7, 3.8).
    pub fn possible(&self, name: &str) -> Option<&[Text]>
        ensures { option_copied result ≡ spec.possible_named self.now name.now }
    {
        self.possible.get(name)
    }

    /// The same. They are soon found if the type is at this place among the types.
    pub fn possible_near(&self, place: usize, name: &str) -> Option<&[Text]>
        ensures { option_copied result ≡ spec.possible_named self.now name.now }
    {
        self.possible.get_near(place, name)
    }

    /// The fields of an input object (3.10).
    pub fn input(&self, name: &str) -> Option<&DefinedInputs<Sited<Shared<InputValueDefinition>>>>
        ensures { option_copied result ≡ spec.input_named self.now name.now }
    {
        match self.get(name) {
            Some(of_type) => of_type.inputs(),
            None => None,
        }
    }

    /// The values of an enum (3.9).
    pub fn enum_of(&self, name: &str) -> Option<&Named<Sited<Shared<EnumValueDefinition>>>>
        ensures { option_copied result ≡ spec.enum_named self.now name.now }
    {
        match self.get(name) {
            Some(of_type) => of_type.enum_values(),
            None => None,
        }
    }

    /// The directive of that name (3.13).
    pub fn directive(&self, name: &str) -> Option<&Sited<Shared<DirectiveDefinition>>>
        ensures { option_copied result ≡ spec.directive_named self.now name.now }
    {
        self.directives.get(name)
    }

    /// The root operation type of a kind (3.3.1).
    pub fn root(&self, kind: OperationKind) -> Option<&Root>
        ensures { option_copied result ≡ spec.root_of self.now kind }
    {
        for root in self.roots.as_slice() {
            if is_operation(kind, root.kind) {
                return Some(root);
            }
        }
        None
    }
}

impl SchemaType {
    fn inputs(&self) -> Option<&DefinedInputs<Sited<Shared<InputValueDefinition>>>>
        ensures { option_copied result ≡ spec.inputs_by self.now.kind self.now }
    {
        match self.kind {
            TypeKind::InputObject => Some(&self.input_fields),
            _ => None,
        }
    }

    fn enum_values(&self) -> Option<&Named<Sited<Shared<EnumValueDefinition>>>>
        ensures { option_copied result ≡ spec.values_by self.now.kind self.now }
    {
        match self.kind {
            TypeKind::Enum => Some(&self.values),
            _ => None,
        }
    }
}
