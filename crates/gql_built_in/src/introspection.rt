//! The types of introspection (GraphQL specification, 4.2).
ghost use Rattle.std.specs.Prelude.{◌≡◌, map, IfOk};
ghost use Rattle.gql_built_in.specs.BuiltIn as spec;
ghost use Rattle.gql_built_in.specs.BuiltInWords.{a_type as a_type_of};

use crate::sited::Sited;
use crate::tables::FieldRow::{Plain, ShowsDeprecated};
use crate::tables::TypeWord::{List, Named, Required, RequiredList};
use crate::tables::fields_of;
use crate::words::{a_type, enum_type, object};
use gql_ast::{FieldDefinition, Items, Shared, Tree, TypeDefinition};
use std::alloc::{AllocError, Global};

#[tactic(auto, unfolding(crate::specs::BuiltIn::fields_of_schema))]
fn fields_of_schema(alloc: Global) -> Result<Items<Shared<FieldDefinition>>, AllocError>
    ensures { IfOk result (λ fs. fs ≡ spec.fields_of_schema) }
{
    let rows = [
        Plain("description", Named("String")),
        Plain("types", RequiredList("__Type")),
        Plain("queryType", Required("__Type")),
        Plain("mutationType", Named("__Type")),
        Plain("subscriptionType", Named("__Type")),
        Plain("directives", RequiredList("__Directive")),
    ];
    fields_of(alloc, &rows)
}

#[tactic(auto, unfolding(crate::specs::BuiltIn::fields_of_type))]
fn fields_of_type(alloc: Global) -> Result<Items<Shared<FieldDefinition>>, AllocError>
    ensures { IfOk result (λ fs. fs ≡ spec.fields_of_type) }
{
    let rows = [
        Plain("kind", Required("__TypeKind")),
        Plain("name", Named("String")),
        Plain("description", Named("String")),
        ShowsDeprecated("fields", List("__Field")),
        Plain("interfaces", List("__Type")),
        Plain("possibleTypes", List("__Type")),
        ShowsDeprecated("enumValues", List("__EnumValue")),
        ShowsDeprecated("inputFields", List("__InputValue")),
        Plain("ofType", Named("__Type")),
        Plain("specifiedByURL", Named("String")),
    ];
    fields_of(alloc, &rows)
}

#[tactic(auto, unfolding(crate::specs::BuiltIn::fields_of_field))]
fn fields_of_field(alloc: Global) -> Result<Items<Shared<FieldDefinition>>, AllocError>
    ensures { IfOk result (λ fs. fs ≡ spec.fields_of_field) }
{
    let rows = [
        Plain("name", Required("String")),
        Plain("description", Named("String")),
        ShowsDeprecated("args", RequiredList("__InputValue")),
        Plain("type", Required("__Type")),
        Plain("isDeprecated", Required("Boolean")),
        Plain("deprecationReason", Named("String")),
    ];
    fields_of(alloc, &rows)
}

#[tactic(auto, unfolding(crate::specs::BuiltIn::fields_of_input_value))]
fn fields_of_input_value(alloc: Global) -> Result<Items<Shared<FieldDefinition>>, AllocError>
    ensures { IfOk result (λ fs. fs ≡ spec.fields_of_input_value) }
{
    let rows = [
        Plain("name", Required("String")),
        Plain("description", Named("String")),
        Plain("type", Required("__Type")),
        Plain("defaultValue", Named("String")),
        Plain("isDeprecated", Required("Boolean")),
        Plain("deprecationReason", Named("String")),
    ];
    fields_of(alloc, &rows)
}

#[tactic(auto, unfolding(crate::specs::BuiltIn::fields_of_enum_value))]
fn fields_of_enum_value(alloc: Global) -> Result<Items<Shared<FieldDefinition>>, AllocError>
    ensures { IfOk result (λ fs. fs ≡ spec.fields_of_enum_value) }
{
    let rows = [
        Plain("name", Required("String")),
        Plain("description", Named("String")),
        Plain("isDeprecated", Required("Boolean")),
        Plain("deprecationReason", Named("String")),
    ];
    fields_of(alloc, &rows)
}

#[tactic(auto, unfolding(crate::specs::BuiltIn::fields_of_directive))]
fn fields_of_directive(alloc: Global) -> Result<Items<Shared<FieldDefinition>>, AllocError>
    ensures { IfOk result (λ fs. fs ≡ spec.fields_of_directive) }
{
    let rows = [
        Plain("name", Required("String")),
        Plain("description", Named("String")),
        Plain("locations", RequiredList("__DirectiveLocation")),
        ShowsDeprecated("args", RequiredList("__InputValue")),
        Plain("isRepeatable", Required("Boolean")),
    ];
    fields_of(alloc, &rows)
}

#[tactic(auto, unfolding(crate::specs::BuiltIn::type_kinds))]
fn type_kinds(alloc: Global) -> Result<TypeDefinition, AllocError>
    ensures { IfOk result (λ x. x ≡ spec.type_kinds) }
{
    let values = [
        "SCALAR",
        "OBJECT",
        "INTERFACE",
        "UNION",
        "ENUM",
        "INPUT_OBJECT",
        "LIST",
        "NON_NULL",
    ];
    enum_type(alloc, "__TypeKind", &values)
}

#[tactic(auto, unfolding(crate::specs::BuiltIn::directive_locations))]
fn directive_locations(alloc: Global) -> Result<TypeDefinition, AllocError>
    ensures { IfOk result (λ x. x ≡ spec.directive_locations) }
{
    let values = [
        "QUERY",
        "MUTATION",
        "SUBSCRIPTION",
        "FIELD",
        "FRAGMENT_DEFINITION",
        "FRAGMENT_SPREAD",
        "INLINE_FRAGMENT",
        "VARIABLE_DEFINITION",
        "SCHEMA",
        "SCALAR",
        "OBJECT",
        "FIELD_DEFINITION",
        "ARGUMENT_DEFINITION",
        "INTERFACE",
        "UNION",
        "ENUM",
        "ENUM_VALUE",
        "INPUT_OBJECT",
        "INPUT_FIELD_DEFINITION",
    ];
    enum_type(alloc, "__DirectiveLocation", &values)
}

/// The types of introspection (GraphQL specification, 4.2).
pub fn introspection(alloc: Global) -> Result<Items<Sited<Tree>>, AllocError>
    ensures { IfOk result (λ ds. ds ≡ map a_type_of spec.introspection) }
{
    let mut found = Items::new(alloc);
    let all = &mut found;
    object(alloc, all, "__Schema", fields_of_schema(alloc)?)?;
    object(alloc, all, "__Type", fields_of_type(alloc)?)?;
    object(alloc, all, "__Field", fields_of_field(alloc)?)?;
    object(alloc, all, "__InputValue", fields_of_input_value(alloc)?)?;
    object(alloc, all, "__EnumValue", fields_of_enum_value(alloc)?)?;
    object(alloc, all, "__Directive", fields_of_directive(alloc)?)?;
    a_type(alloc, all, type_kinds(alloc)?)?;
    a_type(alloc, all, directive_locations(alloc)?)?;
    Ok(found)
}
