//! The types of a schema, each with all its extensions (GraphQL specification, 3.4).
ghost use Rattle.gql_types.specs.RequiredInputs.{is_required_input};

use crate::defined_inputs::{DefinedInput, DefinedInputs};
use crate::kind::TypeKind;
use crate::named::{HasName, Named};
use crate::written_type::is_non_null;
use gql_ast::{
    EnumValueDefinition, FieldDefinition, InputValueDefinition, Items, Name, Shared,
    TypeDefinition, TypeExtension,
};
use gql_built_in::Sited;

/// A type: its first definition, the extensions of its kind in their order, and the parts of all of
/// these, those of the definition first (GraphQL specification, 3.4).
pub struct SchemaType {
    pub definition: Sited<Shared<TypeDefinition>>,
    pub extensions: Items<Sited<Shared<TypeExtension>>>,
    pub kind: TypeKind,
    /// The interfaces that an object or an interface implements (3.6, 3.7).
    pub interfaces: Items<Sited<Name>>,
    /// The fields of an object or an interface (3.6, 3.7).
    pub fields: Named<Sited<Shared<FieldDefinition>>>,
    /// The members of a union (3.8).
    pub members: Items<Sited<Name>>,
    /// The values of an enum (3.9).
    pub values: Named<Sited<Shared<EnumValueDefinition>>>,
    /// The fields of an input object (3.10).
    pub input_fields: DefinedInputs<Sited<Shared<InputValueDefinition>>>,
}

impl Drop for SchemaType {
    fn drop(self) {
        let SchemaType {
            definition: _,
            extensions: _,
            kind: _,
            interfaces: _,
            fields: _,
            members: _,
            values: _,
            input_fields: _,
        } = self;
    }
}

impl HasName for Sited<Shared<TypeExtension>> {
    ghost name = { λ e. e.node.name.text };

    fn name(&self) -> &str {
        self.node.get().name.as_str()
    }
}

impl HasName for Sited<Shared<FieldDefinition>> {
    ghost name = { λ f. f.node.name.text };

    fn name(&self) -> &str {
        self.node.get().name.as_str()
    }
}

impl HasName for Sited<Shared<EnumValueDefinition>> {
    ghost name = { λ v. v.node.name.text };

    fn name(&self) -> &str {
        self.node.get().name.as_str()
    }
}

impl HasName for Sited<Shared<InputValueDefinition>> {
    ghost name = { λ f. f.node.name.text };

    fn name(&self) -> &str {
        self.node.get().name.as_str()
    }
}

impl DefinedInput for Sited<Shared<InputValueDefinition>> {
    ghost is_required = { λ f. is_required_input f.node };

    fn is_required(&self) -> bool {
        let definition = self.node.get();
        is_non_null(&definition.of_type) && definition.default.is_none()
    }
}

impl HasName for SchemaType {
    ghost name = { λ t. t.definition.node.name.text };

    fn name(&self) -> &str {
        self.definition.node.get().name.as_str()
    }
}
