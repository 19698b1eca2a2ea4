//! Places of schema files, and names at their places.
ghost use Rattle.std.specs.Prelude.{◌≡◌};
ghost use Rattle.gql_ast.specs.declared.text.Name.{Name as TheName};
ghost use Rattle.gql_faults.specs.Places as spec;
ghost use Rattle.gql_faults.specs.Faults.{place_of, own_name_of};

use gql_ast::{
    DirectiveDefinition, EnumValueDefinition, FieldDefinition, FileName, InputValueDefinition,
    Name, Shared, TypeDefinition, TypeExtension,
};
use gql_built_in::{Sited, name_of_source};
use gql_text::Place;

/// A place of a schema file. Built-in definitions are in no file.
#[derive(Clone, Copy)]
pub struct Spot<'t> {
    pub file: Option<&'t FileName>,
    pub place: Place,
}

/// A name and its file.
#[derive(Clone, Copy)]
pub struct NamePlace<'t> {
    pub file: Option<&'t FileName>,
    pub name: &'t Name,
}

/// A definition, an extension or a part of one, which has a name of its own.
pub trait HasOwnName {
    ghost own_name: { Self → TheName };

    /// The name.
    fn own_name(&self) -> &Name
        ensures { result.now ≡ own_name self.now };
}

impl HasOwnName for TypeDefinition {
    ghost own_name = { λ n. n.name };

    fn own_name(&self) -> &Name {
        &self.name
    }
}

impl HasOwnName for TypeExtension {
    ghost own_name = { λ n. n.name };

    fn own_name(&self) -> &Name {
        &self.name
    }
}

impl HasOwnName for DirectiveDefinition {
    ghost own_name = { λ n. n.name };

    fn own_name(&self) -> &Name {
        &self.name
    }
}

impl HasOwnName for FieldDefinition {
    ghost own_name = { λ n. n.name };

    fn own_name(&self) -> &Name {
        &self.name
    }
}

impl HasOwnName for InputValueDefinition {
    ghost own_name = { λ n. n.name };

    fn own_name(&self) -> &Name {
        &self.name
    }
}

impl HasOwnName for EnumValueDefinition {
    ghost own_name = { λ n. n.name };

    fn own_name(&self) -> &Name {
        &self.name
    }
}

impl<'t> NamePlace<'t> {
    /// A name of the schema.
    pub fn of(name: &'t Sited<Name>) -> NamePlace<'t>
        ensures { spec.named result ≡ name.now }
    {
        NamePlace {
            file: name_of_source(&name.file),
            name: &name.node,
        }
    }

    /// The name of a node of the schema.
    pub fn of_node<T: HasOwnName>(node: &'t Sited<Shared<T>>) -> NamePlace<'t>
        ensures { spec.named result ≡ own_name_of T.own_name node.now }
    {
        NamePlace {
            file: name_of_source(&node.file),
            name: node.node.get().own_name(),
        }
    }

    /// The place of the name.
    pub fn spot(&self) -> Spot<'t>
        ensures { spec.spot result ≡ place_of (spec.named self.now) }
    {
        Spot {
            file: self.file,
            place: self.name.place,
        }
    }
}
