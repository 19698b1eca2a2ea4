//! Possible types: which objects a value of a composite type may be (GraphQL specification, 3.7 and
//! 3.8).
ghost use Rattle.std.specs.Prelude.{◌≡◌, ◌++◌, ◌∷◌, [], IfOk, OnOk, map, flat_map};
ghost use Rattle.std.specs.Option.{option_map_or};
ghost use Rattle.std.specs.HashMap as hash;
ghost use Rattle.gql_types.specs.Possible as spec;
ghost use Rattle.gql_types.specs.Abstracts.{abstract_by, abstract_types, all_abstract};
ghost use Rattle.gql_types.specs.Declarations.{declarations, declared_by, pair};
ghost use Rattle.gql_types.specs.Roles.{role_of};

use crate::batched::Batched;
use crate::by_name::{ByName, by_name};
use crate::kind::TypeKind;
use crate::named::HasName;
use crate::role::Role;
use crate::schema_type::SchemaType;
use crate::sorted_names::in_order;
use crate::types::Types;
use gql_ast::{Items, Name, Text};
use gql_built_in::Sited;
use std::alloc::{AllocError, Global};

/// A composite type and the objects that its values may be, each once, in the order of the bytes of
/// their names.
pub struct PossibleTypes {
    pub of_type: Text,
    pub types: Items<Text>,
}

impl Drop for PossibleTypes {
    fn drop(self) {
        let PossibleTypes {
            of_type: _,
            types: _,
        } = self;
    }
}

impl HasName for PossibleTypes {
    ghost name = { λ p. p.of_type };

    fn name(&self) -> &str {
        self.of_type.as_str()
    }
}

/// An object that declares an interface.
#[derive(Clone, Copy)]
pub struct Declaration<'t> {
    pub interface: &'t str,
    pub object: &'t str,
}

impl<'t> HasName for Declaration<'t> {
    ghost name = { λ d. d.interface.now };

    fn name(&self) -> &str {
        self.interface
    }
}

fn add_interfaces<'t>(
    object: &'t str,
    interfaces: &'t [Sited<Name>],
    found: &mut Vec<Declaration<'t>>,
) -> Result<(), AllocError>
    ensures { OnOk result (map pair found.new.items
        ≡ map pair found.old.items ++ map (λ i. (i.node.text, object.now)) interfaces.now) }
{
    for interface in interfaces {
        found.push(Declaration {
            interface: interface.node.as_str(),
            object,
        })?;
    }
    Ok(())
}

/// What possible types are made of: which objects declare interfaces, and the interfaces and unions.
#[derive(Drop)]
struct Gathering<'t> {
    declarations: Vec<Declaration<'t>>,
    abstracts: Vec<&'t SchemaType>,
}

/// Adds what an object declares, or an interface or a union.
fn add_type<'t>(of_type: &'t SchemaType, found: &mut Gathering<'t>) -> Result<(), AllocError>
    ensures declarations { OnOk result (map pair found.new.declarations.items
        ≡ map pair found.old.declarations.items
        ++ declared_by of_type.now.kind (spec.name_of of_type.now) of_type.now.interfaces) }
    ensures abstracts { OnOk result (map (λ t. t.now) found.new.abstracts.items
        ≡ map (λ t. t.now) found.old.abstracts.items ++ abstract_types (of_type.now ∷ [])) }
{
    match of_type.kind {
        TypeKind::Object => {
            let interfaces = of_type.interfaces.as_slice();
            add_interfaces(of_type.name(), interfaces, &mut found.declarations)
        }
        TypeKind::Interface | TypeKind::Union => {
            found.abstracts.push(of_type)?;
            Ok(())
        }
        TypeKind::Scalar | TypeKind::Enum | TypeKind::InputObject => Ok(()),
    }
}

/// Adds what a type of this role declares, if it is an object, or an interface or a union. A type
/// that plays no part in possible types is not looked at.
fn add_by_role<'t>(
    role: Role,
    of_type: &'t Batched<SchemaType>,
    found: &mut Gathering<'t>,
) -> Result<(), AllocError>
    requires { role ≡ role_of of_type.now }
    ensures declarations { OnOk result (map pair found.new.declarations.items
        ≡ map pair found.old.declarations.items
        ++ declared_by of_type.now.kind (spec.name_of of_type.now) of_type.now.interfaces) }
    ensures abstracts { OnOk result (map (λ t. t.now) found.new.abstracts.items
        ≡ map (λ t. t.now) found.old.abstracts.items ++ abstract_types (of_type.now ∷ [])) }
{
    match role {
        Role::Abstract | Role::Declaring => add_type(of_type.get(), found),
        Role::Other => Ok(()),
    }
}

/// What the possible types of these types are made of.
fn gathering_of(alloc: Global, types: &Types) -> Result<Gathering<'_>, AllocError>
    ensures declarations { IfOk result (λ found.
        map pair found.declarations.items ≡ declarations types.now) }
    ensures abstracts { IfOk result (λ found.
        map (λ t. t.now) found.abstracts.items ≡ abstract_types types.now) }
{
    let mut found = Gathering {
        declarations: Vec::new(alloc),
        abstracts: Vec::new(alloc),
    };
    let roles = types.roles();
    let all = types.named().as_slice();
    for place in 0..all.len() {
        add_by_role(roles[place], &all[place], &mut found)?;
    }
    Ok(found)
}

fn objects_in<'t>(alloc: Global, group: &[&Declaration<'t>]) -> Result<Vec<&'t str>, AllocError>
    ensures { IfOk result (λ names.
        map (λ n. n.now) names.items ≡ map (λ d. d.object.now) (map (λ x. x.now) group.now)) }
{
    let mut names = Vec::with_capacity(alloc, group.len())?;
    for declaration in group {
        names.push(declaration.object)?;
    }
    Ok(names)
}

fn of_interface(
    alloc: Global,
    name: &str,
    declaring: &ByName<'_, Declaration<'_>>,
) -> Result<Items<Text>, AllocError>
    ensures { IfOk result (λ found. found ≡ spec.in_order
        (map (λ d. d.object.now)
        (option_map_or (λ group. map (λ x. x.now) group.items)
        (hash.get_by_text declaring.now name.now) []))) }
{
    match declaring.get(name) {
        Some(group) => {
            let names = objects_in(alloc, group.as_slice())?;
            in_order(alloc, names)
        }
        None => Ok(Items::new(alloc)),
    }
}

fn of_union(alloc: Global, members: &[Sited<Name>]) -> Result<Items<Text>, AllocError>
    ensures { IfOk result (λ found. found ≡ spec.in_order (map (λ m. m.node.text) members.now)) }
{
    let mut names = Vec::with_capacity(alloc, members.len())?;
    for member in members {
        names.push(member.node.as_str())?;
    }
    in_order(alloc, names)
}

fn add(
    alloc: Global,
    name: &Text,
    types: Items<Text>,
    found: &mut Vec<PossibleTypes>,
) -> Result<(), AllocError>
    ensures { OnOk result (found.new.items
        ≡ found.old.items ++ (record { of_type = name.now; types = types }) ∷ []) }
{
    found.push(PossibleTypes {
        of_type: name.copy()?,
        types,
    })?;
    Ok(())
}

fn add_abstract(
    alloc: Global,
    of_type: &SchemaType,
    declaring: &ByName<'_, Declaration<'_>>,
    found: &mut Vec<PossibleTypes>,
) -> Result<(), AllocError>
    ensures { OnOk result (found.new.items ≡ found.old.items ++ abstract_by of_type.now.kind
        (λ q. map (λ d. d.object.now)
        (option_map_or (λ group. map (λ x. x.now) group.items)
        (hash.get_by_text declaring.now q) [])) of_type.now) }
{
    let name = &of_type.definition.node.get().name.text;
    match of_type.kind {
        TypeKind::Interface => {
            let types = of_interface(alloc, name.as_str(), declaring)?;
            add(alloc, name, types, found)
        }
        TypeKind::Union => {
            let types = of_union(alloc, of_type.members.as_slice())?;
            add(alloc, name, types, found)
        }
        TypeKind::Object | TypeKind::Scalar | TypeKind::Enum | TypeKind::InputObject => Ok(()),
    }
}

fn all_by(
    alloc: Global,
    types: &[&SchemaType],
    declaring: &ByName<'_, Declaration<'_>>,
) -> Result<Vec<PossibleTypes>, AllocError>
    ensures { IfOk result (λ found. found.items ≡ flat_map (λ t. abstract_by t.kind
        (λ q. map (λ d. d.object.now)
        (option_map_or (λ group. map (λ x. x.now) group.items)
        (hash.get_by_text declaring.now q) [])) t) (map (λ t. t.now) types.now)) }
{
    let mut found = Vec::new(alloc);
    for of_type in types {
        add_abstract(alloc, of_type, declaring, &mut found)?;
    }
    Ok(found)
}

/// The interfaces and unions, each with its possible types.
pub fn all_abstract(alloc: Global, types: &Types) -> Result<Vec<PossibleTypes>, AllocError>
    ensures { IfOk result (λ found. found.items ≡ all_abstract types.now) }
{
    let gathering = gathering_of(alloc, types)?;
    let declaring = by_name(alloc, gathering.declarations.as_slice())?;
    let found = all_by(alloc, gathering.abstracts.as_slice(), &declaring)?;
    Ok(found)
}
