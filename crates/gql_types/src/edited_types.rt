//! The types of a schema after an edit of a schema file. A type that the edit leaves as it is is
//! shared with the schema before the edit.
ghost use Rattle.std.specs.Prelude.{◌≡◌, ◌↔◌, ◌++◌, ◌∷◌, [], List, IfNone, IfOk, IfSome, IsTrue, OnOk, Some, bytes_eq, false, find, is_some, map, option_and_then, slice_get, true};
ghost use Rattle.std.specs.Option.{option_copied};
ghost use Rattle.std.specs.List.{AllZip, position_from};
ghost use Rattle.gql_ast.specs.declared.type_system.TypeDefinition.{TypeDefinition};
ghost use Rattle.gql_ast.specs.declared.type_system.TypeExtension.{TypeExtension as TheExtension};
ghost use Rattle.gql_built_in.specs.declared.sited.Sited.{Sited as TheSited};
ghost use Rattle.gql_types.specs.EditedTypes.{AreEdited, AreExtensions, AreMade, AreTypesAfter, defined_name};
ghost use Rattle.gql_types.specs.Edits.{KeepsTypes};
ghost use Rattle.gql_types.specs.KeptTypes.{IsConcreteAt};
ghost use Rattle.gql_types.specs.Possible.{name_of};
ghost use Rattle.gql_types.specs.Prints as prints;
ghost use Rattle.gql_types.specs.Prints.{HaveOwnPrints};
ghost use Rattle.gql_types.specs.Roles.{role_of};
ghost use Rattle.gql_types.specs.Sites.{site};
ghost use Rattle.gql_types.specs.Types as spec;
ghost use Rattle.gql_types.specs.declared.schema_type.SchemaType.{SchemaType as TheType};

use crate::batched::Batched;
use crate::by_name::{ByName, by_name};
use crate::first_definitions::first_definitions;
use crate::named::{HasName, Named, next_place};
use crate::named_list::thing_at;
use crate::prints::print_of;
use crate::schema::Schema;
use crate::schema_type::SchemaType;
use crate::type_list::TypeList;
use crate::type_site::TypeSite;
use crate::types::Types;
use gql_ast::{Shared, Text, TypeExtension};
use gql_built_in::Sited;
use std::alloc::{AllocError, Global};

/// What the types after an edit are made of: the schema before it, the names whose types the edit may
/// change, for each type before it whether its name is among them, and the extensions after it.
#[derive(Drop)]
pub struct TypeEdit<'e> {
    pub schema: &'e Schema,
    edited: &'e Named<Text>,
    are_edited: Vec<bool>,
    pub extensions: ByName<'e, Sited<Shared<TypeExtension>>>,
}

/// The types after an edit. For each of them, where it stood before the edit, if the edit leaves it
/// as it is and it is neither an interface nor a union: possible types of these change with others.
#[derive(Drop)]
pub struct EditedTypes {
    pub types: Types,
    pub places: Vec<Option<usize>>,
    /// Whether it is known that each type is defined once.
    pub are_once: bool,
}

/// Whether there is a type at a place, and it is not edited.
fn is_kept_at(are_edited: &[bool], place: usize) -> bool
    ensures { IsTrue result ↔ (slice_get are_edited.now place ≡ Some false) }
{
    match are_edited.get(place) {
        Some(is_edited) => !*is_edited,
        None => false,
    }
}

/// The type that stood at this place before the edit, if the edit does not change types of its name.
pub fn kept_type<'e>(
    edit: &'e TypeEdit<'_>,
    stood: Option<usize>,
) -> Option<&'e Batched<SchemaType>>
    requires { AreEdited edit.now }
    ensures there { IfSome (option_copied result) (λ t.
        option_and_then (λ i. slice_get edit.entry.now.schema.now.types i) stood ≡ Some t) }
    ensures unedited { IfSome (option_copied result) (λ t.
        is_some (find (bytes_eq (name_of t)) edit.entry.now.edited.now) ≡ false) }
    ensures none { IfNone (option_copied result) ((t : TheType)
        → option_and_then (λ i. slice_get edit.entry.now.schema.now.types i) stood ≡ Some t
        → is_some (find (bytes_eq (name_of t)) edit.entry.now.edited.now) ≡ true) }
{
    let Some(place) = stood else {
        return None;
    };
    if is_kept_at(edit.are_edited.as_slice(), place) {
        thing_at(edit.schema.types(), place)
    } else {
        None
    }
}

/// Adds the type of a definition. It is the one that stood where its name was found before the edit,
/// if the edit leaves that as it is.
fn add_type(
    alloc: Global,
    edit: &TypeEdit<'_>,
    stood: Option<usize>,
    definition: &TypeSite<'_>,
    list: &mut TypeList,
) -> Result<(), AllocError>
    requires edited { AreEdited edit.now }
    requires stood { stood ≡ position_from (λ t. bytes_eq (site definition.now).node.name.text
        (name_of t)) 0 edit.now.schema.now.types }
    ensures { OnOk result ((sites : List (TheSited TypeDefinition))
        → AreMade edit.now sites list.old
        → AreMade edit.now (sites ++ site definition.now ∷ []) list.new) }
{
    let print = print_of(definition.name());
    match kept_type(edit, stood) {
        Some(of_type) => list.keep(of_type, edit.schema.role_at(stood), stood, print),
        None => list.make(alloc, definition, &edit.extensions, print),
    }
}

/// Adds the types of definitions, each taken for the first of its name. Most of them follow those that
/// they followed before the edit.
pub fn add_types(
    alloc: Global,
    edit: &TypeEdit<'_>,
    definitions: &[TypeSite<'_>],
    list: &mut TypeList,
) -> Result<(), AllocError>
    requires { AreEdited edit.now }
    ensures { OnOk result ((sites : List (TheSited TypeDefinition))
        → AreMade edit.now sites list.old
        → AreMade edit.now (sites ++ map site definitions.now) list.new) }
{
    let names = edit.schema.named_types();
    let mut next = 0;
    for definition in definitions {
        let stood = names.place_near(next, definition.name());
        next = next_place(stood, next);
        add_type(alloc, edit, stood, definition, list)?;
    }
    Ok(())
}

/// The types of definitions, each taken for the first of its name.
fn all_types(
    alloc: Global,
    edit: &TypeEdit<'_>,
    definitions: &[TypeSite<'_>],
) -> Result<TypeList, AllocError>
    requires { AreEdited edit.now }
    ensures { IfOk result (AreMade edit.now (map site definitions.now)) }
{
    let mut list = TypeList::with_capacity(alloc, definitions.len())?;
    add_types(alloc, edit, definitions, &mut list)?;
    Ok(list)
}

impl EditedTypes {
    /// These types, with a look-up by the prints of their names; none if two names have one print.
    pub fn with_own_prints(alloc: Global, list: TypeList) -> Result<Option<EditedTypes>, AllocError>
        requires prints { list.prints.items ≡ map prints.print_of (map name_of list.types) }
        requires roles { list.roles.items ≡ map role_of list.types }
        ensures some { IfOk result (λ found. IfSome found (λ after.
            (after.types ≡ list.types) × (after.places.items ≡ list.places.items)
            × HaveOwnPrints (map name_of list.types) × IsTrue after.are_once)) }
        ensures none { IfOk result (λ found. IfNone found (
            HaveOwnPrints (map name_of list.types) → ⊥)) }
    {
        let TypeList {
            types,
            roles,
            places,
            prints,
        } = list;
        let types = types.finish(alloc)?;
        match Named::of_prints(alloc, types, prints)? {
            Some(types) => Ok(Some(EditedTypes {
                types: Types::of(types, roles),
                places,
                are_once: true,
            })),
            None => Ok(None),
        }
    }

    /// These types, with a look-up by their names. It is not known whether each is defined once.
    fn with_names(alloc: Global, list: TypeList) -> Result<EditedTypes, AllocError>
        requires { list.roles.items ≡ map role_of list.types }
        ensures types { IfOk result (λ after. after.types ≡ list.types) }
        ensures places { IfOk result (λ after. after.places.items ≡ list.places.items) }
        ensures once { IfOk result (λ after. after.are_once ≡ false) }
    {
        let TypeList {
            types,
            roles,
            places,
            prints: _,
        } = list;
        let types = types.finish(alloc)?;
        let types = Named::new(alloc, types)?;
        Ok(EditedTypes {
            types: Types::of(types, roles),
            places,
            are_once: false,
        })
    }

    /// These types, which have the names of others in the same order, each once. They share the look-up
    /// of those.
    pub fn with_names_of(
        alloc: Global,
        list: TypeList,
        others: &Named<Batched<SchemaType>>,
    ) -> Result<EditedTypes, AllocError>
        requires names { map name_of list.types ≡ map name_of others.now }
        requires roles { list.roles.items ≡ map role_of list.types }
        ensures types { IfOk result (λ after. after.types ≡ list.types) }
        ensures places { IfOk result (λ after. after.places.items ≡ list.places.items) }
        ensures once { IfOk result (λ after. IsTrue after.are_once) }
    {
        let TypeList {
            types,
            roles,
            places,
            prints: _,
        } = list;
        let types = types.finish(alloc)?;
        let types = Named::of_names(alloc, types, others)?;
        Ok(EditedTypes {
            types: Types::of(types, roles),
            places,
            are_once: true,
        })
    }
}

impl<'e> TypeEdit<'e> {
    /// What the types after an edit are made of that changed types of these names alone.
    pub fn new(
        alloc: Global,
        schema: &'e Schema,
        edited: &'e Named<Text>,
        extensions: &'e [Sited<Shared<TypeExtension>>],
    ) -> Result<TypeEdit<'e>, AllocError>
        ensures schema { IfOk result (λ edit. edit.schema.now ≡ schema.now) }
        ensures edited { IfOk result (λ edit. edit.edited.now ≡ edited.now) }
        ensures marks { IfOk result (λ edit. AreEdited edit) }
        ensures extensions { IfOk result (λ edit. AreExtensions edit extensions.now) }
    {
        Ok(TypeEdit {
            schema,
            edited,
            are_edited: schema.named_types().are_among(alloc, edited)?,
            extensions: by_name(alloc, extensions)?,
        })
    }
}

/// The types of these definitions after an edit, each with the extensions of its name and kind. Where
/// no two names have one print, each definition is the first of its name, and the look-up is made of
/// the prints.
pub fn types_after_edit(
    alloc: Global,
    definitions: &[TypeSite<'_>],
    edit: &TypeEdit<'_>,
) -> Result<EditedTypes, AllocError>
    requires { AreEdited edit.now }
    ensures types { IfOk result (AreTypesAfter edit.now (map site definitions.now)) }
    ensures once { IfOk result (λ after. IsTrue after.are_once
        ↔ HaveOwnPrints (map defined_name (map site definitions.now))) }
{
    let list = all_types(alloc, edit, definitions)?;
    if let Some(after) = EditedTypes::with_own_prints(alloc, list)? {
        return Ok(after);
    }
    let firsts = first_definitions(alloc, definitions)?;
    let list = all_types(alloc, edit, firsts.as_slice())?;
    let after = EditedTypes::with_names(alloc, list)?;
    Ok(after)
}
