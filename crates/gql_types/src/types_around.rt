//! The types of a schema after an edit of one file, if each name is defined once: the types of the
//! other files are taken over as they stood.
ghost use Rattle.std.specs.Prelude.{◌≡◌, ◌++◌, ◌+◌, ◌-◌, ◌∷◌, [], ◌<◌, ◌≤◌, List, IfOk, IfSome, IsTrue, OnOk, Some, drop, length, map, slice_get, take};
ghost use Rattle.gql_ast.specs.declared.type_system.TypeDefinition.{TypeDefinition};
ghost use Rattle.gql_built_in.specs.declared.sited.Sited.{Sited as TheSited};
ghost use Rattle.gql_types.specs.EditedTypes.{AreEdited, AreMade, AreTypesAfter, defined_name, definition_of};
ghost use Rattle.gql_types.specs.Names.{AreOnce};
ghost use Rattle.gql_types.specs.Possible.{name_of};
ghost use Rattle.gql_types.specs.Prints.{print_of};
ghost use Rattle.gql_types.specs.Sites.{site};
ghost use Rattle.gql_types.specs.TypesAround as spec;
ghost use Rattle.gql_types.specs.declared.schema_type.SchemaType.{SchemaType as TheType};

use crate::batched::Batched;
use crate::edited_types::{EditedTypes, TypeEdit, add_types, kept_type};
use crate::named_list::have_same_names;
use crate::outline::Outline;
use crate::schema_type::SchemaType;
use crate::type_list::TypeList;
use crate::type_site::TypeSite;
use gql_ast::FileName;
use gql_built_in::name_of_source;
use std::alloc::{AllocError, Global};

/// The definition of a type, where it stands.
fn site_of(of_type: &SchemaType) -> TypeSite<'_>
    ensures { site result ≡ of_type.entry.now.definition }
{
    let definition = &of_type.definition;
    TypeSite {
        file: name_of_source(&definition.file),
        node: &definition.node,
    }
}

/// Adds the type that stood at this place before the edit. If the edit changes types of its name, it
/// is made anew of its definition.
fn add_kept_at(
    alloc: Global,
    edit: &TypeEdit<'_>,
    place: usize,
    print: u64,
    list: &mut TypeList,
) -> Result<(), AllocError>
    requires edited { AreEdited edit.now }
    requires once { AreOnce (map name_of edit.now.schema.now.types) }
    requires within { place < length edit.now.schema.now.types }
    requires print { (t : TheType) → slice_get edit.now.schema.now.types place ≡ Some t
        → print ≡ print_of (name_of t) }
    ensures { OnOk result ((t : TheType) → slice_get edit.now.schema.now.types place ≡ Some t
        → (sites : List (TheSited TypeDefinition)) → AreMade edit.now sites list.old
        → AreMade edit.now (sites ++ t.definition ∷ []) list.new) }
{
    let stood = Some(place);
    match kept_type(edit, stood) {
        Some(of_type) => list.keep(of_type, edit.schema.role_at(stood), stood, print),
        None => {
            let definition = site_of(edit.schema.types()[place].get());
            list.make_alone(alloc, &definition, &edit.extensions, print)
        }
    }
}

/// Adds the types that stood at these places before the edit. Those of edited names are made anew.
fn add_kept(
    alloc: Global,
    edit: &TypeEdit<'_>,
    from: usize,
    to: usize,
    prints: &[u64],
    list: &mut TypeList,
) -> Result<(), AllocError>
    requires edited { AreEdited edit.now }
    requires once { AreOnce (map name_of edit.now.schema.now.types) }
    requires order { from ≤ to }
    requires within { to ≤ length edit.now.schema.now.types }
    requires prints { prints.now ≡ map print_of (map name_of edit.now.schema.now.types) }
    ensures { OnOk result ((sites : List (TheSited TypeDefinition)) → AreMade edit.now sites list.old
        → AreMade edit.now (sites
        ++ map definition_of (take (to - from) (drop from edit.now.schema.now.types))) list.new) }
{
    for place in from..to {
        add_kept_at(alloc, edit, place, prints[place], list)?;
    }
    Ok(())
}

/// The types of these definitions, between the first and the last types before the edit, so many of
/// each.
pub fn types_around(
    alloc: Global,
    edit: &TypeEdit<'_>,
    definitions: &[TypeSite<'_>],
    until: usize,
    past: usize,
    prints: &[u64],
) -> Result<TypeList, AllocError>
    requires edited { AreEdited edit.now }
    requires once { AreOnce (map name_of edit.now.schema.now.types) }
    requires within { until + past ≤ length edit.now.schema.now.types }
    requires prints { prints.now ≡ map print_of (map name_of edit.now.schema.now.types) }
    ensures { IfOk result (AreMade edit.now (spec.sites_around until past
        (map definition_of edit.now.schema.now.types) (map site definitions.now))) }
{
    let count = edit.schema.types().len();
    let mut list = TypeList::with_capacity(alloc, count.saturating_add(definitions.len()))?;
    add_kept(alloc, edit, 0, until, prints, &mut list)?;
    add_types(alloc, edit, definitions, &mut list)?;
    add_kept(alloc, edit, count - past, count, prints, &mut list)?;
    Ok(list)
}

/// Whether these definitions have the names of the types between the first and the last ones, so many
/// of each.
fn have_names_between(
    definitions: &[TypeSite<'_>],
    types: &[Batched<SchemaType>],
    until: usize,
    past: usize,
) -> bool
    requires { until + past ≤ length types.now }
    ensures { IsTrue result → map defined_name (map site definitions.now)
        ≡ map name_of (take (length types.now - past - until) (drop until types.now)) }
{
    let count = types.len() - past - until;
    if definitions.len() != count {
        return false;
    }
    let rest = &types[until..];
    have_same_names(definitions, &rest[..count])
}

/// The types after an edit that leaves these definitions in a file, with the types of the other files
/// as they stood: `others` says how many these are before the file of this name and after it. None if
/// two names have one print.
pub fn taken_over(
    alloc: Global,
    edit: &TypeEdit<'_>,
    definitions: &[TypeSite<'_>],
    name: &FileName,
    others: &Outline,
    built_in: usize,
) -> Result<Option<EditedTypes>, AllocError>
    requires edited { AreEdited edit.now }
    requires around { spec.AreAround built_in name.now others.now.files edit.now.schema.now.types }
    ensures types { IfOk result (λ found. IfSome found (AreTypesAfter edit.now
        (spec.sites_in_place built_in name.now others.now.files
        (map definition_of edit.now.schema.now.types) (map site definitions.now)))) }
    ensures once { IfOk result (λ found. IfSome found (λ after. IsTrue after.are_once)) }
{
    let types = edit.schema.named_types();
    let all = types.as_slice();
    let Some(prints) = types.prints() else {
        return Ok(None);
    };
    let until = built_in + others.count_until(name);
    let past = others.count_past(name);
    let list = types_around(alloc, edit, definitions, until, past, prints)?;
    if have_names_between(definitions, all, until, past) {
        let after = EditedTypes::with_names_of(alloc, list, types)?;
        return Ok(Some(after));
    }
    EditedTypes::with_own_prints(alloc, list)
}
