//! The facts of a schema after an edit of a schema file. The facts of a type that the edit leaves as
//! it is are shared with those before the edit.
ghost use Rattle.std.specs.Prelude.{◌≡◌, ◌↔◌, ◌<◌, ◌++◌, ◌∷◌, [], ℕ, List, IfOk, IfSome, IsTrue, OnOk, Some, bytes_eq, find, is_some, length, map, slice_get, unwrap_or};
ghost use Rattle.std.specs.List.{position_from};
ghost use Rattle.std.specs.Option.{option_copied};
ghost use Rattle.gql_types.specs.Possible.{name_of};
ghost use Rattle.gql_types.specs.declared.schema_type.SchemaType.{SchemaType as TheType};
ghost use Rattle.gql_facts.specs.EditedFacts as spec;
ghost use Rattle.gql_facts.specs.Tables as tables;
ghost use Rattle.gql_facts.specs.Tables.{tables_of, type_in};

use crate::meta_fields::MetaFields;
use crate::possible_names::PossibleNames;
use crate::schema_facts::{SchemaFacts, TypeEntry, directive_entries, root_entries, type_entry};
use gql_ast::Text;
use gql_types::{BatchList, Batched, HasName, Named, Schema, SchemaType};
use std::alloc::{AllocError, Global};

/// Whether both are absent, or both are there with the same names.
fn are_same_names(names: &Option<PossibleNames>, others: Option<&[Text]>) -> bool
    ensures { IsTrue result ↔ (names.now ≡ option_copied others.entry) }
{
    match names {
        Some(names) => match others {
            Some(others) => names.are(others),
            None => false,
        },
        None => others.is_none(),
    }
}

/// The entry at a place.
fn entry_at(entries: &[Batched<TypeEntry>], place: usize) -> Option<&Batched<TypeEntry>>
    ensures { option_copied result ≡ slice_get entries.now place }
{
    entries.get(place)
}

/// The entry that stood here before the edit, if there was one.
fn entry_before<'b>(before: &'b SchemaFacts, stood: Option<usize>) -> Option<&'b Batched<TypeEntry>>
    ensures { (name : List ℕ)
        → stood ≡ position_from (λ e. bytes_eq name e.name) 0 before.entry.now.types
        → option_copied result ≡ type_in before.entry.now name }
{
    match stood {
        Some(place) => entry_at(before.types.as_slice(), place),
        None => None,
    }
}

/// The entry that a type had before the edit, if it is that after the edit: the edit does not change
/// the type, nor its possible types. It stood here, and the type is at this place.
fn kept_entry<'b>(
    schema: &Schema,
    before: &'b SchemaFacts,
    stood: Option<usize>,
    place: usize,
    of_type: &SchemaType,
    is_edited: bool,
) -> Option<&'b Batched<TypeEntry>>
    requires { stood ≡ position_from (λ e. bytes_eq (name_of of_type.now) e.name) 0 before.now.types }
    ensures entry { (edited : List (List ℕ))
        → is_edited ≡ is_some (find (bytes_eq (name_of of_type.now)) edited)
        → IfSome (option_copied result)
        (spec.IsEntryAfter before.entry.now edited schema.now of_type.now) }
    ensures name { IfSome (option_copied result) (λ e. e.name ≡ name_of of_type.now) }
{
    if is_edited {
        return None;
    }
    let Some(entry) = entry_before(before, stood) else {
        return None;
    };
    let possible = schema.possible_near(place, of_type.name());
    if are_same_names(&entry.get().possible, possible) {
        Some(entry)
    } else {
        None
    }
}

/// Adds an entry as a batch of its own.
fn add_alone(
    alloc: Global,
    entry: TypeEntry,
    entries: &mut BatchList<TypeEntry>,
) -> Result<(), AllocError>
    ensures { OnOk result (entries.new ≡ entries.old ++ entry ∷ []) }
{
    let alone = Batched::new(alloc, entry)?;
    entries.keep(&alone)?;
    Ok(())
}

/// Adds the entry that is kept, if there is one, or else the entry of this type: as one of a batch, if
/// it is said that the types beside it are edited too, so that the next edit of their file replaces them
/// together; or else as a batch of its own, which is freed when an edit of any file replaces it.
fn add_entry(
    alloc: Global,
    schema: &Schema,
    of_type: &SchemaType,
    kept: Option<&Batched<TypeEntry>>,
    is_beside: bool,
    entries: &mut BatchList<TypeEntry>,
) -> Result<(), AllocError>
    ensures { OnOk result (entries.new ≡ entries.old
        ++ unwrap_or (option_copied kept.entry) (tables.type_entry schema.now of_type.now) ∷ []) }
{
    match kept {
        Some(entry) => entries.keep(entry),
        None => {
            let made = type_entry(alloc, schema, of_type)?;
            if is_beside {
                entries.add(made)
            } else {
                add_alone(alloc, made, entries)
            }
        }
    }
}

/// The entry that the type at a place had before the edit, if it is given where that type stood.
fn given_entry<'b>(
    before: &'b SchemaFacts,
    places: &[Option<usize>],
    place: usize,
) -> Option<&'b Batched<TypeEntry>>
    ensures { IfSome (option_copied result) (λ e. (stood : ℕ)
        × (slice_get places.now place ≡ Some (Some stood))
        × (slice_get before.entry.now.types stood ≡ Some e)) }
{
    match places.get(place) {
        Some(Some(stood)) => entry_at(before.types.as_slice(), *stood),
        _ => None,
    }
}

/// Whether there is a type at this place, and the edit changes types of its name.
fn is_edited_at(types: &[Batched<SchemaType>], place: usize, edited: &Named<Text>) -> bool {
    match types.get(place) {
        Some(of_type) => edited.get(of_type.name()).is_some(),
        None => false,
    }
}

/// Whether the type before this place or the one after it is edited: then they may be of one file.
/// Nothing rests on it but which entries share a count of owners.
fn is_beside_edited(types: &[Batched<SchemaType>], place: usize, edited: &Named<Text>) -> bool {
    (place > 0 && is_edited_at(types, place - 1, edited))
        || is_edited_at(types, place.saturating_add(1), edited)
}

/// Adds the entry of the type at a place after the edit.
fn add_entry_here(
    alloc: Global,
    schema: &Schema,
    before: &SchemaFacts,
    edited: &Named<Text>,
    places: &[Option<usize>],
    place: usize,
    entries: &mut BatchList<TypeEntry>,
) -> Result<(), AllocError>
    requires before { spec.AreFactsBefore before.now edited.now places.now schema.now }
    requires within { place < length schema.now.types }
    ensures { OnOk result ((t : TheType) → slice_get schema.now.types place ≡ Some t
        → entries.new ≡ entries.old ++ tables.type_entry schema.now t ∷ []) }
{
    if let Some(entry) = given_entry(before, places, place) {
        entries.keep(entry)?;
        return Ok(());
    }
    let of_type = schema.types()[place].get();
    let stood = before.types.place_near(place, of_type.name());
    let is_edited = edited.get(of_type.name()).is_some();
    let kept = kept_entry(schema, before, stood, place, of_type, is_edited);
    let is_beside = is_edited && is_beside_edited(schema.types(), place, edited);
    add_entry(alloc, schema, of_type, kept, is_beside, entries)?;
    Ok(())
}

/// The entries of the types after the edit. Those of types that the edit changes are one batch.
fn entries_after(
    alloc: Global,
    schema: &Schema,
    before: &SchemaFacts,
    edited: &Named<Text>,
    places: &[Option<usize>],
) -> Result<Vec<Batched<TypeEntry>>, AllocError>
    requires { spec.AreFactsBefore before.now edited.now places.now schema.now }
    ensures { IfOk result (λ entries. entries.items
        ≡ map (tables.type_entry schema.now) schema.now.types) }
{
    let count = schema.types().len();
    let mut entries = BatchList::with_capacity(alloc, count)?;
    for place in 0..count {
        add_entry_here(alloc, schema, before, edited, places, place, &mut entries)?;
    }
    entries.finish(alloc)
}

impl SchemaFacts {
    /// The facts of this schema, by those of the schema before an edit which changed types of these
    /// names alone. `places` says of types where they stood before the edit, if they and their
    /// possible types are the same. Facts of types that are the same are shared with those before.
    pub fn after_edit(
        alloc: Global,
        schema: &Schema,
        before: &SchemaFacts,
        edited: &Named<Text>,
        places: &[Option<usize>],
    ) -> Result<SchemaFacts, AllocError>
        requires { spec.AreFactsBefore before.now edited.now places.now schema.now }
        ensures { IfOk result (λ facts. facts ≡ tables_of schema.now) }
    {
        let entries = entries_after(alloc, schema, before, edited, places)?;
        let types = Named::of_names(alloc, entries, schema.named_types())?;
        let directives = Named::new(alloc, directive_entries(alloc, schema)?)?;
        let roots = root_entries(alloc, schema.roots())?;
        let meta = MetaFields::new(alloc)?;
        Ok(SchemaFacts {
            types,
            directives,
            roots,
            meta,
        })
    }
}
