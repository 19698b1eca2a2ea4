//! The schema of all schema files after an edit of one of them.
ghost use Rattle.std.specs.Prelude.{◌≡◌, IfOk, IsTrue, length, map, option_map};
ghost use Rattle.std.specs.Option.{option_copied};
ghost use Rattle.gql_ast.specs.declared.type_system.TypeDefinition.{TypeDefinition};
ghost use Rattle.gql_built_in.specs.BuiltIn.{built_in as all_built_in};
ghost use Rattle.gql_built_in.specs.declared.sited.Sited.{Sited as TheSited};
ghost use Rattle.gql_types.specs.Definitions.{definitions, type_definitions};
ghost use Rattle.gql_types.specs.EditedTypes.{AreEdited, AreTypesAfter, definition_of};
ghost use Rattle.gql_types.specs.Edits.{KeepsOthers};
ghost use Rattle.gql_types.specs.KeptTypes.{AreKeptAt, known_place};
ghost use Rattle.gql_types.specs.Outlines as spec;
ghost use Rattle.gql_types.specs.Schemas.{schema_of};
ghost use Rattle.gql_types.specs.Sites.{site};
ghost use Rattle.gql_types.specs.TypesAround.{ArePlaced, others_around};

use crate::definitions::type_extensions;
use crate::edited_types::{EditedTypes, TypeEdit, types_after_edit};
use crate::gathered::{Gathered, gather};
use crate::named::Named;
use crate::outline::{FileOutline, Outline};
use crate::schema::{Schema, assemble, schema_with};
use crate::type_site::TypeSite;
use crate::types_around::taken_over;
use gql_ast::{Document, FileName, Files, Text, Tree};
use gql_built_in::{Sited, built_in_definitions};
use std::alloc::{AllocError, Global};

/// A schema, and the outline of its files.
#[derive(Drop)]
pub struct Assembled {
    pub schema: Schema,
    pub outline: Outline,
}

/// The schema after an edit, and the outline of its files. For each of its types, where it stood among
/// those before the edit, if it is known to be the same and to have the same possible types.
#[derive(Drop)]
pub struct EditedSchema {
    pub schema: Schema,
    pub outline: Outline,
    pub places: Vec<Option<usize>>,
}

/// The schema of all schema files, as `assemble` makes it, and the outline of the files, by which an
/// edit of one of them takes over what the others give.
pub fn assemble_outlined(alloc: Global, files: &Files) -> Result<Assembled, AllocError>
    ensures schema { IfOk result (λ all. all.schema ≡ schema_of files.now) }
    ensures outline { IfOk result (λ all. spec.IsOutline files.now all.outline) }
{
    let schema = assemble(alloc, files)?;
    let outline = Outline::of_files(alloc, files)?;
    Ok(Assembled { schema, outline })
}

/// How many types the built-in definitions define.
fn count_built_in(alloc: Global, built_in: &[Sited<Tree>]) -> Result<usize, AllocError>
    ensures { IfOk result (λ count. count ≡ length (type_definitions built_in.now)) }
{
    let found = Gathered::of_built_in(alloc, built_in)?;
    Ok(found.types.len())
}

/// The definitions of types in a file; none if there is no file.
fn types_in(alloc: Global, document: Option<&Document>) -> Result<Vec<TypeSite<'_>>, AllocError>
    ensures { IfOk result (λ found.
        map site found.items ≡ spec.types_in (option_copied document.entry)) }
{
    match document {
        Some(document) => {
            let Gathered { types, others: _ } = Gathered::of_file(alloc, document)?;
            Ok(types)
        }
        None => Ok(Vec::new(alloc)),
    }
}

/// What a file gives to the schema, if there is one.
fn outline_in(alloc: Global, document: Option<&Document>) -> Result<Option<FileOutline>, AllocError>
    ensures { IfOk result (λ outline.
        outline ≡ option_map spec.outline_of (option_copied document.entry)) }
{
    match document {
        Some(document) => {
            let outline = FileOutline::of_file(alloc, document)?;
            Ok(Some(outline))
        }
        None => Ok(None),
    }
}

/// The types of all definitions of the schema files, each read again.
fn types_of_all(
    alloc: Global,
    edit: &TypeEdit<'_>,
    built_in: &[Sited<Tree>],
    files: &Files,
) -> Result<EditedTypes, AllocError>
    requires edited { AreEdited edit.now }
    requires built_in { built_in.now ≡ all_built_in files.now.profile.floats }
    ensures types { IfOk result (AreTypesAfter edit.now
        (type_definitions (definitions files.now))) }
    ensures once { IfOk result (λ found. spec.HaveOwnNamePrints files.now
        → IsTrue found.are_once) }
{
    let found = gather(alloc, built_in, files)?;
    let after = types_after_edit(alloc, found.types.as_slice(), edit)?;
    Ok(after)
}

/// The outline that has the other files: the one after an edit that puts a file, or the one before it.
fn others_of<'o>(
    document: Option<&Document>,
    before: &'o Outline,
    after: &'o Outline,
) -> &'o Outline
    ensures { result.now.files
        ≡ others_around (option_copied document.entry) before.entry.now after.entry.now }
{
    match document {
        Some(_) => after,
        None => before,
    }
}

/// The types after an edit that leaves this file under this name. Those of the other files are taken
/// over as they stood, if each type was defined once and no two names have one print; or else all
/// definitions are read again.
fn edited_types(
    alloc: Global,
    edit: &TypeEdit<'_>,
    built_in: &[Sited<Tree>],
    files: &Files,
    name: &FileName,
    document: Option<&Document>,
    before: &Outline,
    after: &Outline,
) -> Result<EditedTypes, AllocError>
    requires edited { AreEdited edit.now }
    requires built_in { built_in.now ≡ all_built_in files.now.profile.floats }
    requires placed { IsTrue before.now.are_once → ArePlaced name.now (option_copied document)
        files.now before.now after.now edit.now.schema.now }
    ensures types { IfOk result (AreTypesAfter edit.now
        (type_definitions (definitions files.now))) }
    ensures once { IfOk result (λ found. spec.HaveOwnNamePrints files.now
        → IsTrue found.are_once) }
{
    if before.are_once {
        let count = count_built_in(alloc, built_in)?;
        let here = types_in(alloc, document)?;
        let others = others_of(document, before, after);
        let taken = taken_over(alloc, edit, here.as_slice(), name, others, count)?;
        if let Some(types) = taken {
            return Ok(types);
        }
    }
    let types = types_of_all(alloc, edit, built_in, files)?;
    Ok(types)
}

/// The schema of all schema files after an edit, by the schema and the outline before it. The edit put
/// this file under its name, or removed the file of that name, and changed types of these names alone.
/// The other types are shared with the schema before. If no two names of types have one print, the
/// outline says that each type is defined once, and the next edit takes over what other files give.
pub fn assemble_after_edit(
    alloc: Global,
    files: &Files,
    name: &FileName,
    document: Option<&Document>,
    before: &Schema,
    outline: &Outline,
    edited: &Named<Text>,
) -> Result<EditedSchema, AllocError>
    requires others { KeepsOthers edited.now before.now (schema_of files.now) }
    requires before { spec.IsEditedFrom name.now (option_copied document) files.now
        before.now outline.now }
    ensures schema { IfOk result (λ after. after.schema ≡ schema_of files.now) }
    ensures outline { IfOk result (λ after. spec.IsOutline files.now after.outline) }
    ensures once { IfOk result (λ after. spec.HaveOwnNamePrints files.now
        → IsTrue after.outline.are_once) }
    ensures places { IfOk result (λ after.
        AreKeptAt before.now after.schema after.places.items) }
    ensures exact { IfOk result (λ after. after.places.items
        ≡ map (known_place edited.now before.now.types) after.schema.types) }
{
    let built_in = built_in_definitions(alloc, files.profile.floats)?;
    let built_in = built_in.as_slice();
    let file = outline_in(alloc, document)?;
    let after = outline.after_edit(alloc, name, file, false)?;
    let others = after.others(alloc, built_in)?;
    let extensions = type_extensions(alloc, others.as_slice())?;
    let edit = TypeEdit::new(alloc, before, edited, extensions.as_slice())?;
    let found = edited_types(
        alloc, &edit, built_in, files, name, document, outline, &after,
    )?;
    let EditedTypes {
        types,
        places,
        are_once,
    } = found;
    let schema = schema_with(alloc, types, others.as_slice())?;
    Ok(EditedSchema {
        schema,
        outline: after.known(are_once),
        places,
    })
}
