//! The parts of a schema that no stored operation or fragment reads.
ghost use Rattle.std.specs.Prelude.{◌≡◌, ◌++◌, ◌↔◌, [], IfOk, OnOk, IsTrue};
ghost use Rattle.gql_usage.specs.Answering.{HasMore};
ghost use Rattle.gql_usage.specs.Answered as answers;
ghost use Rattle.gql_usage.specs.Breaks.{IsUnread};
ghost use Rattle.gql_usage.specs.Stored.{AreStored, facts_of};
ghost use Rattle.gql_usage.specs.Unread as spec;

use crate::answered::{Answered, answered_objects, is_answered};
use crate::breaks::{Question, breaks_none};
use crate::stored::Stored;
use gql_ast::{DirectiveDefinition, FieldDefinition, FilePlace, FileSide, Shared, Text};
use gql_built_in::{Sited, SourceFile, name_of_source};
use gql_removal::{Removal, field_removal};
use gql_text::Place;
use gql_types::{Schema, SchemaType};
use gql_verdict::Shelf;
use std::alloc::{AllocError, Global};

/// A part of a schema that nobody reads.
#[derive(Drop)]
pub enum UnreadPart {
    /// A type, with all its parts.
    Type(Text),
    /// A field of an object or an interface.
    Field { of_type: Text, name: Text },
    /// A directive.
    Directive(Text),
}

/// A part of a schema that nobody reads, and where its name stands. Operations may still get or send
/// values of a type.
#[derive(Drop)]
pub struct Unread {
    pub part: UnreadPart,
    pub place: FilePlace,
    pub is_answered: bool,
}

/// Whether the removal of a part breaks no definition: nobody reads the part.
fn is_unread(
    alloc: Global,
    stored: &Stored,
    shelf: &Shelf,
    removal: &Removal,
) -> Result<bool, AllocError>
    requires stored { AreStored (facts_of stored.now) stored.now.definitions.items
        shelf.now.verdicts }
    ensures { IfOk result (λ is. IsTrue is
        ↔ IsUnread (facts_of stored.now) removal.now stored.now.definitions.items) }
{
    let question = Question {
        present: stored.present(),
        shelf,
        removal,
    };
    breaks_none(alloc, &question, stored.definitions())
}

/// Adds a part at a place of a file, if it is in a file: the built-in definitions are in none.
fn add_part(
    file: &SourceFile,
    place: Place,
    part: UnreadPart,
    is_answered: bool,
    unread: &mut Vec<Unread>,
) -> Result<(), AllocError>
    ensures { OnOk result (unread.new.items
        ≡ unread.old.items ++ spec.at_place file.now place part is_answered) }
{
    if let Some(name) = name_of_source(file) {
        let place = FilePlace {
            side: FileSide::Schema,
            file: name.copy()?,
            place,
        };
        unread.push(Unread {
            part,
            place,
            is_answered,
        })?;
    }
    Ok(())
}

/// Adds a field of a type, if nobody reads it.
fn add_field(
    alloc: Global,
    stored: &Stored,
    shelf: &Shelf,
    of_type: &SchemaType,
    field: &Sited<Shared<FieldDefinition>>,
    unread: &mut Vec<Unread>,
) -> Result<(), AllocError>
    requires stored { AreStored (facts_of stored.now) stored.now.definitions.items
        shelf.now.verdicts }
    ensures { OnOk result (spec.Adds
        (spec.IsFieldListed (facts_of stored.now) stored.now.definitions.items of_type.now field.now)
        unread.old.items unread.new.items) }
{
    let type_name = &of_type.definition.node.get().name.text;
    let name = &field.node.get().name;
    let removal = field_removal(alloc, of_type, &name.text)?;
    let unused = is_unread(alloc, stored, shelf, &removal)?;
    if !unused {
        return Ok(());
    }
    let part = UnreadPart::Field {
        of_type: type_name.copy()?,
        name: name.text.copy()?,
    };
    add_part(&field.file, name.place, part, false, unread)?;
    Ok(())
}

/// The fields of a type that nobody reads.
fn unread_fields(
    alloc: Global,
    stored: &Stored,
    shelf: &Shelf,
    of_type: &SchemaType,
) -> Result<Vec<Unread>, AllocError>
    requires stored { AreStored (facts_of stored.now) stored.now.definitions.items
        shelf.now.verdicts }
    ensures { IfOk result (λ unread. spec.AreListed
        (spec.IsFieldListed (facts_of stored.now) stored.now.definitions.items of_type.now)
        of_type.now.fields unread.items) }
{
    let mut unread = Vec::new(alloc);
    for field in of_type.fields.as_slice() {
        add_field(alloc, stored, shelf, of_type, field, &mut unread)?;
    }
    Ok(unread)
}

/// What nobody reads of a type in a file: the type, or else those of its fields that nobody reads.
fn unread_in_file(
    alloc: Global,
    schema: &Schema,
    stored: &Stored,
    shelf: &Shelf,
    answered: &Answered,
    of_type: &SchemaType,
) -> Result<Vec<Unread>, AllocError>
    requires stored { AreStored (facts_of stored.now) stored.now.definitions.items
        shelf.now.verdicts }
    requires answered { HasMore [] (answers.answered schema.now shelf.now.verdicts) answered.now }
    ensures { IfOk result (λ unread. spec.IsListedInFile (facts_of stored.now)
        stored.now.definitions.items
        (answers.is_answered schema.now shelf.now.verdicts) of_type.now unread.items) }
{
    let name = &of_type.definition.node.get().name;
    let removal = Removal::Type(name.text.copy()?);
    let unused = is_unread(alloc, stored, shelf, &removal)?;
    if !unused {
        return unread_fields(alloc, stored, shelf, of_type);
    }
    let part = UnreadPart::Type(name.text.copy()?);
    let is_answered = is_answered(shelf, answered, &name.text)?;
    let mut unread = Vec::new(alloc);
    add_part(
        &of_type.definition.file,
        name.place,
        part,
        is_answered,
        &mut unread,
    )?;
    Ok(unread)
}

/// Whether a type is built-in.
fn is_built_in(of_type: &SchemaType) -> bool
    ensures { result ≡ spec.is_built_in of_type.now.definition.file }
{
    name_of_source(&of_type.definition.file).is_none()
}

/// Adds what nobody reads of a type: of a built-in one, nothing is listed.
fn add_type(
    alloc: Global,
    schema: &Schema,
    stored: &Stored,
    shelf: &Shelf,
    answered: &Answered,
    of_type: &SchemaType,
    unread: &mut Vec<Unread>,
) -> Result<(), AllocError>
    requires stored { AreStored (facts_of stored.now) stored.now.definitions.items
        shelf.now.verdicts }
    requires answered { HasMore [] (answers.answered schema.now shelf.now.verdicts) answered.now }
    ensures { OnOk result (spec.Adds
        (spec.IsTypeListed (facts_of stored.now) stored.now.definitions.items
        (answers.is_answered schema.now shelf.now.verdicts) of_type.now)
        unread.old.items unread.new.items) }
{
    if is_built_in(of_type) {
        return Ok(());
    }
    let mut found = unread_in_file(alloc, schema, stored, shelf, answered, of_type)?;
    unread.append(&mut found)?;
    Ok(())
}

/// The types of a schema that nobody reads, and the fields that nobody reads of the others.
fn unread_types(
    alloc: Global,
    schema: &Schema,
    stored: &Stored,
    shelf: &Shelf,
    answered: &Answered,
) -> Result<Vec<Unread>, AllocError>
    requires stored { AreStored (facts_of stored.now) stored.now.definitions.items
        shelf.now.verdicts }
    requires answered { HasMore [] (answers.answered schema.now shelf.now.verdicts) answered.now }
    ensures { IfOk result (λ unread. spec.AreListed
        (spec.IsTypeListed (facts_of stored.now) stored.now.definitions.items
        (answers.is_answered schema.now shelf.now.verdicts))
        schema.now.types unread.items) }
{
    let mut unread = Vec::new(alloc);
    for of_type in schema.types() {
        add_type(
            alloc,
            schema,
            stored,
            shelf,
            answered,
            of_type.get(),
            &mut unread,
        )?;
    }
    Ok(unread)
}

/// Adds a directive, if nobody reads it.
fn add_directive(
    alloc: Global,
    stored: &Stored,
    shelf: &Shelf,
    directive: &Sited<Shared<DirectiveDefinition>>,
    unread: &mut Vec<Unread>,
) -> Result<(), AllocError>
    requires stored { AreStored (facts_of stored.now) stored.now.definitions.items
        shelf.now.verdicts }
    ensures { OnOk result (spec.Adds
        (spec.IsDirectiveListed (facts_of stored.now) stored.now.definitions.items directive.now)
        unread.old.items unread.new.items) }
{
    let name = &directive.node.get().name;
    let removal = Removal::Directive(name.text.copy()?);
    let unused = is_unread(alloc, stored, shelf, &removal)?;
    if !unused {
        return Ok(());
    }
    let part = UnreadPart::Directive(name.text.copy()?);
    add_part(&directive.file, name.place, part, false, unread)?;
    Ok(())
}

/// The directives of a schema that nobody reads.
fn unread_directives(
    alloc: Global,
    schema: &Schema,
    stored: &Stored,
    shelf: &Shelf,
) -> Result<Vec<Unread>, AllocError>
    requires stored { AreStored (facts_of stored.now) stored.now.definitions.items
        shelf.now.verdicts }
    ensures { IfOk result (λ unread. spec.AreListed
        (spec.IsDirectiveListed (facts_of stored.now) stored.now.definitions.items)
        schema.now.directives unread.items) }
{
    let mut unread = Vec::new(alloc);
    for directive in schema.directives() {
        add_directive(alloc, stored, shelf, directive, &mut unread)?;
    }
    Ok(unread)
}

/// The parts of a schema that no stored operation or fragment reads: those whose removal breaks none of
/// them. Types come first, then directives. Where a type is read, its fields that are not. Built-in
/// definitions are left out.
pub fn unread_parts(
    alloc: Global,
    schema: &Schema,
    stored: &Stored,
    shelf: &Shelf,
) -> Result<Vec<Unread>, AllocError>
    requires stored { AreStored (facts_of stored.now) stored.now.definitions.items
        shelf.now.verdicts }
    ensures { IfOk result (λ unread. spec.AreUnreadParts (facts_of stored.now)
        stored.now.definitions.items (answers.is_answered schema.now shelf.now.verdicts)
        schema.now unread.items) }
{
    let answered = answered_objects(alloc, schema, shelf)?;
    let mut unread = unread_types(alloc, schema, stored, shelf, &answered)?;
    let mut directives = unread_directives(alloc, schema, stored, shelf)?;
    unread.append(&mut directives)?;
    Ok(unread)
}
