//! Who reads a part of a schema, as lines for a terminal.

use crate::label::Paths;
use crate::reader::{Reader, place_of};
use crate::unread::{Unread, UnreadPart};
use crate::usage::Usage;
use gql_ast::{Fault, FilePlace, Shared, Text, Tree};
use gql_findings::{sentence, title};
use gql_removal::Part;
use gql_render::phrases::{write_count, write_operation};
use gql_render::write::{write_number, write_text, write_texts};
use std::alloc::{AllocError, Global};

/// The words for a kind of part.
pub fn part_word(part: Part) -> &'static str {
    match part {
        Part::Type => "type",
        Part::Field => "field",
        Part::Argument => "argument",
        Part::InputField => "input field",
        Part::EnumValue => "enum value",
        Part::Directive => "directive",
        Part::DirectiveArgument => "directive argument",
    }
}

/// What cannot be seen of the use of a part: clients send input fields and enum values in variables,
/// too.
fn unseen(part: Part) -> &'static str {
    match part {
        Part::InputField | Part::EnumValue => {
            "What clients send in variables is not stored, and so not seen.\n"
        }
        Part::Type | Part::Field | Part::Argument | Part::Directive | Part::DirectiveArgument => "",
    }
}

/// Writes a place, as `shop/documents/home.graphql:5:26`.
fn write_place(out: &mut String, paths: &Paths, place: &FilePlace) -> Result<(), AllocError> {
    write_text(out, paths.path_of(place))?;
    write_text(out, ":")?;
    write_number(out, place.place.line)?;
    write_text(out, ":")?;
    write_number(out, place.place.column)
}

/// Writes the kind and the name of a definition, as `query Home`.
fn write_definition(out: &mut String, tree: &Tree) -> Result<(), AllocError> {
    match tree {
        Tree::Operation(operation) => {
            let operation = operation.get();
            match &operation.name {
                Some(name) => write_operation(out, operation.kind, &Some(name.text.copy()?)),
                None => write_operation(out, operation.kind, &None),
            }
        }
        Tree::Fragment(fragment) => {
            write_text(out, "fragment ")?;
            write_text(out, fragment.get().name.as_str())
        }
        _ => write_text(out, "definition"),
    }
}

/// Writes names with commas between them.
fn write_names(out: &mut String, names: &[Text]) -> Result<(), AllocError> {
    let Some((first, others)) = names.split_first() else {
        return Ok(());
    };
    write_text(out, first.as_str())?;
    for name in others {
        write_text(out, ", ")?;
        write_text(out, name.as_str())?;
    }
    Ok(())
}

/// Writes the fragments through which a definition reads a part, if there are some.
fn write_through(out: &mut String, reader: &Reader) -> Result<(), AllocError> {
    if reader.through.is_empty() {
        return Ok(());
    }
    write_text(
        out,
        if reader.by_itself {
            ", and by "
        } else {
            ", by "
        },
    )?;
    write_text(
        out,
        if reader.through.len() == 1 {
            "fragment "
        } else {
            "fragments "
        },
    )?;
    write_names(out, reader.through.as_slice())
}

/// Writes the line of a reader.
fn write_reader(out: &mut String, paths: &Paths, reader: &Reader) -> Result<(), AllocError> {
    write_text(out, "  ")?;
    let place = place_of(&reader.definition)?;
    write_place(out, paths, &place)?;
    write_text(out, ": ")?;
    write_definition(out, &reader.definition.tree)?;
    write_through(out, reader)?;
    write_text(out, "\n")
}

/// How many of these are fragments.
fn fragments_in(readers: &[Reader]) -> usize {
    readers
        .iter()
        .filter(|reader| matches!(reader.definition.tree, Tree::Fragment(_)))
        .count()
}

/// Writes how many operations and fragments read a part.
fn write_readers(out: &mut String, readers: &[Reader]) -> Result<(), AllocError> {
    let fragments = fragments_in(readers);
    write_count(out, readers.len().saturating_sub(fragments), "operation")?;
    write_text(out, " and ")?;
    write_count(out, fragments, "fragment")
}

/// Writes a fault of a schema: its first place, its rule, what it is about, and what is at fault.
fn write_fault(out: &mut String, paths: &Paths, fault: &Fault) -> Result<(), AllocError> {
    write_text(out, "  ")?;
    match fault.places.as_slice().first() {
        Some(place) => write_place(out, paths, place)?,
        None => write_text(out, "schema")?,
    }
    write_texts(out, &[": ", fault.rule.name()])?;
    if !fault.about.as_str().is_empty() {
        write_texts(out, &[" `", fault.about.as_str(), "`"])?;
    }
    write_texts(
        out,
        &[": ", title(fault.rule), ": ", sentence(fault.rule), "\n"],
    )
}

/// Writes the faults that the removal of a part brings to the schema: a line that counts them, and a
/// line for each. Without a fault, nothing.
fn write_brought(
    out: &mut String,
    paths: &Paths,
    brought: &[Shared<Fault>],
) -> Result<(), AllocError> {
    if brought.is_empty() {
        return Ok(());
    }
    write_text(out, "Without it, the schema has ")?;
    write_count(out, brought.len(), "fault")?;
    write_text(out, "\n")?;
    for fault in brought {
        write_fault(out, paths, fault.get())?;
    }
    Ok(())
}

/// Writes who reads a part: a line that counts them, and a line for each.
fn write_who(out: &mut String, usage: &Usage<'_>, paths: &Paths) -> Result<(), AllocError> {
    write_text(out, part_word(usage.part))?;
    write_text(out, " ")?;
    write_text(out, usage.word)?;
    if usage.readers.is_empty() {
        return write_text(out, " is read by no stored operation\n");
    }
    write_text(out, " is read by ")?;
    write_readers(out, usage.readers)?;
    write_text(out, "\n")?;
    for reader in usage.readers {
        write_reader(out, paths, reader)?;
    }
    Ok(())
}

/// The use of a part of a schema: a line that counts who reads it, and a line for each; if operations
/// may get or send values of a type that nobody reads, a line that says so; and the faults that the
/// removal of the part brings to the schema.
pub fn usage_as_text(
    alloc: Global,
    usage: &Usage<'_>,
    paths: &Paths,
) -> Result<String, AllocError> {
    let mut out = String::new(alloc);
    write_who(&mut out, usage, paths)?;
    if usage.is_answered && usage.readers.is_empty() {
        write_text(&mut out, "Operations may still get or send values of it.\n")?;
    }
    write_text(&mut out, unseen(usage.part))?;
    write_brought(&mut out, paths, usage.brought)?;
    Ok(out)
}

/// Writes the name of a part that nobody reads.
fn write_unread_part(out: &mut String, part: &UnreadPart) -> Result<(), AllocError> {
    match part {
        UnreadPart::Type(name) => {
            write_text(out, "type ")?;
            write_text(out, name.as_str())
        }
        UnreadPart::Field { of_type, name } => {
            write_text(out, "field ")?;
            write_text(out, of_type.as_str())?;
            write_text(out, ".")?;
            write_text(out, name.as_str())
        }
        UnreadPart::Directive(name) => {
            write_text(out, "directive @")?;
            write_text(out, name.as_str())
        }
    }
}

/// The parts of a schema that nobody reads: a line for each, and a line that counts them.
pub fn unread_as_text(
    alloc: Global,
    unread: &[Unread],
    paths: &Paths,
) -> Result<String, AllocError> {
    let mut out = String::new(alloc);
    for part in unread {
        write_place(&mut out, paths, &part.place)?;
        write_text(&mut out, ": ")?;
        write_unread_part(&mut out, &part.part)?;
        if part.is_answered {
            write_text(&mut out, ", of which operations may get or send values")?;
        }
        write_text(&mut out, "\n")?;
    }
    write_count(&mut out, unread.len(), "part")?;
    write_text(&mut out, " of the schema read by no stored operation\n")?;
    Ok(out)
}
