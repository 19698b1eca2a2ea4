//! Who reads a part of a schema, as JSON.

use crate::label::Paths;
use crate::reader::{Reader, place_of};
use crate::text_usage::part_word;
use crate::unread::{Unread, UnreadPart};
use crate::usage::Usage;
use gql_ast::{Fault, FilePlace, Operation, Shared, Text, Tree};
use gql_findings::title;
use gql_render::json_write::{write_bytes, write_number, write_string, write_string_after};
use gql_render::phrases::kind_word;
use std::alloc::{AllocError, Global};

/// Writes the members of a place: its path, line and column.
fn write_place(
    alloc: Global,
    out: &mut Vec<u8>,
    paths: &Paths,
    place: &FilePlace,
) -> Result<(), AllocError> {
    write_bytes(out, b"\"path\":")?;
    write_string(alloc, out, paths.path_of(place))?;
    write_bytes(out, b",\"line\":")?;
    write_number(out, place.place.line)?;
    write_bytes(out, b",\"column\":")?;
    write_number(out, place.place.column)
}

/// Writes the members of an operation: its kind, and its name or null.
fn write_operation(
    alloc: Global,
    out: &mut Vec<u8>,
    operation: &Operation,
) -> Result<(), AllocError> {
    write_bytes(out, b"\"kind\":")?;
    write_string(alloc, out, kind_word(operation.kind))?;
    write_bytes(out, b",\"name\":")?;
    match &operation.name {
        Some(name) => write_string(alloc, out, name.as_str()),
        None => write_bytes(out, b"null"),
    }
}

/// Writes the members of a definition: its kind, and its name or null.
fn write_definition(alloc: Global, out: &mut Vec<u8>, tree: &Tree) -> Result<(), AllocError> {
    match tree {
        Tree::Operation(operation) => write_operation(alloc, out, operation.get()),
        Tree::Fragment(fragment) => {
            write_bytes(out, b"\"kind\":\"fragment\",\"name\":")?;
            write_string(alloc, out, fragment.get().name.as_str())
        }
        _ => write_bytes(out, b"\"kind\":\"definition\",\"name\":null"),
    }
}

/// Writes names as an array.
fn write_names(alloc: Global, out: &mut Vec<u8>, names: &[Text]) -> Result<(), AllocError> {
    write_bytes(out, b"[")?;
    for (at, name) in names.iter().enumerate() {
        if at > 0 {
            write_bytes(out, b",")?;
        }
        write_string(alloc, out, name.as_str())?;
    }
    write_bytes(out, b"]")
}

/// Writes a yes or no.
fn write_bool(out: &mut Vec<u8>, value: bool) -> Result<(), AllocError> {
    write_bytes(out, if value { b"true" } else { b"false" })
}

/// Writes a reader.
fn write_reader(
    alloc: Global,
    out: &mut Vec<u8>,
    paths: &Paths,
    reader: &Reader,
) -> Result<(), AllocError> {
    write_bytes(out, b"{")?;
    write_definition(alloc, out, &reader.definition.tree)?;
    write_bytes(out, b",")?;
    let place = place_of(&reader.definition)?;
    write_place(alloc, out, paths, &place)?;
    write_bytes(out, b",\"by_itself\":")?;
    write_bool(out, reader.by_itself)?;
    write_bytes(out, b",\"through\":")?;
    write_names(alloc, out, reader.through.as_slice())?;
    write_bytes(out, b"}")
}

/// Writes readers with commas between them.
fn write_readers(
    alloc: Global,
    out: &mut Vec<u8>,
    paths: &Paths,
    readers: &[Reader],
) -> Result<(), AllocError> {
    for (at, reader) in readers.iter().enumerate() {
        if at > 0 {
            write_bytes(out, b",")?;
        }
        write_reader(alloc, out, paths, reader)?;
    }
    Ok(())
}

/// Writes places with commas between them.
fn write_places(
    alloc: Global,
    out: &mut Vec<u8>,
    paths: &Paths,
    places: &[FilePlace],
) -> Result<(), AllocError> {
    for (at, place) in places.iter().enumerate() {
        if at > 0 {
            write_bytes(out, b",")?;
        }
        write_bytes(out, b"{")?;
        write_place(alloc, out, paths, place)?;
        write_bytes(out, b"}")?;
    }
    Ok(())
}

/// Writes a fault of a schema.
fn write_fault(
    alloc: Global,
    out: &mut Vec<u8>,
    paths: &Paths,
    fault: &Fault,
) -> Result<(), AllocError> {
    write_string_after(alloc, out, b"{\"rule\":", fault.rule.name())?;
    write_string_after(alloc, out, b",\"title\":", title(fault.rule))?;
    write_string_after(alloc, out, b",\"about\":", fault.about.as_str())?;
    write_bytes(out, b",\"places\":[")?;
    write_places(alloc, out, paths, fault.places.as_slice())?;
    write_bytes(out, b"]}")
}

/// Writes faults of a schema with commas between them.
fn write_faults(
    alloc: Global,
    out: &mut Vec<u8>,
    paths: &Paths,
    faults: &[Shared<Fault>],
) -> Result<(), AllocError> {
    for (at, fault) in faults.iter().enumerate() {
        if at > 0 {
            write_bytes(out, b",")?;
        }
        write_fault(alloc, out, paths, fault.get())?;
    }
    Ok(())
}

/// The use of a part of a schema: who reads it, whether operations may get or send values of it and
/// need not name it, and the faults that its removal brings to the schema.
pub fn usage_as_json(
    alloc: Global,
    usage: &Usage<'_>,
    paths: &Paths,
) -> Result<Vec<u8>, AllocError> {
    let mut out = Vec::new(alloc);
    write_string_after(alloc, &mut out, b"{\"part\":", usage.word)?;
    write_string_after(alloc, &mut out, b",\"kind\":", part_word(usage.part))?;
    write_bytes(&mut out, b",\"readers\":[")?;
    write_readers(alloc, &mut out, paths, usage.readers)?;
    write_bytes(&mut out, b"],\"is_answered\":")?;
    write_bool(&mut out, usage.is_answered)?;
    write_bytes(&mut out, b",\"brought\":[")?;
    write_faults(alloc, &mut out, paths, usage.brought)?;
    write_bytes(&mut out, b"]}\n")?;
    Ok(out)
}

/// Writes the kind and the name of a part that nobody reads.
fn write_part(alloc: Global, out: &mut Vec<u8>, part: &UnreadPart) -> Result<(), AllocError> {
    match part {
        UnreadPart::Type(name) => {
            write_bytes(out, b"\"kind\":\"type\",\"name\":")?;
            write_string(alloc, out, name.as_str())
        }
        UnreadPart::Field { of_type, name } => {
            write_bytes(out, b"\"kind\":\"field\",\"type\":")?;
            write_string(alloc, out, of_type.as_str())?;
            write_bytes(out, b",\"name\":")?;
            write_string(alloc, out, name.as_str())
        }
        UnreadPart::Directive(name) => {
            write_bytes(out, b"\"kind\":\"directive\",\"name\":")?;
            write_string(alloc, out, name.as_str())
        }
    }
}

/// Writes a part that nobody reads.
fn write_unread(
    alloc: Global,
    out: &mut Vec<u8>,
    paths: &Paths,
    unread: &Unread,
) -> Result<(), AllocError> {
    write_bytes(out, b"{")?;
    write_part(alloc, out, &unread.part)?;
    write_bytes(out, b",")?;
    write_place(alloc, out, paths, &unread.place)?;
    write_bytes(out, b",\"is_answered\":")?;
    write_bool(out, unread.is_answered)?;
    write_bytes(out, b"}")
}

/// The parts of a schema that nobody reads.
pub fn unread_as_json(
    alloc: Global,
    unread: &[Unread],
    paths: &Paths,
) -> Result<Vec<u8>, AllocError> {
    let mut out = Vec::new(alloc);
    write_bytes(&mut out, b"{\"unread\":[")?;
    for (at, part) in unread.iter().enumerate() {
        if at > 0 {
            write_bytes(&mut out, b",")?;
        }
        write_unread(alloc, &mut out, paths, part)?;
    }
    write_bytes(&mut out, b"]}\n")?;
    Ok(out)
}
