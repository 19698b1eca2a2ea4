//! Places in files, as JSON.
ghost use Rattle.std.specs.Prelude.{◌≡◌, ◌++◌, OnOk, IfOk, string_bytes};
ghost use Rattle.gql_http.specs.Json.{side_text, place_text, owner_text, places_text};

use crate::write::{write_bytes, write_number, write_string};
use gql_ast::{FileName, FilePlace, FileSide};
use std::alloc::{AllocError, Global};

fn side_name(side: FileSide) -> &'static str
    ensures { result.now ≡ side_text side }
{
    match side {
        FileSide::Schema => "schema/",
        FileSide::Documents => "documents/",
    }
}

/// The name of a file with its side before it.
pub fn file_text(alloc: Global, side: FileSide, name: &FileName) -> Result<String, AllocError>
    ensures { IfOk result (λ text. string_bytes text ≡ side_text side ++ name.now) }
{
    let mut text = String::from_str(alloc, side_name(side))?;
    text.push_str(name.as_str())?;
    Ok(text)
}

/// Writes a place.
#[tactic(auto, unfolding(crate::specs::Json::place_text))]
fn write_place(alloc: Global, out: &mut Vec<u8>, place: &FilePlace) -> Result<(), AllocError>
    ensures { OnOk result (out.new.items ≡ out.old.items ++ place_text place.now) }
{
    let file = file_text(alloc, place.side, &place.file)?;
    write_bytes(out, b"{\"file\":")?;
    write_string(alloc, out, file.as_str())?;
    write_bytes(out, b",\"line\":")?;
    write_number(out, place.place.line as u64)?;
    write_bytes(out, b",\"column\":")?;
    write_number(out, place.place.column as u64)?;
    write_bytes(out, b"}")?;
    Ok(())
}

/// Writes the place of an owner, or null.
#[tactic(auto, unfolding(crate::specs::Json::owner_text))]
pub fn write_owner(
    alloc: Global,
    out: &mut Vec<u8>,
    owner: &Option<FilePlace>,
) -> Result<(), AllocError>
    ensures { OnOk result (out.new.items ≡ out.old.items ++ owner_text owner.now) }
{
    match owner {
        Some(place) => write_place(alloc, out, place),
        None => write_bytes(out, b"null"),
    }
}

/// Writes places with commas between them.
#[tactic(auto, unfolding(crate::specs::Json::places_text))]
pub fn write_places(
    alloc: Global,
    out: &mut Vec<u8>,
    places: &[FilePlace],
) -> Result<(), AllocError>
    ensures { OnOk result (out.new.items ≡ out.old.items ++ places_text places.now) }
{
    let Some((first, rest)) = places.split_first() else {
        return Ok(());
    };
    write_place(alloc, out, first)?;
    for place in rest {
        write_bytes(out, b",")?;
        write_place(alloc, out, place)?;
    }
    Ok(())
}
