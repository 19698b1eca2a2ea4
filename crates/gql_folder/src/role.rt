//! What a file of a folder is, by its path.
ghost use Rattle.std.specs.Prelude.{◌≡◌, IfOk, Some, None, if◌then◌else◌};
ghost use Rattle.gql_ast.specs.FileNames.{is_file_name};
ghost use Rattle.gql_folder.specs.Roles.{file_at, name_at, role_at, role_below, role_in};

use gql_ast::{FileName, FileSide};
use std::alloc::{AllocError, Global};

/// The folder of the schema files.
const SCHEMA: &[u8] = b"schema/";

/// The folder of the document files.
const DOCUMENTS: &[u8] = b"documents/";

/// The extensions of GraphQL files.
const GRAPHQL: &[u8] = b".graphql";

const GRAPHQLS: &[u8] = b".graphqls";

const GQL: &[u8] = b".gql";

/// What the file at a path below a folder is.
#[derive(Drop)]
pub enum Role {
    /// A file of the registry.
    File(FileSide, FileName),
    /// The data that operations are executed on.
    Data,
    /// A file whose path gives no name: names have letters, digits, `_`, `.` and `-`, at least one
    /// of them and at most as many as the profile takes.
    Misnamed,
    /// No file of the registry.
    Other,
}

/// The name of the file at a path that has no extension, with a dot for each slash. It has at most
/// so many bytes.
fn name_of(alloc: Global, stem: &[u8], most: usize) -> Result<Option<FileName>, AllocError>
    ensures { IfOk result (λ name. name
        ≡ (if is_file_name most (name_at stem.now) then Some (name_at stem.now) else None)) }
{
    if stem.len() > most {
        return Ok(None);
    }
    let mut name = String::with_capacity(alloc, stem.len())?;
    for byte in stem {
        if *byte >= 128 {
            return Ok(None);
        }
        let byte = if *byte == b'/' { b'.' } else { *byte };
        name.push(char::from(byte))?;
    }
    let found = FileName::read(alloc, name.as_str(), most)?;
    Ok(found)
}

/// The file of a side at a path that has no extension.
fn file_of(alloc: Global, side: FileSide, stem: &[u8], most: usize) -> Result<Role, AllocError>
    ensures { IfOk result (λ role. role ≡ file_at most side stem.now) }
{
    match name_of(alloc, stem, most)? {
        Some(name) => Ok(Role::File(side, name)),
        None => Ok(Role::Misnamed),
    }
}

/// What the file at a path below the folder of a side is.
fn role_below(alloc: Global, side: FileSide, path: &[u8], most: usize) -> Result<Role, AllocError>
    ensures { IfOk result (λ role. role ≡ role_below most side path.now) }
{
    if path.ends_with(GRAPHQL) {
        file_of(alloc, side, &path[..path.len() - GRAPHQL.len()], most)
    } else if path.ends_with(GRAPHQLS) {
        file_of(alloc, side, &path[..path.len() - GRAPHQLS.len()], most)
    } else if path.ends_with(GQL) {
        file_of(alloc, side, &path[..path.len() - GQL.len()], most)
    } else {
        Ok(Role::Other)
    }
}

/// What the file at a path is, if it is not the data.
fn role_in(alloc: Global, path: &[u8], most: usize) -> Result<Role, AllocError>
    ensures { IfOk result (λ role. role ≡ role_in most path.now) }
{
    if path.starts_with(SCHEMA) {
        role_below(alloc, FileSide::Schema, &path[SCHEMA.len()..], most)
    } else if path.starts_with(DOCUMENTS) {
        role_below(alloc, FileSide::Documents, &path[DOCUMENTS.len()..], most)
    } else {
        Ok(Role::Other)
    }
}

/// What the file at a path below a folder is, where a name has at most so many bytes. The parts of
/// the path are separated by `/`.
pub fn role_of(alloc: Global, path: &str, most: usize) -> Result<Role, AllocError>
    ensures { IfOk result (λ role. role ≡ role_at most path.now) }
{
    let path = path.as_bytes();
    if path == b"data.json".as_slice() {
        Ok(Role::Data)
    } else {
        role_in(alloc, path, most)
    }
}
