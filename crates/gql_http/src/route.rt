//! Which call a request is.
ghost use Rattle.std.specs.Prelude.{◌≡◌, IfOk, Some, None, drop, bytes_eq, codes, if◌then◌else◌, nat_eq};
ghost use Rattle.std.specs.List.{starts_with};
ghost use Rattle.gql_ast.specs.FileNames.{is_file_name};
ghost use Rattle.gql_http.specs.Routes.{call_of, call_on, editing, file_of, file_resource, resource_of, serves_batches, single_resource_of, without_query};
ghost use Rattle.gql_http.specs.Called.{call_said, kind_said, resource_said};

use crate::query::{Query, path_of, query_of};
use gql_ast::{FileName, FileSide, Profile};
use gql_wire::Allow;
use std::alloc::{AllocError, Global};
use std::str;

/// How the paths of schema files begin.
const SCHEMA: &[u8] = b"/schema/";

/// How the paths of document files begin.
const DOCUMENTS: &[u8] = b"/documents/";

/// Why a request whose head was read is not a call.
#[derive(Clone, Copy, Debug, PartialEq, Eq)]
pub enum RouteRefusal {
    /// 305: no resource has the target.
    NoRoute,
    /// 306: the resource serves only these methods.
    NotAllowed(Allow),
    /// 308: the query isn't served.
    BadQuery,
}

impl RouteRefusal {
    ghost use Rattle.gql_http.specs.Called.{route_number};

    /// The number of the refusal: 305, 306 or 308.
    pub fn number(self) -> u16
        ensures { result ≡ route_number self }
    {
        match self {
            RouteRefusal::NoRoute => 305,
            RouteRefusal::NotAllowed(_) => 306,
            RouteRefusal::BadQuery => 308,
        }
    }
}

/// What an edit is of. The body has the rest.
#[derive(Drop)]
pub enum EditKind {
    /// A file is put on a side.
    Put(FileSide, FileName),
    /// The file of a name is removed from a side.
    Remove(FileSide, FileName),
    /// Data are put.
    PutData,
    /// A list of changes is made.
    Batch,
}

/// A call, or why the request is not one. An edit may expect a revision.
#[derive(Drop)]
pub enum Call {
    Report,
    Edit(EditKind, Option<u64>),
    Run,
    Refused(RouteRefusal),
}

/// What a path names.
#[derive(Drop)]
enum Resource {
    Nothing,
    Report,
    Data,
    Run,
    Edits,
    File(FileSide, FileName),
}

/// The name of a file that these bytes are, if they are one of at most so many bytes.
fn file_name(alloc: Global, bytes: &[u8], most: usize) -> Result<Option<FileName>, AllocError>
    ensures { IfOk result (λ name. name
        ≡ (if is_file_name most bytes.now then Some bytes.now else None)) }
{
    let Ok(text) = str::from_utf8(bytes) else {
        return Ok(None);
    };
    let name = FileName::read(alloc, text, most)?;
    Ok(name)
}

fn file_resource(
    alloc: Global,
    side: FileSide,
    name: &[u8],
    most: usize,
) -> Result<Resource, AllocError>
    ensures { IfOk result (λ found. resource_said found ≡ file_resource most side name.now) }
{
    let name = file_name(alloc, name, most)?;
    match name {
        Some(name) => Ok(Resource::File(side, name)),
        None => Ok(Resource::Nothing),
    }
}

/// The file that a path names.
fn file_of(alloc: Global, path: &[u8], most: usize) -> Result<Resource, AllocError>
    ensures { IfOk result (λ found. resource_said found ≡ file_of most path.now) }
{
    if path.starts_with(SCHEMA) {
        file_resource(alloc, FileSide::Schema, &path[SCHEMA.len()..], most)
    } else if path.starts_with(DOCUMENTS) {
        file_resource(alloc, FileSide::Documents, &path[DOCUMENTS.len()..], most)
    } else {
        Ok(Resource::Nothing)
    }
}

/// What a path names, where an edit is of one file or of the data.
fn single_resource_of(alloc: Global, path: &[u8], most: usize) -> Result<Resource, AllocError>
    ensures { IfOk result (λ found. resource_said found ≡ single_resource_of most path.now) }
{
    if path == b"/report".as_slice() {
        Ok(Resource::Report)
    } else if path == b"/data".as_slice() {
        Ok(Resource::Data)
    } else if path == b"/run".as_slice() {
        Ok(Resource::Run)
    } else {
        file_of(alloc, path, most)
    }
}

/// Whether batches are served under a profile.
fn serves_batches(profile: Profile) -> bool
    ensures { result ≡ serves_batches profile }
{
    profile.floats
}

fn resource_of(alloc: Global, path: &[u8], profile: Profile) -> Result<Resource, AllocError>
    ensures { IfOk result (λ found. resource_said found ≡ resource_of profile path.now) }
{
    if serves_batches(profile) && path == b"/edits".as_slice() {
        Ok(Resource::Edits)
    } else {
        single_resource_of(alloc, path, profile.limits.name)
    }
}

/// A call that takes no query.
fn without_query(query: Query, served: Call) -> Call
    ensures { call_said result ≡ without_query query (call_said served) }
{
    match query {
        Query::Absent => served,
        Query::Revision(_) | Query::Other => Call::Refused(RouteRefusal::BadQuery),
    }
}

/// The call that makes an edit of this kind.
fn editing(query: Query, kind: EditKind) -> Call
    ensures { call_said result ≡ editing query (kind_said kind) }
{
    match query {
        Query::Absent => Call::Edit(kind, None),
        Query::Revision(revision) => Call::Edit(kind, Some(revision)),
        Query::Other => Call::Refused(RouteRefusal::BadQuery),
    }
}

fn call_on(resource: Resource, method: &[u8], query: Query) -> Call
    ensures { call_said result ≡ call_on (resource_said resource) method.now query }
{
    match resource {
        Resource::Nothing => Call::Refused(RouteRefusal::NoRoute),
        Resource::Report if method == b"GET".as_slice() => without_query(query, Call::Report),
        Resource::Report => Call::Refused(RouteRefusal::NotAllowed(Allow::Get)),
        Resource::Data if method == b"PUT".as_slice() => editing(query, EditKind::PutData),
        Resource::Data => Call::Refused(RouteRefusal::NotAllowed(Allow::Put)),
        Resource::Run if method == b"POST".as_slice() => without_query(query, Call::Run),
        Resource::Run => Call::Refused(RouteRefusal::NotAllowed(Allow::Post)),
        Resource::Edits if method == b"POST".as_slice() => editing(query, EditKind::Batch),
        Resource::Edits => Call::Refused(RouteRefusal::NotAllowed(Allow::Post)),
        Resource::File(side, name) if method == b"PUT".as_slice() => {
            editing(query, EditKind::Put(side, name))
        }
        Resource::File(side, name) if method == b"DELETE".as_slice() => {
            editing(query, EditKind::Remove(side, name))
        }
        Resource::File(_, _) => Call::Refused(RouteRefusal::NotAllowed(Allow::PutDelete)),
    }
}

/// The call that a request's method and target make under a profile.
pub fn call_of(
    alloc: Global,
    method: &[u8],
    target: &[u8],
    profile: Profile,
) -> Result<Call, AllocError>
    ensures { IfOk result (λ call. call_said call ≡ call_of profile method.now target.now) }
{
    let resource = resource_of(alloc, path_of(target), profile)?;
    Ok(call_on(resource, method, query_of(target)))
}
