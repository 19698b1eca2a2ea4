//! The requests of a push.
ghost use Rattle.std.specs.Prelude.{◌≡◌, ◌++◌, IfOk, OnOk, string_bytes};
ghost use Rattle.gql_push.specs.Plans.{change_of};
ghost use Rattle.gql_push.specs.Requests as spec;
ghost use Rattle.gql_push.specs.Resources.{entries_of};
ghost use Rattle.gql_push.specs.Sending.{sending_of};

use crate::edits::{Edit, Resource};
use crate::progress::Sent;
use gql_folder::GivenFile;
use std::alloc::{AllocError, Global};

/// Adds the request for the report.
pub fn write_report(alloc: Global, out: &mut Vec<u8>, host: &str) -> Result<(), AllocError>
    ensures { OnOk result (out.new.items ≡ out.old.items ++ spec.report_request host.now) }
{
    let head = format!(in alloc;
        "GET /report HTTP/1.1\r\nHost: {host}\r\nContent-Length: 0\r\n\r\n"
    )?;
    out.extend_from_slice(head.as_bytes())
}

/// The bytes of the file that an edit puts; none where it puts none.
pub(crate) fn file_bytes<'f>(
    edit: &Edit,
    resources: &[Resource],
    files: &'f [GivenFile],
) -> &'f [u8]
    ensures { result.now
        ≡ spec.bytes_put (entries_of resources.now) files.now (change_of edit.now) }
{
    let Edit::Put(at) = edit else {
        return &[];
    };
    let Some(resource) = resources.get(*at) else {
        return &[];
    };
    match files.get(resource.file) {
        Some(file) => file.bytes.as_slice(),
        None => &[],
    }
}

/// The method by which an edit is made.
fn method_of(edit: &Edit) -> &'static str
    ensures { result.now ≡ spec.method_of (change_of edit.now) }
{
    match edit {
        Edit::Put(_) | Edit::EmptyData => "PUT",
        Edit::Remove(_) => "DELETE",
    }
}

/// The body of the request for an edit.
fn body_of<'f>(edit: &Edit, resources: &[Resource], files: &'f [GivenFile]) -> &'f [u8]
    ensures { result.now
        ≡ spec.body_of (entries_of resources.now) files.now (change_of edit.now) }
{
    match edit {
        Edit::Put(_) => file_bytes(edit, resources, files),
        Edit::Remove(_) => &[],
        Edit::EmptyData => b"{}",
    }
}

/// The first line of a request that expects a revision.
pub(crate) fn line_of(
    alloc: Global,
    method: &str,
    target: &str,
    revision: u64,
) -> Result<String, AllocError>
    ensures { IfOk result (λ line.
        string_bytes line ≡ spec.line_text method.now target.now revision) }
{
    format!(in alloc; "{method} /{target}?revision={revision} HTTP/1.1\r\n")
}

/// The fields of a request for a body of this length.
pub(crate) fn fields_of(alloc: Global, host: &str, length: usize) -> Result<String, AllocError>
    ensures { IfOk result (λ fields. string_bytes fields ≡ spec.fields_text host.now length) }
{
    format!(in alloc; "Host: {host}\r\nContent-Length: {length}\r\n\r\n")
}

/// Adds the request for an edit that is sent: it expects the revision that the push has come to.
pub fn write_edit(
    alloc: Global,
    out: &mut Vec<u8>,
    host: &str,
    sent: &Sent<'_>,
    resources: &[Resource],
    files: &[GivenFile],
) -> Result<(), AllocError>
    ensures { OnOk result (out.new.items ≡ out.old.items ++ spec.edit_request host.now
        (entries_of resources.now) files.now (sending_of sent.now)) }
{
    let (method, target) = (method_of(sent.edit), sent.edit.target(resources));
    let body = body_of(sent.edit, resources, files);
    let line = line_of(alloc, method, target, sent.revision)?;
    let fields = fields_of(alloc, host, body.len())?;
    out.extend_from_slice(line.as_bytes())?;
    out.extend_from_slice(fields.as_bytes())?;
    out.extend_from_slice(body)
}
