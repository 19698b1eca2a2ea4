//! A batch: one request for all edits of a push.
ghost use Rattle.std.specs.Prelude.{◌≡◌, [], Some, None, IfOk, MatchOption, codes, if◌then◌else◌, length, nat_lt, option_map, List, ℕ};
ghost use Rattle.serde_json.specs.Data.{Data};
ghost use Rattle.serde_json.specs.View.{members_view, view};
ghost use Rattle.gql_push.specs.Batches as spec;
ghost use Rattle.gql_push.specs.BatchValues.{said_by};
ghost use Rattle.gql_push.specs.Plans.{change_of, changes_of};
ghost use Rattle.gql_push.specs.Requests as requests;
ghost use Rattle.gql_push.specs.Resources.{entries_of};

use crate::body::value_in;
use crate::depth::nests_within;
use crate::edits::{Edit, Resource};
use crate::request::{fields_of, file_bytes, line_of};
use gql_folder::GivenFile;
use serde_json::{Map, Value, put};
use std::alloc::{AllocError, Global};
use std::str;

/// What a batch has: the members of each side, by the names of the files, and the data, if they are
/// put.
#[derive(Drop)]
pub(crate) struct Batch {
    schema: Map<String, Value>,
    documents: Map<String, Value>,
    new_data: Option<Value>,
}

/// The greatest number of levels of JSON that is read.
const MOST_LEVELS: usize = 127;

/// The text of a file, if its bytes are UTF-8.
fn text_in(alloc: Global, bytes: &[u8]) -> Result<Option<Value>, AllocError>
    ensures { IfOk result (λ value. option_map view value ≡ spec.text_in bytes.now) }
{
    match str::from_utf8(bytes) {
        Ok(text) => Ok(Some(Value::try_from_str(alloc, text)?)),
        Err(_) => Ok(None),
    }
}

/// The value of a file that is put: data are JSON, and any other file is a text.
fn file_value(alloc: Global, target: &str, bytes: &[u8]) -> Result<Option<Value>, AllocError>
    ensures { IfOk result (λ value. option_map view value
        ≡ spec.file_value target.now bytes.now) }
{
    if target == "data" {
        value_in(alloc, bytes)
    } else {
        text_in(alloc, bytes)
    }
}

/// The value of an edit: that of the file that is put, null for a removal, and an empty object for
/// data in their first state.
fn value_of(
    alloc: Global,
    edit: &Edit,
    resources: &[Resource],
    files: &[GivenFile],
) -> Result<Option<Value>, AllocError>
    ensures { IfOk result (λ value. option_map view value
        ≡ spec.value_of (entries_of resources.now) files.now (change_of edit.now)) }
{
    match edit {
        Edit::Put(_) => {
            let bytes = file_bytes(edit, resources, files);
            file_value(alloc, edit.target(resources), bytes)
        }
        Edit::Remove(_) => Ok(Some(Value::Null)),
        Edit::EmptyData => Ok(Some(Value::Object(Map::new(alloc)))),
    }
}

/// The name of the file that a target has, if the target begins as those of a side do.
fn name_after<'t>(target: &'t str, prefix: &str) -> Option<&'t str>
    ensures { option_map (λ name. name.now) result ≡ spec.name_after prefix.now target.now }
{
    target.strip_prefix(prefix)
}

impl Batch {
    ghost use Rattle.std.specs.Prelude.{◌≡◌, Some, None, IfOk, if◌then◌else◌};
    ghost use Rattle.serde_json.specs.View.{view};
    ghost use Rattle.gql_push.specs.Batches as spec;
    ghost use Rattle.gql_push.specs.BatchValues.{said_by};

    /// A batch without changes.
    fn new(alloc: Global) -> Batch
        ensures { said_by result ≡ spec.no_changes }
    {
        Batch {
            schema: Map::new(alloc),
            documents: Map::new(alloc),
            new_data: None,
        }
    }

    /// Adds the data, unless the target is another or the value is null. Returns whether it did.
    fn add_data(&mut self, target: &str, value: Value) -> bool
        ensures { spec.with_data (said_by self.old) (view value) target.now
            ≡ (if result then Some (said_by self.new) else None) }
    {
        if target == "data" && !value.is_null() {
            self.new_data = Some(value);
            true
        } else {
            false
        }
    }

    /// Adds the value of a target, if a batch has a place for it. Returns whether it has.
    fn add(&mut self, alloc: Global, target: &str, value: Value) -> Result<bool, AllocError>
        ensures { IfOk result (λ has_place.
            spec.with_value target.now (view value) (said_by self.old)
            ≡ (if has_place then Some (said_by self.new) else None)) }
    {
        if let Some(name) = name_after(target, "schema/") {
            put(&mut self.schema, alloc, name, value)?;
            Ok(true)
        } else if let Some(name) = name_after(target, "documents/") {
            put(&mut self.documents, alloc, name, value)?;
            Ok(true)
        } else {
            Ok(self.add_data(target, value))
        }
    }

    /// The object that the batch is.
    fn object(self, alloc: Global) -> Result<Value, AllocError>
        ensures { IfOk result (λ value. view value ≡ spec.object_of (said_by self)) }
    {
        let mut object = Map::new(alloc);
        put(&mut object, alloc, "schema", Value::Object(self.schema))?;
        put(
            &mut object,
            alloc,
            "documents",
            Value::Object(self.documents),
        )?;
        if let Some(value) = self.new_data {
            put(&mut object, alloc, "data", value)?;
        }
        Ok(Value::Object(object))
    }
}

/// Adds an edit to a batch, if it can be said there. Returns whether it can.
fn add_edit(
    alloc: Global,
    edit: &Edit,
    resources: &[Resource],
    files: &[GivenFile],
    batch: &mut Batch,
) -> Result<bool, AllocError>
    ensures { IfOk result (λ is_said. spec.with_change (entries_of resources.now) files.now
        (said_by batch.old) (change_of edit.now)
        ≡ (if is_said then Some (said_by batch.new) else None)) }
{
    match value_of(alloc, edit, resources, files)? {
        Some(value) => batch.add(alloc, edit.target(resources), value),
        None => Ok(false),
    }
}

/// The batch of these edits, if they can be said in one.
fn batch_with(
    alloc: Global,
    edits: &[Edit],
    resources: &[Resource],
    files: &[GivenFile],
) -> Result<Option<Batch>, AllocError>
    ensures { IfOk result (λ batch. option_map said_by batch
        ≡ spec.with_changes (entries_of resources.now) files.now spec.no_changes
        (changes_of edits.now)) }
{
    let mut batch = Batch::new(alloc);
    for edit in edits {
        if !add_edit(alloc, edit, resources, files, &mut batch)? {
            return Ok(None);
        }
    }
    Ok(Some(batch))
}

/// What these edits say as a batch, if they can be said in one.
fn batch_of(
    alloc: Global,
    edits: &[Edit],
    resources: &[Resource],
    files: &[GivenFile],
) -> Result<Option<Value>, AllocError>
    ensures { IfOk result (λ value. option_map view value
        ≡ spec.batch_of (entries_of resources.now) files.now (changes_of edits.now)) }
{
    match batch_with(alloc, edits, resources, files)? {
        Some(batch) => Ok(Some(batch.object(alloc)?)),
        None => Ok(None),
    }
}

/// Whether the files that these edits put have more than so many bytes together.
fn are_longer(edits: &[Edit], resources: &[Resource], files: &[GivenFile], most: usize) -> bool
    ensures { result ≡ nat_lt most (spec.count_put (entries_of resources.now) files.now
        (changes_of edits.now)) }
{
    let mut left = most;
    for edit in edits {
        let count = file_bytes(edit, resources, files).len();
        if count > left {
            return true;
        }
        left -= count;
    }
    false
}

/// The body of a batch of these edits, if they have one of at most so many bytes.
fn body_of(
    alloc: Global,
    edits: &[Edit],
    resources: &[Resource],
    files: &[GivenFile],
    most: usize,
) -> Result<Option<Vec<u8>>, AllocError>
    ensures { IfOk result (λ body. MatchOption body
        (spec.HasNoBatch (entries_of resources.now) files.now (changes_of edits.now) most)
        (λ b. spec.IsBody (entries_of resources.now) files.now (changes_of edits.now) most
        b.items)) }
{
    if are_longer(edits, resources, files, most) {
        return Ok(None);
    }
    let Some(value) = batch_of(alloc, edits, resources, files)? else {
        return Ok(None);
    };
    if !nests_within(&value, MOST_LEVELS) {
        return Ok(None);
    }
    let body = value.to_vec(alloc)?;
    if body.len() > most {
        return Ok(None);
    }
    Ok(Some(body))
}

/// The request for a batch of this body, which expects a revision.
fn request_of(alloc: Global, host: &str, revision: u64, body: &[u8]) -> Result<Vec<u8>, AllocError>
    ensures { IfOk result (λ request. request.items
        ≡ requests.batch_request host.now revision body.now) }
{
    let mut request = Vec::new(alloc);
    let line = line_of(alloc, "POST", "edits", revision)?;
    let fields = fields_of(alloc, host, body.len())?;
    request.extend_from_slice(line.as_bytes())?;
    request.extend_from_slice(fields.as_bytes())?;
    request.extend_from_slice(body)?;
    Ok(request)
}

/// One request for all of these edits, which expects a revision. None if they cannot be said in one,
/// or the files or the body would have more than so many bytes.
pub fn batch_request(
    alloc: Global,
    host: &str,
    revision: u64,
    edits: &[Edit],
    resources: &[Resource],
    files: &[GivenFile],
    most: usize,
) -> Result<Option<Vec<u8>>, AllocError>
    ensures { IfOk result (λ request. MatchOption request
        (spec.HasNoBatch (entries_of resources.now) files.now (changes_of edits.now) most)
        (λ r. (body : List ℕ) × spec.IsBody (entries_of resources.now) files.now
        (changes_of edits.now) most body
        × (r.items ≡ requests.batch_request host.now revision body))) }
{
    match body_of(alloc, edits, resources, files, most)? {
        Some(body) => Ok(Some(request_of(alloc, host, revision, body.as_slice())?)),
        None => Ok(None),
    }
}

/// A request for a batch with an empty body. No registry makes an edit of it: one that serves batches
/// refuses it by its form (312).
pub fn trial_request(alloc: Global, host: &str, revision: u64) -> Result<Vec<u8>, AllocError>
    ensures { IfOk result (λ request. request.items
        ≡ requests.batch_request host.now revision []) }
{
    request_of(alloc, host, revision, &[])
}
