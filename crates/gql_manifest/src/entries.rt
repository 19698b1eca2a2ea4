//! The operations of a manifest, with their ids.

ghost use Rattle.std.specs.Prelude.{◌≡◌, IfOk, Some, option_map};
ghost use Rattle.gql_manifest.specs.Entries.{list_at, listing_in, listing_of, listings_found, listings_in, listings_of, text_at, texts_by_id};
ghost use Rattle.serde_json.specs.View.{items_view, members_view, view};

use serde_json::{Map, Value};
use std::alloc::{AllocError, Global};

/// An operation of a manifest: its id, and its text with the fragments that it brings with it.
#[derive(Drop)]
pub struct Entry<'m> {
    pub id: &'m str,
    pub body: &'m str,
}

/// The text of a member of an operation.
fn member<'m>(operation: &'m Value, name: &str) -> Option<&'m str>
    ensures { option_map (λ text. text.now) result ≡ text_at name.now (view operation.now) }
{
    match operation.get(name) {
        Some(value) => value.as_str(),
        None => None,
    }
}

/// The entry of an operation of Apollo's form: an object with a text `body`, and with an `id` or a
/// `name`.
fn listed_entry(operation: &Value) -> Option<Entry<'_>>
    ensures { option_map listing_of result ≡ listing_in (view operation.now) }
{
    let body = member(operation, "body")?;
    let id = match member(operation, "id") {
        Some(id) => id,
        None => member(operation, "name")?,
    };
    Some(Entry { id, body })
}

/// The entries of a list of operations, Apollo's form. None if one is no operation.
fn listed<'m>(alloc: Global, operations: &'m [Value]) -> Result<Option<Vec<Entry<'m>>>, AllocError>
    ensures { IfOk result
        (λ found. listings_found found ≡ listings_in (items_view operations.now)) }
{
    let mut entries = Vec::new(alloc);
    for operation in operations {
        match listed_entry(operation) {
            Some(entry) => entries.push(entry)?,
            None => return Ok(None),
        }
    }
    Ok(Some(entries))
}

/// The entries of an object of texts by their ids, Relay's form. None if one is no text.
fn mapped<'m>(
    alloc: Global,
    texts: &'m Map<String, Value>,
) -> Result<Option<Vec<Entry<'m>>>, AllocError>
    ensures { IfOk result
        (λ found. listings_found found ≡ texts_by_id (members_view texts.now.entries)) }
{
    let mut entries = Vec::new(alloc);
    for (id, text) in texts.iter() {
        match text.as_str() {
            Some(body) => entries.push(Entry {
                id: id.as_str(),
                body,
            })?,
            None => return Ok(None),
        }
    }
    Ok(Some(entries))
}

/// The list under a key of an object.
fn list_in<'m>(object: &'m Value, key: &str) -> Option<&'m [Value]>
    ensures { option_map (λ list. items_view list.now) result ≡ list_at key.now (view object.now) }
{
    match object.get(key) {
        Some(value) => Some(value.as_array()?.as_slice()),
        None => None,
    }
}

/// The entries of a manifest: those of its list `operations`, or if it has none its texts by ids.
/// None if it has neither form.
pub fn entries_of<'m>(
    alloc: Global,
    manifest: &'m Value,
) -> Result<Option<Vec<Entry<'m>>>, AllocError>
    ensures { IfOk result (λ found. listings_found found ≡ listings_of (view manifest.now)) }
{
    let Some(members) = manifest.as_object() else {
        return Ok(None);
    };
    match list_in(manifest, "operations") {
        Some(operations) => listed(alloc, operations),
        None => mapped(alloc, members),
    }
}
