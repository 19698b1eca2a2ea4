//! Names that occur twice in the body of a batch.
ghost use Rattle.std.specs.Prelude.{◌≡◌, IfOk};
ghost use Rattle.json.specs.Json.{document};
ghost use Rattle.json.specs.Strict.{keys};
ghost use Rattle.json.specs.Value.{members_view, value_view};
ghost use Rattle.gql_http.specs.Batches as spec;

use json::{Error, Scratch, Value};
use std::alloc::{AllocError, Global};
use std::collections::BTreeSet;

/// Whether the name of a member occurs twice.
fn repeats(alloc: Global, members: &[(&str, Value<'_>)]) -> Result<bool, AllocError>
    ensures { IfOk result (λ b. b ≡ spec.repeats (keys (members_view members.now))) }
{
    let mut names = BTreeSet::new(alloc);
    for (name, _value) in members {
        if !names.insert(*name)? {
            return Ok(true);
        }
    }
    Ok(false)
}

/// Whether a value is an object in which a name occurs twice.
fn value_repeats(alloc: Global, value: &Value<'_>) -> Result<bool, AllocError>
    ensures { IfOk result (λ b. b ≡ spec.value_repeats (value_view value.now)) }
{
    match value {
        Value::Object(members) => repeats(alloc, members.as_slice()),
        _ => Ok(false),
    }
}

/// Whether a member of a batch has files.
pub fn is_of_files(name: &str) -> bool
    ensures { result ≡ spec.is_of_files name.now }
{
    name == "schema" || name == "documents"
}

/// Whether the name of a file occurs twice in a member that has files.
fn files_repeat(alloc: Global, members: &[(&str, Value<'_>)]) -> Result<bool, AllocError>
    ensures { IfOk result (λ b. b ≡ spec.files_repeat (members_view members.now)) }
{
    for (name, value) in members {
        if is_of_files(name) && value_repeats(alloc, value)? {
            return Ok(true);
        }
    }
    Ok(false)
}

/// Whether a name occurs twice in a batch: that of a member, or that of a file.
fn has_twice(alloc: Global, batch: &Value<'_>) -> Result<bool, AllocError>
    ensures { IfOk result (λ b. b ≡ spec.has_twice (value_view batch.now)) }
{
    match batch {
        Value::Object(members) => {
            let members = members.as_slice();
            Ok(repeats(alloc, members)? || files_repeat(alloc, members)?)
        }
        _ => Ok(false),
    }
}

/// Whether a text is JSON, and no name occurs twice in it as in a batch.
pub fn is_once(alloc: Global, text: &str) -> Result<bool, AllocError>
    ensures { IfOk result (λ b. b ≡ spec.is_once (document text.now)) }
{
    let mut scratch = Scratch::new(alloc);
    match Value::parse(alloc, text, &mut scratch) {
        Ok(batch) => {
            let has_twice = has_twice(alloc, &batch)?;
            Ok(!has_twice)
        }
        Err(Error::OutOfMemory) => Err(AllocError),
        Err(_) => Ok(false),
    }
}
