//! Texts as strings of JSON.
ghost use Rattle.std.specs.Prelude.{◌≡◌, Some, IfOk, IfSome, string_bytes};
ghost use Rattle.serde_json.specs.Data.{string};
ghost use Rattle.serde_json.specs.Read.{read};

use serde_json::Value;
use std::alloc::{AllocError, Global};

/// A text as a string of JSON.
pub fn quoted(alloc: Global, text: &str) -> Result<String, AllocError>
    ensures { IfOk result (λ s. read (string_bytes s) ≡ Some (string text.now)) }
{
    Value::String(String::from_str(alloc, text)?).to_string(alloc)
}

/// The text of a string of JSON.
pub fn unquoted(alloc: Global, text: &str) -> Option<String>
    ensures { IfSome result (λ s. read text.now ≡ Some (string (string_bytes s))) }
{
    match Value::from_str(alloc, text).ok()? {
        Value::String(text) => Some(text),
        _ => None,
    }
}
