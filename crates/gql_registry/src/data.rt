//! The data that operations are executed on.
ghost use Rattle.std.specs.Prelude.{◌≡◌, IfErr, IfOk};
ghost use Rattle.std.specs.Option.{option_copied};
ghost use Rattle.serde_json.specs.Data.{Data};
ghost use Rattle.serde_json.specs.Find.{get};
ghost use Rattle.serde_json.specs.View.{view};
ghost use Rattle.gql_registry.specs.DataBodies as spec;
ghost use Rattle.gql_registry.specs.DataBodies.{IsDataText};
ghost use Rattle.gql_registry.specs.declared.data.DataFault.TheVariants.{Refused};

use crate::integers::has_integers;
use gql_ast::Profile;
use serde_json::Value;
use std::alloc::Global;
use thiserror::Error;

/// Why a text is not accepted as data.
#[derive(Clone, Copy, Debug, Drop, Error, PartialEq, Eq)]
pub enum DataFault {
    /// The text is not data that operations can be executed on.
    #[error("data is not accepted")]
    Refused,
    /// An allocation failed.
    #[error("out of memory")]
    Memory,
}

/// Whether a member is an object, if there is one.
fn is_root(value: &Value, key: &str) -> bool
    ensures { result ≡ spec.is_object_if_some (get key.now (view value.now)) }
{
    match value.get(key) {
        Some(member) => member.is_object(),
        None => true,
    }
}

/// Whether operations can be executed on a value.
pub fn is_data(profile: Profile, value: &Value) -> bool
    ensures { result ≡ spec.is_data profile (view value.now) }
{
    value.is_object()
        && is_root(value, "query")
        && is_root(value, "mutation")
        && (profile.floats || has_integers(value))
}

/// Reads a text as the data that operations are executed on: a JSON object whose members `query`
/// and `mutation`, if there are any, are objects, and whose numbers are integers of 64 bits with a
/// sign, unless the profile has Float.
pub fn data_in(alloc: Global, profile: Profile, text: &str) -> Result<Value, DataFault>
    ensures ok { IfOk result (λ v. IsDataText profile text.now (view v)) }
    ensures err { IfErr result
        (λ e. e ≡ Refused → (d : Data) → IsDataText profile text.now d → ⊥) }
{
    match Value::from_str(alloc, text) {
        Ok(value) => {
            if is_data(profile, &value) {
                Ok(value)
            } else {
                Err(DataFault::Refused)
            }
        }
        Err(error) => {
            if error.is_memory() {
                Err(DataFault::Memory)
            } else {
                Err(DataFault::Refused)
            }
        }
    }
}
