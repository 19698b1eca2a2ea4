//! The body of a run: which stored operation it asks for, with which values of variables.
ghost use Rattle.std.specs.Prelude.{◌≡◌, IfErr, IfOk, codes, is_some};
ghost use Rattle.std.specs.Option.{option_copied};
ghost use Rattle.serde_json.specs.Find.{get};
ghost use Rattle.serde_json.specs.View.{view};
ghost use Rattle.gql_http.specs.RunBodies as spec;
ghost use Rattle.gql_http.specs.RunBodies.{Asks, call};
ghost use Rattle.gql_http.specs.ReadBodies.{IsFault, IsRefused, name_of, variables_of};

use serde_json::{Map, Value};
use std::alloc::Global;
use std::str;
use thiserror::Error;

/// Why a body is not a call.
#[derive(Clone, Copy, Debug, Drop, Error, PartialEq, Eq)]
pub enum RunBodyFault {
    /// 310: the body does not have the form of a call.
    #[error("bad run body")]
    BadCall,
    /// 311: an operation is given as a text.
    #[error("stored operations only")]
    StoredOnly,
    /// An allocation failed.
    #[error("out of memory")]
    Memory,
}

impl RunBodyFault {
    ghost use Rattle.gql_http.specs.ReadBodies.{number_of};

    /// The number of the refusal: 310 or 311, or 211 if an allocation failed.
    pub fn number(self) -> u16
        ensures { result ≡ number_of self }
    {
        match self {
            RunBodyFault::BadCall => 310,
            RunBodyFault::StoredOnly => 311,
            RunBodyFault::Memory => 211,
        }
    }
}

/// The body of a run, which asks for a call of a stored operation.
#[derive(Drop)]
pub struct RunBody {
    /// The value of the body, which is an object.
    body: Value,
    /// An object without members.
    empty: Value,
}

impl RunBody {
    /// The name of the operation, if the call names one.
    pub fn name(&self) -> Option<&str>
        ensures { option_copied result ≡ name_of self.now }
    {
        match self.body.get("operationName") {
            Some(name) => name.as_str(),
            None => None,
        }
    }

    /// The values of the operation's variables, as an object.
    pub fn variables(&self) -> &Value
        ensures { view result.now ≡ variables_of self.now }
    {
        match self.body.get("variables") {
            Some(variables) => {
                if variables.is_object() {
                    variables
                } else {
                    &self.empty
                }
            }
            None => &self.empty,
        }
    }
}

/// Whether a call's name is a string, null or missing.
fn has_name(body: &Value) -> bool
    ensures { result ≡ is_some (spec.name_in (get (codes "operationName") (view body.now))) }
{
    match body.get("operationName") {
        Some(name) => name.is_null() || name.is_string(),
        None => true,
    }
}

/// Whether a call's variables are an object, null or missing.
fn has_variables(body: &Value) -> bool
    ensures { result ≡ is_some (spec.variables_in (get (codes "variables") (view body.now))) }
{
    match body.get("variables") {
        Some(variables) => variables.is_null() || variables.is_object(),
        None => true,
    }
}

/// The call in a value of JSON.
fn run_body_by(alloc: Global, body: Value) -> Result<RunBody, RunBodyFault>
    ensures ok { IfOk result (λ c. spec.asked_by (view body) ≡ call (name_of c) (variables_of c)) }
    ensures err { IfErr result (IsFault (spec.asked_by (view body))) }
{
    if !body.is_object() {
        return Err(RunBodyFault::BadCall);
    }
    if body.get("query").is_some() {
        return Err(RunBodyFault::StoredOnly);
    }
    if !has_name(&body) || !has_variables(&body) {
        return Err(RunBodyFault::BadCall);
    }
    Ok(RunBody {
        body,
        empty: Value::Object(Map::new(alloc)),
    })
}

/// Reads the body of a call: a JSON object whose `operationName` is a string and whose `variables`
/// are an object; either may be null or missing, and other members do not count. A body with a
/// member `query` is refused, as only stored operations are served. A body that is not an object is
/// refused before that, other bodies after it.
pub fn run_body_in(alloc: Global, body: &[u8]) -> Result<RunBody, RunBodyFault>
    ensures ok { IfOk result (λ c. Asks body.now (call (name_of c) (variables_of c))) }
    ensures err { IfErr result (IsRefused body.now) }
{
    let Ok(text) = str::from_utf8(body) else {
        return Err(RunBodyFault::BadCall);
    };
    match Value::from_str(alloc, text) {
        Ok(value) => run_body_by(alloc, value),
        Err(error) => {
            if error.is_memory() {
                Err(RunBodyFault::Memory)
            } else {
                Err(RunBodyFault::BadCall)
            }
        }
    }
}
