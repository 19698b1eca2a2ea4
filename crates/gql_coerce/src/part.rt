//! Inputs: literals, with the values of variables, and values of JSON.
ghost use Rattle.std.specs.Prelude.{◌≡◌, ◌<◌, ◌+◌, ◌^◌, OnSome, map, option_map, slice_get};
ghost use Rattle.serde_json.specs.View.{view};
ghost use Rattle.gql_coerce.specs.Inputs.{literal, json_input, may_be_list as input_may_be_list};
ghost use Rattle.gql_coerce.specs.Parts.{input_of, items_in};
ghost use Rattle.gql_coerce.specs.Scopes.{values_in};

use crate::coerced_object::CoercedObject;
use crate::{json, literals};
use gql_ast::{Literal, ObjectField};
use serde_json::{Map, Value};

/// An input.
#[derive(Clone, Copy)]
pub enum Part<'v> {
    /// A literal, and the object with the values of the variables, if there may be some.
    Literal(&'v Literal, Option<&'v CoercedObject>),
    Json(&'v Value),
}

impl<'v> Part<'v> {
    /// Whether an input may be an item where lists are expected.
    pub fn may_be_list(&self) -> bool
        ensures { result ≡ input_may_be_list (input_of self.now) }
    {
        match *self {
            Part::Literal(value, variables) => literals::may_be_list(value, variables),
            Part::Json(value) => json::may_be_list(value),
        }
    }
}

/// The items of a list.
#[derive(Clone, Copy)]
pub enum ListItems<'v> {
    Literals(&'v [Literal], Option<&'v CoercedObject>),
    Json(&'v [Value]),
}

#[tactic(auto, using(std::proofs::lemmas::Option::gets, crate::proofs::Found::get_map))]
fn literal_at<'v>(
    items: &'v [Literal],
    variables: Option<&'v CoercedObject>,
    index: usize,
) -> Option<Part<'v>>
    ensures item { option_map input_of result
        ≡ slice_get
        (map (literal (values_in (option_map (λ v. view v.now) variables.entry))) items.now) index }
    ensures within { OnSome result (index + 1 < 2 ^ 64) }
{
    if index < items.len() {
        Some(Part::Literal(&items[index], variables))
    } else {
        None
    }
}

#[tactic(auto, using(std::proofs::lemmas::Option::gets, crate::proofs::Found::get_map))]
fn json_at<'v>(items: &'v [Value], index: usize) -> Option<Part<'v>>
    ensures item { option_map input_of result
        ≡ slice_get (map (λ v. json_input (view v)) items.now) index }
    ensures within { OnSome result (index + 1 < 2 ^ 64) }
{
    if index < items.len() {
        Some(Part::Json(&items[index]))
    } else {
        None
    }
}

impl<'v> ListItems<'v> {
    /// The item at an index.
    pub fn get(&self, index: usize) -> Option<Part<'v>>
        ensures item { option_map input_of result ≡ slice_get (items_in self.now) index }
        ensures within { OnSome result (index + 1 < 2 ^ 64) }
    {
        match *self {
            ListItems::Literals(items, variables) => literal_at(items, variables, index),
            ListItems::Json(items) => json_at(items, index),
        }
    }
}

/// The fields of an object.
#[derive(Clone, Copy)]
pub enum ObjectFields<'v> {
    /// Those of a literal, and the object with the values of the variables, if there may be some.
    Literal(&'v [ObjectField], Option<&'v CoercedObject>),
    Json(&'v Map<String, Value>),
}
