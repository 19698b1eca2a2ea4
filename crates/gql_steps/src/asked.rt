//! The arguments by which a field takes items of a list. They are taken apart once, before the walk
//! over the items: each item then costs a look-up of a member and a comparison for each argument.
ghost use Rattle.std.specs.Prelude.{◌≡◌, option_map, unwrap_or, IfOk, IfSome};
ghost use Rattle.serde_json.specs.Data.{null, string};
ghost use Rattle.serde_json.specs.View.{members_view, view};
ghost use Rattle.gql_steps.specs.Asked.{asked_data, asked_members, text_member};
ghost use Rattle.gql_steps.specs.Resolution as spec;

use crate::same::is_same;
use gql_ast::Shared;
use gql_coerce::CoercedValue;
use serde_json::{Map, Value};
use std::alloc::{AllocError, Global};

/// The value of an argument. Most are texts, and are known as such before the walk.
#[derive(Clone, Copy)]
pub enum AskedValue<'a> {
    Text(&'a str),
    Other(&'a Value),
}

/// An argument: items are asked for the member of its name.
#[derive(Clone, Copy)]
pub struct Asked<'a> {
    pub name: &'a str,
    pub value: AskedValue<'a>,
}

/// An argument that is a text.
#[derive(Clone, Copy)]
pub struct AskedText<'a> {
    pub name: &'a str,
    pub text: &'a str,
}

/// The value of an argument, taken apart.
fn asked_value<'a>(argument: &'a Value) -> AskedValue<'a>
    ensures { asked_data result ≡ view argument.now }
{
    if let Value::String(text) = argument {
        return AskedValue::Text(text.as_str());
    }
    AskedValue::Other(argument)
}

/// These arguments in their order, taken apart.
pub fn taken_apart<'a>(
    alloc: Global,
    arguments: &'a Map<String, Shared<CoercedValue>>,
) -> Result<Vec<Asked<'a>>, AllocError>
    ensures { IfOk result (λ asked. asked_members asked.items
        ≡ members_view arguments.now.entries) }
{
    let mut asked = Vec::with_capacity(alloc, arguments.len())?;
    for (name, argument) in arguments.iter() {
        let value = asked_value(argument.get().get());
        asked.push(Asked {
            name: name.as_str(),
            value,
        })?;
    }
    Ok(asked)
}

/// The one argument of these, if there is one, and it is a text.
pub fn only_text<'a>(asked: &[Asked<'a>]) -> Option<AskedText<'a>>
    ensures { IfSome result (λ only. asked_members asked.now ≡ text_member only) }
{
    let [argument] = asked else {
        return None;
    };
    match argument.value {
        AskedValue::Text(text) => Some(AskedText {
            name: argument.name,
            text,
        }),
        AskedValue::Other(_) => None,
    }
}

/// Whether a member is this text. A missing member equals null, which is no text.
#[inline(always)]
#[tactic(auto, using(crate::proofs::Alike::same_text))]
fn is_text(text: &str, member: Option<&Value>) -> bool
    ensures { result ≡ spec.same_data (string text.now)
        (unwrap_or (option_map (λ v. view v.now) member.entry) null) }
{
    match member {
        Some(member) => match member.as_str() {
            Some(other) => text == other,
            None => false,
        },
        None => false,
    }
}

/// Whether an item is an object that has this argument as a member. An item that is no object has no
/// member of its name either.
#[inline(always)]
#[tactic(auto, using(crate::proofs::Asking::text_meets))]
pub fn has_text(argument: &AskedText<'_>, item: &Value) -> bool
    ensures { result ≡ spec.meets (text_member argument.now) (view item.now) }
{
    is_text(argument.text, item.get(argument.name))
}

/// Whether a member is the same as this value. A missing member equals null.
#[inline(never)]
#[tactic(auto, using(crate::proofs::Alike::same_as_null))]
fn is_other(alloc: Global, value: &Value, member: Option<&Value>) -> Result<bool, AllocError>
    ensures { IfOk result (λ is. is ≡ spec.same_data (view value.now)
        (unwrap_or (option_map (λ v. view v.now) member.entry) null)) }
{
    match member {
        Some(member) => is_same(alloc, value, member),
        None => Ok(value.is_null()),
    }
}

/// Whether an argument equals the member of its name; a missing member equals null.
#[inline(always)]
fn equals_member(alloc: Global, asked: &Asked<'_>, object: &Value) -> Result<bool, AllocError>
    ensures { IfOk result (λ equals. equals ≡ spec.same_data (asked_data asked.now.value)
        (spec.member_or_null asked.now.name.now (view object.now))) }
{
    let member = object.get(asked.name);
    match asked.value {
        AskedValue::Text(text) => Ok(is_text(text, member)),
        AskedValue::Other(value) => is_other(alloc, value, member),
    }
}

/// Whether an object has each of these arguments as a member.
#[inline(always)]
pub fn has_members(alloc: Global, asked: &[Asked<'_>], object: &Value) -> Result<bool, AllocError>
    ensures { IfOk result (λ has. has
        ≡ spec.has_members (asked_members asked.now) (view object.now)) }
{
    for argument in asked {
        if !equals_member(alloc, argument, object)? {
            return Ok(false);
        }
    }
    Ok(true)
}
