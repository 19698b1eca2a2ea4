//! Fields and selection sets that are numbers, as a row writes them: an object of JSON with `fields`
//! and `bodies`.
ghost use Rattle.std.specs.Prelude.{◌≡◌, ◌∷◌, IfSome, nat_eq};
ghost use Rattle.std.specs.List.{list_all, list_any};
ghost use Rattle.tables_text.specs.Tested as tested;
ghost use Rattle.gql_clashes.specs.Numbered.{IsWhole, Lists, nodes_of};
ghost use Rattle.gql_clashes.specs.Parts.{SpreadsTo};

use gql_clashes::{Body, NumberedField, Sets};
use serde_json::Value;
use std::alloc::Global;

/// The member of a field that is a number, 0 if it is not there.
fn number_in(value: &Value, member: &str) -> usize {
    match value.get(member).and_then(Value::as_u64) {
        Some(number) => usize::try_from(number).unwrap_or(0),
        None => 0,
    }
}

/// The list of numbers that a member is, empty if it is not there.
fn numbers_in(alloc: Global, value: &Value, member: &str) -> Option<Vec<usize>> {
    let mut numbers = Vec::new(alloc);
    if let Some(list) = value.get(member) {
        for number in list.as_array()? {
            numbers.push(usize::try_from(number.as_u64()?).ok()?).ok()?;
        }
    }
    Some(numbers)
}

/// A field: `name`, `parent`, `call` and `shape` are numbers, `interface` is true if the parent type
/// is not an object type, and `below` is the body of its selection set, if it has one.
fn field_in(value: &Value, start: usize) -> Option<NumberedField> {
    let below = match value.get("below") {
        Some(body) => Some(usize::try_from(body.as_u64()?).ok()?),
        None => None,
    };
    Some(NumberedField {
        file: 0,
        start,
        response_name: number_in(value, "name"),
        parent: number_in(value, "parent"),
        of_object: value.get("interface").is_none(),
        call: number_in(value, "call"),
        shape: number_in(value, "shape"),
        below,
    })
}

/// Whether all numbers are below a limit.
fn are_below(numbers: &[usize], limit: usize) -> bool
    ensures { result ≡ tested.are_below limit numbers.now }
{
    numbers.iter().all(|number| *number < limit)
}

/// Whether the numbers of a body are those of fields and of bodies.
fn is_body(body: &Body, fields: usize, bodies: usize) -> bool
    ensures { result ≡ tested.is_body fields bodies body.now }
{
    are_below(body.fields.as_slice(), fields) && are_below(body.spreads.as_slice(), bodies)
}

/// Whether the number below a field, if there is one, is that of a body.
fn is_field(field: &NumberedField, bodies: usize) -> bool
    ensures { result ≡ tested.is_below bodies field.now.below }
{
    match field.below {
        Some(body) => body < bodies,
        None => true,
    }
}

/// Whether the numbers of all bodies are those of fields and of bodies.
fn are_bodies(list: &[Body], fields: usize, bodies: usize) -> bool
    ensures { result ≡ list_all (tested.is_body fields bodies) list.now }
{
    list.iter().all(|body| is_body(body, fields, bodies))
}

/// Whether the numbers below all fields are those of bodies.
fn are_fields(list: &[NumberedField], bodies: usize) -> bool
    ensures { result ≡ list_all (λ f. tested.is_below bodies f.below) list.now }
{
    list.iter().all(|field| is_field(field, bodies))
}

/// Whether each number that occurs is that of a field, or of a body.
fn is_whole(sets: &Sets) -> bool
    ensures { result ≡ tested.is_whole sets.now }
{
    let fields = sets.fields.len();
    let bodies = sets.bodies.len();
    are_bodies(sets.bodies.as_slice(), fields, bodies) && are_fields(sets.fields.as_slice(), bodies)
}

/// Sets in which each number that occurs is that of a field, or of a body; `None` for others.
fn whole(sets: Sets) -> Option<Sets>
    ensures { IfSome result IsWhole }
{
    if is_whole(&sets) { Some(sets) } else { None }
}

/// The fields and bodies of a text; `None` if a number that occurs is not one of them.
pub fn sets_in(alloc: Global, text: &str) -> Option<Sets>
    ensures { IfSome result IsWhole }
{
    let value = Value::from_str(alloc, text).ok()?;
    let mut sets = Sets {
        fields: Vec::new(alloc),
        bodies: Vec::new(alloc),
    };
    for (start, field) in value.get("fields")?.as_array()?.iter().enumerate() {
        sets.fields.push(field_in(field, start)?).ok()?;
    }
    for body in value.get("bodies")?.as_array()? {
        let fields = numbers_in(alloc, body, "fields")?;
        let spreads = numbers_in(alloc, body, "spreads")?;
        sets.bodies.push(Body { fields, spreads }).ok()?;
    }
    whole(sets)
}

/// The bodies that a body spreads, none if there is no such body.
fn spreads_at(sets: &Sets, body: usize) -> &[usize]
    ensures { result.now ≡ (nodes_of sets.now).spreads body }
{
    match sets.bodies.get(body) {
        Some(body) => body.spreads.as_slice(),
        None => &[],
    }
}

/// Whether a number is in a list.
fn is_among(list: &[usize], number: usize) -> bool
    ensures { result ≡ list_any (λ m. nat_eq m number) list.now }
{
    list.iter().any(|one| *one == number)
}

/// Whether all numbers are in a list.
fn are_in(numbers: &[usize], list: &[usize]) -> bool
    ensures { result ≡ tested.are_in list.now numbers.now }
{
    numbers.iter().all(|number| is_among(list, *number))
}

/// Whether what each body of a list spreads is in the list.
fn is_closed(sets: &Sets, list: &[usize]) -> bool
    ensures { result ≡ tested.is_closed sets.now list.now }
{
    list.iter()
        .all(|body| are_in(spreads_at(sets, *body), list))
}

/// A number before others.
fn list_of(alloc: Global, first: usize, others: &[usize]) -> Option<Vec<usize>>
    ensures { IfSome result (λ list. list.items ≡ first ∷ others.now) }
{
    let mut list = Vec::new(alloc);
    list.push(first).ok()?;
    list.extend_from_slice(others).ok()?;
    Some(list)
}

/// A body and those that it spreads; `None` if one of these spreads another one.
pub fn spread_bodies(alloc: Global, sets: &Sets, body: usize) -> Option<Vec<usize>>
    ensures { IfSome result (λ list. Lists list.items (SpreadsTo (nodes_of sets.now) body)) }
{
    let list = list_of(alloc, body, spreads_at(sets, body))?;
    if is_closed(sets, list.as_slice()) {
        Some(list)
    } else {
        None
    }
}
