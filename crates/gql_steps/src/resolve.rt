//! The values of fields in the data (GraphQL specification, 6.4.2).
ghost use Rattle.std.specs.Prelude.{◌≡◌, filter, map, option_map, unwrap_or, IfOk, OnOk};
ghost use Rattle.serde_json.specs.Data.{array, null};
ghost use Rattle.serde_json.specs.View.{items_view, members_view, view};
ghost use Rattle.gql_types.specs.Written.{Written, written};
ghost use Rattle.gql_steps.specs.Columns.{AreColumnsOf, AreTestsOf, IsMember};
ghost use Rattle.gql_steps.specs.Resolution as spec;
ghost use Rattle.gql_steps.specs.ValueParts.{IsOf, resolved_in};

use crate::columns::Columns;
use crate::filter::{Test, first_kept, kept};
use gql_ast::{Shared, TypeRef};
use gql_coerce::{CoercedObject, CoercedValue};
use gql_inputs::is_list;
use serde_json::{Map, Value};
use std::alloc::{AllocError, Global};

/// The value of a field, which is borrowed from the data.
#[derive(Drop)]
pub enum Resolved<'v> {
    /// No member, or null.
    Null,
    Value(&'v Value),
    /// The items of a list that arguments keep.
    Items(Vec<&'v Value>),
}

/// A member of this name of an object.
#[derive(Clone, Copy)]
struct Member<'n, 'v> {
    name: &'n str,
    object: &'v Value,
    value: &'v Value,
}

/// A value, or null.
fn found_or_null<'v>(found: Option<&'v Value>) -> Resolved<'v>
    ensures is { resolved_in result ≡ unwrap_or (option_map (λ v. view v.now) found.entry) null }
    ensures of { (t : Written) → IsOf t result }
{
    match found {
        Some(value) => Resolved::Value(value),
        None => Resolved::Null,
    }
}

/// What a field takes of the items that meet the arguments, which these tests are of.
#[tactic(auto, using(crate::proofs::Resolving::first_found))]
fn taken<'v>(
    alloc: Global,
    of_type: &TypeRef,
    arguments: &Map<String, Shared<CoercedValue>>,
    tests: &[Test<'_>],
    items: &'v [Value],
) -> Result<Resolved<'v>, AllocError>
    requires { AreTestsOf (members_view arguments.now.entries) (map view items.now) tests.now }
    ensures is { IfOk result (λ r. resolved_in r ≡ spec.taken (written of_type.now)
        (filter (spec.meets (members_view arguments.now.entries)) (map view items.now))) }
    ensures of { IfOk result (λ r. IsOf (written of_type.now) r) }
{
    if is_list(of_type) {
        Ok(Resolved::Items(kept(alloc, arguments, tests, items)?))
    } else {
        Ok(found_or_null(first_kept(alloc, arguments, tests, items)?))
    }
}

/// What a field takes of a member that is a list.
#[tactic(auto, using(crate::proofs::Resolving::no_arguments, crate::proofs::Resolving::some_arguments, crate::proofs::Printing::items_are))]
fn filtered<'v>(
    alloc: Global,
    of_type: &TypeRef,
    arguments: &Map<String, Shared<CoercedValue>>,
    member: Member<'_, 'v>,
    items: &'v [Value],
    columns: &mut Columns,
) -> Result<Resolved<'v>, AllocError>
    requires list { view member.value.now ≡ array (items_view items.now) }
    requires here { IsMember member }
    requires right { AreColumnsOf (view member.object.now) columns.old }
    ensures is { IfOk result (λ r. resolved_in r ≡ spec.filtered (written of_type.now)
        (members_view arguments.now.entries) (view member.entry.value.now)) }
    ensures of { IfOk result (λ r. IsOf (written of_type.now) r) }
    ensures right { OnOk result (AreColumnsOf (view member.entry.object.now) columns.new) }
{
    if arguments.is_empty() {
        return Ok(Resolved::Value(member.value));
    }
    columns.note_filter(alloc, member.name, arguments, items)?;
    let tests = columns.tests(alloc, member.name, arguments, items)?;
    taken(alloc, of_type, arguments, tests.as_slice(), items)
}

/// What a field takes of a member.
fn of_member<'v>(
    alloc: Global,
    of_type: &TypeRef,
    arguments: &CoercedObject,
    member: Member<'_, 'v>,
    columns: &mut Columns,
) -> Result<Resolved<'v>, AllocError>
    requires here { IsMember member }
    requires right { AreColumnsOf (view member.object.now) columns.old }
    ensures is { IfOk result (λ r. resolved_in r ≡ spec.filtered (written of_type.now)
        (spec.members_in (view arguments.now)) (view member.entry.value.now)) }
    ensures of { IfOk result (λ r. IsOf (written of_type.now) r) }
    ensures right { OnOk result (AreColumnsOf (view member.entry.object.now) columns.new) }
{
    let Some(items) = member.value.as_array() else {
        return Ok(Resolved::Value(member.value));
    };
    let arguments = arguments.members();
    filtered(alloc, of_type, arguments, member, items.as_slice(), columns)
}

/// The value of the field of this name and type, called with these arguments, in an object, the
/// columns of which these are.
#[tactic(auto, using(crate::proofs::Resolving::no_member))]
pub fn resolve_by_columns<'v>(
    alloc: Global,
    name: &str,
    of_type: &TypeRef,
    arguments: &CoercedObject,
    object: &'v Value,
    columns: &mut Columns,
) -> Result<Resolved<'v>, AllocError>
    requires { AreColumnsOf (view object.now) columns.old }
    ensures is { IfOk result (λ r. resolved_in r ≡ spec.resolved name.now (written of_type.now)
        (view arguments.now) (view object.now)) }
    ensures of { IfOk result (λ r. IsOf (written of_type.now) r) }
    ensures columns { OnOk result (AreColumnsOf (view object.now) columns.new) }
{
    match object.get(name) {
        Some(value) => {
            let member = Member {
                name,
                object,
                value,
            };
            of_member(alloc, of_type, arguments, member, columns)
        }
        None => Ok(Resolved::Null),
    }
}

/// The value of the field of this name and type, called with these arguments, in an object.
pub fn resolve<'v>(
    alloc: Global,
    name: &str,
    of_type: &TypeRef,
    arguments: &CoercedObject,
    object: &'v Value,
) -> Result<Resolved<'v>, AllocError>
    ensures is { IfOk result (λ r. resolved_in r ≡ spec.resolved name.now (written of_type.now)
        (view arguments.now) (view object.now)) }
    ensures of { IfOk result (λ r. IsOf (written of_type.now) r) }
{
    let mut columns = Columns::new(alloc);
    resolve_by_columns(alloc, name, of_type, arguments, object, &mut columns)
}
