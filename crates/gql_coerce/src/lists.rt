//! The coercion of lists, an item at a time (GraphQL specification, 3.11).
ghost use Rattle.std.specs.Prelude.{◌≡◌, ◌+◌, ℕ, suc, List, map, drop, option_map, IfOk};
ghost use Rattle.std.specs.Option.{option_copied};
ghost use Rattle.gql_types.specs.Written.{written};
ghost use Rattle.serde_json.specs.View.{view};
ghost use Rattle.gql_coerce.specs.Coercion as spec;
ghost use Rattle.gql_coerce.specs.Coercion.{coerced as levels_of};
ghost use Rattle.gql_coerce.specs.Frames.{Inner, focus_at, step_at, items_rest, items_then, list_frame, frame_by, or_stop};
ghost use Rattle.gql_coerce.specs.Inputs.{Input};
ghost use Rattle.gql_coerce.specs.Outcomes.{said, some, after};
ghost use Rattle.gql_coerce.specs.Parts.{input_of, items_in};

use crate::coerced::{Coerced, at_index, refused};
use crate::coerced_parts::CoercedItems;
use crate::expected::{Expected, expects_list, items_expected, or_null};
use crate::forms::focus_of;
use crate::frame::{Focus, Frame, ListFrame, Step};
use crate::part::{ListItems, Part};
use crate::refusal::Reason;
use gql_ast::TypeRef;
use gql_types::Schema;
use std::alloc::{AllocError, Global};

/// An item. It is not made a list of one.
fn item_focus<'v>(
    alloc: Global,
    schema: &Schema,
    item: Part<'v>,
    expected: Option<&'v TypeRef>,
) -> Result<Focus<'v>, AllocError>
    ensures { IfOk result (λ focus. (n : ℕ) → after (focus_at (suc n) schema.now focus)
        (spec.or_null (option_map written (option_copied expected.entry)))
        ≡ spec.item_at (levels_of (suc n) schema.now)
        (option_map written (option_copied expected.entry)) (input_of item.entry)) }
{
    if expects_list(expected) && !item.may_be_list() {
        Ok(Focus::Answer(refused(alloc, Reason::WrongKind)))
    } else {
        focus_of(alloc, schema, item, expected)
    }
}

/// Adds what an item came to, or returns what the list comes to instead.
fn add_item(
    alloc: Global,
    expected: Option<&TypeRef>,
    coerced: Coerced,
    values: &mut CoercedItems,
) -> Result<Option<Coerced>, AllocError>
    ensures { IfOk result (λ stop. (inner : Inner) (rest : List Input)
        → items_then inner (option_map written (option_copied expected.entry))
        (map view values.old) rest (said coerced)
        ≡ or_stop (items_rest inner (option_map written (option_copied expected.entry))
        (map view values.new) rest) stop) }
{
    match or_null(alloc, expected, coerced) {
        Coerced::Given(value) => {
            values.push(value)?;
            Ok(None)
        }
        stopped => Ok(Some(at_index(values.len(), stopped)?)),
    }
}

/// The next item that has parts, or the whole list.
fn next_item<'v>(
    alloc: Global,
    schema: &Schema,
    list: ListFrame<'v>,
) -> Result<Step<'v>, AllocError>
    ensures { IfOk result (λ step. (n : ℕ) → items_rest (levels_of (suc n) schema.now)
        (option_map written (option_copied list.entry.expected)) (map view list.entry.values)
        (drop list.entry.next (items_in list.entry.items)) ≡ step_at (suc n) schema.now step) }
{
    let mut list = list;
    'items: loop {
        let Some(item) = list.items.get(list.next) else {
            return Ok(Step::Answer(Coerced::Given(list.values.into_value())));
        };
        list.next += 1;
        match item_focus(alloc, schema, item, list.expected)? {
            Focus::Answer(coerced) => {
                if let Some(stop) = add_item(alloc, list.expected, coerced, &mut list.values)? {
                    return Ok(Step::Answer(stop));
                }
            }
            focus => return Ok(Step::Within(Frame::Item(list), focus)),
        }
    }
}

/// A list, an item of which came to this.
pub fn resume_list<'v>(
    alloc: Global,
    schema: &Schema,
    list: ListFrame<'v>,
    coerced: Coerced,
) -> Result<Step<'v>, AllocError>
    ensures { IfOk result (λ step. (n : ℕ)
        → frame_by (levels_of (suc n) schema.now) (list_frame list.entry) (said coerced)
        ≡ step_at (suc n) schema.now step) }
{
    let mut list = list;
    match add_item(alloc, list.expected, coerced, &mut list.values)? {
        None => next_item(alloc, schema, list),
        Some(stop) => Ok(Step::Answer(stop)),
    }
}

/// A list whose items are these, each at this type or within a custom scalar.
fn start_items<'v>(
    alloc: Global,
    schema: &Schema,
    items: ListItems<'v>,
    expected: Option<&'v TypeRef>,
) -> Result<Step<'v>, AllocError>
    ensures { IfOk result (λ step. (n : ℕ) → some (spec.array_of
        (spec.item_at (levels_of (suc n) schema.now)
        (option_map written (option_copied expected.entry)))
        (items_in items.entry)) ≡ step_at (suc n) schema.now step) }
{
    let list = ListFrame {
        items,
        next: 0,
        expected,
        values: CoercedItems::new(alloc),
    };
    next_item(alloc, schema, list)
}

/// A list whose items are these.
pub fn start_list<'v>(
    alloc: Global,
    schema: &Schema,
    items: ListItems<'v>,
    expected: Option<&'v TypeRef>,
) -> Result<Step<'v>, AllocError>
    ensures { IfOk result (λ step. (n : ℕ)
        → some (spec.list_by (levels_of (suc n) schema.now) (items_in items.entry)
        (spec.items_expected schema.now (option_map written (option_copied expected.entry))))
        ≡ step_at (suc n) schema.now step) }
{
    match items_expected(schema, expected) {
        Expected::Type(item) => start_items(alloc, schema, items, Some(item)),
        Expected::Anything => start_items(alloc, schema, items, None),
        Expected::Nothing => Ok(Step::Answer(refused(alloc, Reason::WrongKind))),
    }
}
