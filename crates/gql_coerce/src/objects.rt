//! The coercion of objects, a field at a time (GraphQL specification, 3.10).
ghost use Rattle.std.specs.Prelude.{◌≡◌, ◌+◌, ℕ, suc, List, None, map, drop, option_map, IfOk};
ghost use Rattle.std.specs.Option.{option_copied};
ghost use Rattle.gql_types.specs.Written.{written};
ghost use Rattle.serde_json.specs.View.{view, members_view};
ghost use Rattle.gql_coerce.specs.Coercion as spec;
ghost use Rattle.gql_coerce.specs.Coercion.{Entry as AnEntry, coerced as levels_of};
ghost use Rattle.gql_coerce.specs.Frames.{Inner, focus_at, entry_focus_at, step_at, members_rest, members_then, object_frame, given_frame, frame_by, or_stop};
ghost use Rattle.gql_coerce.specs.Outcomes.{said, some, within};
ghost use Rattle.gql_coerce.specs.Parts.{entry_of, entries_in, fields_of};
ghost use Rattle.gql_coerce.specs.declared.refusal.Segment.TheVariants.{Key};

use crate::coerced::{Coerced, at_key, refused};
use crate::coerced_parts::CoercedMembers;
use crate::entry::{Entry, FoundEntries, found_entries};
use crate::expected::type_of;
use crate::forms::focus_of;
use crate::frame::{Focus, Frame, ObjectFrame, Step};
use crate::members::add_member;
use crate::ones::once;
use crate::part::{ObjectFields, Part};
use crate::refusal::Reason;
use gql_ast::{InputValueDefinition, TypeRef};
use gql_inputs::is_non_null;
use gql_types::Schema;
use std::alloc::{AllocError, Global};

/// A field that is not given: its default, in which no variable occurs.
fn default_focus<'v>(
    alloc: Global,
    schema: &Schema,
    definition: Option<&'v InputValueDefinition>,
) -> Result<Focus<'v>, AllocError>
    ensures { IfOk result (λ focus. (n : ℕ) (name : List ℕ)
        → within (Key name) (focus_at (suc n) schema.now focus)
        ≡ spec.or_default (levels_of (suc n) schema.now) name
        (option_copied definition.entry) None) }
{
    let Some(definition) = definition else {
        return Ok(Focus::Answer(Coerced::Absent));
    };
    match &definition.default {
        Some(value) => {
            let part = Part::Literal(value, None);
            focus_of(alloc, schema, part, Some(&definition.of_type))
        }
        None => {
            if is_non_null(&definition.of_type) {
                Ok(Focus::Answer(refused(alloc, Reason::MissingField)))
            } else {
                Ok(Focus::Answer(Coerced::Absent))
            }
        }
    }
}

/// What is to be coerced for an entry.
#[derive(Drop)]
pub enum EntryFocus<'v> {
    /// The value that it gives. If this comes to none, the default follows.
    Given(Focus<'v>),
    /// Its default, or the value that it gives, if this is done.
    Last(Focus<'v>),
}

/// The value that an entry gives, or the default.
fn entry_focus<'v>(
    alloc: Global,
    schema: &Schema,
    entry: &Entry<'v>,
) -> Result<EntryFocus<'v>, AllocError>
    ensures { IfOk result (λ focus. (n : ℕ)
        → spec.entry_at (levels_of (suc n) schema.now) (entry_of entry.now)
        ≡ entry_focus_at (suc n) schema.now (entry_of entry.now) focus) }
{
    let given = match entry.given {
        Some(part) => focus_of(alloc, schema, part, type_of(entry.definition))?,
        None => Focus::Answer(Coerced::Absent),
    };
    match given {
        Focus::Answer(Coerced::Absent) => {
            Ok(EntryFocus::Last(default_focus(alloc, schema, entry.definition)?))
        }
        Focus::Answer(coerced) => Ok(EntryFocus::Last(Focus::Answer(coerced))),
        focus => Ok(EntryFocus::Given(focus)),
    }
}

/// Adds what a field came to, or returns what the object comes to instead.
fn add_entry(
    alloc: Global,
    name: &str,
    coerced: Coerced,
    members: &mut CoercedMembers,
) -> Result<Option<Coerced>, AllocError>
    ensures { IfOk result (λ stop. (inner : Inner) (rest : List AnEntry)
        (t : _) → members_then inner t name.now (members_view members.old) rest
        (within (Key name.now) (said coerced))
        ≡ or_stop (members_rest inner t (members_view members.new) rest) stop) }
{
    match coerced {
        Coerced::Given(value) => {
            add_member(alloc, name, value, members)?;
            Ok(None)
        }
        Coerced::Absent => Ok(None),
        Coerced::Refused(stop) => Ok(Some(at_key(alloc, name, Coerced::Refused(stop))?)),
    }
}

/// The next field whose value has parts, or the whole object.
fn next_entry<'v>(
    alloc: Global,
    schema: &Schema,
    object: ObjectFrame<'v>,
) -> Result<Step<'v>, AllocError>
    ensures { IfOk result (λ step. (n : ℕ) → members_rest (levels_of (suc n) schema.now)
        (option_map written (option_copied object.entry.expected))
        (members_view object.entry.members)
        (drop object.entry.next (entries_in object.entry.entries))
        ≡ step_at (suc n) schema.now step) }
{
    let mut object = object;
    'entries: loop {
        let Some(entry) = object.entries.get(object.next) else {
            let whole = Coerced::Given(object.members.into_value());
            return Ok(Step::Answer(once(alloc, object.expected, whole)?));
        };
        object.next += 1;
        match entry_focus(alloc, schema, &entry)? {
            EntryFocus::Last(Focus::Answer(coerced)) => {
                if let Some(stop) = add_entry(alloc, entry.name, coerced, &mut object.members)? {
                    return Ok(Step::Answer(stop));
                }
            }
            EntryFocus::Last(focus) => {
                return Ok(Step::Within(Frame::Default(object, entry.name), focus));
            }
            EntryFocus::Given(focus) => {
                let frame = Frame::Given(object, entry.name, entry.definition);
                return Ok(Step::Within(frame, focus));
            }
        }
    }
}

/// An object, whose field of this name came to this, with its default.
pub fn resume_default<'v>(
    alloc: Global,
    schema: &Schema,
    object: ObjectFrame<'v>,
    name: &'v str,
    coerced: Coerced,
) -> Result<Step<'v>, AllocError>
    ensures { IfOk result (λ step. (n : ℕ) → frame_by (levels_of (suc n) schema.now)
        (object_frame object.entry name.now) (said coerced) ≡ step_at (suc n) schema.now step) }
{
    let mut object = object;
    match add_entry(alloc, name, coerced, &mut object.members)? {
        None => next_entry(alloc, schema, object),
        Some(stop) => Ok(Step::Answer(stop)),
    }
}

/// An object, and the default of its field of this name.
fn start_default<'v>(
    alloc: Global,
    schema: &Schema,
    object: ObjectFrame<'v>,
    name: &'v str,
    definition: Option<&'v InputValueDefinition>,
) -> Result<Step<'v>, AllocError>
    ensures { IfOk result (λ step. (n : ℕ) → members_then (levels_of (suc n) schema.now)
        (option_map written (option_copied object.entry.expected)) name.now
        (members_view object.entry.members)
        (drop object.entry.next (entries_in object.entry.entries))
        (spec.or_default (levels_of (suc n) schema.now) name.now
        (option_copied definition.entry) None) ≡ step_at (suc n) schema.now step) }
{
    match default_focus(alloc, schema, definition)? {
        Focus::Answer(coerced) => resume_default(alloc, schema, object, name, coerced),
        focus => Ok(Step::Within(Frame::Default(object, name), focus)),
    }
}

/// An object, where the value that is given for a field came to this.
pub fn resume_given<'v>(
    alloc: Global,
    schema: &Schema,
    object: ObjectFrame<'v>,
    name: &'v str,
    definition: Option<&'v InputValueDefinition>,
    coerced: Coerced,
) -> Result<Step<'v>, AllocError>
    ensures { IfOk result (λ step. (n : ℕ) → frame_by (levels_of (suc n) schema.now)
        (given_frame object.entry name.now (option_copied definition.entry)) (said coerced)
        ≡ step_at (suc n) schema.now step) }
{
    match coerced {
        Coerced::Absent => start_default(alloc, schema, object, name, definition),
        found => resume_default(alloc, schema, object, name, found),
    }
}

/// An object of these fields.
pub fn start_object<'v>(
    alloc: Global,
    schema: &'v Schema,
    fields: ObjectFields<'v>,
    expected: Option<&'v TypeRef>,
) -> Result<Step<'v>, AllocError>
    ensures { IfOk result (λ step. (n : ℕ)
        → spec.once (option_map written (option_copied expected.entry))
        (some (spec.object_at (levels_of (suc n) schema.now) (spec.entries_for schema.now
        (fields_of fields.entry) (option_map written (option_copied expected.entry)))))
        ≡ step_at (suc n) schema.now step) }
{
    match found_entries(alloc, schema, fields, expected)? {
        FoundEntries::Are(entries) => {
            let object = ObjectFrame {
                entries,
                next: 0,
                expected,
                members: CoercedMembers::new(alloc),
            };
            next_entry(alloc, schema, object)
        }
        FoundEntries::Unknown(name) => {
            let refusal = at_key(alloc, name, refused(alloc, Reason::UnknownField))?;
            Ok(Step::Answer(refusal))
        }
        FoundEntries::NoObject => Ok(Step::Answer(refused(alloc, Reason::WrongKind))),
    }
}
