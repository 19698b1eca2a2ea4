//! One selection of a walk over selections.
ghost use Rattle.std.specs.Prelude.{◌≡◌, ℕ, List, [], IfOk};
ghost use Rattle.gql_ast.specs.declared.executable.Selection.TheVariants as select;
ghost use Rattle.gql_collect.specs.Borrowed.{selections_of};
ghost use Rattle.gql_collect.specs.Contexts.{given};
ghost use Rattle.gql_collect.specs.Unfolding.{held};
ghost use Rattle.gql_collect.specs.Visiting.{VisitsIn};
ghost use Rattle.gql_collect.specs.declared.visit.Met.{Met as TheMet};

use crate::conditions::{has_condition_met, is_left_out, is_possible};
use crate::context::Context;
use crate::node::{FieldNode, SelectionSet};
use gql_ast::{Field, FileName, InlineFragment, Selection, Spread};
use indexmap::IndexSet;
use std::alloc::AllocError;

/// What a walk has met so far.
#[derive(Drop)]
pub struct Met<'a> {
    /// The names of the fragments that it entered.
    pub fragments: IndexSet<&'a str>,
    /// The fields, each once, in the order in which they were met first.
    pub fields: IndexSet<FieldNode<'a>>,
}

/// No selections, in that file.
fn nothing(file: &FileName) -> SelectionSet<'_>
    ensures { selections_of result ≡ [] }
{
    SelectionSet {
        file,
        selections: &[],
    }
}

/// The selections of a fragment for objects of a type: none if it is not defined, or does not
/// apply.
fn held_by<'a>(
    context: &Context<'a, '_>,
    of_type: &str,
    file: &'a FileName,
    name: &str,
) -> SelectionSet<'a>
    ensures { selections_of result ≡ held (given context.now) of_type.now name.now }
{
    let Some(found) = context.fragments.get(name) else {
        return nothing(file);
    };
    let fragment = found.fragment.get();
    if !is_possible(context.schema, of_type, fragment.condition.as_str()) {
        return nothing(file);
    }
    SelectionSet {
        file: &found.file,
        selections: fragment.selections.as_slice(),
    }
}

/// Visits a field.
fn visit_field<'a>(
    context: &Context<'a, '_>,
    file: &'a FileName,
    field: &'a Field,
    met: &mut Met<'a>,
) -> Result<SelectionSet<'a>, AllocError>
    ensures { IfOk result (λ set. (t : List ℕ) → VisitsIn (given context.now) t
        (record { file = file.now; selection = select.Field field.now })
        met.old met.new (selections_of set)) }
{
    if is_left_out(context.values, field.directives.as_slice()) {
        return Ok(nothing(file));
    }
    met.fields.insert(FieldNode { file, field })?;
    Ok(nothing(file))
}

/// Visits a spread. A fragment that was entered before is skipped.
fn visit_spread<'a>(
    context: &Context<'a, '_>,
    of_type: &str,
    file: &'a FileName,
    spread: &'a Spread,
    met: &mut Met<'a>,
) -> Result<SelectionSet<'a>, AllocError>
    ensures { IfOk result (λ set. VisitsIn (given context.now) of_type.now
        (record { file = file.now; selection = select.Spread spread.now })
        met.old met.new (selections_of set)) }
{
    if is_left_out(context.values, spread.directives.as_slice()) {
        return Ok(nothing(file));
    }
    let name = spread.name.as_str();
    if met.fragments.insert(name)? {
        Ok(held_by(context, of_type, file, name))
    } else {
        Ok(nothing(file))
    }
}

/// What takes the place of an inline fragment.
fn held_inline<'a>(
    context: &Context<'a, '_>,
    of_type: &str,
    file: &'a FileName,
    inline: &'a InlineFragment,
) -> SelectionSet<'a>
    ensures { (met : TheMet) → VisitsIn (given context.now) of_type.now
        (record { file = file.now; selection = select.InlineFragment inline.now })
        met met (selections_of result) }
{
    if is_left_out(context.values, inline.directives.as_slice()) {
        return nothing(file);
    }
    if !has_condition_met(context, of_type, &inline.condition) {
        return nothing(file);
    }
    SelectionSet {
        file,
        selections: inline.selections.as_slice(),
    }
}

/// Visits a selection. The result is what is to be visited next, in its place.
pub fn visit<'a>(
    context: &Context<'a, '_>,
    of_type: &str,
    file: &'a FileName,
    selection: &'a Selection,
    met: &mut Met<'a>,
) -> Result<SelectionSet<'a>, AllocError>
    ensures { IfOk result (λ set. VisitsIn (given context.now) of_type.now
        (record { file = file.now; selection = selection.now })
        met.old met.new (selections_of set)) }
{
    match selection {
        Selection::Field(field) => Ok(visit_field(context, file, field, met)?),
        Selection::Spread(spread) => Ok(visit_spread(context, of_type, file, spread, met)?),
        Selection::InlineFragment(inline) => Ok(held_inline(context, of_type, file, inline)),
    }
}
