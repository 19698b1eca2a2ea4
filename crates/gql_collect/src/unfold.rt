//! The fields that selections unfold into.
ghost use Rattle.std.specs.Prelude.{◌≡◌, ◌∷◌, [], List, IfOk, IfSome, IfNone, reverse};
ghost use Rattle.gql_collect.specs.Borrowed.{all_selections, nodes_of};
ghost use Rattle.gql_collect.specs.Contexts.{given};
ghost use Rattle.gql_collect.specs.Groups.{firsts, is_same_field};
ghost use Rattle.gql_collect.specs.Nodes.{FieldNode as TheNode};
ghost use Rattle.gql_collect.specs.Unfolding.{Unfolds};

use crate::context::Context;
use crate::node::{FieldNode, SelectionSet};
use crate::visit::{Met, visit};
use gql_ast::Selection;
use indexmap::IndexSet;
use std::alloc::{AllocError, Global};

/// These sets in reverse.
fn stacked<'a>(
    alloc: Global,
    sets: &[SelectionSet<'a>],
) -> Result<Vec<SelectionSet<'a>>, AllocError>
    ensures { IfOk result (λ pending. reverse pending.items ≡ sets.now) }
{
    let mut pending = Vec::from_slice(alloc, sets)?;
    pending.reverse();
    Ok(pending)
}

/// The first selection of a set, and the set of the others.
fn split_first(set: SelectionSet<'_>) -> Option<(&Selection, SelectionSet<'_>)>
    ensures some { IfSome result (λ parts.
        (set.entry.selections.now ≡ parts.0.now ∷ parts.1.selections.now)
        × (parts.1.file.now ≡ set.entry.file.now)) }
    ensures none { IfNone result (set.entry.selections.now ≡ []) }
{
    match set.selections {
        [first, rest @ ..] => {
            let rest = SelectionSet {
                file: set.file,
                selections: rest,
            };
            Some((first, rest))
        }
        [] => None,
    }
}

/// The fields that the selections of these sets unfold into for an object of a type, each field
/// once, where it comes first. Each fragment is entered once.
pub fn unfold<'a>(
    alloc: Global,
    context: &Context<'a, '_>,
    of_type: &str,
    sets: &[SelectionSet<'a>],
) -> Result<IndexSet<FieldNode<'a>>, AllocError>
    ensures { IfOk result (λ fields. (ns : List TheNode)
        → Unfolds (given context.now) of_type.now (all_selections sets.now) ns
        → nodes_of fields.keys ≡ firsts is_same_field ns) }
{
    let mut pending = stacked(alloc, sets)?;
    let mut met = Met {
        fragments: IndexSet::new(alloc),
        fields: IndexSet::new(alloc),
    };
    while let Some(set) = pending.pop() {
        if let Some((first, rest)) = split_first(set) {
            pending.push(rest)?;
            let next = visit(context, of_type, set.file, first, &mut met)?;
            pending.push(next)?;
        }
    }
    Ok(met.fields)
}
