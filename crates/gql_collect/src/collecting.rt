//! The groups of selection sets.
ghost use Rattle.std.specs.Prelude.{IfOk};
ghost use Rattle.gql_collect.specs.Borrowed.{all_selections};
ghost use Rattle.gql_collect.specs.BorrowedGroups.{groups_in};
ghost use Rattle.gql_collect.specs.Collection.{AreGroups};
ghost use Rattle.gql_collect.specs.Contexts.{given};

use crate::context::Context;
use crate::group::{Groups, grouped};
use crate::node::SelectionSet;
use crate::unfold::unfold;
use std::alloc::{AllocError, Global};

/// The groups of fields of these selection sets, taken as one, for an object of a type (GraphQL
/// specification, 6.3.2): the response names in the order of their first fields, each with all
/// fields of that name. They borrow the documents.
///
/// Each fragment counts once, where it is spread first. If a fragment that counts spreads itself,
/// the sets have no groups, and the result is some of their fields.
pub fn collect<'a>(
    alloc: Global,
    context: &Context<'a, '_>,
    of_type: &str,
    sets: &[SelectionSet<'a>],
) -> Result<Groups<'a>, AllocError>
    ensures { IfOk result (λ groups. AreGroups (given context.now) of_type.now
        (all_selections sets.now) (groups_in groups.entries)) }
{
    let fields = unfold(alloc, context, of_type, sets)?;
    Ok(grouped(alloc, &fields)?)
}
