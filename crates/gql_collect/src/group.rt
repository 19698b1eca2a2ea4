//! Fields in groups.
ghost use Rattle.std.specs.Prelude.{◌≡◌, ◌++◌, ◌∷◌, [], IfOk, OnOk};
ghost use Rattle.gql_collect.specs.Borrowed.{all_selections, node_of, nodes_of};
ghost use Rattle.gql_collect.specs.BorrowedGroups.{groups_in, nodes_in, others_of};
ghost use Rattle.gql_collect.specs.Collection.{selections_below};
ghost use Rattle.gql_collect.specs.Groups.{groups_of};
ghost use Rattle.gql_collect.specs.Putting.{put};

use crate::node::{FieldNode, SelectionSet};
use indexmap::{IndexMap, IndexSet};
use smallvec::SmallVec;
use std::alloc::{AllocError, Global};

/// The fields of one response name, in their order. A group of up to three allocates nothing.
pub struct Group<'a> {
    pub first: FieldNode<'a>,
    /// The fields after the first.
    pub others: SmallVec<Option<FieldNode<'a>>, 2>,
}

impl Drop for Group<'_> {
    fn drop(self) {
        let Group {
            first: _,
            others: _,
        } = self;
    }
}

/// The groups of a selection set by their response names, in the order of the names' first fields.
pub type Groups<'a> = IndexMap<&'a str, Group<'a>>;

/// Adds the selection set of a field, unless it is empty.
fn add_set<'a>(node: &FieldNode<'a>, sets: &mut Vec<SelectionSet<'a>>) -> Result<(), AllocError>
    ensures { OnOk result (all_selections sets.new.items
        ≡ all_selections sets.old.items ++ selections_below (node_of node.now ∷ [])) }
{
    let set = node.selection_set();
    if !set.selections.is_empty() {
        sets.push(set)?;
    }
    Ok(())
}

/// Adds the selection set of a field, if it is there, and is not empty.
fn add_other<'a>(
    node: &Option<FieldNode<'a>>,
    sets: &mut Vec<SelectionSet<'a>>,
) -> Result<(), AllocError>
    ensures { OnOk result (all_selections sets.new.items
        ≡ all_selections sets.old.items ++ selections_below (others_of (node.now ∷ []))) }
{
    match node {
        Some(node) => add_set(node, sets),
        None => Ok(()),
    }
}

impl<'a> Group<'a> {
    /// The group of a field alone.
    pub fn alone(alloc: Global, node: FieldNode<'a>) -> Group<'a>
        ensures { nodes_in result ≡ node_of node.entry ∷ [] }
    {
        Group {
            first: node,
            others: SmallVec::new(alloc),
        }
    }

    /// The selection sets of the fields that are not empty, which are collected as one (6.4.3,
    /// MergeSelectionSets).
    pub fn selection_sets(&self, alloc: Global) -> Result<Vec<SelectionSet<'a>>, AllocError>
        ensures { IfOk result (λ sets. all_selections sets.items
            ≡ selections_below (nodes_in self.now)) }
    {
        let mut sets = Vec::new(alloc);
        add_set(&self.first, &mut sets)?;
        for other in self.others.as_slice() {
            add_other(other, &mut sets)?;
        }
        Ok(sets)
    }
}

/// Puts a field at the end of the group of its response name; a new group comes last.
fn add_field<'a>(
    alloc: Global,
    groups: &mut Groups<'a>,
    node: FieldNode<'a>,
) -> Result<(), AllocError>
    ensures { OnOk result (groups_in groups.new.entries
        ≡ put (groups_in groups.old.entries) (node_of node.entry)) }
{
    let name = node.response_name();
    if let Some(group) = groups.get_mut(name) {
        group.others.push(Some(node))?;
        return Ok(());
    }
    groups.insert(name, Group::alone(alloc, node))?;
    Ok(())
}

/// The groups of these fields.
pub fn grouped<'a>(
    alloc: Global,
    fields: &IndexSet<FieldNode<'a>>,
) -> Result<Groups<'a>, AllocError>
    ensures { IfOk result (λ groups. groups_in groups.entries
        ≡ groups_of (nodes_of fields.now.keys)) }
{
    let mut groups = IndexMap::new(alloc);
    for node in fields.as_slice() {
        add_field(alloc, &mut groups, *node)?;
    }
    Ok(groups)
}
