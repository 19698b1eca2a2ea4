//! Nodes of schema files, and the nodes that they hold.
ghost use Rattle.std.specs.Prelude.{◌≡◌, ◌++◌, List, OnOk, map};
ghost use Rattle.gql_types.specs.Parts.{sited};
ghost use Rattle.gql_node_rules.specs.Borrowed.{one};
ghost use Rattle.gql_node_rules.specs.Nodes.{within};

use gql_ast::FileName;
use std::alloc::AllocError;

/// A definition, an extension or a part of one, and its file.
#[derive(Drop)]
pub struct Node<'t, T> {
    pub file: &'t FileName,
    pub node: &'t T,
}

/// What holds nodes of another form.
pub trait Holds<T> {
    ghost held: { Self → List T };

    /// Adds the nodes that this one holds.
    fn add_held<'t>(holder: &Node<'t, Self>, found: &mut Vec<Node<'t, T>>) -> Result<(), AllocError>
        ensures { OnOk result (map one found.new.items ≡ map one found.old.items
            ++ sited (one holder.now).file (held (one holder.now).node)) };
}

/// Adds the nodes that all of these hold.
pub fn add_all<'t, A: Holds<T>, T: Drop>(
    holders: &[Node<'t, A>],
    found: &mut Vec<Node<'t, T>>,
) -> Result<(), AllocError>
    ensures { OnOk result (map one found.new.items ≡ map one found.old.items
        ++ within A.held (map one holders.now)) }
{
    for holder in holders {
        A::add_held(holder, found)?;
    }
    Ok(())
}
