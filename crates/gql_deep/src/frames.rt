//! What is entered in an execution: objects of the data, nodes of introspection and lists of
//! either. They are on a stack while something within them is executed.
ghost use Rattle.std.specs.Prelude.{◌≡◌, ◌∷◌, []};
ghost use Rattle.gql_deep.specs.Frames as spec;

use gql_ast::TypeRef;
use gql_intro::{IntroNode, IntroNodes};
use gql_steps::ended::Ended;
use gql_steps::items::DataItems;
use gql_steps::site::Site;
use gql_steps::table::Slot;
use serde_json::Value;

/// What fields are executed on: an object of the data, or a node of introspection.
#[derive(Clone, Copy)]
pub enum AnyObject<'d, 'v> {
    Stored(&'v Value),
    Described(IntroNode<'d>),
}

/// The fields of an object: those of an entry of the table, how many are done or begun, and how the
/// done ones have ended.
#[derive(Clone, Copy)]
pub struct FieldsFrame<'d, 'v> {
    pub entry: usize,
    pub object: AnyObject<'d, 'v>,
    pub next: usize,
    pub ended: Ended,
}

/// The items of a list of the data, each at this type, how many are done or begun, and how the done
/// ones have ended.
#[derive(Drop)]
pub struct ItemsFrame<'d, 'v> {
    pub site: Site,
    pub item: &'d TypeRef,
    pub items: DataItems<'v>,
    pub next: usize,
    pub ended: Ended,
}

/// The nodes of the list that a field gives and the name of their type, how many are done or begun,
/// and how the done ones have ended. Elements that have no node are passed over.
#[derive(Clone, Copy)]
pub struct NodesFrame<'d> {
    pub slot: Slot,
    pub name: &'d str,
    pub nodes: IntroNodes<'d>,
    pub passed: usize,
    pub next: usize,
    pub ended: Ended,
}

/// An object or a list.
#[derive(Drop)]
pub enum Group<'d, 'v> {
    Fields(FieldsFrame<'d, 'v>),
    Items(ItemsFrame<'d, 'v>),
    Nodes(NodesFrame<'d>),
}

/// What is around the value of a field or an item: how long the text and the path were before it,
/// whether its type is Non-Null, and for a field, whether the field around it has an error.
#[derive(Clone, Copy)]
pub struct Around {
    pub mark: usize,
    pub depth: usize,
    pub is_required: bool,
    pub is_field: bool,
    pub outer: bool,
}

/// An object or a list whose execution is suspended, and the state to restore once the value within
/// it is executed.
#[derive(Drop)]
pub struct Frame<'d, 'v> {
    pub group: Group<'d, 'v>,
    pub around: Around,
}

/// What the value of a field or an item has reached.
#[derive(Drop)]
pub enum Reached<'d, 'v> {
    /// The value is done.
    Ended(Ended),
    /// An object or a list is to be entered for it.
    Inner(Group<'d, 'v>),
}

/// What a field or an item has come to.
#[derive(Drop)]
pub enum Begun<'d, 'v> {
    /// It is done.
    Ended(Ended),
    /// An object or a list is to be entered for its value.
    Within(Around, Group<'d, 'v>),
}

/// What an object or a list has come to.
#[derive(Drop)]
pub enum Turn<'d, 'v> {
    /// It is done.
    Ended(Ended),
    /// It goes on after the object or the list within it, which is to be entered.
    Within(Frame<'d, 'v>, Group<'d, 'v>),
}

impl<'d, 'v> Group<'d, 'v> {
    /// The bracket that opens the group.
    pub fn opening(&self) -> u8
        ensures { result ∷ [] ≡ spec.opening self.now }
    {
        match self {
            Group::Fields(_) => b'{',
            Group::Items(_) => b'[',
            Group::Nodes(_) => b'[',
        }
    }

    /// The group, one more part of which has ended in this way.
    pub fn and(self, ended: Ended) -> Group<'d, 'v>
        ensures { result ≡ spec.and_ended self.entry ended }
    {
        match self {
            Group::Fields(fields) => Group::Fields(FieldsFrame {
                ended: fields.ended.and(ended),
                ..fields
            }),
            Group::Items(items) => Group::Items(ItemsFrame {
                ended: items.ended.and(ended),
                ..items
            }),
            Group::Nodes(nodes) => Group::Nodes(NodesFrame {
                ended: nodes.ended.and(ended),
                ..nodes
            }),
        }
    }
}
