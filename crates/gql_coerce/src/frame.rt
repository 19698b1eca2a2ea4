//! The lists and objects around the input that is coerced.
use crate::coerced::Coerced;
use crate::coerced_parts::{CoercedItems, CoercedMembers};
use crate::entry::Entries;
use crate::part::{ListItems, ObjectFields};
use gql_ast::{InputValueDefinition, TypeRef};

/// A list: its items, how many were coerced or are being coerced, what is expected of each, and the
/// values so far.
#[derive(Drop)]
pub struct ListFrame<'v> {
    pub items: ListItems<'v>,
    pub next: usize,
    pub expected: Option<&'v TypeRef>,
    pub values: CoercedItems,
}

/// An object: its entries, how many were coerced or are being coerced, what is expected of it, and
/// the members so far.
#[derive(Drop)]
pub struct ObjectFrame<'v> {
    pub entries: Entries<'v>,
    pub next: usize,
    pub expected: Option<&'v TypeRef>,
    pub members: CoercedMembers,
}

/// A list or an object, and the part of it that is being coerced.
#[derive(Drop)]
pub enum Frame<'v> {
    /// The item before the next one.
    Item(ListFrame<'v>),
    /// The value that is given for the field of this name. Its definition has the default.
    Given(ObjectFrame<'v>, &'v str, Option<&'v InputValueDefinition>),
    /// The default of the field of this name.
    Default(ObjectFrame<'v>, &'v str),
}

/// What an input is.
#[derive(Drop)]
pub enum Focus<'v> {
    /// A list of these items, and what is expected of it.
    List(ListItems<'v>, Option<&'v TypeRef>),
    /// An object of these fields, and what is expected of it.
    Object(ObjectFields<'v>, Option<&'v TypeRef>),
    /// It has no parts, or is done. It came to this.
    Answer(Coerced),
}

/// What is to be done next.
#[derive(Drop)]
pub enum Step<'v> {
    /// Go on with a part of this list or object.
    Within(Frame<'v>, Focus<'v>),
    /// The input came to this.
    Answer(Coerced),
}
