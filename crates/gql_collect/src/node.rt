//! Selection sets and fields, with their places in the documents.
ghost use Rattle.std.specs.Prelude.{◌≡◌, ◌++◌};
ghost use Rattle.std.specs.Hash as fed;
ghost use Rattle.gql_collect.specs.Borrowed.{node_of, selections_of};
ghost use Rattle.gql_collect.specs.Groups.{is_same_field, key_of, response_name, start_of};
ghost use Rattle.gql_collect.specs.SameFields.{same_field_equiv, same_field_hashes, same_field_partial};
ghost use Rattle.gql_collect.specs.Nodes.{in_file};

use gql_ast::{Field, FileName, Name, Selection};
use gql_text::Place;
use std::hash::{Hash, Hasher};

/// A selection set, and the file that it is in.
#[derive(Clone, Copy)]
pub struct SelectionSet<'a> {
    pub file: &'a FileName,
    pub selections: &'a [Selection],
}

/// A field, and the file that it is in. Two are equal if they are one field of a document: they are
/// in one file, and start at one place.
#[derive(Clone, Copy)]
pub struct FieldNode<'a> {
    pub file: &'a FileName,
    pub field: &'a Field,
}

/// The name that a field goes by in a response: its alias, or else its name (2.7).
pub fn own_name(field: &Field) -> &Name
    ensures { result.now ≡ response_name field.now }
{
    match &field.alias {
        Some(alias) => alias,
        None => &field.name,
    }
}

impl<'a> FieldNode<'a> {
    /// The name that the field goes by in a response: its alias, or else its name (2.7).
    pub fn response_name(&self) -> &'a str
        ensures { result.now ≡ key_of (node_of self.now) }
    {
        own_name(self.field).as_str()
    }

    /// Where the field starts: the place of its alias, or else of its name (2.5).
    pub fn place(&self) -> Place
        ensures { result ≡ (response_name (node_of self.now).field).place }
    {
        own_name(self.field).place
    }

    /// The selections of the field.
    pub fn selection_set(&self) -> SelectionSet<'a>
        ensures { selections_of result ≡ in_file self.now.file.now self.now.field.now.selections }
    {
        SelectionSet {
            file: self.file,
            selections: self.field.selections.as_slice(),
        }
    }

    /// The offset at which the field starts in its file.
    fn start(&self) -> usize
        ensures { result ≡ start_of (node_of self.now) }
    {
        own_name(self.field).place.offset
    }
}

impl<'a> PartialEq for FieldNode<'a> {
    ghost eq = { λ a b. is_same_field (node_of a) (node_of b) };

    ghost laws = { same_field_partial };

    fn eq(&self, other: &FieldNode<'a>) -> bool {
        self.file == other.file && self.start() == other.start()
    }
}

impl<'a> Eq for FieldNode<'a> {
    ghost laws = { same_field_equiv };
}

impl<'a> Hash for FieldNode<'a> {
    ghost hash_input = { λ n. fed.str n.file.now ++ fed.usize (start_of (node_of n)) };

    ghost respects_eq = { same_field_hashes };

    fn hash<H: Hasher>(&self, state: &mut H) {
        self.file.as_str().hash(state);
        state.write_usize(self.start());
    }
}
