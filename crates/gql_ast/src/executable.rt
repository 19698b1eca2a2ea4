//! The trees of operations and fragments.

use crate::literal::{Argument, Directive, Literal};
use crate::text::Name;
use crate::type_ref::TypeRef;
use gql_text::Place;
use sqlite_items::Items;

/// What an operation does (GraphQL specification, 2.3).
#[derive(Clone, Copy, Debug, PartialEq, Eq)]
pub enum OperationKind {
    Query,
    Mutation,
    Subscription,
}

/// A field of a selection set (GraphQL specification, 2.5). It starts at its alias, or else at its
/// name.
#[cycle(selection)]
#[derive(Drop)]
pub struct Field {
    pub alias: Option<Name>,
    pub name: Name,
    pub arguments: Items<Argument>,
    pub directives: Items<Directive>,
    /// Empty where no selection set is written.
    pub selections: Items<Selection>,
}

/// A spread of a named fragment (GraphQL specification, 2.8). Its place is that of its `...`.
pub struct Spread {
    pub place: Place,
    pub name: Name,
    pub directives: Items<Directive>,
}

impl Drop for Spread {
    fn drop(self) {
        let Spread {
            place: _,
            name: _,
            directives: _,
        } = self;
    }
}

/// A fragment without a name (GraphQL specification, 2.8.2). Its place is that of its `...`.
#[cycle(selection)]
#[derive(Drop)]
pub struct InlineFragment {
    pub place: Place,
    pub condition: Option<Name>,
    pub directives: Items<Directive>,
    pub selections: Items<Selection>,
}

/// A selection of a selection set (GraphQL specification, 2.4).
#[cycle(selection)]
#[derive(Drop)]
pub enum Selection {
    Field(Field),
    Spread(Spread),
    InlineFragment(InlineFragment),
}

/// A variable of an operation (GraphQL specification, 2.10). Its place is that of its `$`.
pub struct VariableDefinition {
    pub place: Place,
    pub name: Name,
    pub of_type: TypeRef,
    pub default: Option<Literal>,
    pub directives: Items<Directive>,
}

impl Drop for VariableDefinition {
    fn drop(self) {
        let VariableDefinition {
            place: _,
            name: _,
            of_type: _,
            default: _,
            directives: _,
        } = self;
    }
}

/// An operation (GraphQL specification, 2.3). Its place is that of its first token.
pub struct Operation {
    pub place: Place,
    pub kind: OperationKind,
    pub name: Option<Name>,
    pub variables: Items<VariableDefinition>,
    pub directives: Items<Directive>,
    pub selections: Items<Selection>,
}

impl Drop for Operation {
    fn drop(self) {
        let Operation {
            place: _,
            kind: _,
            name: _,
            variables: _,
            directives: _,
            selections: _,
        } = self;
    }
}

/// A named fragment (GraphQL specification, 2.8). Its place is that of its first token.
pub struct Fragment {
    pub place: Place,
    pub name: Name,
    pub condition: Name,
    pub directives: Items<Directive>,
    pub selections: Items<Selection>,
}

impl Drop for Fragment {
    fn drop(self) {
        let Fragment {
            place: _,
            name: _,
            condition: _,
            directives: _,
            selections: _,
        } = self;
    }
}
