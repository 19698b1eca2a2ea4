//! The part of a schema that a user names, as `Product.price`.
ghost use Rattle.std.specs.Prelude.{◌≡◌, ◌≢◌, ◌++◌, ◌∷◌, [], IfOk, MatchOption};
ghost use Rattle.gql_removal.specs.Subjects as spec;
ghost use Rattle.gql_removal.specs.declared.subject.Subject.{Subject as ASubject};

use gql_ast::Text;
use std::alloc::{AllocError, Global};

/// A part of a schema, by its coordinate.
#[derive(Debug, Drop)]
pub enum Subject {
    /// A type, as `Product`.
    Type(Text),
    /// A field of an object, an interface or an input object, or a value of an enum, as
    /// `Product.price`.
    Member {
        of_type: Text,
        name: Text,
    },
    /// An argument of a field, as `Product.price(in:)`.
    Argument {
        of_type: Text,
        field: Text,
        name: Text,
    },
    /// A directive, as `@beta`.
    Directive(Text),
    /// An argument of a directive, as `@beta(since:)`.
    DirectiveArgument {
        directive: Text,
        name: Text,
    },
}

/// The part that a word without `(` names: a directive after `@`, a member after the first dot, or
/// else a type.
fn read_plain(alloc: Global, word: &str) -> Result<Subject, AllocError>
    ensures { IfOk result (spec.NamesPlainly word.now) }
{
    if let Some(name) = word.strip_prefix('@') {
        return Ok(Subject::Directive(Text::from_str(alloc, name)?));
    }
    match word.split_once('.') {
        Some((of_type, name)) => Ok(Subject::Member {
            of_type: Text::from_str(alloc, of_type)?,
            name: Text::from_str(alloc, name)?,
        }),
        None => Ok(Subject::Type(Text::from_str(alloc, word)?)),
    }
}

/// The text before `:)`, if that is the end.
fn before_end(rest: &str) -> Option<&str>
    ensures { MatchOption result
        ((name : spec.Name) → rest.now ≢ name ++ spec.colon ∷ spec.closing ∷ [])
        (λ name. rest.now ≡ name.now ++ spec.colon ∷ spec.closing ∷ []) }
{
    match rest.strip_suffix(')') {
        Some(before) => before.strip_suffix(':'),
        None => None,
    }
}

/// The argument of this name of the field or the directive that a word before `(` names, if it is the
/// word of one of these.
fn read_argument(alloc: Global, front: &str, name: &str) -> Result<Option<Subject>, AllocError>
    ensures { IfOk result (spec.NamesArgument front.now name.now) }
{
    if let Some(directive) = front.strip_prefix('@') {
        return Ok(Some(Subject::DirectiveArgument {
            directive: Text::from_str(alloc, directive)?,
            name: Text::from_str(alloc, name)?,
        }));
    }
    match front.split_once('.') {
        Some((of_type, field)) => Ok(Some(Subject::Argument {
            of_type: Text::from_str(alloc, of_type)?,
            field: Text::from_str(alloc, field)?,
            name: Text::from_str(alloc, name)?,
        })),
        None => Ok(None),
    }
}

/// The part of a schema that a word names, as schema coordinates have it: with `(`, an argument, and
/// else a directive after `@`, a member after the first dot, or a type. `None` if there is a `(` and the
/// word is not that of an argument, as `Query.orders(sort)`.
pub fn read_subject(alloc: Global, word: &str) -> Result<Option<Subject>, AllocError>
    ensures { IfOk result (spec.Names word.now) }
{
    match word.split_once('(') {
        None => Ok(Some(read_plain(alloc, word)?)),
        Some((front, rest)) => match before_end(rest) {
            Some(name) => read_argument(alloc, front, name),
            None => Ok(None),
        },
    }
}
