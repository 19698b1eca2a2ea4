//! The calls that read one part of a document from a cursor. Each returns the part, with the cursor
//! after it; or `Unexpected`, with the cursor at the first token that cannot continue the part, or
//! at the end; or `Memory`, if an allocation failed, with the cursor at any token from its start
//! on.
ghost use Rattle.std.specs.Prelude.{◌<◌, ◌≤◌, length, OnOk};
ghost use Rattle.gql_grammar.specs.Symbol.{Answers, IsRest, Reads};
ghost use Rattle.gql_parse.specs.Directives as of_directives;
ghost use Rattle.gql_parse.specs.Documents as of_documents;
ghost use Rattle.gql_parse.specs.Names as of_names;
ghost use Rattle.gql_parse.specs.Operations as of_operations;
ghost use Rattle.gql_parse.specs.Selections as of_selections;
ghost use Rattle.gql_parse.specs.Types as of_types;
ghost use Rattle.gql_parse.specs.Values as of_values;

use crate::literal::ValueForm;
use crate::{applied, executable, literal, names, operations, selections, types};
use gql_ast::{Directive, Items, Literal, Name, Selection, Tree, TypeRef};
use gql_grammar::{Cursor, ParseError};
use std::alloc::Global;

/// An operation or a fragment (GraphQL specification, 2.2).
pub fn definition(alloc: Global, cursor: &mut Cursor<'_>) -> Result<Tree, ParseError>
    ensures answers { Answers of_documents.definition cursor.old result cursor.new }
    ensures value { Reads (of_documents.definition.read cursor.old) result cursor.new }
    ensures shorter { OnOk result (length cursor.new < length cursor.old) }
    ensures rest { IsRest cursor.new cursor.old }
{
    executable::definition(alloc, cursor)
}

/// The directives that follow, possibly none (GraphQL specification, 2.12). Values of their
/// arguments are of this form.
pub fn directives(
    alloc: Global,
    cursor: &mut Cursor<'_>,
    form: ValueForm,
) -> Result<Items<Directive>, ParseError>
    ensures answers { Answers
        (of_directives.directives (of_values.is_constant form)) cursor.old result cursor.new }
    ensures value { Reads
        ((of_directives.directives (of_values.is_constant form)).read cursor.old)
        result cursor.new }
    ensures shorter { OnOk result (length cursor.new ≤ length cursor.old) }
    ensures rest { IsRest cursor.new cursor.old }
{
    applied::directives(alloc, cursor, form)
}

/// A value of this form (GraphQL specification, 2.9). It nests as deep as its brackets: a whole
/// file has at most 100 of them open at one time, a bare cursor as many as its tokens have.
pub fn value(alloc: Global, cursor: &mut Cursor<'_>, form: ValueForm) -> Result<Literal, ParseError>
    ensures answers { Answers
        (of_values.value (of_values.is_constant form)) cursor.old result cursor.new }
    ensures value { Reads
        ((of_values.value (of_values.is_constant form)).read cursor.old) result cursor.new }
    ensures shorter { OnOk result (length cursor.new < length cursor.old) }
    ensures rest { IsRest cursor.new cursor.old }
{
    literal::value(alloc, cursor, form)
}

/// A type reference (GraphQL specification, 2.11). It nests as deep as its brackets: a whole file
/// has at most 100 of them open at one time, a bare cursor as many as its tokens have.
pub fn type_ref(alloc: Global, cursor: &mut Cursor<'_>) -> Result<TypeRef, ParseError>
    ensures answers { Answers of_types.type_ref cursor.old result cursor.new }
    ensures value { Reads (of_types.type_ref.read cursor.old) result cursor.new }
    ensures shorter { OnOk result (length cursor.new < length cursor.old) }
    ensures rest { IsRest cursor.new cursor.old }
{
    types::type_ref(alloc, cursor)
}

/// A name (GraphQL specification, 2.1.9).
pub fn name(alloc: Global, cursor: &mut Cursor<'_>) -> Result<Name, ParseError>
    ensures answers { Answers of_names.name cursor.old result cursor.new }
    ensures value { Reads (of_names.name.read cursor.old) result cursor.new }
    ensures shorter { OnOk result (length cursor.new < length cursor.old) }
    ensures rest { IsRest cursor.new cursor.old }
{
    names::name(alloc, cursor)
}

/// The default value that follows, which is constant, or none (GraphQL specification, 2.10).
pub fn optional_default(
    alloc: Global,
    cursor: &mut Cursor<'_>,
) -> Result<Option<Literal>, ParseError>
    ensures answers { Answers of_operations.optional_default cursor.old result cursor.new }
    ensures value { Reads (of_operations.optional_default.read cursor.old) result cursor.new }
    ensures shorter { OnOk result (length cursor.new ≤ length cursor.old) }
    ensures rest { IsRest cursor.new cursor.old }
{
    operations::optional_default(alloc, cursor)
}

/// A selection set (GraphQL specification, 2.4).
pub fn set(alloc: Global, cursor: &mut Cursor<'_>) -> Result<Items<Selection>, ParseError>
    ensures answers { Answers of_selections.set cursor.old result cursor.new }
    ensures value { Reads (of_selections.set.read cursor.old) result cursor.new }
    ensures shorter { OnOk result (length cursor.new < length cursor.old) }
    ensures rest { IsRest cursor.new cursor.old }
{
    selections::set(alloc, cursor)
}
