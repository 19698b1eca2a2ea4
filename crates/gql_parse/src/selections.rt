//! Selection sets (GraphQL specification, 2.4), fields (2.5) and fragments in them (2.8).
ghost use Rattle.std.specs.Prelude.{◌≡◌, ◌<◌, ◌≤◌, [], length, OnOk};
ghost use Rattle.gql_text.specs.declared.token.Kind.TheVariants as k;
ghost use Rattle.gql_text.specs.Lexeme.{lexeme};
ghost use Rattle.gql_grammar.specs.Symbol.{IsRest, Reads, optional, sees, sees_name};
ghost use Rattle.gql_parse.specs.Selections as spec;
ghost use Rattle.gql_parse.specs.Stacks.{Adds};

use crate::applied::{directives, optional_arguments};
use crate::literal::ValueForm;
use crate::names::name;
use gql_ast::{Field, InlineFragment, Items, Name, Selection, Spread, Text};
use gql_grammar::{Cursor, ParseError};
use gql_text::{Kind, Token};
use std::alloc::Global;

#[tactic(auto, using(gql_grammar::proofs::Rests::rests), unfolding(crate::specs::Selections::aliased))]
fn aliased(
    alloc: Global,
    cursor: &mut Cursor<'_>,
    alias: Name,
) -> Result<(Option<Name>, Name), ParseError>
    ensures value { Reads ((spec.aliased alias).read cursor.old) result cursor.new }
    ensures shorter { OnOk result (length cursor.new < length cursor.old) }
    ensures rest { IsRest cursor.new cursor.old }
{
    cursor.expect(Kind::Colon)?;
    let name = name(alloc, cursor)?;
    Ok((Some(alias), name))
}

/// The alias, if there is one, and the name.
#[tactic(auto, using(gql_grammar::proofs::Rests::rests), unfolding(crate::specs::Selections::names))]
fn names(alloc: Global, cursor: &mut Cursor<'_>) -> Result<(Option<Name>, Name), ParseError>
    ensures value { Reads (spec.names.read cursor.old) result cursor.new }
    ensures shorter { OnOk result (length cursor.new < length cursor.old) }
    ensures rest { IsRest cursor.new cursor.old }
{
    let first = name(alloc, cursor)?;
    if !cursor.sees(Kind::Colon) {
        return Ok((None, first));
    }
    aliased(alloc, cursor, first)
}

/// Whether the next token is a name that a fragment may have.
#[tactic(auto, unfolding(gql_grammar::specs::Symbol::sees_name))]
fn sees_fragment_name(cursor: &Cursor<'_>) -> bool
    ensures { result ≡ sees_name spec.is_fragment_name cursor.now }
{
    cursor.sees(Kind::Name) && cursor.text() != "on"
}

/// The name of a fragment, which is not `on` (2.8).
#[tactic(auto, using(gql_grammar::proofs::Rests::rests), unfolding(crate::specs::Selections::fragment_name, gql_grammar::specs::Symbol::name_where))]
pub fn fragment_name(alloc: Global, cursor: &mut Cursor<'_>) -> Result<Name, ParseError>
    ensures value { Reads (spec.fragment_name.read cursor.old) result cursor.new }
    ensures shorter { OnOk result (length cursor.new < length cursor.old) }
    ensures rest { IsRest cursor.new cursor.old }
{
    let fits = sees_fragment_name(cursor);
    let token = cursor.take_if(fits)?;
    Ok(Name {
        place: token.place,
        text: Text::from_str(alloc, token.text)?,
    })
}

/// `on` and the name of a type (2.8.1).
#[tactic(auto, using(gql_grammar::proofs::Rests::rests), unfolding(crate::specs::Selections::type_condition))]
pub fn type_condition(alloc: Global, cursor: &mut Cursor<'_>) -> Result<Name, ParseError>
    ensures value { Reads (spec.type_condition.read cursor.old) result cursor.new }
    ensures shorter { OnOk result (length cursor.new < length cursor.old) }
    ensures rest { IsRest cursor.new cursor.old }
{
    cursor.expect_word("on")?;
    name(alloc, cursor)
}

#[tactic(auto, using(gql_grammar::proofs::Rests::rests), unfolding(crate::specs::Selections::some_condition))]
fn optional_condition(alloc: Global, cursor: &mut Cursor<'_>) -> Result<Option<Name>, ParseError>
    ensures value { Reads (spec.optional_condition.read cursor.old) result cursor.new }
    ensures shorter { OnOk result (length cursor.new ≤ length cursor.old) }
    ensures rest { IsRest cursor.new cursor.old }
{
    if !cursor.sees_word("on") {
        return Ok(None);
    }
    Ok(Some(type_condition(alloc, cursor)?))
}

#[tactic(auto, using(gql_grammar::proofs::Rests::rests), unfolding(crate::specs::Selections::spread))]
fn spread(alloc: Global, cursor: &mut Cursor<'_>, mark: Token<'_>) -> Result<Spread, ParseError>
    ensures value { Reads ((spec.spread (lexeme mark.entry)).read cursor.old) result cursor.new }
    ensures shorter { OnOk result (length cursor.new < length cursor.old) }
    ensures rest { IsRest cursor.new cursor.old }
{
    let name = fragment_name(alloc, cursor)?;
    let directives = directives(alloc, cursor, ValueForm::WithVariables)?;
    Ok(Spread {
        place: mark.place,
        name,
        directives,
    })
}

/// A set of selections in braces (2.4).
pub fn set(alloc: Global, cursor: &mut Cursor<'_>) -> Result<Items<Selection>, ParseError>
    ensures value { Reads (spec.set.read cursor.old) result cursor.new }
    ensures shorter { OnOk result (length cursor.new < length cursor.old) }
    ensures rest { IsRest cursor.new cursor.old }
{
    let mut stack = Vec::new(alloc);
    set_over(alloc, cursor, &mut stack)
}

/// The selections of a set, without its braces (2.4).
pub fn selections(alloc: Global, cursor: &mut Cursor<'_>) -> Result<Items<Selection>, ParseError>
    ensures value { Reads ((spec.selections_of spec.set).read cursor.old) result cursor.new }
    ensures shorter { OnOk result (length cursor.new < length cursor.old) }
    ensures rest { IsRest cursor.new cursor.old }
{
    let mut stack = Vec::new(alloc);
    selections_over(alloc, cursor, &mut stack)
}

/// A set in braces. The selections of sets that are not closed yet lie on the stack.
#[cycle(set)]
#[tactic(auto, using(gql_grammar::proofs::Rests::rests, crate::proofs::Rules::set_is), unfolding(crate::specs::Selections::set_of))]
fn set_over(
    alloc: Global,
    cursor: &mut Cursor<'_>,
    stack: &mut Vec<Selection>,
) -> Result<Items<Selection>, ParseError>
    ensures value { Reads (spec.set.read cursor.old) result cursor.new }
    ensures shorter { OnOk result (length cursor.new < length cursor.old) }
    ensures rest { IsRest cursor.new cursor.old }
    ensures stack { OnOk result (stack.new.items ≡ stack.old.items) }
{
    cursor.expect(Kind::LeftBrace)?;
    let found = selections_over(alloc, cursor, stack)?;
    cursor.expect(Kind::RightBrace)?;
    Ok(found)
}

/// The selections of a set. Each is put on the stack, and all are taken off at the end, so that they
/// take no more memory than they need: a document is held as long as its file.
#[cycle(set)]
#[tactic(auto, using(gql_grammar::proofs::Rests::rests))]
fn selections_over(
    alloc: Global,
    cursor: &mut Cursor<'_>,
    stack: &mut Vec<Selection>,
) -> Result<Items<Selection>, ParseError>
    ensures value { Reads ((spec.selections_of spec.set).read cursor.old) result cursor.new }
    ensures shorter { OnOk result (length cursor.new < length cursor.old) }
    ensures rest { IsRest cursor.new cursor.old }
    ensures stack { OnOk result (stack.new.items ≡ stack.old.items) }
{
    let start = stack.len();
    push_selection(alloc, cursor, stack)?;
    'selections: while cursor.before(Kind::RightBrace) {
        push_selection(alloc, cursor, stack)?;
    }
    Ok(Items::from_vec(stack.split_off(start)?))
}

/// Puts the next selection on the stack (2.4).
#[cycle(set)]
#[tactic(auto, using(gql_grammar::proofs::Rests::rests), unfolding(crate::specs::Selections::selection_of))]
fn push_selection(
    alloc: Global,
    cursor: &mut Cursor<'_>,
    stack: &mut Vec<Selection>,
) -> Result<(), ParseError>
    ensures value { Adds stack.old.items stack.new.items
        ((spec.selection_of spec.set).read cursor.old) result cursor.new }
    ensures shorter { OnOk result (length cursor.new < length cursor.old) }
    ensures rest { IsRest cursor.new cursor.old }
{
    match cursor.kind() {
        Kind::Name => push_field(alloc, cursor, stack),
        Kind::Ellipsis => push_spread_or_inline(alloc, cursor, stack),
        _ => Err(ParseError::Unexpected),
    }
}

/// Puts the next field on the stack (2.5).
#[cycle(set)]
#[tactic(auto, using(gql_grammar::proofs::Rests::rests), unfolding(crate::specs::Selections::field_of))]
fn push_field(
    alloc: Global,
    cursor: &mut Cursor<'_>,
    stack: &mut Vec<Selection>,
) -> Result<(), ParseError>
    ensures value { Adds stack.old.items stack.new.items
        ((spec.selection_by spec.set k.Name).read cursor.old) result cursor.new }
    ensures shorter { OnOk result (length cursor.new < length cursor.old) }
    ensures rest { IsRest cursor.new cursor.old }
{
    let (alias, name) = names(alloc, cursor)?;
    let arguments = optional_arguments(alloc, cursor, ValueForm::WithVariables)?;
    let directives = directives(alloc, cursor, ValueForm::WithVariables)?;
    let selections = optional_set(alloc, cursor, stack)?;
    stack.push(Selection::Field(Field {
        alias,
        name,
        arguments,
        directives,
        selections,
    }))?;
    Ok(())
}

/// The selections below a field, or none.
#[cycle(set)]
#[tactic(auto, using(gql_grammar::proofs::Rests::rests))]
fn optional_set(
    alloc: Global,
    cursor: &mut Cursor<'_>,
    stack: &mut Vec<Selection>,
) -> Result<Items<Selection>, ParseError>
    ensures value { Reads
        ((optional (sees k.LeftBrace) [] spec.set).read cursor.old) result cursor.new }
    ensures shorter { OnOk result (length cursor.new ≤ length cursor.old) }
    ensures rest { IsRest cursor.new cursor.old }
    ensures stack { OnOk result (stack.new.items ≡ stack.old.items) }
{
    if !cursor.sees(Kind::LeftBrace) {
        return Ok(Items::new(alloc));
    }
    set_over(alloc, cursor, stack)
}

#[cycle(set)]
#[tactic(auto, using(gql_grammar::proofs::Rests::rests), unfolding(crate::specs::Selections::inline_fragment_of))]
fn inline_fragment(
    alloc: Global,
    cursor: &mut Cursor<'_>,
    mark: Token<'_>,
    stack: &mut Vec<Selection>,
) -> Result<InlineFragment, ParseError>
    ensures value { Reads
        ((spec.inline_fragment_of (lexeme mark.entry) spec.set).read cursor.old) result cursor.new }
    ensures shorter { OnOk result (length cursor.new < length cursor.old) }
    ensures rest { IsRest cursor.new cursor.old }
    ensures stack { OnOk result (stack.new.items ≡ stack.old.items) }
{
    let condition = optional_condition(alloc, cursor)?;
    let directives = directives(alloc, cursor, ValueForm::WithVariables)?;
    let selections = set_over(alloc, cursor, stack)?;
    Ok(InlineFragment {
        place: mark.place,
        condition,
        directives,
        selections,
    })
}

#[cycle(set)]
#[tactic(auto, using(gql_grammar::proofs::Rests::rests), unfolding(crate::specs::Selections::spread_or_inline_of))]
fn spread_or_inline(
    alloc: Global,
    cursor: &mut Cursor<'_>,
    stack: &mut Vec<Selection>,
) -> Result<Selection, ParseError>
    ensures value { Reads ((spec.spread_or_inline_of spec.set).read cursor.old) result cursor.new }
    ensures shorter { OnOk result (length cursor.new < length cursor.old) }
    ensures rest { IsRest cursor.new cursor.old }
    ensures stack { OnOk result (stack.new.items ≡ stack.old.items) }
{
    let mark = cursor.expect(Kind::Ellipsis)?;
    if sees_fragment_name(cursor) {
        Ok(Selection::Spread(spread(alloc, cursor, mark)?))
    } else {
        let inline = inline_fragment(alloc, cursor, mark, stack)?;
        Ok(Selection::InlineFragment(inline))
    }
}

/// Puts the next spread or inline fragment on the stack (2.8).
#[cycle(set)]
#[tactic(auto, using(gql_grammar::proofs::Rests::rests))]
fn push_spread_or_inline(
    alloc: Global,
    cursor: &mut Cursor<'_>,
    stack: &mut Vec<Selection>,
) -> Result<(), ParseError>
    ensures value { Adds stack.old.items stack.new.items
        ((spec.spread_or_inline_of spec.set).read cursor.old) result cursor.new }
    ensures shorter { OnOk result (length cursor.new < length cursor.old) }
    ensures rest { IsRest cursor.new cursor.old }
{
    let found = spread_or_inline(alloc, cursor, stack)?;
    stack.push(found)?;
    Ok(())
}
