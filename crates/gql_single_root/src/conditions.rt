//! Which selections count at the root of a subscription: by `@skip` and `@include`, with no value
//! for any variable, and by type conditions (GraphQL specification, 3.13.1, 3.13.2, 6.3.2).
ghost use Rattle.std.specs.Prelude.{◌≡◌, IfOk};
ghost use Rattle.gql_single_root.specs.V30SingleRootField as spec;

use gql_ast::{Argument, Directive, Literal, Name, Text};
use gql_facts::{Fact, Key, World};
use std::alloc::{AllocError, Global};

/// Whether a literal is `true`.
fn is_true(literal: &Literal) -> bool
    ensures { result ≡ spec.is_true literal.now }
{
    match literal {
        Literal::Boolean { value, .. } => *value,
        Literal::Variable { .. } => false,
        Literal::Int { .. } => false,
        Literal::Float { .. } => false,
        Literal::String { .. } => false,
        Literal::Null { .. } => false,
        Literal::Enum { .. } => false,
        Literal::List { .. } => false,
        Literal::Object { .. } => false,
    }
}

/// Whether one of these arguments is `if: true`.
fn says_true(arguments: &[Argument]) -> bool
    ensures { result ≡ spec.says_true arguments.now }
{
    for argument in arguments {
        if argument.name.as_str() == "if" && is_true(&argument.value) {
            return true;
        }
    }
    false
}

/// Whether a directive leaves its selection out: `@skip` that says true, or `@include` that does
/// not.
fn leaves_out(directive: &Directive) -> bool
    ensures { result ≡ spec.leaves_out directive.now }
{
    let name = directive.name.as_str();
    let is_on = says_true(directive.arguments.as_slice());
    (name == "skip" && is_on) || (name == "include" && !is_on)
}

/// Whether a selection with these directives stays.
pub fn stays(directives: &[Directive]) -> bool
    ensures { result ≡ spec.stays directives.now }
{
    for directive in directives {
        if leaves_out(directive) {
            return false;
        }
    }
    true
}

/// Whether a type is among the possible types that an answer gives.
fn is_among(fact: &Fact, of_type: &Text) -> bool
    ensures { result ≡ spec.is_among (spec.names_in fact.now) of_type.now }
{
    match fact {
        Fact::Possible(names) => names.get().get(of_type.as_str()).is_some(),
        _ => false,
    }
}

/// Whether the root is a possible type of the type of that name.
pub fn is_possible<W: World>(
    alloc: Global,
    world: &mut W,
    root: &Text,
    condition: &Text,
) -> Result<bool, AllocError>
    ensures facts { W.facts world.new ≡ W.facts world.old }
    ensures names { W.names world.new ≡ W.names world.old }
    ensures lent { W.lent world.new ≡ W.lent world.old }
    ensures possible { IfOk result (λ b. b
        ≡ spec.is_possible (W.facts world.old) root.now condition.now) }
{
    let fact = world.fact(alloc, &Key::PossibleOf(condition.copy()?))?;
    Ok(is_among(&fact, root))
}

/// Whether an inline fragment applies to the root; one without a condition does.
pub fn applies<W: World>(
    alloc: Global,
    world: &mut W,
    root: &Text,
    condition: &Option<Name>,
) -> Result<bool, AllocError>
    ensures facts { W.facts world.new ≡ W.facts world.old }
    ensures names { W.names world.new ≡ W.names world.old }
    ensures lent { W.lent world.new ≡ W.lent world.old }
    ensures applies { IfOk result (λ b. b
        ≡ spec.applies (W.facts world.old) root.now condition.now) }
{
    match condition {
        Some(condition) => is_possible(alloc, world, root, &condition.text),
        None => Ok(true),
    }
}
