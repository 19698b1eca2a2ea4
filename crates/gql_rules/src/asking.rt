//! Questions to a world.
ghost use Rattle.std.specs.Prelude.{◌≡◌, IfOk};
ghost use Rattle.gql_rules.specs.Answers as spec;

use crate::answers::kind_in;
use gql_ast::Text;
use gql_facts::{Fact, Key, World};
use gql_types::TypeKind;
use std::alloc::{AllocError, Global};

/// The kind of a type, if it is known.
pub fn kind_of<W: World>(
    alloc: Global,
    world: &mut W,
    of_type: &Text,
) -> Result<Option<TypeKind>, AllocError>
    ensures facts { W.facts world.new ≡ W.facts world.old }
    ensures names { W.names world.new ≡ W.names world.old }
    ensures lent { W.lent world.new ≡ W.lent world.old }
    ensures answer { IfOk result (λ k. k ≡ spec.kind_of (W.facts world.old) of_type.now) }
{
    let fact = world.fact(alloc, &Key::KindOf(of_type.copy()?))?;
    Ok(kind_in(&fact))
}

/// The answer for a field of a parent type; absent if that is not known.
pub fn ask_field<W: World>(
    alloc: Global,
    world: &mut W,
    parent: &Option<Text>,
    name: &Text,
) -> Result<Fact, AllocError>
    ensures facts { W.facts world.new ≡ W.facts world.old }
    ensures names { W.names world.new ≡ W.names world.old }
    ensures lent { W.lent world.new ≡ W.lent world.old }
    ensures answer { IfOk result (λ f. spec.field_in f
        ≡ spec.field_of (W.facts world.old) parent.now name.now) }
{
    let Some(parent) = parent else {
        return Ok(Fact::Absent);
    };
    let key = Key::FieldOf {
        of_type: parent.copy()?,
        field: name.copy()?,
    };
    world.fact(alloc, &key)
}

/// The answer for the possible types of a parent type; absent if that is not known.
pub fn ask_possible<W: World>(
    alloc: Global,
    world: &mut W,
    parent: &Option<Text>,
) -> Result<Fact, AllocError>
    ensures facts { W.facts world.new ≡ W.facts world.old }
    ensures names { W.names world.new ≡ W.names world.old }
    ensures lent { W.lent world.new ≡ W.lent world.old }
    ensures answer { IfOk result (λ f. spec.possible_in f
        ≡ spec.possible_of (W.facts world.old) parent.now) }
{
    let Some(parent) = parent else {
        return Ok(Fact::Absent);
    };
    world.fact(alloc, &Key::PossibleOf(parent.copy()?))
}

/// The answer for a directive.
pub fn ask_directive<W: World>(
    alloc: Global,
    world: &mut W,
    name: &Text,
) -> Result<Fact, AllocError>
    ensures facts { W.facts world.new ≡ W.facts world.old }
    ensures names { W.names world.new ≡ W.names world.old }
    ensures lent { W.lent world.new ≡ W.lent world.old }
    ensures answer { IfOk result (λ f. spec.directive_in f
        ≡ spec.directive_of (W.facts world.old) name.now) }
{
    world.fact(alloc, &Key::DirectiveOf(name.copy()?))
}

/// The answer for a fragment.
pub fn ask_fragment<W: World>(alloc: Global, world: &mut W, name: &Text) -> Result<Fact, AllocError>
    ensures facts { W.facts world.new ≡ W.facts world.old }
    ensures names { W.names world.new ≡ W.names world.old }
    ensures lent { W.lent world.new ≡ W.lent world.old }
    ensures answer { IfOk result (λ f. spec.fragment_in f
        ≡ spec.fragment_of (W.facts world.old) name.now) }
{
    world.fact(alloc, &Key::FragmentOf(name.copy()?))
}
