//! Whether `Float` is a type, which every definition asks.
ghost use Rattle.std.specs.Prelude.{◌≡◌, IfOk};
ghost use Rattle.gql_facts.specs.Floats as spec;

use crate::fact::Fact;
use crate::key::Key;
use crate::world::World;
use gql_ast::Text;
use std::alloc::{AllocError, Global};

/// The key that asks whether `Float` is a type. Every definition reads it.
pub fn float_read(alloc: Global) -> Result<Key, AllocError>
    ensures { IfOk result (λ key. key ≡ spec.float_read) }
{
    Ok(Key::KindOf(Text::from_str(alloc, "Float")?))
}

/// Whether custom scalars take every number that a Float takes: where `Float` is a type.
pub fn is_open<W: World>(alloc: Global, world: &mut W) -> Result<bool, AllocError>
    ensures facts { W.facts world.new ≡ W.facts world.old }
    ensures names { W.names world.new ≡ W.names world.old }
    ensures lent { W.lent world.new ≡ W.lent world.old }
    ensures answer { IfOk result (λ is_open. is_open ≡ spec.is_open_in (W.facts world.old)) }
{
    let key = float_read(alloc)?;
    let fact = world.fact(alloc, &key)?;
    Ok(matches!(&fact, Fact::Kind(_)))
}
