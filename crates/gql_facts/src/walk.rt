//! What a definition reads and reaches, by a walk that asks a world.
ghost use Rattle.std.specs.Prelude.{◌≡◌, ◌∷◌, ◌++◌, List, IfOk, OnOk, OnErr, Some, flat_map, map, slice_get};
ghost use Rattle.gql_facts.specs.Members.{Lists};
ghost use Rattle.gql_facts.specs.OwnReads.{own_reads};
ghost use Rattle.gql_facts.specs.Reads.{Reads, Reaches, Asked, AskedAmong, type_reads, input_types};
ghost use Rattle.gql_facts.specs.Scans.{Records, Scans, add_keys};
ghost use Rattle.gql_facts.specs.Walks as spec;
ghost use Rattle.gql_facts.specs.declared.key.Key.{Key};

use crate::fact::{Fact, FragmentFact, InputFact};
use crate::float::float_read;
use crate::key::Key;
use crate::scan::{keep, scan_fragment, scan_tree};
use crate::world::World;
use gql_ast::{Definition, Text};
use indexmap::IndexSet;
use std::alloc::{AllocError, Global};

/// What a definition reads, and the fragments that it reaches.
pub struct Walk {
    pub keys: IndexSet<Key>,
    pub members: Vec<FragmentFact>,
}

impl Drop for Walk {
    fn drop(self) {
        let Walk {
            keys: _,
            members: _,
        } = self;
    }
}

/// Adds the keys that a definition reads by itself: whether `Float` is a type, and what its parts read.
fn scan_definition<W: World>(
    alloc: Global,
    world: &mut W,
    definition: &Definition,
    keys: &mut IndexSet<Key>,
) -> Result<(), AllocError>
    ensures facts { W.facts world.new ≡ W.facts world.old }
    ensures names { W.names world.new ≡ W.names world.old }
    ensures lent { W.lent world.new ≡ W.lent world.old }
    ensures scanned { OnOk result (Scans (W.facts world.old)
        (own_reads (W.facts world.old) definition.now)
        keys.old.keys (W.asked world.old) keys.new.keys (W.asked world.new)) }
    ensures failed { OnErr result (Records (W.facts world.old)
        (own_reads (W.facts world.old) definition.now)
        (W.asked world.old) (W.asked world.new)) }
{
    keep(float_read(alloc)?, keys)?;
    scan_tree(alloc, world, &definition.tree, keys)?;
    Ok(())
}

fn keep_type(name: &Text, keys: &mut IndexSet<Key>) -> Result<(), AllocError>
    ensures { OnOk result (keys.new.keys ≡ add_keys keys.old.keys (type_reads name.now)) }
{
    keep(Key::KindOf(name.copy()?), keys)?;
    keep(Key::PossibleOf(name.copy()?), keys)?;
    keep(Key::InputOf(name.copy()?), keys)?;
    keep(Key::EnumOf(name.copy()?), keys)
}

fn keep_inputs(inputs: &[InputFact], keys: &mut IndexSet<Key>) -> Result<(), AllocError>
    ensures { OnOk result (keys.new.keys
        ≡ add_keys keys.old.keys (flat_map type_reads (input_types inputs.now))) }
{
    for input in inputs {
        keep_type(&input.of_type.name, keys)?;
    }
    Ok(())
}

/// Adds the keys about the types that an answer names.
fn keep_types(fact: &Fact, keys: &mut IndexSet<Key>) -> Result<(), AllocError>
    ensures { OnOk result (keys.new.keys ≡ add_keys keys.old.keys (spec.types_led_to fact.now)) }
{
    match fact {
        Fact::Field(field) => {
            keep_type(&field.get().of_type.name, keys)?;
            keep_inputs(field.get().arguments.as_slice(), keys)?;
        }
        Fact::Input(fields) => keep_inputs(fields.get().as_slice(), keys)?,
        Fact::Directive(directive) => keep_inputs(directive.get().arguments.as_slice(), keys)?,
        Fact::Root(name) => keep_type(name.get(), keys)?,
        _ => (),
    }
    Ok(())
}

/// Follows an answer: adds the keys that it leads to.
fn follow<W: World>(
    alloc: Global,
    world: &mut W,
    fact: &Fact,
    keys: &mut IndexSet<Key>,
    members: &mut Vec<FragmentFact>,
) -> Result<(), AllocError>
    ensures facts { W.facts world.new ≡ W.facts world.old }
    ensures names { W.names world.new ≡ W.names world.old }
    ensures lent { W.lent world.new ≡ W.lent world.old }
    ensures scanned { OnOk result (Scans (W.facts world.old)
        (spec.led_to (W.facts world.old) fact.now)
        keys.old.keys (W.asked world.old) keys.new.keys (W.asked world.new)) }
    ensures failed { OnErr result (Records (W.facts world.old)
        (spec.led_to (W.facts world.old) fact.now)
        (W.asked world.old) (W.asked world.new)) }
    ensures members { OnOk result (members.new.items
        ≡ members.old.items ++ spec.member_in fact.now) }
{
    keep_types(fact, keys)?;
    if let Fact::Fragment(found) = fact {
        scan_fragment(alloc, world, found.fragment.get(), keys)?;
        members.push(found.copy()?)?;
    }
    Ok(())
}

/// Asks the key at an index, and follows the answer.
fn visit<W: World>(
    alloc: Global,
    world: &mut W,
    at: usize,
    keys: &mut IndexSet<Key>,
    members: &mut Vec<FragmentFact>,
) -> Result<(), AllocError>
    ensures facts { W.facts world.new ≡ W.facts world.old }
    ensures names { W.names world.new ≡ W.names world.old }
    ensures lent { W.lent world.new ≡ W.lent world.old }
    ensures visited { OnOk result ((k : Key) → slice_get keys.old.keys at ≡ Some k
        → spec.Visits (W.facts world.old) k keys.old.keys members.old.items (W.asked world.old)
        keys.new.keys members.new.items (W.asked world.new)) }
    ensures failed { OnErr result ((k : Key) → slice_get keys.old.keys at ≡ Some k
        → Records (W.facts world.old) (k ∷ spec.led_to (W.facts world.old) (W.facts world.old k))
        (W.asked world.old) (W.asked world.new)) }
{
    let Some(key) = keys.get_index(at) else {
        return Ok(());
    };
    let fact = world.fact(alloc, key)?;
    follow(alloc, world, &fact, keys, members)?;
    Ok(())
}

/// Asks a world for exactly the keys that a definition reads, and collects the fragments that it
/// reaches.
///
/// A world that keeps a record has recorded the answers to all these keys. If an allocation fails,
/// it has recorded some of them or none, and nothing else; each right answer that it had recorded
/// is still there. Its facts are the same either way.
pub fn walk_reads<W: World>(
    alloc: Global,
    world: &mut W,
    definition: &Definition,
) -> Result<Walk, AllocError>
    ensures facts { W.facts world.new ≡ W.facts world.old }
    ensures names { W.names world.new ≡ W.names world.old }
    ensures lent { W.lent world.new ≡ W.lent world.old }
    ensures keys { IfOk result (λ walk. Lists walk.keys.keys
        (Reads (W.facts world.old) definition.now)) }
    ensures members { IfOk result (λ walk. Lists walk.members.items
        (Reaches (W.facts world.old) definition.now)) }
    ensures asked { OnOk result (Asked (W.facts world.old)
        (Reads (W.facts world.old) definition.now) (W.asked world.old) (W.asked world.new)) }
    ensures failed { OnErr result (AskedAmong (W.facts world.old)
        (Reads (W.facts world.old) definition.now) (W.asked world.old) (W.asked world.new)) }
{
    let mut keys = IndexSet::new(alloc);
    let mut members = Vec::new(alloc);
    scan_definition(alloc, world, definition, &mut keys)?;
    let mut at = 0;
    'walk: while at < keys.len() {
        visit(alloc, world, at, &mut keys, &mut members)?;
        at += 1;
    }
    Ok(Walk { keys, members })
}
