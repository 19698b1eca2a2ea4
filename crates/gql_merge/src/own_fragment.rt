//! A definition that is the fragment of its name.
ghost use Rattle.std.specs.Prelude.{◌≡◌, ◌↔◌, ℕ, List, Contains, IfOk, IsTrue, true};
ghost use Rattle.gql_facts.specs.declared.fact.Fact.TheVariants as told;
ghost use Rattle.gql_facts.specs.declared.key.Key.TheVariants as asked;
ghost use Rattle.gql_merge.specs.Clean.{AreClean, IsClean};
ghost use Rattle.gql_merge.specs.Light.{IsLastClean};
ghost use Rattle.gql_merge.specs.MergedNodes.{sets_in};

use crate::clean::CleanFragments;
use gql_ast::{Definition, FileName, Fragment, Same, Shared, Tree};
use gql_facts::{Fact, FragmentFact, Key, World};
use std::alloc::{AllocError, Global};

/// Whether an answer is this fragment.
fn is_fragment(fact: &Fact, fragment: &FragmentFact) -> bool
    ensures { IsTrue result ↔ (fact.now ≡ told.Fragment fragment.now) }
{
    match fact {
        Fact::Fragment(its) => its.same(fragment),
        _ => false,
    }
}

/// Whether a fragment in this file is the one of its name.
fn is_named<W: World>(
    alloc: Global,
    world: &mut W,
    file: &FileName,
    fragment: &Shared<Fragment>,
) -> Result<bool, AllocError>
    ensures facts { W.facts world.new ≡ W.facts world.old }
    ensures names { W.names world.new ≡ W.names world.old }
    ensures lent { W.lent world.new ≡ W.lent world.old }
    ensures answer { IfOk result (λ is. is ≡ true
        → W.facts world.old (asked.FragmentOf fragment.now.name.text)
        ≡ told.Fragment (record { file = file.now; fragment = fragment.now })) }
{
    let name = fragment.get().name.text.copy()?;
    let fact = world.fact(alloc, &Key::FragmentOf(name))?;
    let own = FragmentFact {
        file: file.copy()?,
        fragment: fragment.clone()?,
    };
    Ok(is_fragment(&fact, &own))
}

/// Whether a definition is the fragment of its name, and that is known to be clean. Its own set is
/// the last one.
pub fn is_known_clean<W: World>(
    alloc: Global,
    world: &mut W,
    definition: &Definition,
    clean: &CleanFragments,
) -> Result<bool, AllocError>
    requires { AreClean (W.facts world.old) clean.now }
    ensures facts { W.facts world.new ≡ W.facts world.old }
    ensures names { W.names world.new ≡ W.names world.old }
    ensures lent { W.lent world.new ≡ W.lent world.old }
    ensures known { IfOk result (λ known. known ≡ true
        → IsLastClean (W.facts world.old) (sets_in (W.facts world.old) definition.now)) }
{
    let Tree::Fragment(fragment) = &definition.tree else {
        return Ok(false);
    };
    if !clean.has(&fragment.get().name.text) {
        return Ok(false);
    }
    let is_named = is_named(alloc, world, &definition.file, fragment)?;
    Ok(is_named)
}

/// Adds the name of a definition, if it is clean and is the fragment of its name.
pub fn add_own<W: World>(
    alloc: Global,
    world: &mut W,
    definition: &Definition,
    is_clean: bool,
    clean: &mut CleanFragments,
) -> Result<(), AllocError>
    requires clean { AreClean (W.facts world.old) clean.old }
    requires own { is_clean ≡ true
        → IsClean (W.facts world.old) (sets_in (W.facts world.old) definition.now) }
    ensures facts { W.facts world.new ≡ W.facts world.old }
    ensures names { W.names world.new ≡ W.names world.old }
    ensures lent { W.lent world.new ≡ W.lent world.old }
    ensures clean { AreClean (W.facts world.old) clean.new }
    ensures kept { (n : List ℕ) → Contains clean.old n → Contains clean.new n }
{
    if !is_clean {
        return Ok(());
    }
    let Tree::Fragment(fragment) = &definition.tree else {
        return Ok(());
    };
    let is_named = is_named(alloc, world, &definition.file, fragment)?;
    if !is_named {
        return Ok(());
    }
    clean.add(&fragment.get().name.text)?;
    Ok(())
}
