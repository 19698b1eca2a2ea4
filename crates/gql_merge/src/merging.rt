//! The faults of a definition by the rules on the merging of fields.
ghost use Rattle.std.specs.Prelude.{◌≡◌, ◌+◌, ◌⊎◌, ℕ, List, Contains, IfOk, length, true};
ghost use Rattle.gql_facts.specs.Members.{Lists};
ghost use Rattle.gql_facts.specs.Reads.{Reaches};
ghost use Rattle.gql_merge.specs.Clean.{AreClean};
ghost use Rattle.gql_merge.specs.MergeFaults.{IsMergeFault};

use crate::clean::{CleanFragments, are_light, are_settled};
use crate::flat::FlatSet;
use crate::flatten::own_sets;
use crate::own_fragment::{add_own, is_known_clean};
use crate::searching::search;
use gql_ast::{Definition, Fault, Shared};
use gql_facts::{FragmentFact, World};
use std::alloc::{AllocError, Global};

/// How many of these sets are not known to be clean, if only the last may be.
fn first_sets(sets: &[FlatSet<'_>], is_last_clean: bool) -> usize
    ensures { (result ≡ length sets.now)
        ⊎ ((is_last_clean ≡ true) × (result + 1 ≡ length sets.now)) }
{
    if is_last_clean && !sets.is_empty() {
        sets.len() - 1
    } else {
        sets.len()
    }
}

/// The faults of a definition by the rules on the merging of fields: V05 and V06 (GraphQL
/// specification, 5.3.2). `members` are the fragments that it reaches. A definition of the type
/// system has no faults. If an allocation fails, the world answers as before.
pub fn merge_faults<W: World>(
    alloc: Global,
    world: &mut W,
    definition: &Definition,
    members: &[FragmentFact],
) -> Result<Vec<Shared<Fault>>, AllocError>
    requires { Lists members.now (Reaches (W.facts world.old) definition.now) }
    ensures facts { W.facts world.new ≡ W.facts world.old }
    ensures names { W.names world.new ≡ W.names world.old }
    ensures lent { W.lent world.new ≡ W.lent world.old }
    ensures found { IfOk result (λ found.
        Lists found.items (IsMergeFault (W.facts world.old) definition.now)) }
{
    let mut clean = CleanFragments::new(alloc);
    merge_faults_with(alloc, world, definition, members, &mut clean)
}

/// The faults of a definition by V05 and V06, as `merge_faults` finds them, if some fragments are
/// known to be clean. If nothing clashes in the definition, it is added to these, and so are the
/// fragments that it spreads. No search compares two fragments that a clean one spreads both.
/// Whether it succeeds or an allocation fails, all that were known to be clean still are.
pub fn merge_faults_with<W: World>(
    alloc: Global,
    world: &mut W,
    definition: &Definition,
    members: &[FragmentFact],
    clean: &mut CleanFragments,
) -> Result<Vec<Shared<Fault>>, AllocError>
    requires members { Lists members.now (Reaches (W.facts world.old) definition.now) }
    requires clean { AreClean (W.facts world.old) clean.old }
    ensures facts { W.facts world.new ≡ W.facts world.old }
    ensures names { W.names world.new ≡ W.names world.old }
    ensures lent { W.lent world.new ≡ W.lent world.old }
    ensures clean { AreClean (W.facts world.old) clean.new }
    ensures kept { (n : List ℕ) → Contains clean.old n → Contains clean.new n }
    ensures found { IfOk result (λ found.
        Lists found.items (IsMergeFault (W.facts world.old) definition.now)) }
{
    let own = own_sets(alloc, world, definition)?;
    let is_last_clean = is_known_clean(alloc, world, definition, clean)?;
    let first = first_sets(own.as_slice(), is_last_clean);
    if are_light(clean, &own[..first]) {
        add_own(alloc, world, definition, true, clean)?;
        return Ok(Vec::new(alloc));
    }
    let known = are_settled(clean, own.as_slice());
    let found = search(alloc, world, definition, members, own, first, known, clean)?;
    add_own(alloc, world, definition, found.is_clean, clean)?;
    Ok(found.faults)
}
