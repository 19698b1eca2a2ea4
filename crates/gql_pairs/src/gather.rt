//! The fragments that some members reach, one of each name.
ghost use Rattle.std.specs.Prelude.{◌≡◌, ◌∷◌, [], Contains, IfOk, OnOk, flat_map};
ghost use Rattle.gql_pairs.specs.Fragments.{with_reached};
ghost use Rattle.gql_pairs.specs.Gathering as spec;
ghost use Rattle.gql_reads.specs.Readings.{members_of};

use crate::member::Member;
use gql_ast::Text;
use gql_facts::FragmentFact;
use gql_reads::Part;
use indexmap::IndexSet;
use std::alloc::{AllocError, Global};

/// Fragments that were found, and their names.
#[derive(Drop)]
struct Found {
    names: IndexSet<Text>,
    fragments: Vec<FragmentFact>,
}

/// Adds a fragment, unless there is one of its name.
fn add_once(fragment: &FragmentFact, found: &mut Found) -> Result<(), AllocError>
    requires { spec.AreNames found.old.names.keys found.old.fragments.items }
    ensures names { OnOk result (spec.AreNames found.new.names.keys found.new.fragments.items) }
    ensures gathered { OnOk result (spec.Gathers (λ g. g ≡ fragment.now)
        found.old.fragments.items found.new.fragments.items) }
{
    let name = &fragment.fragment.get().name.text;
    if found.names.contains(name) {
        return Ok(());
    }
    found.names.insert(name.copy()?)?;
    found.fragments.push(fragment.copy()?)?;
    Ok(())
}

/// Adds the fragments of some parts.
fn add_parts(parts: &[Part], found: &mut Found) -> Result<(), AllocError>
    requires { spec.AreNames found.old.names.keys found.old.fragments.items }
    ensures names { OnOk result (spec.AreNames found.new.names.keys found.new.fragments.items) }
    ensures gathered { OnOk result (spec.Gathers (Contains (members_of parts.now))
        found.old.fragments.items found.new.fragments.items) }
{
    for part in parts {
        add_once(part.fragment(), found)?;
    }
    Ok(())
}

/// Adds a member's fragment, and those that it reaches.
fn add_reached(member: &Member, found: &mut Found) -> Result<(), AllocError>
    requires { spec.AreNames found.old.names.keys found.old.fragments.items }
    ensures names { OnOk result (spec.AreNames found.new.names.keys found.new.fragments.items) }
    ensures gathered { OnOk result (spec.Gathers (Contains (with_reached member.now))
        found.old.fragments.items found.new.fragments.items) }
{
    add_once(member.fragment(), found)?;
    add_parts(member.reading().parts.as_slice(), found)?;
    Ok(())
}

/// The fragments of these members, and those that they reach, one of each name.
pub fn reached_of(alloc: Global, members: &[Member]) -> Result<Vec<FragmentFact>, AllocError>
    ensures { IfOk result (λ found. spec.Gathers
        (Contains (flat_map with_reached members.now)) [] found.items) }
{
    let mut found = Found {
        names: IndexSet::new(alloc),
        fragments: Vec::new(alloc),
    };
    for member in members {
        add_reached(member, &mut found)?;
    }
    let Found {
        names: _,
        fragments,
    } = found;
    Ok(fragments)
}
