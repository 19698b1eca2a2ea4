//! V16, Fragment Spreads Must Not Form Cycles: a fragment spreads itself.
//! <https://spec.graphql.org/October2021/#sec-Fragment-spreads-must-not-form-cycles>
//!
//! At fault: `{ dog { ...F } } fragment F on Dog { name owner { dog { ...F } } }`
//! No fault: `{ dog { ...F } } fragment F on Dog { name owner { dog { name } } }`
ghost use Rattle.std.specs.Prelude.{◌≡◌, ◌↔◌, Contains, IsTrue};
ghost use Rattle.gql_facts.specs.Members.{Lists};
ghost use Rattle.gql_facts.specs.Reads.{Reaches};
ghost use Rattle.gql_facts.specs.Worlds.{Facts};
ghost use Rattle.gql_rules.specs.V16FragmentSpreadsMustNotFormCycles as spec;

use gql_ast::{Definition, Fragment, Same, Shared};
use gql_facts::FragmentFact;

/// Whether this is the fragment of the definition.
fn is_own(definition: &Definition, fragment: &Shared<Fragment>, member: &FragmentFact) -> bool
    ensures { IsTrue result ↔ (member.now ≡ spec.own_fact definition.now fragment.now) }
{
    member.file.same(&definition.file) && member.fragment.same(fragment)
}

/// Whether the fragment of the definition is among these.
fn is_among(definition: &Definition, fragment: &Shared<Fragment>, members: &[FragmentFact]) -> bool
    ensures { IsTrue result ↔ Contains members.now (spec.own_fact definition.now fragment.now) }
{
    for member in members {
        if is_own(definition, fragment, member) {
            return true;
        }
    }
    false
}

/// Whether the fragment of the definition reaches itself, where these are the fragments that it
/// reaches.
pub fn is_cyclic(
    definition: &Definition,
    fragment: &Shared<Fragment>,
    members: &[FragmentFact],
) -> bool
    ensures { (facts : Facts) → Lists members.now (Reaches facts definition.now)
        → (IsTrue result ↔ spec.IsCyclic facts definition.now fragment.now) }
{
    is_among(definition, fragment, members)
}
