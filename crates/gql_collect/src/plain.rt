//! Selection sets whose groups need no search: a few fields without directives, each of a response
//! name of its own.
ghost use Rattle.std.specs.Prelude.{◌≡◌, ℕ, List, IsTrue};
ghost use Rattle.gql_collect.specs.Alone.{groups_alone};
ghost use Rattle.gql_collect.specs.Borrowed.{selections_of};
ghost use Rattle.gql_collect.specs.Collection.{AreGroups};
ghost use Rattle.gql_collect.specs.Plain as spec;
ghost use Rattle.gql_collect.specs.Unfolding.{Given};

use crate::node::{SelectionSet, own_name};
use gql_ast::{Field, Name, Selection};

/// How many fields are compared with each other at most.
const FEW: usize = 8;

/// Whether a field comes before another one, and has another response name.
fn is_before(name: &Name, other: &Name) -> bool
    ensures { result ≡ spec.is_before name.now other.now }
{
    name.place.offset < other.place.offset && name.as_str() != other.as_str()
}

/// Whether these are fields that come after the one of this response name, and have other response
/// names.
fn are_later(name: &Name, selections: &[Selection]) -> bool
    ensures { result ≡ spec.are_later name.now selections.now }
{
    match selections {
        [Selection::Field(field), rest @ ..] => {
            is_before(name, own_name(field)) && are_later(name, rest)
        }
        [Selection::Spread(_), ..] => false,
        [Selection::InlineFragment(_), ..] => false,
        [] => true,
    }
}

/// Whether a field has no directives, and the selections after it are fields apart from it.
fn is_plain_field(field: &Field, rest: &[Selection]) -> bool
    ensures { result ≡ spec.is_plain_field field.now rest.now }
{
    field.directives.len() == 0 && are_later(own_name(field), rest)
}

/// Whether these are fields without directives, in the order of their places, each of a response
/// name of its own.
fn are_plain(selections: &[Selection]) -> bool
    ensures { result ≡ spec.are_plain selections.now }
{
    match selections {
        [Selection::Field(field), rest @ ..] => is_plain_field(field, rest) && are_plain(rest),
        [Selection::Spread(_), ..] => false,
        [Selection::InlineFragment(_), ..] => false,
        [] => true,
    }
}

/// Whether a set has at most eight fields alone, without directives, in the order of their places
/// and each of a response name of its own: then each of them is a group of its own.
pub fn is_plain(set: &SelectionSet<'_>) -> bool
    ensures plain { result ≡ spec.is_plain set.now.selections.now }
    ensures groups { IsTrue result → (g : Given) → (t : List ℕ)
        → AreGroups g t (selections_of set.now) (groups_alone (selections_of set.now)) }
{
    set.selections.len() <= FEW && are_plain(set.selections)
}
