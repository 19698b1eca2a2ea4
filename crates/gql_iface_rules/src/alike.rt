//! Whether an edit leaves what the rules on interfaces ask of names.
ghost use Rattle.std.specs.Prelude.{◌≡◌, ℕ, List, IsTrue, is_some, find, bytes_eq, true};
ghost use Rattle.gql_iface_rules.specs.Alike as spec;
ghost use Rattle.gql_types.specs.Edits.{KeepsOthers};
ghost use Rattle.gql_types.specs.Schemas.{type_named};

use gql_ast::{Name, Text};
use gql_built_in::Sited;
use gql_types::{HasName, Schema, SchemaType, TypeKind, is_same_name};

/// Whether two names have the same text.
fn is_same_text(name: &Sited<Name>, other: &Sited<Name>) -> bool
    ensures { IsTrue result → name.now.node.text ≡ other.now.node.text }
{
    is_same_name(name.node.as_str(), other.node.as_str())
}

/// Whether two lists have the same names in the same order.
fn have_same_texts(names: &[Sited<Name>], others: &[Sited<Name>]) -> bool
    ensures { IsTrue result → spec.texts names.now ≡ spec.texts others.now }
{
    if names.len() != others.len() {
        return false;
    }
    for i in 0..names.len() {
        if !is_same_text(&names[i], &others[i]) {
            return false;
        }
    }
    true
}

/// Whether two types of one name and kind, which are no interfaces, list the same names.
fn are_alike(of_type: &SchemaType, other: &SchemaType) -> bool
    ensures { IsTrue result → spec.AreAlike of_type.now other.now }
{
    if !is_same_name(of_type.name(), other.name()) {
        return false;
    }
    if !of_type.kind.is(other.kind) {
        return false;
    }
    if of_type.kind.is(TypeKind::Interface) {
        return false;
    }
    if !have_same_texts(of_type.interfaces.as_slice(), other.interfaces.as_slice()) {
        return false;
    }
    have_same_texts(of_type.members.as_slice(), other.members.as_slice())
}

/// Whether a name has types before and after an edit that are alike, or has none. If names may
/// come, it may also have a type after the edit alone.
fn is_alike(before: &Schema, after: &Schema, name: &str, may_come: bool) -> bool
    ensures { IsTrue result
        → spec.IsAlike may_come (type_named before.now name.now) (type_named after.now name.now) }
{
    match before.get(name) {
        Some(its) => match after.get(name) {
            Some(theirs) => are_alike(its, theirs),
            None => false,
        },
        None => may_come || after.get(name).is_none(),
    }
}

/// Whether all of these names are so.
fn are_all_alike(before: &Schema, after: &Schema, names: &[Text], may_come: bool) -> bool
    ensures { IsTrue result → (q : List ℕ) → is_some (find (bytes_eq q) names.now) ≡ true
        → spec.IsAlike may_come (type_named before.now q) (type_named after.now q) }
{
    for name in names {
        if !is_alike(before, after, name.as_str(), may_come) {
            return false;
        }
    }
    true
}

/// Whether the rules on interfaces ask nothing of a name that an edit changed. It changed types of
/// these names alone. If names may come, the edit may give a type to a name that had none. They may
/// if these rules asked about no such name.
pub fn keeps_interfaces(before: &Schema, after: &Schema, edited: &[Text], may_come: bool) -> bool
    ensures { IsTrue result → KeepsOthers edited.now before.now after.now
        → KeepsOthers edited.now after.now before.now
        → spec.KeepsInterfaces may_come before.now after.now }
{
    are_all_alike(before, after, edited, may_come)
}
