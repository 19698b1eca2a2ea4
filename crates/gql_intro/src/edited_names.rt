//! The names of types that came or went with an edit of a schema file.
ghost use Rattle.std.specs.Prelude.{◌≡◌, ◌++◌, [], IfOk, OnOk, IsTrue, map, filter};
ghost use Rattle.gql_intro.specs.EditedNames as spec;
ghost use Rattle.gql_intro.specs.Made.{is_shown};
ghost use Rattle.gql_types.specs.Possible.{in_order};

use crate::made::is_shown;
use gql_ast::{Items, Text};
use gql_types::{Named, Schema, in_order};
use std::alloc::{AllocError, Global};

/// Whether a schema has a type of this name, and another has none.
fn is_only_in(schema: &Schema, other: &Schema, name: &str) -> bool
    ensures { result ≡ spec.is_only_in schema.now other.now name.now }
{
    schema.get(name).is_some() && other.get(name).is_none()
}

/// Those of these names of which a schema has a type, and another has none.
pub fn names_only_in(
    alloc: Global,
    schema: &Schema,
    other: &Schema,
    names: &[Text],
) -> Result<Vec<Text>, AllocError>
    ensures { IfOk result (λ found. found.items
        ≡ filter (spec.is_only_in schema.now other.now) names.now) }
{
    let mut found = Vec::new(alloc);
    for name in names {
        if is_only_in(schema, other, name.as_str()) {
            found.push(name.copy()?)?;
        }
    }
    Ok(found)
}

/// Whether there are no names.
pub fn are_none(names: &[Text]) -> bool
    ensures { IsTrue result → names.now ≡ [] }
{
    names.is_empty()
}

/// Whether a name is not among these.
fn is_kept(gone: &Named<Text>, name: &str) -> bool
    ensures { result ≡ spec.is_kept gone.now name.now }
{
    gone.get(name).is_none()
}

/// Adds the names that are not among those that are gone.
pub fn add_kept<'n>(
    names: &'n [Text],
    gone: &Named<Text>,
    found: &mut Vec<&'n str>,
) -> Result<(), AllocError>
    ensures { OnOk result (map (λ n. n.now) found.new.items
        ≡ map (λ n. n.now) found.old.items ++ filter (spec.is_kept gone.now) names.now) }
{
    for name in names {
        if is_kept(gone, name.as_str()) {
            found.push(name.as_str())?;
        }
    }
    Ok(())
}

/// Adds the names that introspection shows.
fn add_shown<'n>(
    names: &'n [Text],
    has_int: bool,
    has_id: bool,
    has_float: bool,
    found: &mut Vec<&'n str>,
) -> Result<(), AllocError>
    ensures { OnOk result (map (λ n. n.now) found.new.items
        ≡ map (λ n. n.now) found.old.items
        ++ filter (is_shown has_int has_id has_float) names.now) }
{
    for name in names {
        if is_shown(has_int, has_id, has_float, name.as_str()) {
            found.push(name.as_str())?;
        }
    }
    Ok(())
}

/// Adds all these names.
pub fn add_all<'n>(names: &'n [Text], found: &mut Vec<&'n str>) -> Result<(), AllocError>
    ensures { OnOk result (map (λ n. n.now) found.new.items
        ≡ map (λ n. n.now) found.old.items ++ names.now) }
{
    for name in names {
        found.push(name.as_str())?;
    }
    Ok(())
}

/// These names in the order of their bytes, each once.
pub fn all_in_order(alloc: Global, names: &[Text]) -> Result<Items<Text>, AllocError>
    ensures { IfOk result (λ found. found ≡ in_order names.now) }
{
    let mut found = Vec::with_capacity(alloc, names.len())?;
    add_all(names, &mut found)?;
    in_order(alloc, found)
}

/// Those of these names that introspection shows, in the order of their bytes, each once.
pub fn shown_in_order(
    alloc: Global,
    names: &[Text],
    has_int: bool,
    has_id: bool,
    has_float: bool,
) -> Result<Items<Text>, AllocError>
    ensures { IfOk result (λ found. found
        ≡ in_order (filter (is_shown has_int has_id has_float) names.now)) }
{
    let mut found = Vec::new(alloc);
    add_shown(names, has_int, has_id, has_float, &mut found)?;
    in_order(alloc, found)
}
