//! Names in the order of their bytes, each once.
ghost use Rattle.std.specs.Prelude.{◌≡◌, IfOk, map};
ghost use Rattle.gql_types.specs.Possible as spec;

use gql_ast::{Items, Text};
use std::alloc::{AllocError, Global};

/// Copies of these names.
fn copies(alloc: Global, names: &[&str]) -> Result<Items<Text>, AllocError>
    ensures { IfOk result (λ found. found ≡ map (λ n. n.now) names.now) }
{
    let mut found = Items::from_vec(Vec::with_capacity(alloc, names.len())?);
    for name in names {
        found.push(Text::from_str(alloc, name)?)?;
    }
    Ok(found)
}

/// These names in the order of their bytes, each once.
pub fn in_order(alloc: Global, names: Vec<&str>) -> Result<Items<Text>, AllocError>
    ensures { IfOk result (λ found. found ≡ spec.in_order (map (λ n. n.now) names.entry.items)) }
{
    let mut names = names;
    names.sort()?;
    names.dedup();
    let found = copies(alloc, names.as_slice())?;
    Ok(found)
}
