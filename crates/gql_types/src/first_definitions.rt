//! The first definition of each name.

ghost use Rattle.std.specs.Prelude.{◌≡◌, ◌++◌, ◌∷◌, [], ◌||◌, ℕ, List, IfOk, OnOk, map, is_some, bytes_eq, if◌then◌else◌};
ghost use Rattle.std.specs.HashMap as hash;
ghost use Rattle.gql_types.specs.Sites.{site};
ghost use Rattle.gql_types.specs.Types.{first_definitions};

use crate::type_site::TypeSite;
use std::alloc::{AllocError, Global};
use std::collections::HashMap;

/// Adds a definition, unless its name was seen.
fn add_first<'d>(
    seen: &mut HashMap<&'d str, ()>,
    definition: &TypeSite<'d>,
    firsts: &mut Vec<TypeSite<'d>>,
) -> Result<(), AllocError>
    ensures names { OnOk result ((q : List ℕ)
        → is_some (hash.get_by (λ k. bytes_eq q k.now) seen.new)
        ≡ (is_some (hash.get_by (λ k. bytes_eq q k.now) seen.old)
        || bytes_eq q (site definition.now).node.name.text)) }
    ensures firsts { OnOk result (map site firsts.new.items ≡ map site firsts.old.items
        ++ (if is_some (hash.get_by
        (λ k. bytes_eq (site definition.now).node.name.text k.now) seen.old)
        then [] else site definition.now ∷ [])) }
{
    let name = definition.node.get().name.as_str();
    if seen.insert(name, ())?.is_none() {
        firsts.push(*definition)?;
    }
    Ok(())
}

/// The first definition of each name, in their order.
pub fn first_definitions<'d>(
    alloc: Global,
    definitions: &[TypeSite<'d>],
) -> Result<Vec<TypeSite<'d>>, AllocError>
    ensures { IfOk result (λ firsts.
        map site firsts.items ≡ first_definitions (map site definitions.now)) }
{
    let mut seen = HashMap::with_capacity(alloc, definitions.len())?;
    let mut firsts = Vec::with_capacity(alloc, definitions.len())?;
    for definition in definitions {
        add_first(&mut seen, definition, &mut firsts)?;
    }
    Ok(firsts)
}
